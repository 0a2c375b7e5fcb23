// The SoupBinTCP session at the client for hosts in other languages. `include/eiderwagon.h` says what each function
// takes and answers.
// Made by tools/library.py from the crate exports_client, whose functions it calls.
#![tactic(auto)]

ghost use Rattle.std.specs.Prelude.{[], ◌∷◌};
ghost use Rattle.host_answers.specs.Answers.{RefusesOnly};
ghost use Rattle.host_session.specs.Replies.{SessionNumbersApart};
ghost use Rattle.exports_client.specs.Calls.{StartsClient, StepsAtClient, ClientHandsOn};

// Starts a client.
#[unsafe(no_mangle)]
pub extern "C" fn eiderwagon_client_start(session: &[u8], number: u64, state: &mut [u8]) -> u32
    ensures starts_client { StartsClient result session.now number state.old state.new }
    ensures refuses { RefusesOnly result (19 ∷ 41 ∷ []) }
{
    exports_client::eiderwagon_client_start(session, number, state)
}

// Takes the packet at the front of a server's stream.
#[unsafe(no_mangle)]
pub extern "C" fn eiderwagon_client_step(state: &mut [u8], stream: &[u8], words: &mut [u64]) -> u32
    ensures steps_at_client { StepsAtClient result state.old state.new stream.now
        words.old words.new }
    ensures refuses { RefusesOnly result (21 ∷ 22 ∷ 23 ∷ 24 ∷ 25 ∷ 41 ∷ 32 ∷ 31 ∷ 33 ∷ 34 ∷ []) }
    ensures hands_on { ClientHandsOn }
    ensures tells_apart { SessionNumbersApart }
{
    exports_client::eiderwagon_client_step(state, stream, words)
}
