// The SoupBinTCP session at the server for hosts in other languages. `include/eiderwagon.h` says what each function
// takes and answers.
// Made by tools/library.py from the crate exports_server, whose functions it calls.
#![tactic(auto)]

ghost use Rattle.std.specs.Prelude.{[], ◌∷◌};
ghost use Rattle.login.specs.Table.{accounts_of};
ghost use Rattle.host_answers.specs.Answers.{RefusesOnly};
ghost use Rattle.host_session.specs.Replies.{SessionNumbersApart};
ghost use Rattle.exports_server.specs.Calls.{StartsServer, MovesLast, StepsAtServer, ServerHandsOn};

// Starts a server.
#[unsafe(no_mangle)]
pub extern "C" fn eiderwagon_server_start(session: &[u8], last: u64, state: &mut [u8]) -> u32
    ensures starts_server { StartsServer result session.now last state.old state.new }
    ensures refuses { RefusesOnly result (19 ∷ 41 ∷ []) }
{
    exports_server::eiderwagon_server_start(session, last, state)
}

// Moves the last number, as messages are added.
#[unsafe(no_mangle)]
pub extern "C" fn eiderwagon_server_set_last(state: &mut [u8], last: u64) -> u32
    ensures moves_last { MovesLast result last state.old state.new }
    ensures refuses { RefusesOnly result (19 ∷ 41 ∷ []) }
{
    exports_server::eiderwagon_server_set_last(state, last)
}

// Takes the packet at the front of a client's stream.
#[unsafe(no_mangle)]
pub extern "C" fn eiderwagon_server_step(
    state: &mut [u8],
    accounts: &[u8],
    stream: &[u8],
    words: &mut [u64],
) -> u32
    ensures steps_at_server { StepsAtServer result state.old state.new (accounts_of accounts.now)
        stream.now words.old words.new }
    ensures refuses { RefusesOnly result (19 ∷ 21 ∷ 22 ∷ 23 ∷ 24 ∷ 25 ∷ 41 ∷ 32 ∷ 31 ∷ []) }
    ensures hands_on { ServerHandsOn }
    ensures tells_apart { SessionNumbersApart }
{
    exports_server::eiderwagon_server_step(state, accounts, stream, words)
}
