// The SoupBinTCP session at the client for hosts in other languages. `include/eiderwagon.h` says what each function
// takes and answers.
#![tactic(auto)]

ghost use Rattle.std.specs.Prelude.{[], ◌∷◌};
ghost use Rattle.host_answers.specs.Answers.{RefusesOnly};
ghost use Rattle.host_session.specs.Replies.{SessionNumbersApart};
ghost use Rattle.exports_client.specs.Calls.{StartsClient, StepsAtClient, ClientHandsOn};

use host_answers::LAST_OF_STREAM;
use host_session::replies;
use soupbintcp_client::client::Client;
use wire::kinds::{SESSION_SIZE, SequenceNumber};
use wire::{parts, refusal};

// Starts a client.
#[unsafe(no_mangle)]
pub extern "C" fn eiderwagon_client_start(session: &[u8], number: u64, state: &mut [u8]) -> u32
    ensures starts_client { StartsClient result session.now number state.old state.new }
    ensures refuses { RefusesOnly result (19 ∷ 41 ∷ []) }
{
    let started = Client::new(parts::first(session), SequenceNumber(number));
    let refused = host_answers::unless_sized(
        session.len(),
        SESSION_SIZE,
        refusal::BAD_SETTING,
        started.refusal,
    );
    host_client::write(state, u32::from(refused.number), started.client)
}

// Takes the packet at the front of a server's stream.
#[unsafe(no_mangle)]
pub extern "C" fn eiderwagon_client_step(state: &mut [u8], stream: &[u8], words: &mut [u64]) -> u32
    ensures steps_at_client { StepsAtClient result state.old state.new stream.now
        words.old words.new }
    ensures refuses { RefusesOnly result (21 ∷ 22 ∷ 23 ∷ 24 ∷ 25 ∷ 41 ∷ 32 ∷ 31 ∷ 33 ∷ 34 ∷ []) }
    ensures hands_on { ClientHandsOn }
    ensures tells_apart { SessionNumbersApart }
{
    let stepped = host_client::read(state).step(stream);
    let said = host_answers::behind_stateless(
        state.len() < host_client::SIZE,
        LAST_OF_STREAM,
        replies::answer_words(stepped.answer, stepped.size),
    );
    let code = host_answers::answer(words, said);
    if stepped.size == 0 {
        return code;
    }
    host_client::write(state, code, stepped.client)
}
