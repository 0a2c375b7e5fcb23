// The SoupBinTCP session at the server for hosts in other languages. `include/eiderwagon.h` says what each function
// takes and answers.
#![tactic(auto)]

ghost use Rattle.std.specs.Prelude.{[], ◌∷◌};
ghost use Rattle.login.specs.Table.{accounts_of};
ghost use Rattle.host_answers.specs.Answers.{RefusesOnly};
ghost use Rattle.host_session.specs.Replies.{SessionNumbersApart};
ghost use Rattle.exports_server.specs.Calls.{StartsServer, MovesLast, StepsAtServer, ServerHandsOn};

use host_answers::LAST_OF_STREAM;
use host_session::replies;
use soupbintcp_server::server::Server;
use wire::kinds::{SESSION_SIZE, SequenceNumber};
use wire::{parts, refusal};

// Starts a server.
#[unsafe(no_mangle)]
pub extern "C" fn eiderwagon_server_start(session: &[u8], last: u64, state: &mut [u8]) -> u32
    ensures starts_server { StartsServer result session.now last state.old state.new }
    ensures refuses { RefusesOnly result (19 ∷ 41 ∷ []) }
{
    let started = Server::new(parts::first(session), SequenceNumber(last));
    let refused = host_answers::unless_sized(
        session.len(),
        SESSION_SIZE,
        refusal::BAD_SETTING,
        started.refusal,
    );
    host_server::write(state, u32::from(refused.number), started.server)
}

// Moves the last number, as messages are added.
#[unsafe(no_mangle)]
pub extern "C" fn eiderwagon_server_set_last(state: &mut [u8], last: u64) -> u32
    ensures moves_last { MovesLast result last state.old state.new }
    ensures refuses { RefusesOnly result (19 ∷ 41 ∷ []) }
{
    if Server::LARGEST_LAST.0 < last {
        return u32::from(refusal::BAD_SETTING.number);
    }
    if state.len() < host_server::SIZE {
        return host_answers::SHORT;
    }
    let moved = host_server::read(state).with_last(SequenceNumber(last));
    host_server::write(state, u32::from(moved.refusal.number), moved.server)
}

// Takes the packet at the front of a client's stream.
#[unsafe(no_mangle)]
pub extern "C" fn eiderwagon_server_step(
    state: &mut [u8],
    accounts: &[u8],
    stream: &[u8],
    words: &mut [u64],
) -> u32
    ensures steps_at_server { StepsAtServer result state.old state.new (accounts_of accounts.now)
        stream.now words.old words.new }
    ensures refuses { RefusesOnly result (19 ∷ 21 ∷ 22 ∷ 23 ∷ 24 ∷ 25 ∷ 41 ∷ 32 ∷ 31 ∷ []) }
    ensures hands_on { ServerHandsOn }
    ensures tells_apart { SessionNumbersApart }
{
    let stepped = host_server::read(state).step(accounts, stream);
    let said = host_answers::behind_stateless(
        state.len() < host_server::SIZE,
        LAST_OF_STREAM,
        replies::answer_words(stepped.answer, stepped.size),
    );
    let code = host_answers::answer(words, said);
    if stepped.size == 0 {
        return code;
    }
    host_server::keep(state, code, stepped.server)
}
