// The SoupBinTCP session at the server with its reply, for hosts in other languages. `include/eiderwagon.h` says what
// the function takes and answers. (A crate of its own: with one caller a step is compiled into it.)
#![tactic(auto)]

ghost use Rattle.std.specs.Prelude.{◌≡◌, [], ◌∷◌};
ghost use Rattle.login.specs.Table.{accounts_of};
ghost use Rattle.host_answers.specs.Answers.{RefusesOnly};
ghost use Rattle.exports_reply.specs.Calls.{with_written, RepliesAtServer, RefusedReplyChangesNothing};
ghost use Rattle.exports_reply.specs.Run.{EveryServerCallHandsOn};

use host_answers::LAST_OF_STREAM;
use host_session::replies;
use host_session::replies::ANSWER_WORDS;
use wire::refusal::Refusal;

// The words of a reply: those of a step, and how many bytes were written.
const REPLY_WORDS: usize = ANSWER_WORDS + 1;

// The words of a step, and behind them how many bytes were written.
#[tactic(auto, unfolding(crate::specs::Calls::with_written))]
fn with_written(
    said: Result<[u64; ANSWER_WORDS], Refusal>,
    written: usize,
) -> Result<[u64; REPLY_WORDS], Refusal>
    ensures { result ≡ with_written said written }
{
    match said {
        Ok(step) => Ok([step[0], step[1], step[2], step[3], step[4], written as u64]),
        Err(r) => Err(r),
    }
}

// Takes the packet at the front of a client's stream, and writes the reply, A or J, where there is one.
#[unsafe(no_mangle)]
pub extern "C" fn eiderwagon_server_reply(
    state: &mut [u8],
    accounts: &[u8],
    stream: &[u8],
    out: &mut [u8],
    words: &mut [u64],
) -> u32
    ensures replies_at_server { RepliesAtServer result state.old state.new (accounts_of accounts.now)
        stream.now out.old out.new words.old words.new }
    ensures refuses { RefusesOnly result (19 ∷ 21 ∷ 22 ∷ 23 ∷ 24 ∷ 25 ∷ 41 ∷ 32 ∷ 31 ∷ 46 ∷ []) }
    ensures refused { RefusedReplyChangesNothing }
    ensures hands_on { EveryServerCallHandsOn }
{
    let from = host_answers::lent_from(words.len() < REPLY_WORDS, out.len());
    let server = host_server::read(state);
    let replied = soupbintcp_reply::step(server, accounts, stream, &mut out[from..]);
    let said = host_answers::behind_stateless(
        state.len() < host_server::SIZE,
        LAST_OF_STREAM,
        replies::answer_words(replied.answer, replied.size),
    );
    let code = host_answers::answer(words, with_written(said, replied.written));
    if replied.size == 0 {
        return code;
    }
    host_server::write(state, code, replied.server)
}
