// Requests, read.
#![tactic(auto, using(crate::proofs::Rules::reads))]

ghost use Rattle.std.specs.Prelude.{◌≡◌, [], ◌∷◌};
ghost use Rattle.moldudp64.specs.Request.{request_words, request_of};
ghost use Rattle.host_answers.specs.Answers.{said_refusal, said_values, padded, RefusesOnly, AnswersWith};

use moldudp64::request;
use moldudp64::request::Wanted;
use wire::refusal::Refusal;

// The words of a request: its first number and its count.
const REQUEST_WORDS: usize = 2;

// A request as a host gets it: its words, or its refusal.
#[tactic(auto, unfolding(moldudp64::specs::Request::request_words, host_answers::specs::Answers::said_refusal, host_answers::specs::Answers::said_values, host_answers::specs::Answers::padded))]
fn request_words(read: Result<Wanted, Refusal>) -> Result<[u64; REQUEST_WORDS], Refusal>
    ensures { (said_refusal result ≡ (request_words read).refusal)
        × (said_values 2 result ≡ padded 2 (request_words read).values) }
{
    let wanted = read?;
    Ok([wanted.first.0, u64::from(wanted.count.0)])
}

// Reads a request.
#[unsafe(no_mangle)]
pub extern "C" fn eiderwagon_mold_read_request(request: &[u8], words: &mut [u64]) -> u32
    ensures answers_with { AnswersWith result words.old words.new
        (request_of request.now).refusal (padded 2 (request_of request.now).values) }
    ensures refuses { RefusesOnly result (47 ∷ 13 ∷ 48 ∷ 41 ∷ []) }
{
    host_answers::answer(words, request_words(request::read(request)))
}
