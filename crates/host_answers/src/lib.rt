// What every exported function answers with: a code, 0 or the number of a refusal, and values laid into lent words on
// success alone. 41, for lent memory that is too short, comes behind every other ground.
#![tactic(auto, using(crate::proofs::Rules::answers, crate::proofs::Rules::ladders))]

ghost use Rattle.std.specs.Prelude.{◌≡◌};
ghost use Rattle.wire.specs.Output.{written_words};
ghost use Rattle.host_answers.specs.Answers.{or_else, short, unless_sized, flag, padded, AnswersWith};
ghost use Rattle.host_answers.specs.Answers.{said_refusal, said_values};
ghost use Rattle.host_answers.specs.Answers.{HostPromises, behind_stateless, lent_from};

use wire::refusal;
use wire::refusal::Refusal;

// The words of a writer's answer: how many bytes it wrote.
pub const WRITTEN_WORDS: usize = 1;

// The code of lent memory that is too short.
pub const SHORT: u32 = refusal::OUTPUT_SHORT.number as u32;

// The last refusal that needs no session.
pub const LAST_OF_STREAM: u8 = refusal::FIELD_BAD.number;

// The code of an answer: the number of its refusal, 0 where it has values.
#[tactic(auto, unfolding(crate::specs::Answers::said_refusal))]
fn code<T: Copy>(said: Result<T, Refusal>) -> u8
    ensures { result ≡ said_refusal said }
{
    match said {
        Ok(_) => 0,
        Err(r) => r.number,
    }
}

// An answer, or 41 where lent memory is too short.
pub fn or_short<T: Copy>(said: Result<T, Refusal>, lacks: bool) -> Result<T, Refusal>
    ensures refused { said_refusal result ≡ or_else (said_refusal said) (short lacks) }
    ensures kept { said_refusal result ≡ 0 → result ≡ said }
{
    if code(said) == 0 && lacks {
        Err(refusal::OUTPUT_SHORT)
    } else {
        said
    }
}

// The refusal of an input of a fixed size that has another one; else the function's own.
pub fn unless_sized(lent: usize, size: usize, refused: Refusal, own: Refusal) -> Refusal
    ensures { result.number ≡ unless_sized lent size refused.number own.number }
{
    if lent == size { own } else { refused }
}

// The answer of a call whose state may be too short: the refusals up to the last that needs no state come before 41.
pub fn behind_stateless<T: Copy>(
    lacks: bool,
    last: u8,
    said: Result<T, Refusal>,
) -> Result<T, Refusal>
    ensures refused { said_refusal result ≡ behind_stateless lacks last (said_refusal said) }
    ensures kept { said_refusal result ≡ 0 → result ≡ said }
{
    let own = code(said);
    if lacks && (own == 0 || last < own) {
        Err(refusal::OUTPUT_SHORT)
    } else {
        said
    }
}

// From where on an output is lent to a writer: at its end, so that there is none, where other memory is too short.
// The writer's own grounds come first then, and nothing is written.
pub fn lent_from(lacks: bool, size: usize) -> usize
    ensures { result ≡ lent_from lacks size }
{
    if lacks { size } else { 0 }
}

// A flag as a number.
pub fn flag(set: bool) -> u64
    ensures { result ≡ flag set }
{
    u64::from(set)
}

// Answers values, or a refusal by its number.
pub fn answer<const N: usize>(words: &mut [u64], said: Result<[u64; N], Refusal>) -> u32
    ensures { AnswersWith result words.old words.new (said_refusal said.entry) (said_values N said.entry) }
{
    let values = match said {
        Ok(values) => values,
        Err(r) if r.number != 0 => return u32::from(r.number),
        Err(_) => [0; N],
    };
    if words.len() < N {
        return SHORT;
    }
    words[..N].copy_from_slice(&values);
    0
}

// The same of values whose number isn't known beforehand, beside a refusal, its number 0 where there is none.
pub fn answer_slice(words: &mut [u64], refused: Refusal, values: &[u64]) -> u32
    ensures { AnswersWith result words.old words.new refused.number values.now }
{
    if refused.number != 0 {
        return u32::from(refused.number);
    }
    if words.len() < values.len() {
        return SHORT;
    }
    words[..values.len()].copy_from_slice(values);
    0
}

// Answers what a writer answered, where other lent memory than words and output may be too short: how many bytes it
// wrote, or its refusal.
pub fn answer_written(words: &mut [u64], lacks: bool, written: Result<usize, Refusal>) -> u32
    ensures answers_with { AnswersWith result words.old words.new
        (or_else (written_words written).refusal (short lacks)) (padded 1 (written_words written).values) }
    ensures promises { HostPromises }
{
    match or_short(written, lacks) {
        Ok(size) => answer(words, Ok([size as u64])),
        Err(r) => answer::<WRITTEN_WORDS>(words, Err(r)),
    }
}
