// Datagrams, read.
#![tactic(auto, using(crate::proofs::Rules::reads))]

ghost use Rattle.std.specs.Prelude.{◌≡◌, [], ◌∷◌};
ghost use Rattle.moldudp64.specs.Downstream.{downstream_words, downstream_of};
ghost use Rattle.host_answers.specs.Answers.{said_refusal, said_values, words_of, RefusesOnly, Answers};
ghost use Rattle.exports_moldudp64.specs.Datagrams.{kind_number, DatagramsApart};

use moldudp64::downstream;
use moldudp64::downstream::Downstream;
use wire::refusal::Refusal;

// What a datagram is, by number.
const DATA: u64 = 1;

const HEARTBEAT: u64 = 2;

const END_OF_SESSION: u64 = 3;

// The words of a datagram: what it is, its number and its count.
const DATAGRAM_WORDS: usize = 3;

// A datagram as a host gets it: its words, or its refusal.
#[tactic(auto, unfolding(moldudp64::specs::Downstream::downstream_words, host_answers::specs::Answers::said_refusal, host_answers::specs::Answers::said_values, host_answers::specs::Answers::words_at, host_answers::specs::Answers::padded, crate::specs::Datagrams::kind_number))]
fn datagram_words(read: Result<Downstream, Refusal>) -> Result<[u64; DATAGRAM_WORDS], Refusal>
    ensures { (said_refusal result ≡ (downstream_words read).refusal)
        × (said_values 3 result ≡ words_of kind_number 3 (downstream_words read)) }
{
    match read? {
        Downstream::Data { first, count } => Ok([DATA, first.0, u64::from(count.0)]),
        Downstream::Heartbeat { next } => Ok([HEARTBEAT, next.0, 0]),
        Downstream::EndOfSession { next } => Ok([END_OF_SESSION, next.0, 0]),
    }
}

// Reads a datagram.
#[unsafe(no_mangle)]
pub extern "C" fn eiderwagon_mold_read(datagram: &[u8], words: &mut [u64]) -> u32
    ensures answers { Answers result words.old words.new kind_number 3
        (downstream_of datagram.now) }
    ensures refuses { RefusesOnly result (11 ∷ 12 ∷ 13 ∷ 14 ∷ 15 ∷ 16 ∷ 41 ∷ []) }
    ensures tells_apart { DatagramsApart }
{
    host_answers::answer(words, datagram_words(downstream::read(datagram)))
}
