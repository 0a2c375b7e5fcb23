// The front of a stream.
#![tactic(auto, using(crate::proofs::Rules::answers))]

ghost use Rattle.std.specs.Prelude.{◌≡◌, [], ◌∷◌};
ghost use Rattle.host_answers.specs.Answers.{said_refusal, said_values, padded, words_of, RefusesOnly, Answers};
ghost use Rattle.soupbintcp.specs.Letters.{packet_kind, packet_values, letter_for};
ghost use Rattle.soupbintcp.specs.Front.{front_words, front_of};
ghost use Rattle.host_sender.specs.Sender.{sender_of};
ghost use Rattle.exports_soupbintcp.specs.Packets.{front_number, FrontsApart};

use soupbintcp::front;
use soupbintcp::front::Front;
use soupbintcp::packet::Packet;
use wire::refusal::Refusal;

// The words of a packet's answer: its letter, its size and its value.
const PACKET_WORDS: usize = 3;

// A packet by its letter, its size, and its number or reason.
#[tactic(auto, using(crate::proofs::Rules::packets), unfolding(host_answers::specs::Answers::padded, soupbintcp::specs::Letters::letter_for, soupbintcp::specs::Letters::packet_kind, soupbintcp::specs::Letters::packet_values))]
fn packet_words(packet: Packet, size: u64) -> [u64; PACKET_WORDS]
    ensures { result ≡ padded 3 (letter_for (packet_kind packet) ∷ size ∷ packet_values packet) }
{
    match packet {
        Packet::Debug => [u64::from(b'+'), size, 0],
        Packet::Accepted { number } => [u64::from(b'A'), size, number.0],
        Packet::Rejected { reason } => [u64::from(b'J'), size, u64::from(reason)],
        Packet::Sequenced => [u64::from(b'S'), size, 0],
        Packet::ServerHeartbeat => [u64::from(b'H'), size, 0],
        Packet::EndOfSession => [u64::from(b'Z'), size, 0],
        Packet::Login { number } => [u64::from(b'L'), size, number.0],
        Packet::Unsequenced => [u64::from(b'U'), size, 0],
        Packet::ClientHeartbeat => [u64::from(b'R'), size, 0],
        Packet::Logout => [u64::from(b'O'), size, 0],
    }
}

// What the front of a stream is, as a host gets it: its words, or its refusal.
#[tactic(auto, unfolding(soupbintcp::specs::Front::front_words, host_answers::specs::Answers::said_refusal, host_answers::specs::Answers::said_values, host_answers::specs::Answers::words_at, host_answers::specs::Answers::padded, crate::specs::Packets::front_number))]
fn front_words(front: Front) -> Result<[u64; PACKET_WORDS], Refusal>
    ensures { (said_refusal result ≡ (front_words front).refusal)
        × (said_values 3 result ≡ words_of front_number 3 (front_words front)) }
{
    match front {
        Front::Whole { packet, size } => Ok(packet_words(packet, size as u64)),
        Front::NeedMore => Ok([0; PACKET_WORDS]),
        Front::Refused(r) => Err(r),
    }
}

// Reads the packet at the front of a stream.
#[unsafe(no_mangle)]
pub extern "C" fn eiderwagon_soup_read(stream: &[u8], sender: u8, words: &mut [u64]) -> u32
    ensures answers { Answers result words.old words.new front_number 3
        (front_of (sender_of sender) stream.now) }
    ensures refuses { RefusesOnly result (21 ∷ 22 ∷ 23 ∷ 24 ∷ 25 ∷ 41 ∷ []) }
    ensures tells_apart { FrontsApart }
{
    host_answers::answer(
        words,
        front_words(front::read(stream, host_sender::sender_of(sender))),
    )
}
