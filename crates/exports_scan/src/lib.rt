// The scan over the packets of a stream for hosts in other languages, in a crate of its own: so the reader of the front
// has one caller here and one in the crate of `eiderwagon_soup_read`, and is compiled into both.
// `include/eiderwagon.h` says what it takes and answers.
#![tactic(auto, using(crate::proofs::Rules::answers))]

ghost use Rattle.std.specs.Prelude.{◌≡◌, [], ◌∷◌};
ghost use Rattle.soupbintcp.specs.Scan.{stop_words, scan_of};
ghost use Rattle.host_answers.specs.Answers.{RefusesOnly, AnswersWith};
ghost use Rattle.host_sender.specs.Sender.{sender_of};
ghost use Rattle.exports_scan.specs.Scan.{scan_words};

use soupbintcp::scan;
use wire::refusal::Refusal;

// The number of the refusal that stopped a scan, 0 where more bytes are needed.
#[tactic(auto, unfolding(soupbintcp::specs::Scan::stop_words))]
fn stop_number(stop: Option<Refusal>) -> u64
    ensures { result ≡ (stop_words stop).refusal }
{
    match stop {
        None => 0,
        Some(r) => u64::from(r.number),
    }
}

// Passes all good packets at the front of a stream.
#[unsafe(no_mangle)]
pub extern "C" fn eiderwagon_soup_scan(stream: &[u8], sender: u8, words: &mut [u64]) -> u32
    ensures answers_with { AnswersWith result words.old words.new 0
        (scan_words (scan_of (sender_of sender) stream.now)) }
    ensures refuses { RefusesOnly result (41 ∷ []) }
{
    let scanned = scan::scan(stream, host_sender::sender_of(sender));
    let values = [
        scanned.packets as u64,
        scanned.bytes as u64,
        stop_number(scanned.stop),
    ];
    host_answers::answer(words, Ok(values))
}
