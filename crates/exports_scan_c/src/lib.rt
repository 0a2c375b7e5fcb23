// The scan over the packets of a stream for hosts in other languages, in a crate of its own: so the reader of the front
// has one caller here and one in the crate of `eiderwagon_soup_read`, and is compiled into both.
// `include/eiderwagon.h` says what it takes and answers.
// Made by tools/library.py from the crate exports_scan, whose functions it calls.
#![tactic(auto)]

ghost use Rattle.std.specs.Prelude.{[], ◌∷◌};
ghost use Rattle.soupbintcp.specs.Scan.{scan_of};
ghost use Rattle.host_answers.specs.Answers.{RefusesOnly, AnswersWith};
ghost use Rattle.host_sender.specs.Sender.{sender_of};
ghost use Rattle.exports_scan.specs.Scan.{scan_words};

// Passes all good packets at the front of a stream.
#[unsafe(no_mangle)]
pub extern "C" fn eiderwagon_soup_scan(stream: &[u8], sender: u8, words: &mut [u64]) -> u32
    ensures answers_with { AnswersWith result words.old words.new 0
        (scan_words (scan_of (sender_of sender) stream.now)) }
    ensures refuses { RefusesOnly result (41 ∷ []) }
{
    exports_scan::eiderwagon_soup_scan(stream, sender, words)
}
