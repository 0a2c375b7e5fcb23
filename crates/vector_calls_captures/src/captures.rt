// Captures.
use vector_lines::NO_FUNCTION;

// Slots are `c`.
pub fn call(function: u64, a: &[u8], c: &mut [u8], lent: &mut [u8], words: &mut [u64]) -> u32 {
    match function {
        100 => exports_capture::eiderwagon_capture_start(lent),
        101 => exports_capture::eiderwagon_capture_feed(lent, c, a, words),
        102 => exports_capture::eiderwagon_capture_finish(lent, c, a),
        103 => exports_capture::eiderwagon_capture_write(a, lent, words),
        104 => exports_capture::eiderwagon_capture_report(a, lent, words),
        _ => NO_FUNCTION,
    }
}
