// The parts of a line of settings.
#![tactic(auto, using(crate::proofs::Rules::parts))]

ghost use Rattle.std.specs.Prelude.{◌≡◌, unwrap_or};
ghost use Rattle.capture_settings.specs.Settings.{past_of, is_printable, no_line, line_of};

use decimal::reading;

// The byte that ends a line.
pub(crate) const LINE_FEED: u8 = 10;

// A number up to a line feed: its value, and how many bytes it takes with the line feed.
#[derive(Clone, Copy)]
pub struct Line {
    pub value: u64,
    pub size: usize,
}

// What is left after a text that stands in front, or nothing where another does.
pub(crate) fn past<'a>(s: &'a [u8], text: &[u8]) -> &'a [u8]
    ensures { result.now ≡ past_of text.now s.now }
{
    match s.strip_prefix(text) {
        Some(rest) => rest,
        None => &s[..0],
    }
}

// Whether each byte is 0x20 to 0x7E.
pub(crate) fn is_printable(s: &[u8]) -> bool
    ensures { result ≡ is_printable s.now }
{
    s.iter().all(|b| matches!(*b, b' '..=b'~'))
}

// The number of the digits up to a line feed, the first of them no zero.
pub(crate) fn number_line(s: &[u8]) -> Option<Line>
    ensures { unwrap_or result no_line ≡ line_of s.now }
{
    let mut value: u64 = 0;
    for (i, b) in s.iter().enumerate() {
        if *b == LINE_FEED {
            return Some(Line { value, size: i + 1 });
        }
        value = reading::append(value, *b).ok()?;
        if value == 0 {
            return None;
        }
    }
    None
}
