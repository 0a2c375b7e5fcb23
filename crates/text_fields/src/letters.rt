// Letters and digits, in ASCII.
#![tactic(auto, using(crate::proofs::Rules::ascii))]

ghost use Rattle.std.specs.Prelude.{◌≡◌};
ghost use Rattle.text_fields.specs.Letters.{is_letter_or_digit, lower};

// The byte before and after a field's text.
pub(crate) const SPACE: u8 = b' ';

// How far a small letter stands behind its capital.
const TO_SMALL: u8 = b'a' - b'A';

// `0` to `9`, `A` to `Z`, `a` to `z`. No branch on the byte, which may be a password's.
pub(crate) fn is_letter_or_digit(b: u8) -> bool
    ensures { result ≡ is_letter_or_digit b }
{
    let is_digit = (b'0' <= b) & (b <= b'9');
    let is_capital = (b'A' <= b) & (b <= b'Z');
    let is_small = (b'a' <= b) & (b <= b'z');
    is_digit | is_capital | is_small
}

// A letter as a small letter, so that letters compare without case; no branch on the byte here either.
pub fn lower(b: u8) -> u8
    ensures { result ≡ lower b }
{
    let is_capital = (b'A' <= b) & (b <= b'Z');
    b + TO_SMALL * (is_capital as u8)
}
