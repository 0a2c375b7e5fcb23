// A number read digit by digit, the most significant first.
#![tactic(auto, using(crate::proofs::Rules::readings))]

ghost use Rattle.std.specs.Prelude.{◌≡◌};
ghost use Rattle.decimal.specs.Decimal.{appended_words, append_of, AppendedApart};

// Why a byte makes no number of another.
#[derive(Clone, Copy, Debug, PartialEq, Eq)]
pub enum DigitError {
    NoDigit,
    // It would be above 2^64 - 1.
    TooLarge,
}

// Puts a byte's digit behind a number.
pub fn append(value: u64, b: u8) -> Result<u64, DigitError>
    ensures result_value { appended_words result ≡ append_of value b }
    ensures tells_apart { AppendedApart }
{
    let digit = match b {
        b'0'..=b'9' => (b - b'0') as u64,
        _ => return Err(DigitError::NoDigit),
    };
    let tens = value.checked_mul(10).ok_or(DigitError::TooLarge)?;
    tens.checked_add(digit).ok_or(DigitError::TooLarge)
}
