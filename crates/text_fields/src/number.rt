// A number field: spaces, then decimal digits. Leading zeros are read, and never written.
#![tactic(auto, using(crate::proofs::Rules::numbers))]

ghost use Rattle.std.specs.Prelude.{◌≡◌};
ghost use Rattle.wire.specs.Output.{Writes};
ghost use Rattle.text_fields.specs.Number.{digit_step, number_step, number_words, number_good};
ghost use Rattle.text_fields.specs.Number.{read_number, number_field, NumberFold, NumberLaws};

use crate::letters;
use decimal::{reading, writing};
use wire::kinds::{ByteOffset, SequenceNumber};
use wire::output;
use wire::refusal::Refusal;

// Bytes of a number field.
pub const NUMBER_FIELD_SIZE: usize = 20;

// What the bytes of a field so far are: spaces alone, digits after them with their value, or no number.
#[derive(Clone, Copy, Debug, PartialEq, Eq)]
pub enum NumberState {
    Blank,
    Digits { value: u64 },
    Bad,
}

// A digit behind a value.
fn more(value: u64, b: u8) -> NumberState
    ensures { result ≡ digit_step value b }
{
    match reading::append(value, b) {
        Ok(value) => NumberState::Digits { value },
        Err(_) => NumberState::Bad,
    }
}

// One byte more.
pub fn step(state: NumberState, b: u8) -> NumberState
    ensures value { result ≡ number_step state b }
    ensures fold { NumberFold }
{
    match state {
        NumberState::Blank if b == letters::SPACE => NumberState::Blank,
        NumberState::Blank => more(0, b),
        NumberState::Digits { value } => more(value, b),
        NumberState::Bad => NumberState::Bad,
    }
}

// The number of a whole field, where it has to be at least another; none where the field is bad.
pub fn value(state: NumberState, least: SequenceNumber) -> Option<SequenceNumber>
    ensures { number_words result ≡ number_good least.0 state }
{
    match state {
        NumberState::Digits { value } if least.0 <= value => Some(SequenceNumber(value)),
        _ => None,
    }
}

// The number in the bytes of a field, where it has to be at least another; none where the field is bad.
pub fn read(field: &[u8], least: SequenceNumber) -> Option<SequenceNumber>
    ensures result_value { number_words result ≡ read_number least.0 field.now }
    ensures laws { NumberLaws }
{
    let mut state = NumberState::Blank;
    for &b in field {
        state = step(state, b);
    }
    value(state, least)
}

// The bytes of a number field: spaces, then digits without leading zeros.
pub fn field(number: SequenceNumber) -> [u8; NUMBER_FIELD_SIZE]
    ensures { result ≡ number_field number.0 }
{
    let mut field = [letters::SPACE; NUMBER_FIELD_SIZE];
    let mut text = [0u8; NUMBER_FIELD_SIZE];
    if let Ok(size) = writing::put(&mut text, ByteOffset(0), number.0) {
        output::lay(
            &mut field,
            ByteOffset(NUMBER_FIELD_SIZE - size),
            &text[..size],
        );
    }
    field
}

// Lays a number field.
pub fn put(out: &mut [u8], at: ByteOffset, number: SequenceNumber) -> Result<usize, Refusal>
    ensures writes { Writes result out.old out.new 0 at.0 (number_field number.0) }
    ensures laws { NumberLaws }
{
    output::put_bytes(out, at, &field(number))
}
