// Every refusal of documents 01 and 02, by name, with its ground.

// A refusal is handed up untouched by every caller. It holds its number, and is no enum of the names below: who takes a
// refusal, as `Receiver::take_read` does in what was read, takes one of any number.
#[derive(Clone, Copy, Debug, PartialEq, Eq)]
pub struct Refusal {
    pub number: u8,
}

// No refusal: what a ladder of grounds gives where none applies.
pub const NONE: Refusal = Refusal { number: 0 };

// A Mold datagram under 20 bytes.
pub const DATAGRAM_SHORT: Refusal = Refusal { number: 11 };

// A Mold datagram over 65,507 bytes, or a writer's total.
pub const DATAGRAM_LONG: Refusal = Refusal { number: 12 };

// The number is 0.
pub const NUMBER_ZERO: Refusal = Refusal { number: 13 };

// For data, number + count is above 2^64 - 1.
pub const NUMBERS_RUN_OUT: Refusal = Refusal { number: 14 };

// A block runs past the end.
pub const BLOCK_PAST_END: Refusal = Refusal { number: 15 };

// Bytes stand after the last block.
pub const BYTES_AFTER_BLOCKS: Refusal = Refusal { number: 16 };

// The session differs.
pub const SESSION_DIFFERS: Refusal = Refusal { number: 17 };

// The session has already ended.
pub const SESSION_ENDED: Refusal = Refusal { number: 18 };

// A bad starting setting, an account table over 1,024, or a packet's size, a store's numbers, slots or edges out of
// bounds.
pub const BAD_SETTING: Refusal = Refusal { number: 19 };

// An end of session below the expected number.
pub const END_BELOW_EXPECTED: Refusal = Refusal { number: 20 };

// A packet's length is 0.
pub const LENGTH_ZERO: Refusal = Refusal { number: 21 };

// A payload above 4,096 bytes.
pub const PAYLOAD_LONG: Refusal = Refusal { number: 22 };

// The letter is unknown, or of the wrong sender.
pub const LETTER_NOT_SENT: Refusal = Refusal { number: 23 };

// The length is wrong for the letter.
pub const LENGTH_WRONG: Refusal = Refusal { number: 24 };

// A bad session, number or reason field.
pub const FIELD_BAD: Refusal = Refusal { number: 25 };

// The packet isn't taken in this state.
pub const PACKET_NOT_TAKEN: Refusal = Refusal { number: 31 };

// The state is ended or closed.
pub const STATE_CLOSED: Refusal = Refusal { number: 32 };

// A login accepted doesn't match what was asked.
pub const LOGIN_NOT_ASKED: Refusal = Refusal { number: 33 };

// A sequenced message at 2^64 - 1.
pub const NUMBERS_USED_UP: Refusal = Refusal { number: 34 };

// The lent output is shorter than needed.
pub const OUTPUT_SHORT: Refusal = Refusal { number: 41 };

// Over 65,534 messages.
pub const TOO_MANY_MESSAGES: Refusal = Refusal { number: 42 };

// The lengths don't add up to the data.
pub const LENGTHS_DIFFER: Refusal = Refusal { number: 44 };

// A writer is given an unsound username or password, a bad session or reason, or A number 0.
pub const FIELD_NOT_WRITTEN: Refusal = Refusal { number: 46 };

// A request that isn't 20 bytes.
pub const REQUEST_SIZE: Refusal = Refusal { number: 47 };

// A request whose count is 0 or 65,535.
pub const REQUEST_COUNT: Refusal = Refusal { number: 48 };

// The wanted number isn't in the store.
pub const NOT_IN_STORE: Refusal = Refusal { number: 51 };

// A message alone doesn't fit the packet's size.
pub const MESSAGE_LONG: Refusal = Refusal { number: 52 };

// A request's session isn't the store's.
pub const STORE_DIFFERS: Refusal = Refusal { number: 53 };

// A run has no packet at that place.
pub const NO_SUCH_PACKET: Refusal = Refusal { number: 54 };
