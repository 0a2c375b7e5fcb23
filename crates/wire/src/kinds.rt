// Kinds of number that must never be mixed: each is a type of its own, with an order of its own. Numbers, counts and
// places of messages do their own arithmetic. Every operation is total; where a result would pass its kind's largest,
// it is the largest.
#![tactic(auto, using(crate::proofs::Rules::rooms))]

ghost use Rattle.std.specs.Prelude.{◌≡◌, ◌+◌, ◌-◌, min, leb, eqb};
ghost use Rattle.wire.specs.Bounds.{largest_number, largest_count};

// The number of a message in its session, from 1.
#[derive(Clone, Copy, Debug, PartialEq, Eq, PartialOrd, Ord)]
pub struct SequenceNumber(pub u64);

// How many messages.
#[derive(Clone, Copy, Debug, PartialEq, Eq, PartialOrd, Ord)]
pub struct MessageCount(pub u16);

// A message's place in its datagram, from 0: how many stand before it.
#[derive(Clone, Copy, Debug, PartialEq, Eq, PartialOrd, Ord)]
pub struct MessagePlace(pub u16);

// A place in a slice of bytes, from 0.
#[derive(Clone, Copy, Debug, PartialEq, Eq, PartialOrd, Ord)]
pub struct ByteOffset(pub usize);

// The smallest number that a message has, and that a receiver starts at.
pub const LEAST_NUMBER: SequenceNumber = SequenceNumber(1);

// The largest sequence number, 2^64 - 1.
pub const LARGEST_NUMBER: SequenceNumber = SequenceNumber(u64::MAX);

// The largest count of 16 bits.
pub const LARGEST_COUNT: MessageCount = MessageCount(u16::MAX);

// The bounds of a receiver's asking limit, which are the fewest and the most messages that a request asks for: none
// is 48, and so is 65,535, the count of an end of session.
pub const LEAST_LIMIT: MessageCount = MessageCount(1);

pub const LARGEST_LIMIT: MessageCount = MessageCount(u16::MAX - 1);

// Bytes of a session name.
pub const SESSION_SIZE: usize = 10;

// Bytes of a sequence number and of a message count, wherever they are laid as bytes.
pub const NUMBER_SIZE: usize = 8;

pub const COUNT_SIZE: usize = 2;

// Bytes of a length, which stands in front of a block, of a packet and of a record.
pub const LENGTH_SIZE: usize = 2;

// A blank name: ten spaces.
pub const BLANK: [u8; SESSION_SIZE] = [b' '; SESSION_SIZE];

impl SequenceNumber {
    pub fn is_zero(self) -> bool
        ensures { result ≡ eqb self.0 0 }
    {
        self.0 == 0
    }

    // Whether so many messages can be numbered from this one on: the number behind them is one still.
    pub fn has_room(self, count: MessageCount) -> bool
        ensures { result ≡ leb (self.0 + count.0) largest_number }
    {
        u64::from(count.0) <= LARGEST_NUMBER.0 - self.0
    }

    // The number so many messages further on.
    pub fn plus(self, count: MessageCount) -> SequenceNumber
        ensures { result.0 ≡ min largest_number (self.0 + count.0) }
    {
        SequenceNumber(self.0.saturating_add(u64::from(count.0)))
    }

    // How many messages lie from this number up to just below another; none where that isn't above.
    pub fn gap(self, to: SequenceNumber) -> MessageCount
        ensures { result.0 ≡ min largest_count (to.0 - self.0) }
    {
        MessageCount(distance(self.0, to.0))
    }

    // The place of the message with a number, where this is the number of the datagram's first.
    pub fn place_of(self, number: SequenceNumber) -> MessagePlace
        ensures { result.0 ≡ min largest_count (number.0 - self.0) }
    {
        MessagePlace(distance(self.0, number.0))
    }
}

// How far one number lies above another.
fn distance(from: u64, to: u64) -> u16
    ensures { result ≡ min largest_count (to - from) }
{
    u16::try_from(to.saturating_sub(from)).unwrap_or(u16::MAX)
}

impl MessageCount {
    pub fn is_zero(self) -> bool
        ensures { result ≡ eqb self.0 0 }
    {
        self.0 == 0
    }

    // One message fewer, and none where there is none.
    pub fn less_one(self) -> MessageCount
        ensures { result.0 ≡ self.0 - 1 }
    {
        MessageCount(self.0.saturating_sub(1))
    }

    // Whether a datagram can have so many messages from a place on.
    pub fn fits_behind(self, place: MessagePlace) -> bool
        ensures { result ≡ leb (place.0 + self.0) largest_count }
    {
        self.0 <= LARGEST_COUNT.0 - place.0
    }

    // How many messages a datagram has that has so many from a place on.
    pub fn behind(self, place: MessagePlace) -> MessageCount
        ensures { result.0 ≡ min largest_count (place.0 + self.0) }
    {
        MessageCount(place.0.saturating_add(self.0))
    }
}

impl MessagePlace {
    // How many messages stand before this place.
    pub fn before(self) -> MessageCount
        ensures { result.0 ≡ self.0 }
    {
        MessageCount(self.0)
    }
}
