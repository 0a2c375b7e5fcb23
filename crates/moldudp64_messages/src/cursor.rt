// A cursor over the blocks of a datagram, so that all of its messages are visited in one walk. It is two numbers, which
// anyone can make up or use with another datagram, so each function takes any cursor and any bytes.
#![tactic(auto, using(crate::proofs::Rules::blocks, crate::proofs::Rules::locating, crate::proofs::Rules::moving, crate::proofs::Rules::starting))]

ghost use Rattle.std.specs.Prelude.{◌≡◌, ◌-◌, ◌≤◌, length};
ghost use Rattle.moldudp64_messages.specs.Cursor.{whole_block, cursor, located, advanced, advanced_by, first_of};
ghost use Rattle.moldudp64_messages.specs.Cursor.{start_of, nowhere, part};
ghost use Rattle.moldudp64_messages.specs.Cursor.{WalksTheMessages, PartIsMessage, CountIsMessages};

use moldudp64::downstream::Downstream;
use moldudp64::{blocks, downstream, header};
use wire::kinds::{ByteOffset, LENGTH_SIZE, MessageCount, MessagePlace};

// Whether a message is there, with the offset of its first data byte in the datagram and its length. Where none is,
// both numbers are 0.
#[derive(Clone, Copy, Debug, PartialEq, Eq)]
pub struct Located {
    pub exists: bool,
    pub offset: ByteOffset,
    pub length: usize,
}

// The place of a block's length field, and how many blocks are left from there on.
#[derive(Clone, Copy, Debug, PartialEq, Eq)]
pub struct Cursor {
    pub at: ByteOffset,
    pub left: MessageCount,
}

fn not_there() -> Located
    ensures { result ≡ nowhere }
{
    Located {
        exists: false,
        offset: ByteOffset(0),
        length: 0,
    }
}

// Bytes of the block in front of what is left of a datagram, with so many blocks left; 0 where no such block is there.
fn whole_block(rest: &[u8], left: MessageCount) -> usize
    ensures { result ≡ whole_block rest.now left.0 }
{
    if left.is_zero() {
        return 0;
    }
    if rest.len() < LENGTH_SIZE {
        return 0;
    }
    let size = blocks::block_size(rest);
    if rest.len() < size {
        return 0;
    }
    size
}

// The cursor at what is left of a datagram, with so many blocks left.
fn at_rest(datagram: &[u8], rest: &[u8], left: MessageCount) -> Cursor
    requires { length rest.now ≤ length datagram.now }
    ensures { result ≡ cursor (length datagram.now - length rest.now) left.0 }
{
    Cursor {
        at: ByteOffset(datagram.len() - rest.len()),
        left,
    }
}

impl Cursor {
    // The first block of a datagram with so many messages, as the reader gave their count.
    pub fn first(count: MessageCount) -> Cursor
        ensures value { result ≡ first_of count.0 }
        ensures count { CountIsMessages }
    {
        Cursor {
            at: ByteOffset(header::SIZE),
            left: count,
        }
    }

    // The first block of a datagram, with no message there where the datagram is refused.
    pub fn start(datagram: &[u8]) -> Cursor
        ensures value { result ≡ start_of datagram.now }
        ensures walks { WalksTheMessages }
        ensures parts { PartIsMessage }
    {
        match downstream::read(datagram) {
            Ok(Downstream::Data { count, .. }) => Cursor::first(count),
            Ok(Downstream::Heartbeat { .. }) => Cursor::first(MessageCount(0)),
            Ok(Downstream::EndOfSession { .. }) => Cursor::first(MessageCount(0)),
            Err(_) => Cursor::first(MessageCount(0)),
        }
    }

    // The message at the cursor: there if some blocks are left and this one ends within the datagram.
    pub fn locate(self, datagram: &[u8]) -> Located
        ensures { result ≡ located datagram.now self }
    {
        let at = self.at.0;
        if datagram.len() < at {
            return not_there();
        }
        let size = whole_block(&datagram[at..], self.left);
        if size == 0 {
            return not_there();
        }
        Located {
            exists: true,
            offset: ByteOffset(at + LENGTH_SIZE),
            length: size - LENGTH_SIZE,
        }
    }

    // The message at the cursor as a part of the datagram; empty where none is there.
    pub fn message(self, datagram: &[u8]) -> &[u8]
        ensures { result.now ≡ part datagram.now (located datagram.now self) }
    {
        let found = self.locate(datagram);
        let from = found.offset.0;
        let to = from + found.length;
        &datagram[from..to]
    }

    // The cursor at the next block. It stays where no message is there.
    pub fn next(self, datagram: &[u8]) -> Cursor
        ensures { result ≡ advanced datagram.now self }
    {
        let found = self.locate(datagram);
        if found.exists {
            let left = self.left;
            return Cursor {
                at: ByteOffset(found.offset.0 + found.length),
                left: left.less_one(),
            };
        }
        self
    }

    // The cursor so many places further on: each turn takes what is left of the datagram after a block and goes on
    // from there. It stops where no message is there.
    pub fn skip(self, datagram: &[u8], places: MessagePlace) -> Cursor
        ensures { result ≡ advanced_by places.0 datagram.now self }
    {
        let at = self.at.0;
        if datagram.len() < at {
            return self;
        }
        let mut rest = &datagram[at..];
        let mut left = self.left;
        for _ in 0..places.0 {
            let size = whole_block(rest, left);
            if size == 0 {
                return at_rest(datagram, rest, left);
            }
            rest = &rest[size..];
            left = left.less_one();
        }
        at_rest(datagram, rest, left)
    }
}
