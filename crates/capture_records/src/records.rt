// The record in front of some bytes.
#![tactic(auto, using(crate::proofs::Rules::fronts))]

ghost use Rattle.std.specs.Prelude.{◌≡◌, min};
ghost use Rattle.capture_records.specs.Records.{most_records, record_words, record_in_front, RecordPromises};

use wire::kinds::{ByteOffset, LENGTH_SIZE};
use wire::number;

// The most records that are read, 2^32 - 1.
pub const MOST_RECORDS: u32 = u32::MAX;

// So many records; more than are read count as the most.
pub fn at_most(number: u64) -> u32
    ensures { result ≡ min number most_records }
{
    u32::try_from(number).unwrap_or(MOST_RECORDS)
}

// How many bytes the record in front takes, its length with them, if all of them are there: the datagram is what
// follows the length.
pub fn read(bytes: &[u8]) -> Option<usize>
    ensures result_value { record_words result ≡ record_in_front bytes.now }
    ensures promises { RecordPromises }
{
    if bytes.len() < LENGTH_SIZE {
        return None;
    }
    let size = usize::from(number::be16(bytes, ByteOffset(0))) + LENGTH_SIZE;
    (size <= bytes.len()).then_some(size)
}
