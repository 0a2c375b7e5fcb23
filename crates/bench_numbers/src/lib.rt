// The leaf that reads an eight-byte number, as it is and as it was before order 3, for a benchmark alone
// (bench/numbers.sh). Both promise the same.
#![tactic(auto, using(crate::proofs::Rules::numbers))]

ghost use Rattle.std.specs.Prelude.{◌≡◌, ◌+◌, ◌*◌};
ghost use Rattle.wire.specs.Bytes.{number};

use wire::kinds::ByteOffset;
use wire::number;
use wire::parts::byte;

// The leaf as it is.
#[unsafe(no_mangle)]
pub extern "C" fn eiderwagon_bench_number(s: &[u8], at: usize) -> u64
    ensures { result ≡ number s.now at 8 }
{
    number::be64(s, ByteOffset(at))
}

// The leaf as it was: each byte is read behind a test of its own.
#[unsafe(no_mangle)]
pub extern "C" fn eiderwagon_bench_number_before(s: &[u8], at: usize) -> u64
    ensures { result ≡ number s.now at 8 }
{
    if s.len() <= at {
        return 0;
    }
    join64(
        byte(s, ByteOffset(at)),
        byte(s, ByteOffset(at + 1)),
        byte(s, ByteOffset(at + 2)),
        byte(s, ByteOffset(at + 3)),
        byte(s, ByteOffset(at + 4)),
        byte(s, ByteOffset(at + 5)),
        byte(s, ByteOffset(at + 6)),
        byte(s, ByteOffset(at + 7)),
    )
}

fn join16(a: u8, b: u8) -> u16
    ensures { result ≡ a * 256 + b }
{
    (a as u16) * 256 + (b as u16)
}

fn join32(a: u16, b: u16) -> u64
    ensures { result ≡ a * 65536 + b }
{
    (a as u64) * 65536 + (b as u64)
}

fn join64(a: u8, b: u8, c: u8, d: u8, e: u8, f: u8, g: u8, h: u8) -> u64
    ensures { result ≡ ((((((a * 256 + b) * 256 + c) * 256 + d) * 256 + e) * 256 + f) * 256 + g) * 256 + h }
{
    let high = join32(join16(a, b), join16(c, d));
    let low = join32(join16(e, f), join16(g, h));
    high * 4294967296 + low
}
