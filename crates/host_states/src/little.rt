// Little-endian numbers, which the compiler reads and lays at once where the size of the state was tested before.
// A byte past the end counts as 0, and where there is no room nothing is laid.
#![tactic(auto, using(crate::proofs::Rules::numbers))]

ghost use Rattle.std.specs.Prelude.{◌≡◌, ◌+◌, ◌*◌};
ghost use Rattle.wire.specs.Output.{put};
ghost use Rattle.host_states.specs.Little.{little, little_bytes, LittleReadsBack};

use wire::kinds::ByteOffset;
use wire::output;
use wire::parts::byte;

fn join16(a: u8, b: u8) -> u16
    ensures { result ≡ a + 256 * b }
{
    a as u16 + 256 * (b as u16)
}

fn join32(a: u16, b: u16) -> u64
    ensures { result ≡ a + 65536 * b }
{
    a as u64 + 65536 * (b as u64)
}

// Joined as a tree, two by two.
fn join64(a: u8, b: u8, c: u8, d: u8, e: u8, f: u8, g: u8, h: u8) -> u64
    ensures { result ≡ a + 256 * (b + 256 * (c + 256 * (d + 256 * (e + 256 * (f + 256 * (g + 256 * h)))))) }
{
    let low = join32(join16(a, b), join16(c, d));
    let high = join32(join16(e, f), join16(g, h));
    low + 4294967296 * high
}

// The 16-bit number at a place.
pub fn get16(s: &[u8], at: ByteOffset) -> u16
    ensures { result ≡ little s.now at.0 2 }
{
    let i = at.0;
    if s.len() <= i {
        return 0;
    }
    join16(byte(s, ByteOffset(i)), byte(s, ByteOffset(i + 1)))
}

// The 64-bit number at a place.
pub fn get64(s: &[u8], at: ByteOffset) -> u64
    ensures { result ≡ little s.now at.0 8 }
{
    let i = at.0;
    if s.len() <= i {
        return 0;
    }
    join64(
        byte(s, ByteOffset(i)),
        byte(s, ByteOffset(i + 1)),
        byte(s, ByteOffset(i + 2)),
        byte(s, ByteOffset(i + 3)),
        byte(s, ByteOffset(i + 4)),
        byte(s, ByteOffset(i + 5)),
        byte(s, ByteOffset(i + 6)),
        byte(s, ByteOffset(i + 7)),
    )
}

// Lays a 16-bit number.
pub fn put16(out: &mut [u8], at: ByteOffset, number: u16)
    ensures out_after { out.new ≡ put out.old at.0 (little_bytes 2 number) }
    ensures reads_back { LittleReadsBack }
{
    output::lay(out, at, &number.to_le_bytes());
}

// Lays a 64-bit number.
pub fn put64(out: &mut [u8], at: ByteOffset, number: u64)
    ensures out_after { out.new ≡ put out.old at.0 (little_bytes 8 number) }
    ensures reads_back { LittleReadsBack }
{
    output::lay(out, at, &number.to_le_bytes());
}
