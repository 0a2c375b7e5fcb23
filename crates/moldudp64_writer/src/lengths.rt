// The lengths of messages against the bytes that they are to have.
#![tactic(auto, using(crate::proofs::Rules::lengths))]

ghost use Rattle.std.specs.Prelude.{◌≡◌, ◌≤◌, min, length};
ghost use Rattle.moldudp64_writer.specs.Writer.{total, add_up, left_after};

// As many lengths as are added up at a time: 32 bits hold their sum, so that adding needs no test.
const AT_A_TIME: usize = 65_536;

// The sum of few lengths.
fn sum(lengths: &[u16]) -> u32
    requires { length lengths.now ≤ 65536 }
    ensures { result ≡ total lengths.now }
{
    let mut sum: u32 = 0;
    for length in lengths {
        sum += u32::from(*length);
    }
    sum
}

// What is left of so many bytes after messages of these lengths, where they were enough. It subtracts as it goes, so
// that no sum can wrap.
pub fn left_after(lengths: &[u16], bytes: usize) -> Option<usize>
    ensures { result ≡ left_after lengths.now bytes }
{
    let mut rest = lengths;
    let mut left = bytes;
    while !rest.is_empty() {
        let (part, behind) = rest.split_at(rest.len().min(AT_A_TIME));
        left = left.checked_sub(sum(part) as usize)?;
        rest = behind;
    }
    Some(left)
}

// Whether the lengths add up to the data.
pub fn add_up(lengths: &[u16], joined: &[u8]) -> bool
    ensures { result ≡ add_up lengths.now joined.now }
{
    left_after(lengths, joined.len()) == Some(0)
}
