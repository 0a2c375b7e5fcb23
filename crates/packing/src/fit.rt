// How many whole messages fit.
ghost use Rattle.std.specs.Prelude.{◌≡◌};
ghost use Rattle.packing.specs.Fit.{fitting, PackingPromises};

use wire::kinds::LENGTH_SIZE;

// How many messages, and the bytes of their data.
#[derive(Clone, Copy, Debug, PartialEq, Eq)]
pub struct Fit {
    pub count: usize,
    pub bytes: usize,
}

// The most whole messages, from the first on, whose blocks fit into so many bytes.
pub fn most_that_fit(lengths: &[u16], room: usize) -> Fit
    ensures value { result ≡ fitting room lengths.now }
    ensures promises { PackingPromises }
{
    let mut left = room;
    let mut bytes: usize = 0;
    for (count, length) in lengths.iter().enumerate() {
        let length = *length as usize;
        if left < length + LENGTH_SIZE {
            return Fit { count, bytes };
        }
        left -= length + LENGTH_SIZE;
        bytes += length;
    }
    Fit {
        count: lengths.len(),
        bytes,
    }
}
