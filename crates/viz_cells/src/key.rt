//! An edge between two ranks as one number, by which a sort and a search compare at once.
ghost use Rattle.std.specs.Prelude.{◌≡◌, ◌+◌, ◌*◌, ◌^◌};
ghost use Rattle.viz_cells.specs.Steps.Keys.{key_of, low_of, high_of};

/// The greater rank in the low half, the lesser one in the high half: keys ascend as names do.
pub fn key(a: u32, b: u32) -> u64
    ensures value { result ≡ key_of a b }
{
    joined(a.min(b), a.max(b))
}

/// A number of 64 bits with these halves.
fn joined(low: u32, high: u32) -> u64
    ensures { result ≡ low * 2 ^ 32 + high }
{
    (low as u64) << 32 | high as u64
}

/// The lesser rank of a key.
pub fn low(key: u64) -> usize
    ensures value { result ≡ low_of key }
{
    (key >> 32) as usize
}

/// The greater rank of a key.
pub fn high(key: u64) -> usize
    ensures value { result ≡ high_of key }
{
    (key % (1 << 32)) as usize
}
