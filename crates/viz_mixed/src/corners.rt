//! The flags of the corners of 64 cubes, and which of these are mixed.

ghost use Rattle.std.specs.Prelude.{◌≡◌, ℕ, ◌+◌, ◌==◌, ◌<◌, [], ◌∷◌, length, map, max, min};
ghost use Rattle.std.specs.Int.{bit_at};
ghost use Rattle.viz_mixed.specs.Mixed.{corners_from, is_mixed};
ghost use Rattle.viz_mixed.specs.Steps.Words.{bit_of};

use viz_lanes::Bits;

/// The flags of the corners of 64 cubes along x from a lowest leaf on, where a row and a plane of
/// points are so long: a word for each corner by bits x y z, and a bit of it for each cube, the
/// first cube's lowest. Corners past the last point have no flag.
pub fn corner_words(flags: &Bits, lowest: usize, row: usize, plane: usize) -> [u64; 8]
    requires within { lowest + 1 + row + plane < length flags.now }
    ensures value { (t : ℕ) → t < 64
        → map (λ word. bit_at word t == 1) result ≡ corners_from flags.now row plane (lowest + t) }
{
    // So many flags there are, in 64 bits.
    let _count = flags.len();
    let next = lowest + 1;
    [
        flags.word_from(lowest as u64),
        flags.word_from((lowest + plane) as u64),
        flags.word_from((lowest + row) as u64),
        flags.word_from((lowest + row + plane) as u64),
        flags.word_from(next as u64),
        flags.word_from((next + plane) as u64),
        flags.word_from((next + row) as u64),
        flags.word_from((next + row + plane) as u64),
    ]
}

/// Of 64 cubes with these flags of their corners, a word for each corner: a bit for each cube that
/// is mixed.
pub fn mixed_of(words: &[u64; 8]) -> u64
    ensures value { (t : ℕ) → t < 64
        → (bit_at result t == 1) ≡ is_mixed (map (λ word. bit_at word t == 1) words.now) }
{
    let [a, b, c, d, e, f, g, h] = *words;
    mix(a, b, c, d, e, f, g, h)
}

/// The bits that some of eight words have, and not all.
fn mix(a: u64, b: u64, c: u64, d: u64, e: u64, f: u64, g: u64, h: u64) -> u64
    ensures { (t : ℕ) → t < 64 → bit_at result t ≡ bit_of (is_mixed
        (map (λ word. bit_at word t == 1) (a ∷ b ∷ c ∷ d ∷ e ∷ f ∷ g ∷ h ∷ []))) }
{
    let one = some(some(some(a, b), some(c, d)), some(some(e, f), some(g, h)));
    let each = all(all(all(a, b), all(c, d)), all(all(e, f), all(g, h)));
    one & !each
}

/// The bits that one of two words has.
fn some(a: u64, b: u64) -> u64
    ensures { (t : ℕ) → bit_at result t ≡ max (bit_at a t) (bit_at b t) }
{
    a | b
}

/// The bits that both of two words have.
fn all(a: u64, b: u64) -> u64
    ensures { (t : ℕ) → bit_at result t ≡ min (bit_at a t) (bit_at b t) }
{
    a & b
}
