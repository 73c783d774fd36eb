//! Sums at each place of lists that follow each other, over a window that moves.

ghost use Rattle.std.specs.Prelude.{◌≡◌, ℕ, ◌-◌, ◌*◌, ◌^◌, ◌<◌, ◌≤◌, pos, ◌+ℤ◌, ◌-ℤ◌, length, map};
ghost use Rattle.std.specs.Prelude.{slice_index_or};
ghost use Rattle.viz_image_ops.specs.Sums.{AreWithin, HasRoom, ArePlaceSums};

use viz_column::Number;

/// Adds numbers to the sums, one by one.
fn add_numbers<T: Number>(sums: &mut [i128], numbers: &[T])
    requires same { length numbers.now ≡ length sums.old }
    requires terms { AreWithin (2 ^ 96) (2 ^ 96) (map T.value numbers.now) }
    requires room { AreWithin (2 ^ 96) (2 ^ 96) sums.old }
    ensures { (p : ℕ) → p < length sums.old → slice_index_or sums.new p (pos 0)
        ≡ slice_index_or sums.old p (pos 0) +ℤ slice_index_or (map T.value numbers.now) p (pos 0) }
{
    for (p, term) in numbers.iter().enumerate() {
        sums[p] += term.whole();
    }
}

/// Takes numbers from the sums, one by one.
fn take_numbers<T: Number>(sums: &mut [i128], numbers: &[T])
    requires same { length numbers.now ≡ length sums.old }
    requires terms { AreWithin (2 ^ 96) (2 ^ 96) (map T.value numbers.now) }
    requires room { AreWithin (2 ^ 96) (2 ^ 96) sums.old }
    ensures { (p : ℕ) → p < length sums.old → slice_index_or sums.new p (pos 0)
        ≡ slice_index_or sums.old p (pos 0) -ℤ slice_index_or (map T.value numbers.now) p (pos 0) }
{
    for (p, term) in numbers.iter().enumerate() {
        sums[p] -= term.whole();
    }
}

/// Moves the window of sums of numbers from `first..behind` to `next_first..next_behind`.
pub(crate) fn move_numbers<T: Number>(
    sums: &mut [i128],
    numbers: &[T],
    first: usize,
    behind: usize,
    next_first: usize,
    next_behind: usize,
)
    requires first { first ≤ next_first }
    requires behind { behind ≤ next_behind }
    requires some { next_first ≤ next_behind }
    requires order { first ≤ behind }
    requires long { next_behind * length sums.old ≤ length numbers.now }
    requires room { HasRoom next_behind (map T.value numbers.now) }
    requires sums { ArePlaceSums (map T.value numbers.now) first behind sums.old }
    ensures sums { ArePlaceSums (map T.value numbers.now) next_first next_behind sums.new }
{
    let long = sums.len();
    for c in behind..next_behind {
        add_numbers(sums, &numbers[c * long..(c + 1) * long]);
    }
    for c in first..next_first {
        take_numbers(sums, &numbers[c * long..(c + 1) * long]);
    }
}

/// Adds sums to the sums, one by one.
fn add_terms(sums: &mut [i128], terms: &[i128])
    requires same { length terms.now ≡ length sums.old }
    requires terms { AreWithin (2 ^ 96) (2 ^ 96) terms.now }
    requires room { AreWithin (2 ^ 96) (2 ^ 96) sums.old }
    ensures { (p : ℕ) → p < length sums.old → slice_index_or sums.new p (pos 0)
        ≡ slice_index_or sums.old p (pos 0) +ℤ slice_index_or terms.now p (pos 0) }
{
    for (p, term) in terms.iter().enumerate() {
        sums[p] += *term;
    }
}

/// Takes sums from the sums, one by one.
fn take_terms(sums: &mut [i128], terms: &[i128])
    requires same { length terms.now ≡ length sums.old }
    requires terms { AreWithin (2 ^ 96) (2 ^ 96) terms.now }
    requires room { AreWithin (2 ^ 96) (2 ^ 96) sums.old }
    ensures { (p : ℕ) → p < length sums.old → slice_index_or sums.new p (pos 0)
        ≡ slice_index_or sums.old p (pos 0) -ℤ slice_index_or terms.now p (pos 0) }
{
    for (p, term) in terms.iter().enumerate() {
        sums[p] -= *term;
    }
}

/// Moves the window of sums of sums from `first..behind` to `next_first..next_behind`.
pub(crate) fn move_terms(
    sums: &mut [i128],
    terms: &[i128],
    first: usize,
    behind: usize,
    next_first: usize,
    next_behind: usize,
)
    requires first { first ≤ next_first }
    requires behind { behind ≤ next_behind }
    requires some { next_first ≤ next_behind }
    requires order { first ≤ behind }
    requires long { next_behind * length sums.old ≤ length terms.now }
    requires room { HasRoom next_behind terms.now }
    requires sums { ArePlaceSums terms.now first behind sums.old }
    ensures sums { ArePlaceSums terms.now next_first next_behind sums.new }
{
    let long = sums.len();
    for c in behind..next_behind {
        add_terms(sums, &terms[c * long..(c + 1) * long]);
    }
    for c in first..next_first {
        take_terms(sums, &terms[c * long..(c + 1) * long]);
    }
}
