//! Names of one level, by their leaves.

ghost use Rattle.std.specs.Prelude.{◌≡◌, ◌<◌, [], All, IfOk, length, slice_index_or};
ghost use Rattle.viz_sheet.specs.Arrays.{names_in};
ghost use Rattle.viz_sheet.specs.Ranked.{leaf_names};
ghost use Rattle.viz_sheet.specs.Sheet.{AreAscending};

use std::alloc::{AllocError, Global};

/// Names of 1, 2, 4 or 8 leaves each.
///
/// A point that isn't made of others has its number as the only leaf of its name. The point of an
/// edge has the leaves of both ends, those of the lesser name first.
#[derive(Debug, Drop)]
pub enum Leaves {
    One(Vec<[u32; 1]>),
    Two(Vec<[u32; 2]>),
    Four(Vec<[u32; 4]>),
    Eight(Vec<[u32; 8]>),
}

impl Leaves {
    /// How many names.
    pub fn len(&self) -> usize
        ensures value { result ≡ length (names_in self.now) }
    {
        match self {
            Leaves::One(names) => names.len(),
            Leaves::Two(names) => names.len(),
            Leaves::Four(names) => names.len(),
            Leaves::Eight(names) => names.len(),
        }
    }

    /// How many leaves each name has.
    pub fn size(&self) -> usize
        ensures each { All (λ n. length n ≡ result) (names_in self.now) }
        ensures some { 0 < result }
    {
        match self {
            Leaves::One(names) => size_one(names),
            Leaves::Two(names) => size_two(names),
            Leaves::Four(names) => size_four(names),
            Leaves::Eight(names) => size_eight(names),
        }
    }

    /// The names of so many points that aren't made of others: each has its number as its leaf.
    pub fn of_points(alloc: Global, count: u32) -> Result<Leaves, AllocError>
        ensures value { IfOk result (λ l. names_in l ≡ leaf_names count) }
        ensures ascending { IfOk result (λ l. AreAscending (names_in l)) }
    {
        Ok(Leaves::One(numbers_below(alloc, count)?))
    }

    /// The leaves of a name.
    pub fn get(&self, rank: usize) -> &[u32]
        requires { rank < length (names_in self.now) }
        ensures value { result.now ≡ slice_index_or (names_in self.now) rank [] }
    {
        match self {
            Leaves::One(names) => names[rank].as_slice(),
            Leaves::Two(names) => names[rank].as_slice(),
            Leaves::Four(names) => names[rank].as_slice(),
            Leaves::Eight(names) => names[rank].as_slice(),
        }
    }
}

/// The numbers below a count, one in each name.
fn numbers_below(alloc: Global, count: u32) -> Result<Vec<[u32; 1]>, AllocError>
    ensures { IfOk result (λ v. v.items ≡ leaf_names count) }
{
    let mut names = Vec::with_capacity(alloc, count as usize)?;
    for leaf in 0..count {
        names.push([leaf])?;
    }
    Ok(names)
}

/// How many leaves each of these has.
fn size_one(names: &[[u32; 1]]) -> usize
    ensures each { All (λ n. length n ≡ 1) names.now }
    ensures value { result ≡ 1 }
{
    // What the type of the names tells of their lengths.
    let _count = names.len();
    1
}

/// How many leaves each of these has.
fn size_two(names: &[[u32; 2]]) -> usize
    ensures each { All (λ n. length n ≡ 2) names.now }
    ensures value { result ≡ 2 }
{
    let _count = names.len();
    2
}

/// How many leaves each of these has.
fn size_four(names: &[[u32; 4]]) -> usize
    ensures each { All (λ n. length n ≡ 4) names.now }
    ensures value { result ≡ 4 }
{
    let _count = names.len();
    4
}

/// How many leaves each of these has.
fn size_eight(names: &[[u32; 8]]) -> usize
    ensures each { All (λ n. length n ≡ 8) names.now }
    ensures value { result ≡ 8 }
{
    let _count = names.len();
    8
}
