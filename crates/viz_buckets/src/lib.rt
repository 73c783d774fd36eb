//! A list whose items have numbers, so that those of one number are found without the others.
//!
//! Contract: `Buckets` is a list that grows at its end, and `bucket` gives all items of a number,
//! in the list's order, perhaps with others. Definitions: `specs/Buckets.antt`; `specs/Steps.antt`
//! has the words of private contracts.
#![tactic(auto)]

ghost use Rattle.std.specs.Prelude.{◌≡◌, ◌++◌, ◌∷◌, [], ◌%◌, ◌<◌, ℕ, IfOk, OnOk, length};
ghost use Rattle.std.specs.List.{All};
ghost use Rattle.viz_buckets.specs.Buckets.{HasAllOf};

use std::alloc::{AllocError, Global};
use std::marker::Model;

/// What has a number by which it is found.
pub trait Numbered {
    ghost number: { Self → ℕ };

    /// The number. Items are found soonest where few others have the same one.
    fn number(&self) -> u64
        ensures value { result ≡ number self.now };
}

/// Items in the order in which they came, shared out to buckets by what division of their numbers
/// leaves. Contracts see the list.
#[derive(Drop)]
pub struct Buckets<T: Numbered> {
    all: Vec<T>,
    buckets: Vec<Vec<T>>,
}

impl<T: Numbered> Model for Buckets<T> {
    ghost use Rattle.std.specs.Prelude.{List};
    ghost use Rattle.viz_buckets.specs.Steps.Shared.{AreBuckets};

    ghost Value = { List T };

    ghost view = { λ b. b.all.items };

    ghost invariant = { λ b. AreBuckets T.number (λ v. v.items) b.all.items b.buckets.items };
}

/// A prime number, so that numbers in equal steps don't fall into few buckets.
const MOST_BUCKETS: usize = 4093;

fn bucket_of(number: u64, count: usize) -> usize
    requires some { 0 < count }
    ensures value { result ≡ number % count }
    ensures within { result < count }
{
    (number % count as u64) as usize
}

// Empty buckets for so many items.
fn empty_buckets<T: Drop>(alloc: Global, expected: usize) -> Result<Vec<Vec<T>>, AllocError>
    ensures some { IfOk result (λ all. 0 < length all.items) }
    ensures empty { IfOk result (λ all. All (λ b. b.items ≡ []) all.items) }
{
    let count = expected.min(MOST_BUCKETS).max(1);
    let mut all = Vec::with_capacity(alloc, count)?;
    for _ in 0..count {
        all.push(Vec::new(alloc))?;
    }
    Ok(all)
}

impl<T: Numbered + Copy> Buckets<T> {
    /// An empty list, with buckets for as many items as are expected. More may come.
    pub fn new(alloc: Global, expected: usize) -> Result<Buckets<T>, AllocError>
        ensures value { IfOk result (λ b. b ≡ []) }
    {
        let all = Vec::new(alloc);
        let buckets = empty_buckets(alloc, expected)?;
        Ok(Buckets { all, buckets })
    }

    /// Adds an item at the end.
    pub fn push(&mut self, item: T) -> Result<(), AllocError>
        ensures pushed { OnOk result (self.new ≡ self.old ++ item ∷ []) }
    {
        let at = bucket_of(item.number(), self.buckets.len());
        self.all.reserve(1)?;
        self.buckets[at].push(item)?;
        self.all.push_reserved(item);
        Ok(())
    }

    /// All items of the number, in the list's order, perhaps with others.
    pub fn bucket(&self, number: u64) -> &[T]
        ensures value { HasAllOf T.number number self.now result.now }
    {
        &self.buckets[bucket_of(number, self.buckets.len())]
    }

    /// The items, in order.
    pub fn list(&self) -> &[T]
        ensures value { result.now ≡ self.now }
    {
        &self.all
    }

    /// Hands the items out.
    pub fn into_list(self) -> Vec<T>
        ensures value { result.items ≡ self }
    {
        let Buckets { all, .. } = self;
        all
    }
}
