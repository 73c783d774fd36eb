//! A cell of any size.

ghost use Rattle.std.specs.Prelude.{◌≡◌, ◌≤◌, length, take};

use std::marker::Model;

/// The ranks of a cell of up to 4 points, among cells of other sizes. Contracts see their list.
#[derive(Debug, Drop)]
pub struct Mixed {
    size: u8,
    ranks: [u32; 4],
}

impl Model for Mixed {
    ghost use Rattle.std.specs.Prelude.{ℕ, List, take, ◌≤◌};

    ghost Value = { List ℕ };

    ghost view = { λ m. take m.size m.ranks };

    ghost invariant = { λ m. m.size ≤ 4 };
}

impl Mixed {
    /// The first so many of four ranks; the others are filler.
    pub fn new(size: u8, ranks: [u32; 4]) -> Mixed
        requires { size ≤ 4 }
        ensures value { result ≡ take size ranks }
    {
        Mixed { size, ranks }
    }

    /// The ranks.
    pub fn ranks(&self) -> &[u32]
        ensures value { result.now ≡ self.now }
        ensures most { length result.now ≤ 4 }
    {
        &self.ranks[..usize::from(self.size)]
    }
}
