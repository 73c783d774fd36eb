//! A cell of a section, by the keys of its ends.

ghost use Rattle.std.specs.Prelude.{◌≡◌, ◌≤◌, length, take};

use std::marker::Model;

/// The keys of up to 3 ends. Contracts see their list.
#[derive(Debug, Drop)]
pub struct Piece {
    size: u8,
    keys: [u64; 3],
}

impl Model for Piece {
    ghost use Rattle.std.specs.Prelude.{ℕ, List, take, ◌≤◌};

    ghost Value = { List ℕ };

    ghost view = { λ p. take p.size p.keys };

    ghost invariant = { λ p. p.size ≤ 3 };
}

impl Piece {
    /// The first so many of three keys; the others are filler.
    pub fn new(size: u8, keys: [u64; 3]) -> Piece
        requires { size ≤ 3 }
        ensures value { result ≡ take size keys }
    {
        Piece { size, keys }
    }

    /// The keys.
    pub fn keys(&self) -> &[u64]
        ensures value { result.now ≡ self.now }
        ensures most { length result.now ≤ 3 }
    {
        &self.keys[..usize::from(self.size)]
    }
}
