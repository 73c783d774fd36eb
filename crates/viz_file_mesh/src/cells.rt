//! Cells of one size or of any, as a loop over many cells makes them.

ghost use Rattle.std.specs.Prelude.{◌≡◌, ◌≤◌, ◌↔◌, ℕ, List, IfSome, IsSome, length};
ghost use Rattle.viz_file_mesh.specs.GridPieces.{repeats_none};

use viz_sheet::Mixed;

/// A cell by the indices of its points. A function that is generic in it has no `match` in its
/// loop.
pub(crate) trait CellIndices: Drop {
    ghost list: { Self → List ℕ };

    // How many indices a cell has.
    ghost size: { ℕ };

    /// The cell of these indices, where the type has room for just so many.
    fn of(indices: &[u32]) -> Option<Self>
        ensures value { IfSome result (λ c. list c ≡ indices.now) }
        ensures some { IsSome result ↔ (length indices.now ≡ size) };

    /// No index is repeated.
    fn is_apart(&self) -> bool
        ensures { result ≡ repeats_none (list self.now) };

    /// The same cell, among cells of other sizes.
    fn mixed(&self) -> Mixed
        ensures value { result ≡ list self.now };
}

impl CellIndices for [u32; 1] {
    ghost list = { λ c. c };

    ghost size = { 1 };

    fn of(indices: &[u32]) -> Option<[u32; 1]> {
        match indices {
            [a] => Some([*a]),
            _ => None,
        }
    }

    fn is_apart(&self) -> bool {
        let [_only] = *self;
        true
    }

    fn mixed(&self) -> Mixed {
        let [a] = *self;
        Mixed::new(1, [a, 0, 0, 0])
    }
}

impl CellIndices for [u32; 2] {
    ghost list = { λ c. c };

    ghost size = { 2 };

    fn of(indices: &[u32]) -> Option<[u32; 2]> {
        match indices {
            [a, b] => Some([*a, *b]),
            _ => None,
        }
    }

    fn is_apart(&self) -> bool {
        let [a, b] = *self;
        a != b
    }

    fn mixed(&self) -> Mixed {
        let [a, b] = *self;
        Mixed::new(2, [a, b, 0, 0])
    }
}

impl CellIndices for [u32; 3] {
    ghost list = { λ c. c };

    ghost size = { 3 };

    fn of(indices: &[u32]) -> Option<[u32; 3]> {
        match indices {
            [a, b, c] => Some([*a, *b, *c]),
            _ => None,
        }
    }

    fn is_apart(&self) -> bool {
        let [a, b, c] = *self;
        !(a == b || a == c) && b != c
    }

    fn mixed(&self) -> Mixed {
        let [a, b, c] = *self;
        Mixed::new(3, [a, b, c, 0])
    }
}

impl CellIndices for [u32; 4] {
    ghost list = { λ c. c };

    ghost size = { 4 };

    fn of(indices: &[u32]) -> Option<[u32; 4]> {
        match indices {
            [a, b, c, d] => Some([*a, *b, *c, *d]),
            _ => None,
        }
    }

    fn is_apart(&self) -> bool {
        let [a, b, c, d] = *self;
        !(a == b || a == c || a == d) && !(b == c || b == d) && c != d
    }

    fn mixed(&self) -> Mixed {
        let [a, b, c, d] = *self;
        Mixed::new(4, [a, b, c, d])
    }
}

/// The cell of 1 to 4 indices.
pub(crate) fn mixed_cell(indices: &[u32]) -> Option<Mixed>
    ensures value { IfSome result (λ c. c ≡ indices.now) }
    ensures some { 1 ≤ length indices.now → length indices.now ≤ 4 → IsSome result }
{
    match indices {
        [a] => Some(Mixed::new(1, [*a, 0, 0, 0])),
        [a, b] => Some(Mixed::new(2, [*a, *b, 0, 0])),
        [a, b, c] => Some(Mixed::new(3, [*a, *b, *c, 0])),
        [a, b, c, d] => Some(Mixed::new(4, [*a, *b, *c, *d])),
        _ => None,
    }
}
