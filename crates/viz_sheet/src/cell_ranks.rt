//! The ranks of a cell of any type, as a loop over many cells sees them.

ghost use Rattle.std.specs.Prelude.{◌≡◌, ◌<◌, ◌≤◌, ℕ, List, All, length, slice_index_or};
ghost use Rattle.viz_sheet.specs.Steps.Lookup.{looked_up};

use crate::mixed::Mixed;

/// A cell by ranks. A function that is generic in it has no `match` in its loop.
pub(crate) trait CellRanks: Drop {
    ghost list: { Self → List ℕ };

    /// The ranks.
    fn list(&self) -> &[u32]
        ensures { result.now ≡ list self.now };

    /// The cell with a number in place of each rank.
    fn looked_up(&self, numbers: &[u32]) -> Self
        requires { All (λ r. r < length numbers.now) (list self.now) }
        ensures { list result ≡ looked_up numbers.now (list self.now) };
}

impl CellRanks for [u32; 1] {
    ghost list = { λ c. c };

    fn list(&self) -> &[u32] {
        self.as_slice()
    }

    fn looked_up(&self, numbers: &[u32]) -> [u32; 1] {
        let [a] = *self;
        [numbers[a as usize]]
    }
}

impl CellRanks for [u32; 2] {
    ghost list = { λ c. c };

    fn list(&self) -> &[u32] {
        self.as_slice()
    }

    fn looked_up(&self, numbers: &[u32]) -> [u32; 2] {
        let [a, b] = *self;
        [numbers[a as usize], numbers[b as usize]]
    }
}

impl CellRanks for [u32; 3] {
    ghost list = { λ c. c };

    fn list(&self) -> &[u32] {
        self.as_slice()
    }

    fn looked_up(&self, numbers: &[u32]) -> [u32; 3] {
        let [a, b, c] = *self;
        [
            numbers[a as usize],
            numbers[b as usize],
            numbers[c as usize],
        ]
    }
}

impl CellRanks for [u32; 4] {
    ghost list = { λ c. c };

    fn list(&self) -> &[u32] {
        self.as_slice()
    }

    fn looked_up(&self, numbers: &[u32]) -> [u32; 4] {
        let [a, b, c, d] = *self;
        [
            numbers[a as usize],
            numbers[b as usize],
            numbers[c as usize],
            numbers[d as usize],
        ]
    }
}

impl CellRanks for Mixed {
    ghost list = { λ c. c };

    fn list(&self) -> &[u32] {
        self.ranks()
    }

    fn looked_up(&self, numbers: &[u32]) -> Mixed {
        mixed_looked_up(self.ranks(), numbers)
    }
}

/// The cell of the numbers at these ranks.
fn mixed_looked_up(cell: &[u32], numbers: &[u32]) -> Mixed
    requires most { length cell.now ≤ 4 }
    requires below { All (λ r. r < length numbers.now) cell.now }
    ensures { result ≡ looked_up numbers.now cell.now }
{
    let ranks = [
        number_at(cell, numbers, 0),
        number_at(cell, numbers, 1),
        number_at(cell, numbers, 2),
        number_at(cell, numbers, 3),
    ];
    Mixed::new(cell.len() as u8, ranks)
}

/// The number at a rank of a cell, and filler behind the last one.
fn number_at(cell: &[u32], numbers: &[u32], i: usize) -> u32
    requires below { All (λ r. r < length numbers.now) cell.now }
    ensures { i < length cell.now
        → result ≡ slice_index_or numbers.now (slice_index_or cell.now i 0) 0 }
{
    if i < cell.len() {
        numbers[cell[i] as usize]
    } else {
        0
    }
}
