//! The ranks of a cell of any type, as a loop over many cells sees them.

ghost use Rattle.std.specs.Prelude.{◌≡◌, ◌<◌, ◌≤◌, ℕ, List, All, length, slice_index_or};
ghost use Rattle.viz_sheet.specs.Steps.Lookup.{looked_up};

use viz_sheet::Mixed;

/// A cell by ranks. A function that is generic in it has no `match` in its loop.
pub(crate) trait RankCell: Drop {
    ghost ranks: { Self → List ℕ };

    /// The ranks.
    fn listed(&self) -> &[u32]
        ensures value { result.now ≡ ranks self.now }
        ensures most { length result.now ≤ 4 };

    /// The cell with a number in place of each rank.
    fn numbered(&self, numbers: &[u32]) -> Self
        requires { All (λ r. r < length numbers.now) (ranks self.now) }
        ensures { ranks result ≡ looked_up numbers.now (ranks self.now) };
}

impl RankCell for [u32; 1] {
    ghost ranks = { λ c. c };

    fn listed(&self) -> &[u32] {
        self.as_slice()
    }

    fn numbered(&self, numbers: &[u32]) -> [u32; 1] {
        let [a] = *self;
        [numbers[a as usize]]
    }
}

impl RankCell for [u32; 2] {
    ghost ranks = { λ c. c };

    fn listed(&self) -> &[u32] {
        self.as_slice()
    }

    fn numbered(&self, numbers: &[u32]) -> [u32; 2] {
        let [a, b] = *self;
        [numbers[a as usize], numbers[b as usize]]
    }
}

impl RankCell for [u32; 3] {
    ghost ranks = { λ c. c };

    fn listed(&self) -> &[u32] {
        self.as_slice()
    }

    fn numbered(&self, numbers: &[u32]) -> [u32; 3] {
        let [a, b, c] = *self;
        [
            numbers[a as usize],
            numbers[b as usize],
            numbers[c as usize],
        ]
    }
}

impl RankCell for [u32; 4] {
    ghost ranks = { λ c. c };

    fn listed(&self) -> &[u32] {
        self.as_slice()
    }

    fn numbered(&self, numbers: &[u32]) -> [u32; 4] {
        let [a, b, c, d] = *self;
        [
            numbers[a as usize],
            numbers[b as usize],
            numbers[c as usize],
            numbers[d as usize],
        ]
    }
}

/// The cell of any size with a number in place of each rank.
pub(crate) fn mixed_numbered(cell: &[u32], numbers: &[u32]) -> Mixed
    requires most { length cell.now ≤ 4 }
    requires below { All (λ r. r < length numbers.now) cell.now }
    ensures { result ≡ looked_up numbers.now cell.now }
{
    let ranks = [
        number_at(cell, numbers, 0),
        number_at(cell, numbers, 1),
        number_at(cell, numbers, 2),
        number_at(cell, numbers, 3),
    ];
    Mixed::new(cell.len() as u8, ranks)
}

/// The number at a rank of a cell, and filler behind the last one.
fn number_at(cell: &[u32], numbers: &[u32], i: usize) -> u32
    requires below { All (λ r. r < length numbers.now) cell.now }
    ensures { i < length cell.now
        → result ≡ slice_index_or numbers.now (slice_index_or cell.now i 0) 0 }
{
    if i < cell.len() {
        numbers[cell[i] as usize]
    } else {
        0
    }
}

/// The same ranks, as a cell of any size.
pub(crate) fn mixed_of(cell: &[u32]) -> Mixed
    requires { length cell.now ≤ 4 }
    ensures { result ≡ cell.now }
{
    let ranks = [
        rank_at(cell, 0),
        rank_at(cell, 1),
        rank_at(cell, 2),
        rank_at(cell, 3),
    ];
    Mixed::new(cell.len() as u8, ranks)
}

/// A rank of a cell, and filler behind the last one.
fn rank_at(cell: &[u32], i: usize) -> u32
    ensures { i < length cell.now → result ≡ slice_index_or cell.now i 0 }
{
    if i < cell.len() { cell[i] } else { 0 }
}
