//! The type `Sheet`.

ghost use Rattle.std.specs.Prelude.{◌≡◌, ◌<◌, ◌≤◌, ◌^◌, [], All, length, slice_index_or};
ghost use Rattle.viz_sheet.specs.Arrays.{names_in, ranks_in, points_in};
ghost use Rattle.viz_sheet.specs.Ranked.{AreRanks, by_names, names_at, ranks_of};
ghost use Rattle.viz_sheet.specs.Sheet.{IsSheet};

use crate::leaves::Leaves;
use crate::places::Places;
use crate::ranks::Ranks;
use std::marker::Model;
use viz_fraction::Point5;

/// Cells of 1 to 4 points, and the name and point of each of their points.
///
/// The points stand in the order of their names, each once, and a cell has the ranks of its points
/// in that order. Contracts see the names, the points, and the cells by the names of their points.
#[derive(Debug, Drop)]
pub struct Sheet {
    leaves: Leaves,
    places: Places,
    ranks: Ranks,
}

impl Model for Sheet {
    ghost use Rattle.viz_sheet.specs.Sheet.{SheetData};
    ghost use Rattle.viz_sheet.specs.Ranked.{AreRanks, by_names};
    ghost use Rattle.viz_sheet.specs.Arrays.{names_in, ranks_in, points_in};

    ghost Value = { SheetData };

    ghost view = { λ s. record {
      names = names_in s.leaves;
      points = points_in s.places;
      cells = by_names (names_in s.leaves) (ranks_in s.ranks);
    } };

    ghost invariant = { λ s. AreRanks (names_in s.leaves) (points_in s.places) (ranks_in s.ranks) };
}

impl Sheet {
    /// The sheet of names that ascend, a point for each, and cells by ranks. Where a name may have
    /// no cell, call `compacted`.
    pub fn new(leaves: Leaves, places: Places, ranks: Ranks) -> Sheet
        requires ranks { AreRanks (names_in leaves) (points_in places) (ranks_in ranks) }
        ensures names { result.names ≡ names_in leaves }
        ensures points { result.points ≡ points_in places }
        ensures cells { result.cells ≡ by_names (names_in leaves) (ranks_in ranks) }
    {
        Sheet {
            leaves,
            places,
            ranks,
        }
    }

    /// Says the rule of a sheet to a caller's proof; it does nothing.
    pub fn known(&self)
        ensures valid { IsSheet self.now }
        ensures few { length self.now.names ≤ 2 ^ 32 }
    {
        let _leaves = &self.leaves;
    }

    /// How many points.
    pub fn point_count(&self) -> usize
        ensures value { result ≡ length self.now.names }
    {
        self.leaves.len()
    }

    /// The leaves of the name of a rank.
    pub fn name(&self, rank: usize) -> &[u32]
        requires { rank < length self.now.names }
        ensures value { result.now ≡ slice_index_or self.now.names rank [] }
    {
        self.leaves.get(rank)
    }

    /// The point of a rank.
    pub fn point(&self, rank: usize) -> Point5
        requires { rank < length self.now.names }
        ensures value { result ≡ slice_index_or self.now.points rank result }
    {
        self.places.get(rank)
    }

    /// How many cells.
    pub fn cell_count(&self) -> usize
        ensures value { result ≡ length self.now.cells }
    {
        self.ranks.len()
    }

    /// The ranks of a cell.
    pub fn cell(&self, i: usize) -> &[u32]
        requires { i < length self.now.cells }
        ensures names { names_at self.now.names result.now ≡ slice_index_or self.now.cells i [] }
        ensures ranks { result.now ≡ ranks_of self.now.names (slice_index_or self.now.cells i []) }
        ensures below { All (λ r. r < length self.now.names) result.now }
        ensures some { 1 ≤ length result.now }
        ensures most { length result.now ≤ 4 }
    {
        self.ranks.get(i)
    }

    /// All names, in the array that they are kept in.
    pub fn leaves(&self) -> &Leaves
        ensures value { names_in result.now ≡ self.now.names }
    {
        &self.leaves
    }

    /// All points, in the array that they are kept in.
    pub fn places(&self) -> &Places
        ensures value { points_in result.now ≡ self.now.points }
    {
        &self.places
    }

    /// All cells, in the array that they are kept in.
    pub fn ranks(&self) -> &Ranks
        ensures value { by_names self.now.names (ranks_in result.now) ≡ self.now.cells }
        ensures valid { AreRanks self.now.names self.now.points (ranks_in result.now) }
    {
        &self.ranks
    }

    /// All cells by ranks, taken out; the names and the points are given up.
    pub fn into_ranks(self) -> Ranks
        ensures value { by_names self.names (ranks_in result) ≡ self.cells }
        ensures valid { AreRanks self.names self.points (ranks_in result) }
    {
        let Sheet {
            leaves: _leaves,
            places: _places,
            ranks,
        } = self;
        ranks
    }
}
