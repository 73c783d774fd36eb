//! The numbers of the cells of a section, and the arrays that keep them.

ghost use Rattle.std.specs.Prelude.{◌≡◌, IfOk};
ghost use Rattle.viz_counted_cells.specs.Numbered.{numbers_held, first_count, behind_first};
ghost use Rattle.viz_counted_cells.specs.Numbered.{first_indices};

use crate::fixed_cells::flattened;
use std::alloc::{AllocError, Global};
use std::marker::Model;

/// Arrays that keep the numbers of cells.
#[derive(Debug, Drop)]
pub enum CellArrays {
    /// The numbers of cells of any size: of each its count, and then its indices.
    Mixed(Vec<u32>),
    /// The indices of cells of three each.
    Triangles(Vec<[u32; 3]>),
    /// The indices of cells of four each.
    Tetrahedra(Vec<[u32; 4]>),
}

/// The numbers of the cells of a section, one cell after the other: of each its count, and then its
/// indices. Contracts see their list.
#[derive(Debug, Drop)]
pub struct CellNumbers {
    arrays: CellArrays,
}

impl Model for CellNumbers {
    ghost use Rattle.viz_counted_cells.specs.Numbered.{Numbered, numbers_held};

    ghost Value = { Numbered };

    ghost view = { λ n. record { items = numbers_held n.arrays } };
}

impl CellNumbers {
    /// The numbers that these arrays keep.
    pub fn of(arrays: CellArrays) -> CellNumbers
        ensures value { result.items ≡ numbers_held arrays }
    {
        CellNumbers { arrays }
    }

    /// The arrays that keep the numbers.
    pub fn arrays(&self) -> &CellArrays
        ensures value { numbers_held result.now ≡ self.now.items }
    {
        &self.arrays
    }

    /// The arrays that keep the numbers, which are given up.
    pub fn into_arrays(self) -> CellArrays
        ensures value { numbers_held result ≡ self.items }
    {
        let CellNumbers { arrays } = self;
        arrays
    }

    /// How many numbers there are: room for as many items, of which contracts see nothing.
    pub fn room(&self) -> usize {
        match &self.arrays {
            CellArrays::Mixed(numbers) => numbers.len(),
            CellArrays::Triangles(cells) => cells.len().saturating_mul(4),
            CellArrays::Tetrahedra(cells) => cells.len().saturating_mul(5),
        }
    }

    /// All the numbers in one array, which is their own where they stand in one.
    pub fn into_list(self, alloc: Global) -> Result<Vec<u32>, AllocError>
        ensures value { IfOk result (λ v. v.items ≡ self.items) }
    {
        match self.into_arrays() {
            CellArrays::Mixed(numbers) => Ok(numbers),
            CellArrays::Triangles(cells) => flattened(alloc, &cells),
            CellArrays::Tetrahedra(cells) => flattened(alloc, &cells),
        }
    }
}

/// The count of the first cell, and 0 where there is none.
pub fn first_count(numbers: &[u32]) -> u32
    ensures value { result ≡ first_count numbers.now }
{
    match numbers {
        [c, ..] => *c,
        [] => 0,
    }
}

/// The numbers behind the first cell, and none where there is no cell.
pub fn behind_first(numbers: &[u32]) -> &[u32]
    ensures value { result.now ≡ behind_first numbers.now }
{
    match numbers {
        [c, rest @ ..] => &rest[(*c as usize).min(rest.len())..],
        [] => numbers,
    }
}

/// The indices of the first cell, and none where there is no cell.
pub fn first_indices(numbers: &[u32]) -> &[u32]
    ensures value { result.now ≡ first_indices numbers.now }
{
    match numbers {
        [c, rest @ ..] => &rest[..(*c as usize).min(rest.len())],
        [] => numbers,
    }
}
