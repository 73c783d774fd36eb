//! Cells by the ranks of their points.

ghost use Rattle.std.specs.Prelude.{◌≡◌, ◌<◌, [], length, slice_index_or};
ghost use Rattle.viz_sheet.specs.Arrays.{ranks_in};

use crate::mixed::Mixed;

/// Cells of one size, or of any.
#[derive(Debug, Drop)]
pub enum Ranks {
    Vertices(Vec<[u32; 1]>),
    Lines(Vec<[u32; 2]>),
    Triangles(Vec<[u32; 3]>),
    Tetrahedra(Vec<[u32; 4]>),
    Any(Vec<Mixed>),
}

impl Ranks {
    /// How many cells.
    pub fn len(&self) -> usize
        ensures value { result ≡ length (ranks_in self.now) }
    {
        match self {
            Ranks::Vertices(cells) => cells.len(),
            Ranks::Lines(cells) => cells.len(),
            Ranks::Triangles(cells) => cells.len(),
            Ranks::Tetrahedra(cells) => cells.len(),
            Ranks::Any(cells) => cells.len(),
        }
    }

    /// The ranks of a cell.
    pub fn get(&self, index: usize) -> &[u32]
        requires { index < length (ranks_in self.now) }
        ensures value { result.now ≡ slice_index_or (ranks_in self.now) index [] }
    {
        match self {
            Ranks::Vertices(cells) => cells[index].as_slice(),
            Ranks::Lines(cells) => cells[index].as_slice(),
            Ranks::Triangles(cells) => cells[index].as_slice(),
            Ranks::Tetrahedra(cells) => cells[index].as_slice(),
            Ranks::Any(cells) => mixed_at(cells, index),
        }
    }
}

/// The ranks of a cell among cells of any size.
fn mixed_at(cells: &[Mixed], index: usize) -> &[u32]
    requires { index < length cells.now }
    ensures { result.now ≡ slice_index_or cells.now index [] }
{
    let cell = &cells[index];
    cell.ranks()
}
