//! How many points and cells a mesh has.

ghost use Rattle.std.specs.Prelude.{◌≡◌, ◌<◌, ◌==◌, ◌^◌, ◌↔◌, List, ℕ, IfSome, IsSome, IsTrue};
ghost use Rattle.std.specs.Prelude.{All, length, map};
ghost use Rattle.std.specs.List.{filter};
ghost use Rattle.viz_sheet.specs.Arrays.{ranks_in};
ghost use Rattle.viz_sheet.specs.Sheet.{IsSheet};
ghost use Rattle.viz_sheet.specs.Ranked.{ranks_of};
ghost use Rattle.viz_mesh_write.specs.Cells.{points_of, cells_of, of_size};
ghost use Rattle.viz_mesh_write.specs.Fits.{FitCounts};
ghost use Rattle.viz_mesh_write.specs.Steps.Tallies.{capped, IsCapped, IsReady, AreSmall};
ghost use Rattle.viz_mesh_write.specs.Steps.Tallies.{cell_count, size_count, SectionsFit};

use crate::cell_ranks::CellRanks;
use crate::sheet_cells::sheet_ranks;
use viz_image_write::counts_fit;
use viz_sheet::{Ranks, Sheet};

/// The greatest number of points, and of the cells of one size.
const MOST: u64 = (1 << 31) - 1;

/// How many points, and how many cells of each size.
#[derive(Clone, Copy)]
pub(crate) struct Tally {
    pub(crate) points: u64,
    pub(crate) vertices: u64,
    pub(crate) lines: u64,
    pub(crate) triangles: u64,
    pub(crate) tetrahedra: u64,
}

/// How many of these cells have so many points.
fn count_cells<C: CellRanks>(cells: &[C], size: usize) -> usize
    ensures { result ≡ length (filter (λ cell. length (C.list cell) == size) cells.now) }
{
    let mut count = 0;
    for cell in cells {
        if cell.list().len() == size {
            count += 1;
        }
    }
    count
}

/// The same of cells by ranks.
fn count_ranks(ranks: &Ranks, size: usize) -> usize
    ensures { result ≡ length (of_size size (ranks_in ranks.now)) }
{
    match ranks {
        Ranks::Vertices(cells) => count_cells(cells, size),
        Ranks::Lines(cells) => count_cells(cells, size),
        Ranks::Triangles(cells) => count_cells(cells, size),
        Ranks::Tetrahedra(cells) => count_cells(cells, size),
        Ranks::Any(cells) => count_cells(cells, size),
    }
}

/// The same of the cells of a sheet.
fn count_sheet(sheet: &Sheet, size: usize) -> usize
    ensures { result ≡ length (of_size size (map (ranks_of sheet.now.names) sheet.now.cells)) }
{
    count_ranks(sheet_ranks(sheet), size)
}

/// How many cells of all sheets have so many points, or the greatest number of 64 bits.
fn count_of_size(sheets: &[Sheet], size: usize) -> u64
    ensures { result ≡ capped (length (of_size size (cells_of sheets.now))) }
{
    let mut count: u64 = 0;
    for sheet in sheets {
        count = count.saturating_add(count_sheet(sheet, size) as u64);
    }
    count
}

/// How many points all sheets have, or the greatest number of 64 bits.
fn count_points(sheets: &[Sheet]) -> u64
    ensures { result ≡ capped (length (points_of sheets.now)) }
{
    let mut count: u64 = 0;
    for sheet in sheets {
        count = count.saturating_add(sheet.places().len() as u64);
    }
    count
}

/// All counts, each at most the greatest number of 64 bits.
fn capped_tally(sheets: &[Sheet]) -> Tally
    ensures { IsCapped sheets.now result }
{
    Tally {
        points: count_points(sheets),
        vertices: count_of_size(sheets, 1),
        lines: count_of_size(sheets, 2),
        triangles: count_of_size(sheets, 3),
        tetrahedra: count_of_size(sheets, 4),
    }
}

impl Tally {
    /// Whether each count is small enough to be multiplied and added.
    fn is_small(&self) -> bool
        ensures { IsTrue result ↔ AreSmall self.now }
    {
        self.points <= MOST
            && self.vertices <= MOST
            && self.lines <= MOST
            && self.triangles <= MOST
            && self.tetrahedra <= MOST
    }

    /// How many cells.
    pub(crate) fn cells(&self) -> u64
        requires { AreSmall self.now }
        ensures { result ≡ cell_count self.now }
    {
        self.vertices + self.lines + self.triangles + self.tetrahedra
    }

    /// How many numbers all cells have.
    pub(crate) fn size(&self) -> u64
        requires { AreSmall self.now }
        ensures { result ≡ size_count self.now }
    {
        2 * self.vertices + 3 * self.lines + 4 * self.triangles + 5 * self.tetrahedra
    }

    /// Whether each section has few enough numbers.
    fn sections_fit(&self) -> bool
        requires { AreSmall self.now }
        ensures { IsTrue result ↔ SectionsFit self.now }
    {
        if self.tetrahedra > 0 {
            return counts_fit(self.points, self.size());
        }
        counts_fit(self.points, 2 * self.vertices)
            && counts_fit(self.points, 3 * self.lines)
            && counts_fit(self.points, 4 * self.triangles)
    }

    /// Whether the counts may be written.
    fn fits(&self) -> bool
        ensures { IsTrue result ↔ (AreSmall self.now × SectionsFit self.now) }
    {
        self.is_small() && self.sections_fit()
    }
}

/// The counts, where they may be written.
pub(crate) fn counted(sheets: &[Sheet]) -> Option<Tally>
    ensures some { IsSome result ↔ FitCounts sheets.now }
    ensures value { IfSome result (IsReady sheets.now) }
{
    known(sheets);
    let tally = capped_tally(sheets);
    if !tally.fits() {
        return None;
    }
    Some(tally)
}

/// Says the rule of each sheet to a caller's proof; it does nothing.
pub(crate) fn known(sheets: &[Sheet])
    ensures { All IsSheet sheets.now }
{
    for sheet in sheets {
        sheet.known();
    }
}
