//! The sections of cells, and their types.

ghost use Rattle.std.specs.Prelude.{◌≡◌, ◌<◌, ◌*◌, ◌+◌, ◌^◌, ◌++◌, OnOk, length, map};
ghost use Rattle.viz_mesh_write.specs.Cells.{of_size};
ghost use Rattle.viz_mesh_write.specs.MeshText.{types_text, grid_text, some_section};
ghost use Rattle.viz_mesh_write.specs.MeshText.{parts_text, poly_text, cells_text};
ghost use Rattle.viz_mesh_write.specs.Rows.{block_end};
ghost use Rattle.viz_mesh_write.specs.Sections.{index_count, offsets_text};
ghost use Rattle.viz_mesh_write.specs.Sections.{offset_section, counted_section, section_text};
ghost use Rattle.viz_mesh_write.specs.Steps.Kinds.{written_by};
ghost use Rattle.viz_mesh_write.specs.Steps.Passes.{cell_rows, kept};
ghost use Rattle.viz_mesh_write.specs.Steps.SheetCells.{points_by, indices_by};
ghost use Rattle.viz_mesh_write.specs.Steps.Tallies.{AreCounted};

use crate::cell_passes::put_all_cells;
use crate::cell_rows::{Numbers, OfCells, Types};
use crate::heads::{put_connectivity_line, put_offsets_line, put_section_line, put_types_line};
use crate::numbers::put_end;
use crate::sheet_cells::SheetCells;
use crate::starts::offsets_of;
use crate::tally::Tally;
use crate::target::Target;
use std::alloc::AllocError;
use viz_sheet::Ranks;

/// The rows of cells, and what stands behind so many.
fn put_block<T: Target, S: SheetCells>(
    text: &mut T,
    binary: bool,
    what: &OfCells,
    n: u64,
    sheets: &[S],
) -> Result<(), AllocError>
    requires needs { T.needs }
    requires ready { points_by S.seen sheets.now < 2 ^ 31 }
    ensures { OnOk result (T.text text.new ≡ T.text text.old
        ++ (cell_rows (written_by what.now binary) 0 (map S.seen sheets.now)
        ++ block_end binary n)) }
{
    put_all_cells(text, binary, what, sheets)?;
    put_end(text, binary, n)?;
    Ok(())
}

/// The offsets of a section of so many cells.
fn put_offsets<T: Target, S: SheetCells>(
    text: &mut T,
    binary: bool,
    size: Option<usize>,
    n: u64,
    sheets: &[S],
) -> Result<(), AllocError>
    requires needs { T.needs }
    requires count { n ≡ length (kept size (indices_by S.seen sheets.now)) }
    requires small { n < 2 ^ 31 }
    requires few { index_count (kept size (indices_by S.seen sheets.now)) < 2 ^ 31 }
    ensures { OnOk result (T.text text.new ≡ T.text text.old
        ++ offsets_text binary (kept size (indices_by S.seen sheets.now))) }
{
    put_offsets_line(text)?;
    let offsets = offsets_of(text.alloc(), size, n, sheets)?;
    let what = OfCells::Numbers(Numbers {
        size: None,
        later: true,
    });
    text.put_ranks(binary, &what, 0, &Ranks::Vertices(offsets))?;
    put_end(text, binary, n + 1)?;
    Ok(())
}

/// A section of version 5.1: of so many cells and indices, those of the cells of so many points,
/// where they are given, and else of all.
fn put_offset_section<T: Target, S: SheetCells>(
    text: &mut T,
    binary: bool,
    keyword: &[u8],
    size: Option<usize>,
    counts: (u64, u64),
    sheets: &[S],
) -> Result<(), AllocError>
    requires needs { T.needs }
    requires points { points_by S.seen sheets.now < 2 ^ 31 }
    requires count { counts.0 ≡ length (kept size (indices_by S.seen sheets.now)) }
    requires indices { counts.1 ≡ index_count (kept size (indices_by S.seen sheets.now)) }
    requires fits { counts.0 + counts.1 < 2 ^ 31 }
    ensures { OnOk result (T.text text.new ≡ T.text text.old
        ++ offset_section binary keyword.now (kept size (indices_by S.seen sheets.now))) }
{
    let (n, indices) = counts;
    put_section_line(text, keyword, n + 1, indices)?;
    put_offsets(text, binary, size, n, sheets)?;
    put_connectivity_line(text)?;
    let what = OfCells::Numbers(Numbers { size, later: true });
    put_block(text, binary, &what, n, sheets)?;
    Ok(())
}

/// The same of version 3.0.
fn put_counted_section<T: Target, S: SheetCells>(
    text: &mut T,
    binary: bool,
    keyword: &[u8],
    size: Option<usize>,
    counts: (u64, u64),
    sheets: &[S],
) -> Result<(), AllocError>
    requires needs { T.needs }
    requires points { points_by S.seen sheets.now < 2 ^ 31 }
    requires count { counts.0 ≡ length (kept size (indices_by S.seen sheets.now)) }
    requires indices { counts.1 ≡ index_count (kept size (indices_by S.seen sheets.now)) }
    requires fits { counts.0 + counts.1 < 2 ^ 31 }
    ensures { OnOk result (T.text text.new ≡ T.text text.old
        ++ counted_section binary keyword.now (kept size (indices_by S.seen sheets.now))) }
{
    let (n, indices) = counts;
    put_section_line(text, keyword, n, n + indices)?;
    let what = OfCells::Numbers(Numbers { size, later: false });
    put_block(text, binary, &what, n, sheets)?;
    Ok(())
}

/// The same of either version.
fn put_section<T: Target, S: SheetCells>(
    text: &mut T,
    later: bool,
    binary: bool,
    keyword: &[u8],
    size: Option<usize>,
    counts: (u64, u64),
    sheets: &[S],
) -> Result<(), AllocError>
    requires needs { T.needs }
    requires points { points_by S.seen sheets.now < 2 ^ 31 }
    requires count { counts.0 ≡ length (kept size (indices_by S.seen sheets.now)) }
    requires indices { counts.1 ≡ index_count (kept size (indices_by S.seen sheets.now)) }
    requires fits { counts.0 + counts.1 < 2 ^ 31 }
    ensures { OnOk result (T.text text.new ≡ T.text text.old
        ++ section_text later binary keyword.now (kept size (indices_by S.seen sheets.now))) }
{
    if later {
        put_offset_section(text, binary, keyword, size, counts, sheets)
    } else {
        put_counted_section(text, binary, keyword, size, counts, sheets)
    }
}

/// The cells of so many points as a section, where there are any.
fn put_some_section<T: Target, S: SheetCells>(
    text: &mut T,
    later: bool,
    binary: bool,
    keyword: &[u8],
    size: usize,
    n: u64,
    sheets: &[S],
) -> Result<(), AllocError>
    requires needs { T.needs }
    requires few { points_by S.seen sheets.now < 2 ^ 31 }
    requires count { n ≡ length (of_size size (indices_by S.seen sheets.now)) }
    requires fits { (size + 1) * n < 2 ^ 31 }
    requires small { size < 4 }
    ensures { OnOk result (T.text text.new
        ≡ T.text text.old
        ++ some_section later binary keyword.now (of_size size (indices_by S.seen sheets.now))) }
{
    if n == 0 {
        return Ok(());
    }
    let counts = (n, size as u64 * n);
    put_section(text, later, binary, keyword, Some(size), counts, sheets)
}

/// The cells of polydata, where there are any.
#[tactic(auto, unfolding(crate::specs::MeshText::parts_text))]
fn put_parts<T: Target, S: SheetCells>(
    text: &mut T,
    later: bool,
    binary: bool,
    tally: &Tally,
    sheets: &[S],
) -> Result<(), AllocError>
    requires needs { T.needs }
    requires few { points_by S.seen sheets.now < 2 ^ 31 }
    requires ready { AreCounted (indices_by S.seen sheets.now) tally.now }
    requires vertices { 2 * tally.now.vertices < 2 ^ 31 }
    requires lines { 3 * tally.now.lines < 2 ^ 31 }
    requires triangles { 4 * tally.now.triangles < 2 ^ 31 }
    ensures { OnOk result (T.text text.new
        ≡ T.text text.old ++ parts_text later binary (indices_by S.seen sheets.now)) }
{
    put_some_section(text, later, binary, b"VERTICES", 1, tally.vertices, sheets)?;
    put_some_section(text, later, binary, b"LINES", 2, tally.lines, sheets)?;
    put_some_section(text, later, binary, b"POLYGONS", 3, tally.triangles, sheets)?;
    Ok(())
}

/// The cells of polydata.
fn put_poly<T: Target, S: SheetCells>(
    text: &mut T,
    later: bool,
    binary: bool,
    tally: &Tally,
    sheets: &[S],
) -> Result<(), AllocError>
    requires needs { T.needs }
    requires few { points_by S.seen sheets.now < 2 ^ 31 }
    requires ready { AreCounted (indices_by S.seen sheets.now) tally.now }
    requires none { tally.now.tetrahedra ≡ 0 }
    ensures { OnOk result (T.text text.new
        ≡ T.text text.old ++ poly_text later binary (indices_by S.seen sheets.now)) }
{
    if tally.cells() == 0 {
        put_section(text, later, binary, b"POLYGONS", None, (0, 0), sheets)
    } else {
        put_parts(text, later, binary, tally, sheets)
    }
}

/// The types of the cells of a grid.
fn put_types<T: Target, S: SheetCells>(
    text: &mut T,
    binary: bool,
    n: u64,
    sheets: &[S],
) -> Result<(), AllocError>
    requires needs { T.needs }
    requires few { points_by S.seen sheets.now < 2 ^ 31 }
    requires count { n ≡ length (indices_by S.seen sheets.now) }
    ensures { OnOk result (T.text text.new
        ≡ T.text text.old ++ types_text binary (indices_by S.seen sheets.now)) }
{
    put_types_line(text, n)?;
    put_block(text, binary, &OfCells::Types(Types), n, sheets)?;
    Ok(())
}

/// The cells of a grid, and their types.
fn put_grid<T: Target, S: SheetCells>(
    text: &mut T,
    later: bool,
    binary: bool,
    tally: &Tally,
    sheets: &[S],
) -> Result<(), AllocError>
    requires needs { T.needs }
    requires few { points_by S.seen sheets.now < 2 ^ 31 }
    requires ready { AreCounted (indices_by S.seen sheets.now) tally.now }
    requires some { 0 < tally.now.tetrahedra }
    ensures { OnOk result (T.text text.new
        ≡ T.text text.old ++ grid_text later binary (indices_by S.seen sheets.now)) }
{
    let n = tally.cells();
    let counts = (n, tally.size() - n);
    put_section(text, later, binary, b"CELLS", None, counts, sheets)?;
    put_types(text, binary, n, sheets)?;
    Ok(())
}

/// The cells: of a grid where a tetrahedron is there, and else of polydata.
pub(crate) fn put_cells_text<T: Target, S: SheetCells>(
    text: &mut T,
    later: bool,
    binary: bool,
    tally: &Tally,
    sheets: &[S],
) -> Result<(), AllocError>
    requires needs { T.needs }
    requires few { points_by S.seen sheets.now < 2 ^ 31 }
    requires ready { AreCounted (indices_by S.seen sheets.now) tally.now }
    ensures { OnOk result (T.text text.new
        ≡ T.text text.old ++ cells_text later binary (indices_by S.seen sheets.now)) }
{
    if tally.tetrahedra == 0 {
        put_poly(text, later, binary, tally, sheets)
    } else {
        put_grid(text, later, binary, tally, sheets)
    }
}
