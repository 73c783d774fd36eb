//! The text of a mesh.

ghost use Rattle.std.specs.Prelude.{◌≡◌, ◌≢◌, ◌∷◌, [], ◌+◌, ◌*◌, ◌<◌, ◌≤◌, ◌^◌, ◌++◌, All, Err, OnOk};
ghost use Rattle.std.specs.Prelude.{IfOk, IfSome, IfNone, IsErrOf, codes, false, length};
ghost use Rattle.viz_mesh_write.specs.Cells.{cells_of, of_size, points_of};
ghost use Rattle.viz_mesh_write.specs.Fits.{FitNumbers, FitRows};
ghost use Rattle.viz_mesh_write.specs.MeshText.{coordinates, points_text, scalars, scalars_text};
ghost use Rattle.viz_mesh_write.specs.MeshText.{size_of, some_section};
ghost use Rattle.viz_sheet.specs.Arrays.{points_in, ranks_in};
ghost use Rattle.viz_sheet.specs.Ranked.{IsCell};
ghost use Rattle.viz_strip.specs.Strips.{AreStrips};
ghost use Rattle.viz_strip_write.specs.FitStrips.{AreFew, FitCells, FitCounts, FitStrips};
ghost use Rattle.viz_strip_write.specs.StripText.{IsCountedText, IsFlat, IsStripText, IsStripped};
ghost use Rattle.viz_strip_write.specs.StripText.{cells_text, text_by};

use crate::cells::{count_of_size, put_of_size, put_rows, size_of_rows, triangles_of};
use crate::heads::{put_head, put_points_line, put_scalars_head, put_section_line};
use crate::points::{Coordinates, Scalar, put_points};
use crate::stop::StripStop;
use crate::stripped::Stripped;
use std::alloc::{AllocError, Global};
use viz_base::Bytes;
use viz_sheet::{Mesh, Places, Ranks, Sheet};
use viz_strip::{Rows, ranked_strips};

/// More points, or numbers of a section, than may be written.
const MOST: u64 = 1 << 31;

/// The cells of so many points as a section, where there are any.
fn put_some_section(
    text: &mut Vec<u8>,
    keyword: &[u8],
    size: usize,
    n: u64,
    ranks: &Ranks,
) -> Result<(), AllocError>
    requires count { n ≡ length (of_size size (ranks_in ranks.now)) }
    requires fits { (size + 1) * n < 2 ^ 31 }
    requires small { size < 4 }
    ensures { OnOk result (text.new.items
        ≡ text.old.items ++ some_section false false keyword.now (of_size size (ranks_in ranks.now))) }
{
    if n == 0 {
        return Ok(());
    }
    put_section_line(text, keyword, n, (size as u64 + 1) * n)?;
    put_of_size(text, size, ranks)?;
    Ok(())
}

/// The strips as a section, where there are any.
fn put_strips(text: &mut Vec<u8>, size: u64, rows: &Rows) -> Result<(), AllocError>
    requires size { size ≡ size_of rows.now }
    ensures { OnOk result (text.new.items
        ≡ text.old.items ++ some_section false false (codes "TRIANGLE_STRIPS") rows.now) }
{
    if rows.len() == 0 {
        return Ok(());
    }
    put_section_line(text, b"TRIANGLE_STRIPS", rows.len() as u64, size)?;
    put_rows(text, rows)?;
    Ok(())
}

/// How many vertices and lines there are.
#[derive(Clone, Copy)]
pub(crate) struct Counts {
    pub(crate) vertices: u64,
    pub(crate) lines: u64,
}

/// How many vertices and lines there are, where these and the points may be written.
fn counted(points: u64, ranks: &Ranks) -> Option<Counts>
    ensures some { IfSome result (λ c. AreFew (ranks_in ranks.now) c.vertices c.lines) }
    ensures fits { IfSome result (λ _. FitCells points (ranks_in ranks.now)) }
    ensures none { IfNone result (¬ FitCells points (ranks_in ranks.now)) }
{
    let vertices = count_of_size(ranks, 1);
    let lines = count_of_size(ranks, 2);
    if points >= MOST || vertices > (MOST - 1) / 2 || lines > (MOST - 1) / 3 {
        return None;
    }
    Some(Counts { vertices, lines })
}

/// The strips of the triangles among cells.
fn strips_of(alloc: Global, points: usize, ranks: &Ranks) -> Result<Rows, AllocError>
    requires { All (IsCell points) (ranks_in ranks.now) }
    ensures { IfOk result (λ rows. AreStrips (of_size 3 (ranks_in ranks.now)) rows) }
{
    let triangles = triangles_of(alloc, ranks)?;
    let rows = ranked_strips(alloc, points, &triangles)?;
    Ok(rows)
}

/// The cells.
fn put_cells(
    text: &mut Vec<u8>,
    counts: Counts,
    size: u64,
    ranks: &Ranks,
    rows: &Rows,
) -> Result<(), AllocError>
    requires counts { AreFew (ranks_in ranks.now) counts.vertices counts.lines }
    requires size { size ≡ size_of rows.now }
    ensures { OnOk result (text.new.items
        ≡ text.old.items ++ cells_text (ranks_in ranks.now) rows.now) }
{
    if ranks.len() == 0 {
        put_section_line(text, b"POLYGONS", 0, 0)?;
        return Ok(());
    }
    put_some_section(text, b"VERTICES", 1, counts.vertices, ranks)?;
    put_some_section(text, b"LINES", 2, counts.lines, ranks)?;
    put_strips(text, size, rows)?;
    Ok(())
}

/// The points.
fn put_points_text(text: &mut Vec<u8>, places: &Places) -> Result<(), StripStop>
    ensures ok { OnOk result (text.new.items
        ≡ text.old.items ++ points_text false 3 (points_in places.now)) }
    ensures fits { OnOk result (FitRows (coordinates 3) (points_in places.now)) }
    ensures too_wide { IsErrOf result StripStop.TooWide
        → ¬ FitRows (coordinates 3) (points_in places.now) }
    ensures few { result ≢ Err StripStop.TooMany }
{
    put_points_line(text, places.len() as u64)?;
    put_points::<Coordinates>(text, places)?;
    Ok(())
}

/// The scalars, where there are points.
fn put_scalars_text(text: &mut Vec<u8>, places: &Places) -> Result<(), StripStop>
    ensures ok { OnOk result (text.new.items
        ≡ text.old.items ++ scalars_text false (points_in places.now)) }
    ensures fits { OnOk result (FitRows scalars (points_in places.now)) }
    ensures too_wide { IsErrOf result StripStop.TooWide
        → ¬ FitRows scalars (points_in places.now) }
    ensures few { result ≢ Err StripStop.TooMany }
{
    if places.len() == 0 {
        return Ok(());
    }
    put_scalars_head(text, places.len() as u64)?;
    put_points::<Scalar>(text, places)?;
    Ok(())
}

/// The whole text.
#[tactic(auto, unfolding(crate::specs::StripText::text_by))]
fn put_text(
    text: &mut Vec<u8>,
    counts: Counts,
    size: u64,
    places: &Places,
    ranks: &Ranks,
    rows: &Rows,
) -> Result<(), StripStop>
    requires counts { AreFew (ranks_in ranks.now) counts.vertices counts.lines }
    requires size { size ≡ size_of rows.now }
    ensures ok { OnOk result (text.new.items ≡ text.old.items
        ++ text_by (points_in places.now) (ranks_in ranks.now) rows.now) }
    ensures coordinates { OnOk result (FitRows (coordinates 3) (points_in places.now)) }
    ensures scalars { OnOk result (FitRows scalars (points_in places.now)) }
    ensures too_wide { IsErrOf result StripStop.TooWide
        → FitRows (coordinates 3) (points_in places.now)
        → ¬ FitRows scalars (points_in places.now) }
    ensures few { result ≢ Err StripStop.TooMany }
{
    put_head(text)?;
    put_points_text(text, places)?;
    put_cells(text, counts, size, ranks, rows)?;
    put_scalars_text(text, places)?;
    Ok(())
}

/// The cells of a sheet by ranks: those of a mesh of this sheet alone.
fn ranks_of(sheet: &Sheet) -> &Ranks
    ensures cells { ranks_in result.now ≡ cells_of (sheet.now ∷ []) }
    ensures each { All (IsCell (length (points_of (sheet.now ∷ [])))) (ranks_in result.now) }
{
    sheet.ranks()
}

/// The points of a sheet: those of a mesh of this sheet alone.
fn places_of(sheet: &Sheet) -> &Places
    ensures { points_in result.now ≡ points_of (sheet.now ∷ []) }
{
    sheet.places()
}

/// The text of points and cells with these strips.
fn text_with(
    alloc: Global,
    counts: Counts,
    places: &Places,
    ranks: &Ranks,
    rows: &Rows,
) -> Result<Vec<u8>, StripStop>
    requires counts { AreFew (ranks_in ranks.now) counts.vertices counts.lines }
    requires fits { FitCells (length (points_in places.now)) (ranks_in ranks.now) }
    requires strips { AreStrips (of_size 3 (ranks_in ranks.now)) rows.now }
    ensures value { IfOk result (λ v. v.items
        ≡ text_by (points_in places.now) (ranks_in ranks.now) rows.now) }
    ensures counts { OnOk result
        (FitCounts (length (points_in places.now)) (ranks_in ranks.now)) }
    ensures coordinates { OnOk result (FitRows (coordinates 3) (points_in places.now)) }
    ensures scalars { OnOk result (FitRows scalars (points_in places.now)) }
    ensures too_many { IsErrOf result StripStop.TooMany
        → ¬ FitCounts (length (points_in places.now)) (ranks_in ranks.now) }
    ensures wide_counts { IsErrOf result StripStop.TooWide
        → FitCounts (length (points_in places.now)) (ranks_in ranks.now) }
    ensures too_wide { IsErrOf result StripStop.TooWide
        → FitRows (coordinates 3) (points_in places.now)
        → ¬ FitRows scalars (points_in places.now) }
{
    let Some(size) = size_of_rows(rows) else {
        return Err(StripStop::TooMany);
    };
    let mut text = Vec::new(alloc);
    put_text(&mut text, counts, size, places, ranks, rows)?;
    Ok(text)
}

/// The text of points and cells.
fn text_of(alloc: Global, places: &Places, ranks: &Ranks) -> Result<Stripped, StripStop>
    requires each { All (IsCell (length (points_in places.now))) (ranks_in ranks.now) }
    ensures value { IfOk result (IsCountedText (points_in places.now) (ranks_in ranks.now)) }
    ensures counts { OnOk result
        (FitCounts (length (points_in places.now)) (ranks_in ranks.now)) }
    ensures coordinates { OnOk result (FitRows (coordinates 3) (points_in places.now)) }
    ensures scalars { OnOk result (FitRows scalars (points_in places.now)) }
    ensures too_many { IsErrOf result StripStop.TooMany
        → ¬ FitCounts (length (points_in places.now)) (ranks_in ranks.now) }
    ensures wide_counts { IsErrOf result StripStop.TooWide
        → FitCounts (length (points_in places.now)) (ranks_in ranks.now) }
    ensures too_wide { IsErrOf result StripStop.TooWide
        → FitRows (coordinates 3) (points_in places.now)
        → ¬ FitRows scalars (points_in places.now) }
{
    let Some(counts) = counted(places.len() as u64, ranks) else {
        return Err(StripStop::TooMany);
    };
    let rows = strips_of(alloc, places.len(), ranks)?;
    let text = text_with(alloc, counts, places, ranks, &rows)?;
    Ok(Stripped {
        text: Bytes::new(text),
        strips: rows.len() as u64,
        triangles: count_of_size(ranks, 3),
    })
}

/// The text of a sheet.
fn sheet_text(alloc: Global, sheet: &Sheet) -> Result<Stripped, StripStop>
    ensures value { IfOk result (IsStripped (sheet.now ∷ [])) }
    ensures counts { OnOk result (FitStrips (sheet.now ∷ [])) }
    ensures numbers { OnOk result (FitNumbers 3 (sheet.now ∷ [])) }
    ensures too_many { IsErrOf result StripStop.TooMany → ¬ FitStrips (sheet.now ∷ []) }
    ensures wide_counts { IsErrOf result StripStop.TooWide → FitStrips (sheet.now ∷ []) }
    ensures too_wide { IsErrOf result StripStop.TooWide → ¬ FitNumbers 3 (sheet.now ∷ []) }
{
    let text = text_of(alloc, places_of(sheet), ranks_of(sheet))?;
    Ok(text)
}

/// The text that `strip_text` gives, with how many strips and triangles it has.
///
/// # Errors
///
/// Those of `strip_text`.
pub fn counted_strip_text(alloc: Global, mesh: &Mesh) -> Result<Stripped, StripStop>
    requires flat { IsFlat mesh.now }
    ensures value { IfOk result (IsStripped mesh.now) }
    ensures fits { OnOk result (FitStrips mesh.now × FitNumbers 3 mesh.now) }
    ensures too_many { IsErrOf result StripStop.TooMany → ¬ FitStrips mesh.now }
    ensures too_wide { IsErrOf result StripStop.TooWide
        → FitStrips mesh.now × ¬ FitNumbers 3 mesh.now }
{
    let sheets = mesh.sheets();
    let made = sheet_text(alloc, &sheets[0])?;
    Ok(made)
}

/// The text of a mesh of one sheet of leaves without tetrahedra: as polydata in words with three
/// places, whose triangles are strips. Coordinates are rounded down to thousandths, scalars to
/// whole numbers.
///
/// # Errors
///
/// `TooMany` only where the counts don't fit, and `TooWide` only where they fit and a written
/// number doesn't; a text comes only where all fit. Want of memory may come in place of each.
pub fn strip_text(alloc: Global, mesh: &Mesh) -> Result<Bytes, StripStop>
    requires flat { IsFlat mesh.now }
    ensures value { IfOk result (λ text. IsStripText mesh.now text) }
    ensures fits { OnOk result (FitStrips mesh.now × FitNumbers 3 mesh.now) }
    ensures too_many { IsErrOf result StripStop.TooMany → ¬ FitStrips mesh.now }
    ensures too_wide { IsErrOf result StripStop.TooWide
        → FitStrips mesh.now × ¬ FitNumbers 3 mesh.now }
{
    let made = counted_strip_text(alloc, mesh)?;
    Ok(made.text)
}
