//! How many cells and points are written of a dataset.

ghost use Rattle.std.specs.Prelude.{◌≡◌, ◌≤◌, ◌^◌, None, IfSome, length};
ghost use Rattle.viz_mesh_write.specs.Cells.{cells_of, points_of};
ghost use Rattle.viz_mesh_write.specs.Counts.{cells_written, points_written};

use viz_dataset::Dataset;
use viz_kuhn::cubes;
use viz_sheet::Sheet;

// How many cells all sheets have; None past 64 bits.
fn cells_in(sheets: &[Sheet]) -> Option<u64>
    ensures value { IfSome result (λ n. n ≡ length (cells_of sheets.now)) }
    ensures none { result ≡ None → 2 ^ 64 ≤ length (cells_of sheets.now) }
{
    let mut count: u64 = 0;
    for sheet in sheets {
        count = count.checked_add(sheet.cell_count() as u64)?;
    }
    Some(count)
}

// How many points all sheets have; None past 64 bits.
fn points_in(sheets: &[Sheet]) -> Option<u64>
    ensures value { IfSome result (λ n. n ≡ length (points_of sheets.now)) }
    ensures none { result ≡ None → 2 ^ 64 ≤ length (points_of sheets.now) }
{
    let mut count: u64 = 0;
    for sheet in sheets {
        count = count.checked_add(sheet.places().len() as u64)?;
    }
    Some(count)
}

/// How many cells are written of a dataset; None past 64 bits, which no text has.
pub fn cell_count(dataset: &Dataset) -> Option<u64>
    ensures value { IfSome result (λ n. n ≡ cells_written dataset.now) }
    ensures none { result ≡ None → 2 ^ 64 ≤ cells_written dataset.now }
{
    match dataset {
        Dataset::Image(image) => Some(cubes(&image.extent())),
        Dataset::Mesh(mesh) => cells_in(mesh.sheets()),
    }
}

/// How many points are written of a dataset; None past 64 bits, which no text has.
pub fn point_count(dataset: &Dataset) -> Option<u64>
    ensures value { IfSome result (λ n. n ≡ points_written dataset.now) }
    ensures none { result ≡ None → 2 ^ 64 ≤ points_written dataset.now }
{
    match dataset {
        Dataset::Image(image) => Some(image.extent().count()),
        Dataset::Mesh(mesh) => points_in(mesh.sheets()),
    }
}
