//! Whether a sheet fits, as a section needs.
ghost use Rattle.std.specs.Prelude.{◌≡◌, ◌≤◌, All, IsTrue, length};
ghost use Rattle.viz_sheet.specs.Sheet.{IsFit, most_names};

use viz_sheet::Sheet;

// No cell has more names than the length of names allows.
pub fn is_fit(sheet: &Sheet) -> bool
    ensures { IsTrue result → IsFit sheet.now }
{
    let most = most_names(sheet.leaves().size());
    for i in 0..sheet.cell_count() {
        if sheet.cell(i).len() > most {
            return false;
        }
    }
    true
}

// How many names a cell may have, by how many leaves they have.
fn most_names(leaves: usize) -> usize
    ensures { result ≡ most_names leaves }
{
    if leaves == 1 {
        4
    } else if leaves == 2 {
        3
    } else if leaves == 4 {
        2
    } else {
        1
    }
}

// Each sheet fits.
pub fn are_fit(sheets: &[Sheet]) -> bool
    ensures { IsTrue result → All IsFit sheets.now }
{
    for sheet in sheets {
        if !is_fit(sheet) {
            return false;
        }
    }
    true
}
