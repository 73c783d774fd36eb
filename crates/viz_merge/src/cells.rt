//! The cells of all sheets by leaves, without those that repeat one.

ghost use Rattle.std.specs.Prelude.{◌≡◌, ◌≤◌, ◌<◌, ◌++◌, ◌∷◌, ◌&&◌, [], All, OnOk, length};
ghost use Rattle.std.specs.Prelude.{slice_index_or, if◌then◌else◌};
ghost use Rattle.viz_sheet.specs.Arrays.{ranks_in};
ghost use Rattle.viz_sheet.specs.Ranked.{IsCell};
ghost use Rattle.viz_sheet.specs.Steps.Lookup.{looked_up};
ghost use Rattle.viz_mesh_meaning.specs.Merge.{has_no_repeat};
ghost use Rattle.viz_merge.specs.Steps.Cells.{left_cells};

use std::alloc::AllocError;
use viz_sheet::{Mixed, Ranks};

/// Adds the cells of a sheet by the leaves of its points, without those that repeat one.
pub(crate) fn push_cells(
    out: &mut Vec<Mixed>,
    numbers: &[u32],
    ranks: &Ranks,
) -> Result<(), AllocError>
    requires cells { All (IsCell (length numbers.now)) (ranks_in ranks.now) }
    ensures value { OnOk result (out.new.items
        ≡ out.old.items ++ left_cells numbers.now (ranks_in ranks.now)) }
{
    out.reserve(ranks.len())?;
    for i in 0..ranks.len() {
        push_cell(out, numbers, ranks.get(i))?;
    }
    Ok(())
}

/// Adds a cell by leaves, if none stands twice.
fn push_cell(out: &mut Vec<Mixed>, numbers: &[u32], cell: &[u32]) -> Result<(), AllocError>
    requires cell { IsCell (length numbers.now) cell.now }
    ensures { OnOk result (out.new.items ≡ out.old.items
        ++ (if has_no_repeat (looked_up numbers.now cell.now)
        then looked_up numbers.now cell.now ∷ [] else [])) }
{
    let made = cell_of(numbers, cell);
    if has_no_repeat(made.ranks()) {
        out.push(made)?;
    }
    Ok(())
}

/// The cell of the leaves at these ranks.
fn cell_of(numbers: &[u32], cell: &[u32]) -> Mixed
    requires cell { IsCell (length numbers.now) cell.now }
    ensures { result ≡ looked_up numbers.now cell.now }
{
    let leaves = [
        leaf_at(numbers, cell, 0),
        leaf_at(numbers, cell, 1),
        leaf_at(numbers, cell, 2),
        leaf_at(numbers, cell, 3),
    ];
    Mixed::new(cell.len() as u8, leaves)
}

/// The leaf at a rank of a cell, and filler behind the last one.
fn leaf_at(numbers: &[u32], cell: &[u32], i: usize) -> u32
    requires below { All (λ r. r < length numbers.now) cell.now }
    ensures { i < length cell.now
        → result ≡ slice_index_or numbers.now (slice_index_or cell.now i 0) 0 }
{
    if i < cell.len() {
        numbers[cell[i] as usize]
    } else {
        0
    }
}

/// No leaf stands twice.
fn has_no_repeat(leaves: &[u32]) -> bool
    requires most { length leaves.now ≤ 4 }
    ensures { result ≡ has_no_repeat leaves.now }
{
    match leaves {
        [a, b] => differ(*a, *b),
        [a, b, c] => three_differ(*a, *b, *c),
        [a, b, c, d] => four_differ(*a, *b, *c, *d),
        _ => true,
    }
}

/// Two leaves differ.
fn differ(a: u32, b: u32) -> bool
    ensures { result ≡ has_no_repeat (a ∷ b ∷ []) }
{
    a != b
}

/// No two of three leaves are the same.
fn three_differ(a: u32, b: u32, c: u32) -> bool
    ensures { result ≡ has_no_repeat (a ∷ b ∷ c ∷ []) }
{
    both(both(differ(a, b), differ(a, c)), differ(b, c))
}

/// No two of four leaves are the same.
fn four_differ(a: u32, b: u32, c: u32, d: u32) -> bool
    ensures { result ≡ has_no_repeat (a ∷ b ∷ c ∷ d ∷ []) }
{
    both(
        both(differ(a, b), both(differ(a, c), differ(a, d))),
        three_differ(b, c, d),
    )
}

/// Both are true.
fn both(a: bool, b: bool) -> bool
    ensures { result ≡ (a && b) }
{
    a && b
}
