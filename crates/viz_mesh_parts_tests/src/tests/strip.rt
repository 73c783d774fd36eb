//! Filters of a strip of four triangles, of which the outer ones are ghost cells.

ghost use Rattle.std.specs.Prelude.{IfOk};
ghost use Rattle.viz_piece_divisions.specs.Answers.{IsOfMesh};

use crate::tests::filters::{joined, sectioned};
use std::alloc::Global;
use std::test::Fail;
use viz_fraction::{Form, point};
use viz_mesh_parts::{boundary_part, merge_part, select_part};
use viz_parts::{Part, PartSheet};
use viz_sheet::{Leaves, Places, Ranks, Sheet, are_cells, sheet_of};

/// How many cells the strip has.
const CELLS: u32 = 4;

// Cell i has points i to i + 2.
fn triangles(alloc: Global) -> Result<Ranks, Fail> {
    let mut cells = Vec::new(alloc);
    for i in 0..CELLS {
        cells.push([i, i + 1, i + 2])?;
    }
    Ok(Ranks::Triangles(cells))
}

// Point i lies at i along x, and i is its scalar.
fn points(alloc: Global, count: u32) -> Result<Places, Fail> {
    let mut points = Vec::new(alloc);
    for i in 0..count {
        match point(i128::from(i), 0, 0, i128::from(i), 1) {
            Ok(p) => points.push(p)?,
            Err(_) => Err("a narrow point")?,
        }
    }
    Ok(Places::Wide(points))
}

// The strip.
fn strip(alloc: Global) -> Result<Sheet, Fail> {
    let count = CELLS + 2;
    let leaves = Leaves::of_points(alloc, count)?;
    let places = points(alloc, count)?;
    let ranks = triangles(alloc)?;
    if !are_cells(&leaves, &places, &ranks) {
        return Err("cells of ascending names")?;
    }
    let sheet = sheet_of(alloc, leaves, places, ranks)?;
    Ok(sheet)
}

// The strip with these levels.
fn leveled(alloc: Global) -> Result<PartSheet, Fail> {
    let sheet = strip(alloc)?;
    let levels = vec![in alloc; 1, 0, 0, 1]?;
    if levels.len() != sheet.cell_count() {
        return Err("a level for each cell")?;
    }
    Ok(PartSheet::new(sheet, levels))
}

// The part of it alone.
fn part(alloc: Global) -> Result<Part, Fail>
    ensures { IfOk result IsOfMesh }
{
    Ok(Part::Mesh(vec![in alloc; leveled(alloc)?]?))
}

// How many cells a part has, and how many of them are own.
fn counts(part: &Part) -> (usize, u32) {
    let mut cells: usize = 0;
    let mut own: u32 = 0;
    if let Part::Mesh(sheets) = part {
        for sheet in sheets {
            cells = cells.saturating_add(sheet.sheet().cell_count());
            own = own.saturating_add(own_in(sheet));
        }
    }
    (cells, own)
}

// How many cells of a sheet are own.
fn own_in(sheet: &PartSheet) -> u32 {
    let mut own: u32 = 0;
    for i in 0..sheet.sheet().cell_count() {
        if sheet.level(i) == 0 {
            own = own.saturating_add(1);
        }
    }
    own
}

// The same of its selection.
fn selected(alloc: Global, lo: i64, hi: i64, all: bool) -> Result<(usize, u32), Fail> {
    let part = part(alloc)?;
    let made = select_part(alloc, &part, lo, hi, all)?;
    Ok(counts(&made))
}

#[test]
fn a_selection_keeps_levels(rt: HostRuntime) -> Result<(), Fail> {
    for (lo, hi, all, want) in [
        (0, 3, true, (2, 1)),
        (3, 3, false, (3, 2)),
        (0, 5, true, (4, 2)),
        (6, 9, false, (0, 0)),
    ] {
        assert_eq!(rt; selected(rt.alloc(), lo, hi, all)?, want, "{lo} {hi}");
    }
    Ok(())
}

#[test]
fn a_boundary_has_lone_sides_of_own_cells(rt: HostRuntime) -> Result<(), Fail> {
    let part = part(rt.alloc())?;
    let made = boundary_part(rt.alloc(), &part, 0)?;
    assert_eq!(rt; counts(&made), (2, 2));
    Ok(())
}

#[test]
fn a_merge_owns_its_cells(rt: HostRuntime) -> Result<(), Fail> {
    let part = part(rt.alloc())?;
    let made = merge_part(rt.alloc(), &part)?;
    assert_eq!(rt; counts(&made), (4, 4));
    Ok(())
}

// The same of its contour.
fn contoured(alloc: Global, level: i64) -> Result<(usize, u32), Fail> {
    let form = Form {
        a: 0,
        b: 0,
        c: 0,
        q: 1,
        r: level,
    };
    let part = part(alloc)?;
    let made = sectioned(alloc, &part, &[form])?;
    Ok(counts(&made))
}

#[test]
fn a_contour_has_the_levels_of_cut_cells(rt: HostRuntime) -> Result<(), Fail> {
    for (level, want) in [
        (1, (1, 0)),
        (2, (2, 1)),
        (3, (2, 2)),
        (4, (2, 1)),
        (6, (0, 0)),
    ] {
        assert_eq!(rt; contoured(rt.alloc(), level)?, want, "{level}");
    }
    Ok(())
}

#[test]
fn joined_strips_keep_levels(rt: HostRuntime) -> Result<(), Fail> {
    let part = part(rt.alloc())?;
    let made = joined(rt.alloc(), part)?;
    assert_eq!(rt; counts(&made), (8, 4));
    Ok(())
}
