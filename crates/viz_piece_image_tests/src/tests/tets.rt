//! Tetrahedra of a column of four cubes, by pieces.

use crate::tests::images::image_with;
use crate::tests::pieces::tets_of;
use std::alloc::Global;
use std::test::Fail;
use viz_column::Kind8;
use viz_dataset::Image;
use viz_parts::{Part, PartSheet};

// How many cells of a sheet have level 0, 1 and 2.
fn levels_in(sheet: &PartSheet) -> [u32; 3] {
    let mut counts: [u32; 3] = [0, 0, 0];
    for i in 0..sheet.sheet().cell_count() {
        match sheet.level(i) {
            0 => counts[0] = counts[0].saturating_add(1),
            1 => counts[1] = counts[1].saturating_add(1),
            _ => counts[2] = counts[2].saturating_add(1),
        }
    }
    counts
}

// The same of the only sheet of a piece of an image's tetrahedra.
fn found(alloc: Global, image: &Image, p: u32, n: u32, ghosts: u32) -> Result<[u32; 3], Fail> {
    if p >= n {
        return Err("a piece of some")?;
    }
    match tets_of(alloc, image, p, n, ghosts)? {
        Part::Mesh(sheets) => Ok(levels_in(sheets.first().ok_or("a sheet")?)),
        Part::Image(_) => Err("a piece of a mesh")?,
    }
}

#[test]
fn a_column_is_cut_by_layers(rt: HostRuntime) -> Result<(), Fail> {
    let image = image_with(rt.alloc(), Kind8::U8, [0, 1, 0, 1, 0, 4], &[0; 20])?;
    for (p, n, ghosts, want) in [
        (0, 1, 0, [24, 0, 0]),
        (0, 4, 0, [6, 0, 0]),
        (1, 4, 1, [6, 12, 0]),
        (0, 4, 2, [6, 6, 6]),
        (3, 4, 1, [6, 6, 0]),
        // More pieces than layers: piece 0 has none, and piece 6 the last.
        (0, 7, 2, [0, 0, 0]),
        (6, 7, 0, [6, 0, 0]),
    ] {
        let levels = found(rt.alloc(), &image, p, n, ghosts)?;
        assert_eq!(rt; levels, want, "{p} {n} {ghosts}");
    }
    Ok(())
}
