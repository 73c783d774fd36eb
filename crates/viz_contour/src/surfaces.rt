//! The contour of an image.

ghost use Rattle.std.specs.Prelude.{◌≡◌, ◌<◌, ◌^◌, length, map, IfOk, OnOk, FitsSigned};
ghost use Rattle.std.specs.Int.{w64};
ghost use Rattle.viz_fraction.specs.Forms.{contour_form};
ghost use Rattle.viz_meaning.specs.Narrow.{IsNarrowSection};
ghost use Rattle.viz_meaning.specs.Section.{section_of};
ghost use Rattle.viz_meaning.specs.Tetrahedra.{tetrahedra_sheet};
ghost use Rattle.viz_grid_section.specs.Edges.{edge_leaves, rank_of};
ghost use Rattle.viz_grid_section.specs.ImageSection.{contour_cells, contour_edges};

use crate::points::places;
use std::alloc::{AllocError, Global};
use viz_dataset::Image;
use viz_flags::{Ranked, ranked_section};
use viz_grid_section::contours_are_sections;
use viz_meaning::WorkStop;
use viz_mixed::plane_of;
use viz_sheet::{Leaves, Ranks, Sheet};

/// The contour of an image at a level: one sheet of triangles, whose names are pairs of leaves.
///
/// # Errors
///
/// `TooWide` only where a crossing in some tetrahedron is wide, and a sheet only where none is.
/// Want of memory may come in place of both.
pub fn contour(alloc: Global, level: &i64, image: &Image) -> Result<Sheet, WorkStop>
    ensures value { IfOk result (λ s.
        s ≡ section_of (contour_form level.now) (tetrahedra_sheet image.now)) }
    ensures narrow { OnOk result
        (IsNarrowSection (contour_form level.now) (tetrahedra_sheet image.now)) }
    ensures too_wide { result ≡ Err WorkStop.TooWide
        → IsNarrowSection (contour_form level.now) (tetrahedra_sheet image.now) → ⊥ }
{
    contours_are_sections();
    let _extent = image.extent();
    let Ranked { names, triangles } = ranked(alloc, level, image)?;
    let places = places(alloc, level, image, &names)?;
    Ok(Sheet::new(Leaves::Two(names), places, Ranks::Triangles(triangles)))
}

/// The triangles of the contour by ranks, and their names.
fn ranked(alloc: Global, level: &i64, image: &Image) -> Result<Ranked, AllocError>
    ensures names { IfOk result (λ r.
        r.names.items ≡ map edge_leaves (contour_edges level.now image.now)) }
    ensures ranks { IfOk result (λ r. r.triangles.items
        ≡ map (map (rank_of (contour_edges level.now image.now)))
        (contour_cells level.now image.now)) }
    ensures few { IfOk result (λ r. length r.names.items < 2 ^ 32) }
    ensures fits { OnOk result (FitsSigned w64 level.now) }
{
    // A level has 64 bits.
    let _level = *level;
    let inside = plane_of(alloc, image.column(), level)?;
    let ranked = ranked_section(alloc, &image.extent(), 0, &inside)?;
    Ok(ranked)
}
