//! The clipped volume of a sheet.
ghost use Rattle.std.specs.Prelude.{◌≡◌, ◌↔◌, All, IfOk, IsTrue, OnOk, length};
ghost use Rattle.viz_clip_meaning.specs.Clip.{AreNarrowCells, AreTetrahedra, clipped_of};

use crate::cell_test::are_tetrahedra;
use crate::clipped::Clipped;
use crate::kept_points::kept_points;
use crate::key_list::keys_in_order;
use crate::numbers::{Numbers, inside_ranks};
use crate::stop::ClipStop;
use crate::tets::tets;
use crate::values::{insides, values};
use crate::vertex_list::{corner_leaves, cut_leaves};
use std::alloc::Global;
use viz_fraction::Form;
use viz_meaning::WorkStop;
use viz_sheet::Sheet;

/// The part of a sheet of tetrahedra where a form is at least 0, as tetrahedra.
///
/// # Errors
///
/// `NotTetrahedra` exactly where some cell hasn't four names, and else `TooWide` exactly where a
/// number of the section in some cell is wide. Want of memory may come in place of each answer.
pub fn clip(alloc: Global, sheet: &Sheet, form: &Form) -> Result<Clipped, ClipStop>
    requires level { All (λ n. length n ≡ 1) sheet.now.names }
    ensures value { IfOk result (λ c. c ≡ clipped_of form.now sheet.now) }
    ensures tetrahedra { OnOk result (AreTetrahedra sheet.now) }
    ensures narrow { OnOk result (AreNarrowCells form.now sheet.now) }
    ensures not_tetrahedra { result ≡ Err ClipStop.NotTetrahedra → AreTetrahedra sheet.now → ⊥ }
    ensures too_wide_tetrahedra { result ≡ Err ClipStop.TooWide → AreTetrahedra sheet.now }
    ensures too_wide { result ≡ Err ClipStop.TooWide → AreNarrowCells form.now sheet.now → ⊥ }
{
    if !has_tetrahedra(sheet) {
        return Err(ClipStop::NotTetrahedra);
    }
    match clipped(alloc, sheet, form) {
        Ok(clipped) => Ok(clipped),
        Err(WorkStop::TooWide) => Err(ClipStop::TooWide),
        Err(WorkStop::Memory) => Err(ClipStop::Memory),
    }
}

/// Each cell of a sheet is a tetrahedron.
fn has_tetrahedra(sheet: &Sheet) -> bool
    ensures { IsTrue result ↔ AreTetrahedra sheet.now }
{
    are_tetrahedra(sheet.ranks())
}

/// The same of a sheet of tetrahedra alone.
fn clipped(alloc: Global, sheet: &Sheet, form: &Form) -> Result<Clipped, WorkStop>
    requires level { All (λ n. length n ≡ 1) sheet.now.names }
    requires tetrahedra { AreTetrahedra sheet.now }
    ensures value { IfOk result (λ c. c ≡ clipped_of form.now sheet.now) }
    ensures narrow { OnOk result (AreNarrowCells form.now sheet.now) }
    ensures too_wide { result ≡ Err WorkStop.TooWide → AreNarrowCells form.now sheet.now → ⊥ }
{
    let cells = sheet.ranks();
    let values = values(alloc, form, sheet.places())?;
    let inside = insides(alloc, &values)?;
    let keys = keys_in_order(alloc, &inside, cells)?;
    if inside.len() as u64 + keys.len() as u64 >= 1 << 32 {
        return Err(WorkStop::Memory);
    }
    let ranks = inside_ranks(alloc, &inside)?;
    let count = ranks.len() as u32;
    let places = kept_points(alloc, sheet.places(), &ranks, &values, &keys)?;
    let corners = corner_leaves(alloc, sheet.leaves(), &ranks)?;
    let cuts = cut_leaves(alloc, sheet.leaves(), &keys)?;
    let numbers = Numbers::new(alloc, &inside, count, keys)?;
    let tets = tets(alloc, &inside, &numbers, cells)?;
    Ok(Clipped::new(corners, cuts, places, tets))
}
