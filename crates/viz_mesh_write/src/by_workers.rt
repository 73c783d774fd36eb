//! The text of a mesh, made by workers.

ghost use Rattle.std.specs.Prelude.{◌≡◌, ◌<◌, ◌↔◌, OnOk, IfOk, IsErrOf};
ghost use Rattle.viz_image_write.specs.Version.{is_later};
ghost use Rattle.viz_mesh_write.specs.Fits.{FitCounts, FitNumbers};
ghost use Rattle.viz_mesh_write.specs.MeshText.{mesh_text};
ghost use Rattle.viz_mesh_write.specs.Steps.Tallies.{IsReady};

use crate::mesh::put_mesh;
use crate::on_workers::OnWorkers;
use crate::tally::{Tally, counted};
use std::alloc::Global;
use std::thread::Threads;
use viz_base::LongText;
use viz_image_write::{Style, WriteStop};
use viz_sheet::{Mesh, Sheet};

/// The text as parts, one after the other.
fn mesh_parts<H: Threads + Sync>(
    rt: &H,
    alloc: Global,
    style: &Style,
    tally: &Tally,
    sheets: &[Sheet],
    workers: u32,
) -> Result<LongText, WriteStop>
    requires workers { 0 < workers }
    requires ready { IsReady sheets.now tally.now }
    ensures value { IfOk result (λ text. text
        ≡ mesh_text (is_later style.now.version) style.now.binary style.now.digits sheets.now) }
    ensures fits { OnOk result (FitNumbers style.now.digits sheets.now) }
    ensures too_wide { IsErrOf result WriteStop.TooWide
        → ¬ FitNumbers style.now.digits sheets.now }
    ensures few { ¬ IsErrOf result WriteStop.TooMany }
{
    let mut made = OnWorkers::new(rt, alloc, workers);
    let (later, binary) = (style.is_later(), style.binary);
    put_mesh(&mut made, later, binary, style.digits, tally, sheets)?;
    Ok(made.text)
}

/// The text that `write_mesh` gives, made in parts by so many workers: it is the same for every
/// number of them. The parts are never joined, since that costs as much as making them.
///
/// # Errors
///
/// Those of `write_mesh`.
pub fn write_mesh_by_workers<H: Threads + Sync>(
    rt: &H,
    alloc: Global,
    mesh: &Mesh,
    style: &Style,
    workers: u32,
) -> Result<LongText, WriteStop>
    requires { 0 < workers }
    ensures value { IfOk result (λ text. text
        ≡ mesh_text (is_later style.now.version) style.now.binary style.now.digits mesh.now) }
    ensures fits { OnOk result (FitCounts mesh.now × FitNumbers style.now.digits mesh.now) }
    ensures too_many { IsErrOf result WriteStop.TooMany ↔ ¬ FitCounts mesh.now }
    ensures too_wide { IsErrOf result WriteStop.TooWide
        → FitCounts mesh.now × ¬ FitNumbers style.now.digits mesh.now }
{
    let Some(tally) = counted(mesh.sheets()) else {
        return Err(WriteStop::TooMany);
    };
    mesh_parts(rt, alloc, style, &tally, mesh.sheets(), workers)
}
