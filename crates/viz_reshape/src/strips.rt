//! The file of a mesh with strips.

ghost use Rattle.std.specs.Prelude.{◌≡◌, ◌↔◌, ◌≤◌, All, IsTrue, length};
ghost use Rattle.viz_dataset.specs.declared.dataset.Dataset.TheVariants.{Mesh as OfMesh};
ghost use Rattle.viz_mesh_write.specs.Cells.{points_of};
ghost use Rattle.viz_reshape.specs.Reshape.{AreStripsWritten, HasNoTetrahedra, IsStripsOf};
ghost use Rattle.viz_reshape.specs.Steps.Work.{IsOneIn, IsOneSheet, Makes};
ghost use Rattle.viz_strip_write.specs.StripText.{IsFlat};

use crate::reshape::{FileCounts, MadeFile};
use crate::stop::MakeStop;
use std::alloc::Global;
use viz_dataset::Dataset;
use viz_network::Cause;
use viz_sheet::{Mesh, Sheet};
use viz_strip_write::{StripStop, Stripped, counted_strip_text};

/// No cell of a sheet is a tetrahedron.
fn has_small_cells(sheet: &Sheet) -> bool
    ensures value { IsTrue result ↔ All (λ cell. length cell ≤ 3) sheet.now.cells }
{
    for i in 0..sheet.cell_count() {
        if sheet.cell(i).len() > 3 {
            return false;
        }
    }
    true
}

/// No cell of a mesh is a tetrahedron.
fn has_no_tetrahedra(mesh: &Mesh) -> bool
    requires one { IsOneSheet mesh.now }
    ensures value { IsTrue result ↔ HasNoTetrahedra mesh.now }
{
    has_small_cells(&mesh.sheets()[0])
}

/// How many points a mesh of one sheet has.
fn point_count(mesh: &Mesh) -> u64
    requires one { IsOneSheet mesh.now }
    ensures value { result ≡ length (points_of mesh.now) }
{
    let sheet = &mesh.sheets()[0];
    sheet.known();
    sheet.point_count() as u64
}

/// The file of a text with strips and so many points.
fn file_of(stripped: Stripped, points: u64) -> MadeFile
    ensures text { result.text ≡ stripped.text }
    ensures counts { result.counts
        ≡ FileCounts.Strips stripped.strips stripped.triangles points }
{
    let counts = FileCounts::Strips {
        strips: stripped.strips,
        triangles: stripped.triangles,
        points,
    };
    MadeFile {
        text: stripped.text,
        counts,
    }
}

/// The file of a mesh without tetrahedra.
fn flat_strips(alloc: Global, mesh: &Mesh) -> Result<MadeFile, MakeStop>
    requires one { IsOneSheet mesh.now }
    requires small { HasNoTetrahedra mesh.now }
    ensures value { Makes (AreStripsWritten mesh.now) result }
{
    let points = point_count(mesh);
    match counted_strip_text(alloc, mesh) {
        Ok(stripped) => Ok(file_of(stripped, points)),
        Err(StripStop::TooMany) => Err(MakeStop::Cause(Cause::TooMany)),
        Err(StripStop::TooWide) => Err(MakeStop::Cause(Cause::TooWide)),
        Err(StripStop::Memory) => Err(MakeStop::Memory),
    }
}

/// The file of a mesh.
fn mesh_strips(alloc: Global, mesh: &Mesh) -> Result<MadeFile, MakeStop>
    requires one { IsOneSheet mesh.now }
    ensures value { Makes (IsStripsOf (OfMesh mesh.now)) result }
{
    if !has_no_tetrahedra(mesh) {
        return Err(MakeStop::Cause(Cause::WrongInput(1)));
    }
    flat_strips(alloc, mesh)
}

/// The file of a dataset with its triangles as strips.
pub(crate) fn strips_of(alloc: Global, dataset: &Dataset) -> Result<MadeFile, MakeStop>
    requires one { IsOneIn dataset.now }
    ensures value { Makes (IsStripsOf dataset.now) result }
{
    match dataset {
        Dataset::Image(_) => Err(MakeStop::Cause(Cause::WrongInput(1))),
        Dataset::Mesh(mesh) => mesh_strips(alloc, mesh),
    }
}
