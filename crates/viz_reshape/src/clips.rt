//! The file of a clip.

ghost use Rattle.std.specs.Prelude.{◌≡◌, IfOk, length};
ghost use Rattle.viz_fraction.specs.Forms.{plane_form};
ghost use Rattle.viz_meaning.specs.Tetrahedra.{sheets_of};
ghost use Rattle.viz_mesh_write.specs.Cells.{cells_of, points_of};
ghost use Rattle.viz_reshape.specs.Reshape.{IsClipOf, IsWritten};
ghost use Rattle.viz_reshape.specs.Steps.Work.{IsAlone, IsClipMesh, IsOneIn, IsOneSheet, Makes};

use crate::reshape::{FileCounts, MadeFile};
use crate::stop::MakeStop;
use std::alloc::{AllocError, Global};
use viz_clip::{ClipStop, as_mesh, clip};
use viz_dataset::Dataset;
use viz_fraction::Form;
use viz_image_write::{Style, WriteStop};
use viz_mesh_write::write_owned_mesh;
use viz_network::Cause;
use viz_sheet::Mesh;
use viz_tets::tets;

/// The form of a plane: how far a x + b y + c z lies above r.
pub(crate) fn plane_form(a: &i64, b: &i64, c: &i64, r: &i64) -> Form
    ensures value { result ≡ plane_form a.now b.now c.now r.now }
{
    Form {
        a: *a,
        b: *b,
        c: *c,
        q: 0,
        r: *r,
    }
}

/// How many cells and points a mesh of one sheet has.
fn counts_of(mesh: &Mesh) -> FileCounts
    requires one { IsAlone mesh.now }
    ensures value { result
        ≡ FileCounts.Cells (length (cells_of mesh.now)) (length (points_of mesh.now)) }
{
    let sheet = &mesh.sheets()[0];
    sheet.known();
    FileCounts::Cells {
        cells: sheet.cell_count() as u64,
        points: sheet.point_count() as u64,
    }
}

/// The file of a mesh of one sheet, which is given up on the way.
fn written(alloc: Global, mesh: Mesh) -> Result<MadeFile, MakeStop>
    requires one { IsAlone mesh }
    ensures value { Makes (IsWritten mesh) result }
{
    let counts = counts_of(&mesh);
    let style = Style {
        binary: false,
        digits: 3,
        version: 3,
    };
    match write_owned_mesh(alloc, mesh, &style) {
        Ok(text) => Ok(MadeFile { text, counts }),
        Err(WriteStop::TooMany) => Err(MakeStop::Cause(Cause::TooMany)),
        Err(WriteStop::TooWide) => Err(MakeStop::Cause(Cause::TooWide)),
        Err(WriteStop::Memory) => Err(MakeStop::Memory),
    }
}

/// The clip of the one sheet of a mesh, which is given up.
fn clip_mesh(alloc: Global, form: &Form, mesh: Mesh) -> Result<Mesh, MakeStop>
    requires one { IsOneSheet mesh }
    ensures value { Makes (IsClipMesh form.now mesh) result }
    ensures alone { IfOk result IsAlone }
{
    match clip(alloc, &mesh.sheets()[0], form) {
        Ok(clipped) => Ok(as_mesh(alloc, clipped)?),
        Err(ClipStop::NotTetrahedra) => Err(MakeStop::Cause(Cause::WrongInput(1))),
        Err(ClipStop::TooWide) => Err(MakeStop::Cause(Cause::TooWide)),
        Err(ClipStop::Memory) => Err(MakeStop::Memory),
    }
}

/// The sheets that a dataset is taken through.
fn sheets_of(alloc: Global, dataset: Dataset) -> Result<Mesh, AllocError>
    ensures value { IfOk result (λ mesh. mesh ≡ sheets_of dataset) }
{
    match dataset {
        Dataset::Image(image) => tets(alloc, &image),
        Dataset::Mesh(mesh) => Ok(mesh),
    }
}

/// The file of the clip of a mesh.
fn mesh_clip(alloc: Global, form: &Form, mesh: Mesh) -> Result<MadeFile, MakeStop>
    requires one { IsOneSheet mesh }
    ensures value { Makes (IsClipOf form.now mesh) result }
{
    match clip_mesh(alloc, form, mesh) {
        Ok(made) => written(alloc, made),
        Err(stop) => Err(stop),
    }
}

/// The file of the clip of a dataset.
pub(crate) fn clip_of(alloc: Global, form: &Form, dataset: Dataset) -> Result<MadeFile, MakeStop>
    requires one { IsOneIn dataset }
    ensures value { Makes (IsClipOf form.now (sheets_of dataset)) result }
{
    let mesh = sheets_of(alloc, dataset)?;
    mesh_clip(alloc, form, mesh)
}
