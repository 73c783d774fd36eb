//! Filters that make or change meshes, of what feeds a port.

ghost use Rattle.std.specs.Prelude.{◌≡◌, All, IfErr, IfOk, IfSome, Some};
ghost use Rattle.std.specs.Option.{option_copied};
ghost use Rattle.viz_dataset.specs.declared.dataset.Dataset.TheVariants.{Mesh as OfMesh};
ghost use Rattle.viz_legacy_read.specs.Reading.{IsSound};
ghost use Rattle.viz_mesh_meaning.specs.Facets.{boundaries};
ghost use Rattle.viz_mesh_meaning.specs.Select.{selections};
ghost use Rattle.viz_node_meaning.specs.Data.{merge_of};
ghost use Rattle.viz_node_rules.specs.Makes.{Makes};
ghost use Rattle.viz_node_rules.specs.Steps.Made.{AreFromImage, IsFromMesh, IsNoMesh};
ghost use Rattle.viz_sheet.specs.Sheet.{IsFit};

use crate::filters::image_in;
use crate::section::{known, tetrahedra_are_fit};
use crate::stop::OwnStop;
use std::alloc::Global;
use viz_base::Shared;
use viz_boundary::boundary;
use viz_dataset::Dataset;
use viz_merge::merge;
use viz_mesh_meaning::filters_fit;
use viz_network::Cause;
use viz_select::select;
use viz_sheet::{Mesh, Sheet};
use viz_tets::tets;

/// The sheets that feed a port.
fn sheets_in(port: u8, input: Option<&Shared<Dataset>>) -> Result<&[Sheet], Cause>
    requires sound { IfSome (option_copied input) IsSound }
    ensures value { IfOk result (λ sheets. option_copied input.entry ≡ Some (OfMesh sheets.now)) }
    ensures fits { IfOk result (λ sheets. All IsFit sheets.now) }
    ensures cause { IfErr result (IsNoMesh port (option_copied input.entry)) }
{
    let Some(dataset) = input else {
        return Err(Cause::Unconnected(port));
    };
    match dataset.get() {
        Dataset::Image(_) => Err(Cause::WrongInput(port)),
        Dataset::Mesh(mesh) => Ok(mesh.sheets()),
    }
}

/// A mesh as a dataset, which keeps the rule of its type.
pub fn whole_mesh(mesh: Mesh) -> Dataset
    requires { All IsFit mesh }
    ensures value { result ≡ OfMesh mesh }
    ensures sound { IsSound result }
{
    known(mesh.sheets());
    Dataset::Mesh(mesh)
}

/// The tetrahedra of what feeds a port.
pub fn tets_input(alloc: Global, input: Option<&Shared<Dataset>>) -> Result<Dataset, OwnStop>
    ensures value { Makes (AreFromImage (option_copied input.entry)) result }
    ensures sound { IfOk result IsSound }
{
    let image = image_in(1, input)?;
    tetrahedra_are_fit(image);
    Ok(whole_mesh(tets(alloc, image)?))
}

/// The selection of what feeds a port.
pub fn select_input(
    alloc: Global,
    lo: &i64,
    hi: &i64,
    all: bool,
    input: Option<&Shared<Dataset>>,
) -> Result<Dataset, OwnStop>
    requires sound { IfSome (option_copied input) IsSound }
    ensures value { Makes (IsFromMesh (selections all lo.now hi.now) (option_copied input.entry))
        result }
    ensures sound { IfOk result IsSound }
{
    let sheets = sheets_in(1, input)?;
    filters_fit();
    Ok(whole_mesh(select(alloc, sheets, *lo, *hi, all)?))
}

/// The boundary of what feeds a port.
pub fn boundary_input(alloc: Global, input: Option<&Shared<Dataset>>) -> Result<Dataset, OwnStop>
    requires sound { IfSome (option_copied input) IsSound }
    ensures value { Makes (IsFromMesh boundaries (option_copied input.entry)) result }
    ensures sound { IfOk result IsSound }
{
    let sheets = sheets_in(1, input)?;
    known(sheets);
    filters_fit();
    Ok(whole_mesh(boundary(alloc, sheets)?))
}

/// The merge of what feeds a port.
pub fn merge_input(alloc: Global, input: Option<&Shared<Dataset>>) -> Result<Dataset, OwnStop>
    requires sound { IfSome (option_copied input) IsSound }
    ensures value { Makes (IsFromMesh merge_of (option_copied input.entry)) result }
    ensures sound { IfOk result IsSound }
{
    let sheets = sheets_in(1, input)?;
    let mesh = merge(alloc, sheets)?;
    known(mesh.sheets());
    filters_fit();
    Ok(whole_mesh(mesh))
}
