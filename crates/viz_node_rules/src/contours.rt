//! Sections of what feeds a port: contours at levels, and the cut by a plane.

ghost use Rattle.std.specs.Prelude.{◌≡◌, ◌∷◌, [], All, IfOk, IfSome, Some};
ghost use Rattle.std.specs.Option.{option_copied};
ghost use Rattle.viz_legacy_read.specs.Reading.{IsSound};
ghost use Rattle.viz_node_rules.specs.Makes.{Makes};
ghost use Rattle.viz_node_rules.specs.Steps.Made.{IsContoured, IsContouredBy, sectioned_of};
ghost use Rattle.viz_sheet.specs.Sheet.{IsFit};

use crate::section::{image_contours, image_sections, known, mesh_contours, mesh_sections};
use crate::stop::OwnStop;
use std::alloc::Global;
use viz_base::Shared;
use viz_dataset::Dataset;
use viz_fraction::Form;
use viz_meaning::WorkStop;
use viz_network::Cause;
use viz_sheet::Mesh;

// The mesh of a section as a dataset, or why there is none.
fn sectioned(made: Result<Mesh, WorkStop>) -> Result<Dataset, OwnStop>
    requires fits { IfOk made (All IsFit) }
    ensures value { result ≡ sectioned_of made }
    ensures sound { IfOk result IsSound }
{
    match made {
        Ok(mesh) => {
            known(mesh.sheets());
            Ok(Dataset::Mesh(mesh))
        }
        Err(WorkStop::TooWide) => Err(OwnStop::Cause(Cause::TooWide)),
        Err(WorkStop::Memory) => Err(OwnStop::Memory),
    }
}

/// The contours of a dataset.
fn dataset_contours(alloc: Global, levels: &[i64], dataset: &Dataset) -> Result<Dataset, OwnStop>
    requires sound { IsSound dataset.now }
    ensures value { Makes (IsContoured levels.now (Some dataset.now)) result }
    ensures sound { IfOk result IsSound }
{
    match dataset {
        Dataset::Image(image) => sectioned(image_contours(alloc, levels, image)),
        Dataset::Mesh(mesh) => sectioned(mesh_contours(alloc, levels, mesh.sheets())),
    }
}

/// The contours of what feeds a port.
pub fn contours(
    alloc: Global,
    levels: &[i64],
    input: Option<&Shared<Dataset>>,
) -> Result<Dataset, OwnStop>
    requires sound { IfSome (option_copied input) IsSound }
    ensures value { Makes (IsContoured levels.now (option_copied input.entry)) result }
    ensures sound { IfOk result IsSound }
{
    match input {
        Some(dataset) => dataset_contours(alloc, levels, dataset.get()),
        None => Err(OwnStop::Cause(Cause::Unconnected(1))),
    }
}

/// The sections of a dataset by forms.
fn dataset_sections(alloc: Global, forms: &[Form], dataset: &Dataset) -> Result<Dataset, OwnStop>
    requires sound { IsSound dataset.now }
    ensures value { Makes (IsContouredBy forms.now (Some dataset.now)) result }
    ensures sound { IfOk result IsSound }
{
    match dataset {
        Dataset::Image(image) => sectioned(image_sections(alloc, forms, image)),
        Dataset::Mesh(mesh) => sectioned(mesh_sections(alloc, forms, mesh.sheets())),
    }
}

/// The cut of what feeds a port by the plane of a form.
pub fn cut_input(
    alloc: Global,
    form: Form,
    input: Option<&Shared<Dataset>>,
) -> Result<Dataset, OwnStop>
    requires sound { IfSome (option_copied input) IsSound }
    ensures value { Makes (IsContouredBy (form ∷ []) (option_copied input.entry)) result }
    ensures sound { IfOk result IsSound }
{
    match input {
        Some(dataset) => dataset_sections(alloc, &[form], dataset.get()),
        None => Err(OwnStop::Cause(Cause::Unconnected(1))),
    }
}
