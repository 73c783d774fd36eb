//! The data rule of a node.

ghost use Rattle.std.specs.Prelude.{◌≡◌, IfOk, IfSome, map};
ghost use Rattle.std.specs.Option.{option_copied};
ghost use Rattle.viz_legacy_read.specs.Reading.{IsSound};
ghost use Rattle.viz_node_meaning.specs.Data.{DataRule};
ghost use Rattle.viz_node_rules.specs.Places.{AreSoundIn, value_at};
ghost use Rattle.viz_node_rules.specs.Makes.{Makes};
ghost use Rattle.viz_node_rules.specs.Steps.Made.{IsPassed, IsShared};

use crate::contours::{contours, cut_input};
use crate::files::file_dataset;
use crate::filters::{arith_inputs, crop_input, sample_input, smooth_input, threshold_input};
use crate::joining::append_inputs;
use crate::meshes::{boundary_input, merge_input, select_input, tets_input};
use crate::parameters::{first_levels, plane_form, rate_with};
use crate::stop::OwnStop;
use std::alloc::Global;
use viz_base::Shared;
use viz_dataset::Dataset;
use viz_kinds::Settings;
use viz_network::{Cause, Fault, Node};

/// What a step gives; None where it isn't asked for, or was given up.
pub type Held = Option<Result<Shared<Dataset>, Fault>>;

/// The dataset at a place that feeds a port.
pub fn dataset_at<'a>(table: &'a [Held], place: &Option<usize>) -> Option<&'a Shared<Dataset>>
    ensures { option_copied result ≡ value_at table.now place.now }
{
    let Some(place) = place else {
        return None;
    };
    match table.get(*place) {
        Some(Some(Ok(dataset))) => Some(dataset),
        _ => None,
    }
}

/// What feeds a port, which isn't copied.
fn passed_on(input: Option<&Shared<Dataset>>) -> Result<Shared<Dataset>, OwnStop>
    requires sound { IfSome (option_copied input) IsSound }
    ensures value { Makes (IsPassed (option_copied input.entry)) result }
    ensures sound { IfOk result IsSound }
{
    match input {
        Some(dataset) => Ok(dataset.copy()?),
        None => Err(OwnStop::Cause(Cause::Unconnected(1))),
    }
}

// A dataset that several may hold.
fn shared(alloc: Global, made: Result<Dataset, OwnStop>) -> Result<Shared<Dataset>, OwnStop>
    ensures { IsShared made result }
{
    Ok(Shared::new(alloc, made?)?)
}

/// What a node makes of the datasets that feed its ports, which are those at the places of a table;
/// a writer passes on what feeds it.
///
/// # Errors
///
/// `Cause` exactly where the node makes none of them; want of memory may come in place of it.
#[rattlefmt::skip]
pub fn own_dataset(
    alloc: Global,
    node: &Node,
    table: &[Held],
    places: &[Option<usize>; 8],
) -> Result<Shared<Dataset>, OwnStop>
    requires sound { AreSoundIn IsSound table.now }
    ensures value { Makes (DataRule node.now (map (value_at table.now) places.now)) result }
    ensures sound { IfOk result IsSound }
{
    let first = dataset_at(table, &places[0]);
    match &node.settings {
        Settings::File { array, unit } => {
            shared(alloc, file_dataset(alloc, &node.file, array, *unit))
        }
        Settings::Crop { x0, x1, y0, y1, z0, z1 } => {
            shared(alloc, crop_input(alloc, [*x0, *x1, *y0, *y1, *z0, *z1], first))
        }
        Settings::Sample { x, y, z } => {
            shared(alloc, sample_input(alloc, rate_with(*x, *y, *z), first))
        }
        Settings::Threshold { lo, hi } => shared(alloc, threshold_input(alloc, lo, hi, first)),
        Settings::Smooth { radius } => shared(alloc, smooth_input(alloc, *radius, first)),
        Settings::Arith { op } => {
            shared(alloc, arith_inputs(alloc, *op, first, dataset_at(table, &places[1])))
        }
        Settings::Tets => shared(alloc, tets_input(alloc, first)),
        Settings::Select { lo, hi, all } => {
            shared(alloc, select_input(alloc, lo, hi, *all, first))
        }
        Settings::Contour { count, levels } => {
            shared(alloc, contours(alloc, first_levels(*count, levels), first))
        }
        Settings::Cut { a, b, c, r } => {
            shared(alloc, cut_input(alloc, plane_form(a, b, c, r), first))
        }
        Settings::Append => shared(alloc, append_inputs(alloc, table, places)),
        Settings::Boundary => shared(alloc, boundary_input(alloc, first)),
        Settings::Merge => shared(alloc, merge_input(alloc, first)),
        Settings::Writer { .. } => passed_on(first),
    }
}
