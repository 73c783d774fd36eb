//! The meshes at all ports, joined.

ghost use Rattle.std.specs.Prelude.{◌≡◌, ◌++◌, ◌∷◌, [], All, IfOk, OnOk, map};
ghost use Rattle.std.specs.Option.{option_copied, option_map};
ghost use Rattle.viz_legacy_read.specs.Reading.{IsSound};
ghost use Rattle.viz_node_meaning.specs.Data.{all_information, meshes_in};
ghost use Rattle.viz_node_meaning.specs.Information.{information_of};
ghost use Rattle.viz_node_rules.specs.Places.{AreSoundIn, value_at};
ghost use Rattle.viz_node_rules.specs.Makes.{Makes};
ghost use Rattle.viz_node_rules.specs.Steps.Made.{IsJoined};

use crate::datasets::{Held, dataset_at};
use crate::information::of_dataset;
use crate::meshes::whole_mesh;
use crate::ports::meshes_at;
use crate::stop::OwnStop;
use std::alloc::{AllocError, Global};
use viz_base::Shared;
use viz_dataset::Dataset;
use viz_node_meaning::Information;
use viz_select::{append, copied_sheets};
use viz_sheet::Mesh;

// What is known of what feeds a port.
fn information_at(table: &[Held], place: &Option<usize>) -> Option<Information>
    ensures { result ≡ option_map information_of (value_at table.now place.now) }
{
    match dataset_at(table, place) {
        Some(dataset) => Some(of_dataset(dataset.get())),
        None => None,
    }
}

// What is known at the eight ports.
fn inputs_of(table: &[Held], places: &[Option<usize>; 8]) -> [Option<Information>; 8]
    ensures { result ≡ all_information (map (value_at table.now) places.now) }
{
    let [a, b, c, d, e, f, g, h] = places;
    [
        information_at(table, a),
        information_at(table, b),
        information_at(table, c),
        information_at(table, d),
        information_at(table, e),
        information_at(table, f),
        information_at(table, g),
        information_at(table, h),
    ]
}

// Adds a copy of the mesh that feeds a port.
fn push_mesh(
    alloc: Global,
    meshes: &mut Vec<Mesh>,
    input: Option<&Shared<Dataset>>,
) -> Result<(), AllocError>
    ensures { OnOk result
        (meshes.new.items ≡ meshes.old.items ++ meshes_in (option_copied input.entry ∷ [])) }
{
    if let Some(dataset) = input {
        if let Dataset::Mesh(mesh) = dataset.get() {
            meshes.push(copied_sheets(alloc, mesh.sheets())?)?;
        }
    }
    Ok(())
}

// Copies of the meshes that feed the ports, ports ascending.
fn copied_meshes(
    alloc: Global,
    table: &[Held],
    places: &[Option<usize>],
) -> Result<Vec<Mesh>, AllocError>
    ensures { IfOk result (λ meshes.
        meshes.items ≡ meshes_in (map (value_at table.now) places.now)) }
{
    let mut meshes = Vec::new(alloc);
    for place in places {
        push_mesh(alloc, &mut meshes, dataset_at(table, place))?;
    }
    Ok(meshes)
}

/// The meshes that feed the ports, joined.
pub fn append_inputs(
    alloc: Global,
    table: &[Held],
    places: &[Option<usize>; 8],
) -> Result<Dataset, OwnStop>
    requires sound { AreSoundIn IsSound table.now }
    ensures value { Makes (IsJoined (map (value_at table.now) places.now)) result }
    ensures sound { IfOk result IsSound }
{
    meshes_at(&inputs_of(table, places))?;
    let meshes = copied_meshes(alloc, table, places)?;
    Ok(whole_mesh(append(alloc, meshes)?))
}
