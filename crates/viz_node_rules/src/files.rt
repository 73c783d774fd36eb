//! Loaded files: what their headers say, and what they are read as.

ghost use Rattle.std.specs.Prelude.{◌≡◌, IfOk};
ghost use Rattle.viz_legacy_read.specs.Reading.{IsSound};
ghost use Rattle.viz_node_meaning.specs.Data.{IsReadingOf, unit_with};
ghost use Rattle.viz_node_meaning.specs.Information.{IsHeaderOf};
ghost use Rattle.viz_node_rules.specs.Makes.{Makes};
ghost use Rattle.viz_node_rules.specs.Steps.Made.{of_read};

use crate::information::of_header;
use crate::parameters::unit_with;
use crate::stop::OwnStop;
use std::alloc::Global;
use viz_base::{Bytes, Pick, Shared};
use viz_dataset::Dataset;
use viz_legacy_read::{ReadStop, header, read};
use viz_network::{Cause, Node};
use viz_node_meaning::Information;

/// What the header of a loaded file says.
pub fn file_information(node: &Node) -> Result<Information, Cause>
    ensures { IsHeaderOf node.now.file result }
{
    let Some(file) = &node.file else {
        return Err(Cause::NoFile);
    };
    match header(file.get().list()) {
        Ok(info) => Ok(of_header(&info)),
        Err(fault) => Err(Cause::BadFile(fault)),
    }
}

// A stop of reading.
fn of_read(stop: ReadStop) -> OwnStop
    ensures { result ≡ of_read stop }
{
    match stop {
        ReadStop::File(fault) => OwnStop::Cause(Cause::BadFile(fault)),
        ReadStop::Memory => OwnStop::Memory,
    }
}

/// What a loaded file is read as, with coordinates in units of 10^-unit of a point's, where a unit
/// past 9 is 9.
///
/// # Errors
///
/// `Cause` exactly where there is no file, or it has a fault; want of memory may come in place of
/// it.
pub fn file_dataset(
    alloc: Global,
    file: &Option<Shared<Bytes>>,
    array: &Pick,
    unit: u8,
) -> Result<Dataset, OwnStop>
    ensures value { Makes (IsReadingOf array.now (unit_with unit) file.now) result }
    ensures sound { IfOk result IsSound }
{
    let Some(file) = file else {
        return Err(OwnStop::Cause(Cause::NoFile));
    };
    match read(alloc, file.get().list(), array, unit_with(unit)) {
        Ok(dataset) => Ok(dataset),
        Err(stop) => Err(of_read(stop)),
    }
}
