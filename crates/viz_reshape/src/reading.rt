//! The dataset of a file.

ghost use Rattle.std.specs.Prelude.{◌≡◌, IfOk, Some};
ghost use Rattle.viz_base.specs.declared.node.Pick.TheVariants.{First};
ghost use Rattle.viz_node_meaning.specs.Data.{IsReadingOf};
ghost use Rattle.viz_reshape.specs.Steps.Work.{IsOneIn, Makes};

use crate::stop::MakeStop;
use std::alloc::Global;
use viz_base::{Bytes, Pick};
use viz_dataset::Dataset;
use viz_legacy_read::{ReadStop, read};
use viz_network::Cause;

/// The dataset of a file's bytes, which are given up.
pub(crate) fn dataset_of(alloc: Global, bytes: Bytes) -> Result<Dataset, MakeStop>
    ensures value { Makes (IsReadingOf First 0 (Some bytes)) result }
    ensures one { IfOk result IsOneIn }
{
    match read(alloc, bytes.list(), &Pick::First, 0) {
        Ok(dataset) => Ok(dataset),
        Err(ReadStop::File(fault)) => Err(MakeStop::Cause(Cause::BadFile(fault))),
        Err(ReadStop::Memory) => Err(MakeStop::Memory),
    }
}
