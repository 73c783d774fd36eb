//! The file that a filter makes, with the counts that its line tells.

ghost use Rattle.viz_once.specs.Steps.Made.{Makes};
ghost use Rattle.viz_once.specs.declared.command.Filter.TheVariants.{Node};

use crate::command::{Filter, NodeFilter};
use crate::evaluation::evaluated;
use crate::nodes::{OP, SOURCE, settings_of};
use std::alloc::Global;
use viz_base::Bytes;
use viz_network::Stop;
use viz_reshape::{FileCounts, MadeFile, reshape_file};
use viz_scratch::{cell_count, point_count, style_with, text_of};

/// What the node of a filter makes of a file's bytes, which are given up before the node works. The
/// dataset is counted first, since it is given up while its text is made.
fn node_file(alloc: Global, filter: &NodeFilter, bytes: Bytes) -> Result<MadeFile, Stop>
    ensures { Makes (Node filter.now) bytes result }
{
    let style = style_with(&settings_of(filter));
    let dataset = evaluated(alloc, filter, bytes)?;
    let cells = cell_count(dataset.get());
    let points = point_count(dataset.get());
    let text = text_of(alloc, OP, &style, dataset)?;
    match (cells, points) {
        (Some(cells), Some(points)) => Ok(MadeFile {
            text,
            counts: FileCounts::Cells { cells, points },
        }),
        _ => Err(Stop::Memory),
    }
}

/// What a filter makes of a file's bytes, which are given up behind their reading.
pub fn made_of(alloc: Global, filter: &Filter, bytes: Bytes) -> Result<MadeFile, Stop>
    ensures { Makes filter.now bytes result }
{
    match filter {
        Filter::Node(filter) => node_file(alloc, filter, bytes),
        Filter::Reshape(reshape) => reshape_file(alloc, reshape, SOURCE, OP, bytes),
    }
}
