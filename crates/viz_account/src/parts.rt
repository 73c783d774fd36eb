//! What an update by its plan hands out to be kept.

ghost use Rattle.std.specs.Prelude.{◌≡◌, ◌⊎◌, []};
ghost use Rattle.viz_executive.specs.Produced.{IsByPlan, IsOnly, all_keys};
ghost use Rattle.viz_plan.specs.Published.{AreOfPlan, keys_of};
ghost use Rattle.viz_kept.specs.True.{AreMadeIn};

use std::alloc::Global;
use viz_base::{NodeId, Shape};
use viz_dataset::Dataset;
use viz_executive::{Produced, all_made};
use viz_network::Net;
use viz_parts::{Key, Stored};

/// Parts of an update by its plan, to be kept.
#[derive(Debug, Drop)]
pub struct UpdateParts {
    /// The node that was asked.
    pub sink: NodeId,
    /// The keys of the kept parts that the plan uses, in the order of their first use.
    pub used: Vec<Key>,
    /// The parts that its tasks made, of nodes that aren't released, in the order of the tasks.
    pub made: Vec<Stored>,
}

// An empty list of made parts.
fn nothing(alloc: Global, _net: &Net) -> Vec<Stored>
    ensures empty { result.items ≡ [] }
    ensures made { AreMadeIn _net.now result.items }
{
    Vec::new(alloc)
}

// All parts that an update made, its dataset among them; none where memory ran out.
fn all_or_none(
    alloc: Global,
    net: &Net,
    dataset: Dataset,
    made: Vec<Stored>,
    only: Option<Key>,
) -> Vec<Stored>
    requires made { AreMadeIn net.now made.items }
    requires only { IsOnly net.now dataset only }
    ensures keys { (result.items ≡ []) ⊎ (keys_of result.items ≡ all_keys made.items only) }
    ensures made { AreMadeIn net.now result.items }
{
    match all_made(alloc, dataset, made, only) {
        Ok(all) => all,
        Err(_) => nothing(alloc, net),
    }
}

/// The parts of an update of this node, or of an audit, whose dataset isn't needed any more. Where
/// memory runs out none of those that were made is among them.
pub fn parts_of(
    alloc: Global,
    net: &Net,
    _entries: &[Stored],
    sink: NodeId,
    _shape: &Shape,
    produced: Produced,
) -> UpdateParts
    requires plan { IsByPlan net.now _entries.now sink.0 _shape.now.pieces produced }
    ensures sink { result.sink ≡ sink }
    ensures plan { AreOfPlan net.now _entries.now result.sink.0 _shape.now.pieces
        result.used.items result.made.items }
{
    let Produced {
        dataset,
        used,
        made,
        only,
        ..
    } = produced;
    let made = all_or_none(alloc, net, dataset, made, only);
    UpdateParts { sink, used, made }
}
