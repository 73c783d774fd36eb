//! The part of an update that is its dataset itself, so that it isn't copied.

ghost use Rattle.std.specs.Prelude.{◌≡◌, IfOk, IsTrue};
ghost use Rattle.std.specs.List.{All};
ghost use Rattle.viz_kept.specs.True.{AreMadeIn};
ghost use Rattle.viz_kept.specs.Whole.{whole_request};
ghost use Rattle.viz_network.specs.Network.{Network};
ghost use Rattle.viz_plan.specs.Published.{keys_of};
ghost use Rattle.viz_executive.specs.Produced.{IsOnly, all_keys};
ghost use Rattle.viz_executive.specs.Steps.Carrying.{AsksForAll, IsTakenOut};
ghost use Rattle.viz_executive.specs.Steps.Tasks.{IsTaskItem};

use crate::ground::Ground;
use crate::wholes::Answered;
use std::alloc::{AllocError, Global};
use viz_base::{NodeId, Shared};
use viz_dataset::Dataset;
use viz_kept::whole_part;
use viz_parts::{Key, Request, Stored};

// Whether a part is the only one of the node that the update asks for.
fn is_asked(item: &Stored, node: NodeId, answered: &[Answered]) -> bool
    ensures { IsTrue result → item.now.key.node ≡ node }
{
    let Some(one) = answered.first() else {
        return false;
    };
    answered.len() == 1 && item.key.node == node && item.key.request == one.request
}

/// Takes the last part that a task made out of the made ones, where it is all that the update asks
/// its node for: the dataset is then the part itself. Gives its key.
pub fn take_only(
    ground: &Ground<'_>,
    made: &mut Vec<Stored>,
    answered: &[Answered],
) -> Result<Option<Key>, AllocError>
    requires items { All (IsTaskItem ground.now.sites.net) made.old.items }
    ensures { IfOk result (IsTakenOut ground.now made.old.items made.new.items) }
{
    let Some((_, node)) = ground.source() else {
        return Ok(None);
    };
    let Some(item) = made.pop() else {
        return Ok(None);
    };
    if is_asked(&item, node, answered) {
        return Ok(Some(item.key));
    }
    made.push(item)?;
    Ok(None)
}

// Whether a request asks for all of a dataset.
fn is_whole(request: &Request, dataset: &Dataset) -> bool
    ensures { IsTrue result → request.now ≡ whole_request dataset.now }
{
    match dataset {
        Dataset::Image(image) => *request == Request::Block(image.extent()),
        Dataset::Mesh(_) => {
            *request
                == Request::Piece {
                    p: 0,
                    n: 1,
                    ghosts: 0,
                }
        }
    }
}

/// Whether a key, if there is one, asks for all of a dataset.
pub fn asks_for_all(only: &Option<Key>, dataset: &Dataset) -> bool
    ensures { IsTrue result → AsksForAll dataset.now only.now }
{
    match only {
        Some(key) => is_whole(&key.request, dataset),
        None => true,
    }
}

/// All parts that the tasks of an update made, in their order: `made`, and the dataset itself under
/// the key of the only part, if there is one. Nothing of it is copied.
pub fn all_made(
    alloc: Global,
    dataset: Dataset,
    made: Vec<Stored>,
    only: Option<Key>,
) -> Result<Vec<Stored>, AllocError>
    ensures keys { IfOk result (λ all. keys_of all.items ≡ all_keys made.items only) }
    ensures made { (net : Network) → AreMadeIn net made.items → IsOnly net dataset only
        → IfOk result (λ all. AreMadeIn net all.items) }
{
    let Some(key) = only else {
        return Ok(made);
    };
    let (_request, part) = whole_part(alloc, dataset)?;
    let part = Shared::new(alloc, part)?;
    let mut all = made;
    all.push(Stored { key, part })?;
    Ok(all)
}
