//! Where each step that is asked for is read last.

ghost use Rattle.std.specs.Prelude.{◌≡◌, ◌∷◌, [], ◌<◌, ◌≤◌, IfOk, length, slice_index_or};
ghost use Rattle.viz_scratch.specs.Steps.Readers.{AreBefore, AreBehind, AreReaders, IsRaised};

use std::alloc::{AllocError, Global};
use viz_network::Step;

// A place is read at step k.
fn raise_one(last: &mut Vec<usize>, place: &Option<usize>, k: usize)
    requires before { AreBefore k (place.now ∷ []) }
    requires within { k < length last.old.items }
    ensures { IsRaised k (place.now ∷ []) last.old.items last.new.items }
{
    if let Some(place) = place {
        last[*place] = last[*place].max(k);
    }
}

// The places that feed step k are read there.
fn raise(last: &mut Vec<usize>, places: &[Option<usize>], k: usize)
    requires before { AreBefore k places.now }
    requires within { k < length last.old.items }
    ensures { IsRaised k places.now last.old.items last.new.items }
{
    for place in places {
        raise_one(last, place, k);
    }
}

/// Where each step is read last, and 0 where it isn't asked for; the step at `sink` is read behind
/// all steps.
pub fn last_readers(alloc: Global, steps: &[Step], sink: usize) -> Result<Vec<usize>, AllocError>
    requires within { sink < length steps.now }
    requires behind { AreBehind steps.now }
    ensures count { IfOk result (λ last. length last.items ≡ length steps.now) }
    ensures sink { IfOk result (λ last. length steps.now ≤ slice_index_or last.items sink 0) }
    ensures readers { IfOk result (λ last. AreReaders steps.now last.items) }
{
    let mut last = Vec::new(alloc);
    last.resize(steps.len(), 0)?;
    last[sink] = steps.len();
    let mut k = steps.len();
    while k > 0 {
        k -= 1;
        if last[k] > 0 {
            raise(&mut last, &steps[k].inputs, k);
        }
    }
    Ok(last)
}
