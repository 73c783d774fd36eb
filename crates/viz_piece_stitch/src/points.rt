//! Points of pieces at the ranks of their names.

ghost use Rattle.std.specs.Prelude.{◌≡◌, ◌<◌, ◌+◌, ◌^◌, IfOk, length};
ghost use Rattle.viz_piece_stitch.specs.Steps.Put.{IsPut, IsPutAt};

use std::alloc::AllocError;

/// Puts the points of a piece where its names stand among all names. Ranks that follow each other
/// add points one behind the other; where a rank is passed over, a later piece has its point.
pub(crate) fn put_items<T: Copy + Drop>(
    points: &mut Vec<T>,
    ranks: &[u32],
    piece: &[T],
) -> Result<(), AllocError>
    requires matched { length piece.now ≡ length ranks.now }
    ensures { IfOk result (λ _. IsPut points.old.items ranks.now piece.now points.new.items) }
{
    for (i, rank) in ranks.iter().enumerate() {
        put_item(points, *rank as usize, piece[i])?;
    }
    Ok(())
}

/// Puts an item at a place. Where the list ends before it, copies of the item stand in between.
fn put_item<T: Copy + Drop>(items: &mut Vec<T>, place: usize, item: T) -> Result<(), AllocError>
    requires { place < 2 ^ 32 }
    ensures { IfOk result (λ _. IsPutAt items.old.items place item items.new.items) }
{
    let count = items.len();
    if place == count {
        items.push(item)?;
    } else if place < count {
        items[place] = item;
    } else {
        items.resize(place + 1, item)?;
    }
    Ok(())
}
