//! The kernels, once for all types: words of 64 lanes, then the numbers that are left.

ghost use Rattle.std.specs.Prelude.{◌≡◌, ◌&&◌, map, int_le, IfOk};
ghost use Rattle.viz_lanes.specs.Lanes.{AreOwn};
ghost use Rattle.viz_lanes.specs.Planes.{kept_within};

use crate::bits::Bits;
use crate::lane::Lane;
use std::alloc::{AllocError, Global};

/// Whether each number is at least v.
pub(crate) fn at_least_plane<T: Lane>(alloc: Global, xs: &[T], v: T) -> Result<Bits, AllocError>
    ensures { IfOk result (λ bits. bits ≡ map (λ x. int_le (T.whole v) (T.whole x)) xs.now) }
{
    show_all(xs);
    let mut bits = Bits::with_room(alloc, xs.len())?;
    let mut at = 0;
    while xs.len() - at >= 64 {
        bits.push_word(T::at_least_word(&xs[at..], v))?;
        at += 64;
    }
    while at < xs.len() {
        bits.push(xs[at].is_at_least(v))?;
        at += 1;
    }
    Ok(bits)
}

/// Whether each number is at least lo and at most hi.
pub(crate) fn within_plane<T: Lane>(
    alloc: Global,
    xs: &[T],
    lo: T,
    hi: T,
) -> Result<Bits, AllocError>
    ensures { IfOk result (λ bits. bits ≡ map (λ x.
        int_le (T.whole lo) (T.whole x) && int_le (T.whole x) (T.whole hi)) xs.now) }
{
    show_all(xs);
    let mut bits = Bits::with_room(alloc, xs.len())?;
    let mut at = 0;
    while xs.len() - at >= 64 {
        bits.push_word(T::within_word(&xs[at..], lo, hi))?;
        at += 64;
    }
    while at < xs.len() {
        bits.push(xs[at].is_within(lo, hi))?;
        at += 1;
    }
    Ok(bits)
}

/// Each number that is at least lo and at most hi, and 0 for every other. The loop asks for no
/// room, so that it is compiled to lanes.
pub(crate) fn kept_plane<T: Lane>(
    alloc: Global,
    xs: &[T],
    lo: T,
    hi: T,
) -> Result<Vec<T>, AllocError>
    ensures { IfOk result (λ kept.
        map T.whole kept.items ≡ kept_within (T.whole lo) (T.whole hi) (map T.whole xs.now)) }
{
    let mut kept = Vec::with_capacity(alloc, xs.len())?;
    for x in xs {
        kept.push_reserved(x.kept(lo, hi));
    }
    Ok(kept)
}

// What is to be known of each number. Nothing is done: the loop is there for its proof.
fn show_all<T: Lane>(xs: &[T])
    ensures { AreOwn T.own xs.now }
{
    for x in xs {
        x.show();
    }
}
