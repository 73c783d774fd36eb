//! The requests of an update in pieces.

ghost use Rattle.std.specs.Prelude.{◌≡◌, ◌++◌, IfOk, OnOk, Some, None};
ghost use Rattle.std.specs.List.{All};
ghost use Rattle.viz_requests.specs.Shapes.{requests_of, slab_request};
ghost use Rattle.viz_requests.specs.Upstream.{Fits};

use std::alloc::{AllocError, Global};
use viz_extent::Extent;
use viz_parts::Request;

// Adds the block of a slab, if there is one.
fn push_slab(all: &mut Vec<Request>, slab: &Option<Extent>) -> Result<(), AllocError>
    ensures { OnOk result (all.new.items ≡ all.old.items ++ slab_request slab.now) }
{
    if let Some(slab) = slab {
        all.push(Request::Block(*slab))?;
    }
    Ok(())
}

// The slabs of an image that there are.
fn slabs_of(alloc: Global, whole: &Extent, n: u32) -> Result<Vec<Request>, AllocError>
    ensures value { IfOk result (λ all. all.items ≡ requests_of (Some whole.now) n) }
    ensures fits { IfOk result (λ all. All (Fits (Some whole.now)) all.items) }
{
    let mut all = Vec::new(alloc);
    for p in 0..n {
        let slab = whole.slab(p, n);
        push_slab(&mut all, &slab)?;
    }
    Ok(all)
}

// The pieces of a mesh. Room for all is made at once, so that where there is none nothing is done.
fn pieces_of(alloc: Global, n: u32) -> Result<Vec<Request>, AllocError>
    ensures value { IfOk result (λ all. all.items ≡ requests_of None n) }
    ensures fits { IfOk result (λ all. All (Fits None) all.items) }
{
    let mut all = Vec::with_capacity(alloc, n as usize)?;
    for p in 0..n {
        all.push(Request::Piece { p, n, ghosts: 0 })?;
    }
    Ok(all)
}

/// The requests of an update in `n` pieces of a node: the slabs of an image that have a plane, or
/// the pieces of a mesh, `p` ascending. `own` is the extent of the node's image, None of a mesh.
pub fn requests_of(alloc: Global, own: &Option<Extent>, n: u32) -> Result<Vec<Request>, AllocError>
    ensures value { IfOk result (λ all. all.items ≡ requests_of own.now n) }
    ensures fits { IfOk result (λ all. All (Fits own.now) all.items) }
{
    match own {
        Some(whole) => slabs_of(alloc, whole, n),
        None => pieces_of(alloc, n),
    }
}
