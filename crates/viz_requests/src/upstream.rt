//! What a node makes for a request, and what it asks its inputs for.

ghost use Rattle.std.specs.Prelude.{◌≡◌, ◌<◌, ◌↔◌, IsTrue, IsSome, IfSome, None};
ghost use Rattle.viz_extent.specs.Parts.{rate_of, IsRate};
ghost use Rattle.viz_requests.specs.Upstream.{CanAsk, Fits, FittingCanBeAsked, HasRoom, IsSampled};
ghost use Rattle.viz_requests.specs.Upstream.{all_of, asked, grown_request, layers_request};
ghost use Rattle.viz_requests.specs.Upstream.{mean_radius, more_ghosts, spread_request, widened};

use crate::extents::{grown_block, layers_block, sample_rate, spread_block};
use viz_extent::Extent;
use viz_kinds::Settings;
use viz_parts::Request;

/// The request for all of a dataset.
fn all_of(own: &Option<Extent>) -> Request
    ensures value { result ≡ all_of own.now }
    ensures fits { Fits own.now result }
{
    match own {
        Some(whole) => Request::Block(*whole),
        None => Request::Piece {
            p: 0,
            n: 1,
            ghosts: 0,
        },
    }
}

/// What a node makes for a request: a file and a merge make all of their dataset. `own` is the
/// extent of the node's image, None of a mesh.
pub fn widened(settings: &Settings, own: &Option<Extent>, request: &Request) -> Request
    ensures value { result ≡ widened settings.now own.now request.now }
    ensures fits { Fits own.now request.now → Fits own.now result }
{
    match settings {
        Settings::File { .. } | Settings::Merge => all_of(own),
        _ => *request,
    }
}

/// Whether a request fits a dataset: a block of points of the image, or one of the pieces of the
/// mesh. `own` is the extent of the image, None of a mesh.
pub fn fits(own: &Option<Extent>, request: &Request) -> bool
    ensures value { IsTrue result ↔ Fits own.now request.now }
{
    match (own, request) {
        (Some(whole), Request::Block(block)) => whole.contains(block),
        (None, Request::Piece { p, n, .. }) => *p < *n,
        _ => false,
    }
}

// The request, where it fits.
fn same(whole: &Option<Extent>, request: &Request) -> Option<Request>
    ensures value { IfSome result (λ r. r ≡ request.now) }
    ensures some { IsSome result ↔ Fits whole.now request.now }
{
    if fits(whole, request) {
        Some(*request)
    } else {
        None
    }
}

fn spread_request(rate: [u32; 3], whole: &Option<Extent>, request: &Request) -> Option<Request>
    requires rate { IsRate (rate_of rate) }
    ensures value { IfSome result (λ r. r ≡ spread_request (rate_of rate) request.now) }
    ensures some { IsSome result ↔ IsSampled (rate_of rate) whole.now request.now }
    ensures fits { IfSome result (Fits whole.now) }
{
    match (whole, request) {
        (Some(whole), Request::Block(block)) => {
            Some(Request::Block(spread_block(rate, whole, block)?))
        }
        (None, Request::Piece { p, n, .. }) if *p < *n => Some(*request),
        _ => None,
    }
}

fn grown_request(radius: u32, whole: &Option<Extent>, request: &Request) -> Option<Request>
    ensures value { IfSome result (λ r. r ≡ grown_request
        (mean_radius radius) whole.now request.now) }
    ensures some { IsSome result ↔ Fits whole.now request.now }
    ensures fits { IfSome result (Fits whole.now) }
{
    match (whole, request) {
        (Some(whole), Request::Block(block)) => {
            Some(Request::Block(grown_block(radius, whole, block)?))
        }
        _ => same(whole, request),
    }
}

fn layers_request(whole: &Option<Extent>, request: &Request) -> Option<Request>
    ensures value { IfSome result (λ r. r ≡ layers_request whole.now request.now) }
    ensures some { IsSome result ↔ Fits None request.now }
    ensures fits { IfSome result (Fits whole.now) }
{
    match request {
        Request::Piece { p, n, ghosts } if *p < *n => match whole {
            Some(whole) => Some(Request::Block(layers_block(*p, *n, *ghosts, whole))),
            None => Some(*request),
        },
        _ => None,
    }
}

fn more_ghosts(request: &Request) -> Option<Request>
    ensures value { IfSome result (λ r. r ≡ more_ghosts request.now) }
    ensures some { IsSome result ↔ HasRoom request.now }
{
    match request {
        Request::Piece { p, n, ghosts } => Some(Request::Piece {
            p: *p,
            n: *n,
            ghosts: ghosts.checked_add(1)?,
        }),
        Request::Block(_) => Some(*request),
    }
}

// One ghost level more of a piece that fits.
fn more_within(whole: &Option<Extent>, request: &Request) -> Option<Request>
    ensures value { IfSome result (λ r. r ≡ more_ghosts request.now) }
    ensures some { IsSome result ↔ (Fits whole.now request.now × HasRoom request.now) }
    ensures fits { IfSome result (Fits whole.now) }
{
    if fits(whole, request) {
        more_ghosts(request)
    } else {
        None
    }
}

/// What a node asks its inputs for, so that it can make what the request wants of it. `whole` is
/// the extent of the image at the node's ports, None of a mesh.
///
/// `None` exactly where the inputs haven't what would be asked for, as they have for each request
/// that fits what the node makes of them (`fitting_can_be_asked`).
#[rattlefmt::skip]
pub fn asked(settings: &Settings, whole: &Option<Extent>, request: &Request) -> Option<Request>
    ensures value { IfSome result (λ r. r ≡ asked settings.now whole.now request.now) }
    ensures some { IsSome result ↔ CanAsk settings.now whole.now request.now }
    ensures fits { IfSome result (Fits whole.now) }
{
    match settings {
        Settings::Sample { x, y, z } => spread_request(sample_rate(*x, *y, *z), whole, request),
        Settings::Smooth { radius } => grown_request(*radius, whole, request),
        Settings::Tets | Settings::Contour { .. } | Settings::Cut { .. } => {
            layers_request(whole, request)
        }
        Settings::Boundary => more_within(whole, request),
        Settings::File { .. } | Settings::Merge => Some(all_of(whole)),
        _ => same(whole, request),
    }
}

/// What fits the dataset that a node makes can be asked of its inputs.
pub fn fitting_can_be_asked()
    ensures law { FittingCanBeAsked }
{}
