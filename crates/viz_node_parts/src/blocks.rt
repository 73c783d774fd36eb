//! Blocks of images, of the images at the ports.

ghost use Rattle.std.specs.Prelude.{◌≡◌, IfOk};
ghost use Rattle.std.specs.Option.{option_copied};
ghost use Rattle.viz_extent.specs.Extent.{Bounds};
ghost use Rattle.viz_meaning.specs.ImageFilters.{arith_of, crop_of, sample_of, threshold_of};
ghost use Rattle.viz_node_meaning.specs.Data.{op_with, radius_with};
ghost use Rattle.viz_node_meaning.specs.Information.{rate_with};
ghost use Rattle.viz_node_parts.specs.Made.{MakesImage, MakesMean, MakesOfBoth};
ghost use Rattle.viz_node_parts.specs.Taken.{HasMultiples, HasPointsAround, HoldsBlock, TakesImage};

use crate::ports::{block_of, image_of};
use std::alloc::{AllocError, Global};
use viz_extent::Extent;
use viz_image_ops::{arith, crop, sample, smooth, threshold};
use viz_kinds::Op;
use viz_node_rules::{op_with, radius_with, rate_with};
use viz_parts::{Part, Request};

/// The block of a crop, whatever its box is.
pub fn crop_block(
    alloc: Global,
    request: &Request,
    input: Option<&Part>,
) -> Result<Part, AllocError>
    requires taken { TakesImage HoldsBlock request.now (option_copied input) }
    ensures made { IfOk result (λ part. (box : Bounds)
        → MakesImage (crop_of box) request.now (option_copied input.entry) part) }
{
    let image = image_of(input);
    Ok(Part::Image(crop(alloc, image, block_of(request))?))
}

/// The block of a sample.
pub fn sample_block(
    alloc: Global,
    x: u32,
    y: u32,
    z: u32,
    request: &Request,
    input: Option<&Part>,
) -> Result<Part, AllocError>
    requires taken { TakesImage (HasMultiples (rate_with x y z)) request.now
        (option_copied input) }
    ensures made { IfOk result (MakesImage (sample_of (rate_with x y z)) request.now
        (option_copied input.entry)) }
{
    let image = image_of(input);
    let rate = rate_with(x, y, z);
    Ok(Part::Image(sample(alloc, image, rate, block_of(request))?))
}

/// The block of a threshold.
pub fn threshold_block(
    alloc: Global,
    lo: &i64,
    hi: &i64,
    request: &Request,
    input: Option<&Part>,
) -> Result<Part, AllocError>
    requires taken { TakesImage HoldsBlock request.now (option_copied input) }
    ensures made { IfOk result (MakesImage (threshold_of lo.now hi.now) request.now
        (option_copied input.entry)) }
{
    let image = image_of(input);
    Ok(Part::Image(threshold(alloc, image, lo, hi, block_of(request))?))
}

/// The block of a box mean within the whole.
pub fn smooth_block(
    alloc: Global,
    radius: u32,
    whole: &Option<Extent>,
    request: &Request,
    input: Option<&Part>,
) -> Result<Part, AllocError>
    requires taken { TakesImage (HasPointsAround (radius_with radius) whole.now) request.now
        (option_copied input) }
    ensures made { IfOk result (MakesMean (radius_with radius) whole.now request.now
        (option_copied input.entry)) }
{
    let image = image_of(input);
    let out = block_of(request);
    match whole {
        Some(whole) => Ok(Part::Image(smooth(alloc, image, radius_with(radius), whole, out)?)),
        None => unreachable!(),
    }
}

/// The block of the arithmetic of two images.
pub fn arith_block(
    alloc: Global,
    op: Op,
    request: &Request,
    first: Option<&Part>,
    second: Option<&Part>,
) -> Result<Part, AllocError>
    requires first { TakesImage HoldsBlock request.now (option_copied first) }
    requires second { TakesImage HoldsBlock request.now (option_copied second) }
    ensures made { IfOk result (MakesOfBoth (arith_of (op_with op)) request.now
        (option_copied first.entry) (option_copied second.entry)) }
{
    let a = image_of(first);
    let b = image_of(second);
    let out = block_of(request);
    Ok(Part::Image(arith(alloc, a, b, op_with(op), out)?))
}
