//! Filters of the images that feed the ports.

ghost use Rattle.std.specs.Prelude.{◌≡◌, IfErr, IfOk, Ok, Some};
ghost use Rattle.std.specs.Option.{option_copied};
ghost use Rattle.viz_dataset.specs.declared.dataset.Dataset.TheVariants.{Image as OfImage};
ghost use Rattle.viz_legacy_read.specs.Reading.{IsSound};
ghost use Rattle.viz_extent.specs.Extent.{bounds_of};
ghost use Rattle.viz_extent.specs.Parts.{rate_of, IsRate};
ghost use Rattle.viz_meaning.specs.ImageFilters.{crop_of, sample_of, threshold_of, smooth_of};
ghost use Rattle.viz_meaning.specs.ImageFilters.{arith_of};
ghost use Rattle.viz_node_meaning.specs.Data.{op_with, radius_with};
ghost use Rattle.viz_node_meaning.specs.Information.{cropped, thinned};
ghost use Rattle.viz_node_rules.specs.Makes.{Makes};
ghost use Rattle.viz_node_rules.specs.Steps.Made.{IsFromOne, IsFromTwo, IsNoImage};

use crate::information::{cropped, grid_of_image, shared_grid, thinned};
use crate::parameters::{op_with, radius_with};
use crate::stop::OwnStop;
use std::alloc::Global;
use viz_base::Shared;
use viz_dataset::{Dataset, Image};
use viz_image_ops::{arith, crop, sample, smooth, threshold};
use viz_kinds::Op;
use viz_network::Cause;

/// The image that feeds a port.
pub fn image_in(port: u8, input: Option<&Shared<Dataset>>) -> Result<&Image, Cause>
    ensures value { IfOk result (λ image. option_copied input.entry ≡ Some (OfImage image.now)) }
    ensures cause { IfErr result (IsNoImage port (option_copied input.entry)) }
{
    let Some(dataset) = input else {
        return Err(Cause::Unconnected(port));
    };
    match dataset.get() {
        Dataset::Image(image) => Ok(image),
        Dataset::Mesh(_) => Err(Cause::WrongInput(port)),
    }
}

// An image as a dataset, which keeps the rule of its type.
fn whole_image(image: Image) -> Dataset
    ensures value { result ≡ OfImage image }
    ensures sound { IsSound result }
{
    let _extent = image.extent();
    Dataset::Image(image)
}

/// The crop of what feeds a port.
pub fn crop_input(
    alloc: Global,
    bounds: [u32; 6],
    input: Option<&Shared<Dataset>>,
) -> Result<Dataset, OwnStop>
    ensures value { Makes (IsFromOne (cropped (bounds_of bounds)) (crop_of (bounds_of bounds))
        (option_copied input.entry)) result }
    ensures sound { IfOk result IsSound }
{
    let image = image_in(1, input)?;
    let grid = cropped(bounds, &grid_of_image(image))?;
    Ok(whole_image(crop(alloc, image, &grid.extent)?))
}

/// The sample of what feeds a port.
pub fn sample_input(
    alloc: Global,
    rate: [u32; 3],
    input: Option<&Shared<Dataset>>,
) -> Result<Dataset, OwnStop>
    requires { IsRate (rate_of rate) }
    ensures value { Makes (IsFromOne (thinned (rate_of rate)) (sample_of (rate_of rate))
        (option_copied input.entry)) result }
    ensures sound { IfOk result IsSound }
{
    let image = image_in(1, input)?;
    let grid = thinned(rate, &grid_of_image(image))?;
    Ok(whole_image(sample(alloc, image, rate, &grid.extent)?))
}

/// The threshold of what feeds a port.
pub fn threshold_input(
    alloc: Global,
    lo: &i64,
    hi: &i64,
    input: Option<&Shared<Dataset>>,
) -> Result<Dataset, OwnStop>
    ensures value { Makes (IsFromOne (λ g. Ok g) (threshold_of lo.now hi.now)
        (option_copied input.entry))
        result }
    ensures sound { IfOk result IsSound }
{
    let image = image_in(1, input)?;
    Ok(whole_image(threshold(alloc, image, lo, hi, &image.extent())?))
}

/// The box mean of what feeds a port.
pub fn smooth_input(
    alloc: Global,
    radius: u32,
    input: Option<&Shared<Dataset>>,
) -> Result<Dataset, OwnStop>
    ensures value { Makes (IsFromOne (λ g. Ok g) (smooth_of (radius_with radius))
        (option_copied input.entry))
        result }
    ensures sound { IfOk result IsSound }
{
    let image = image_in(1, input)?;
    let whole = image.extent();
    Ok(whole_image(smooth(alloc, image, radius_with(radius), &whole, &whole)?))
}

/// The arithmetic of what feeds two ports.
pub fn arith_inputs(
    alloc: Global,
    op: Op,
    first: Option<&Shared<Dataset>>,
    second: Option<&Shared<Dataset>>,
) -> Result<Dataset, OwnStop>
    ensures value { Makes (IsFromTwo (arith_of (op_with op)) (option_copied first.entry)
        (option_copied second.entry))
        result }
    ensures sound { IfOk result IsSound }
{
    let a = image_in(1, first)?;
    let b = image_in(2, second)?;
    let grid = shared_grid(&grid_of_image(a), &grid_of_image(b))?;
    Ok(whole_image(arith(alloc, a, b, op_with(op), &grid.extent)?))
}
