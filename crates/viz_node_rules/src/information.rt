//! What is known of a node's dataset before its numbers are.

ghost use Rattle.std.specs.Prelude.{◌≡◌};
ghost use Rattle.viz_dataset.specs.Images.{vector_of, IsImage};
ghost use Rattle.viz_extent.specs.Extent.{bounds_of};
ghost use Rattle.viz_extent.specs.Parts.{rate_of, IsRate};
ghost use Rattle.viz_node_meaning.specs.Information.{information_of, information_in, grid_of};
ghost use Rattle.viz_node_meaning.specs.Information.{lengths_of, is_short, cropped, thinned};
ghost use Rattle.viz_node_meaning.specs.Information.{longer, longer_step, shared_grid};
ghost use Rattle.viz_node_meaning.specs.Information.{same_lengths, same_extent};

use viz_dataset::{Dataset, Image, Info};
use viz_extent::Extent;
use viz_network::Cause;
use viz_node_meaning::{Grid, Information, Lengths};

/// A step between points is at most 10^9 units, in billionths.
const LONGEST: i128 = 1_000_000_000_000_000_000;

fn of_vector(vector: &[i128; 3]) -> Lengths
    ensures { result ≡ lengths_of (vector_of vector.now) }
{
    Lengths {
        x: vector[0],
        y: vector[1],
        z: vector[2],
    }
}

/// What the header of a file says.
pub fn of_header(info: &Info) -> Information
    ensures { result ≡ information_in info.now }
{
    match info {
        Info::Image {
            whole,
            origin,
            spacing,
        } => Information::OfImage(Grid {
            extent: *whole,
            origin: of_vector(origin),
            spacing: of_vector(spacing),
        }),
        Info::Mesh => Information::OfMesh,
    }
}

/// The points of an image.
pub fn grid_of_image(image: &Image) -> Grid
    ensures value { result ≡ grid_of image.now.extent image.now.origin image.now.spacing }
    ensures valid { IsImage image.now }
{
    Grid {
        extent: image.extent(),
        origin: of_vector(&image.origin()),
        spacing: of_vector(&image.spacing()),
    }
}

/// What is known of a dataset that is there.
pub fn of_dataset(dataset: &Dataset) -> Information
    ensures { result ≡ information_of dataset.now }
{
    match dataset {
        Dataset::Image(image) => Information::OfImage(grid_of_image(image)),
        Dataset::Mesh(_) => Information::OfMesh,
    }
}

/// The points of a crop, unless none is left.
pub fn cropped(bounds: [u32; 6], grid: &Grid) -> Result<Grid, Cause>
    ensures { result ≡ cropped (bounds_of bounds) grid.now }
{
    match grid.extent.clip(bounds) {
        Some(extent) => Ok(Grid { extent, ..*grid }),
        None => Err(Cause::EmptyExtent),
    }
}

fn longer_step(step: &i128, rate: u32) -> i128
    ensures { result ≡ longer_step step.now rate }
{
    step.saturating_mul(i128::from(rate))
}

fn longer(rate: [u32; 3], steps: &Lengths) -> Lengths
    ensures { result ≡ longer (rate_of rate) steps.now }
{
    let [x, y, z] = rate;
    Lengths {
        x: longer_step(&steps.x, x),
        y: longer_step(&steps.y, y),
        z: longer_step(&steps.z, z),
    }
}

fn is_short(steps: &Lengths) -> bool
    ensures { result ≡ is_short steps.now }
{
    steps.x <= LONGEST && steps.y <= LONGEST && steps.z <= LONGEST
}

fn same_extent(a: &Extent, b: &Extent) -> bool
    ensures { result ≡ same_extent a.now b.now }
{
    let [ax0, ax1, ay0, ay1, az0, az1] = a.bounds();
    let [bx0, bx1, by0, by1, bz0, bz1] = b.bounds();
    ax0 == bx0 && ax1 == bx1 && ay0 == by0 && ay1 == by1 && az0 == bz0 && az1 == bz1
}

fn same_lengths(v: &Lengths, w: &Lengths) -> bool
    ensures { result ≡ same_lengths v.now w.now }
{
    v.x == w.x && v.y == w.y && v.z == w.z
}

/// The points that two images share, unless they differ.
pub fn shared_grid(g: &Grid, h: &Grid) -> Result<Grid, Cause>
    ensures { result ≡ shared_grid g.now h.now }
{
    if same_extent(&g.extent, &h.extent)
        && same_lengths(&g.origin, &h.origin)
        && same_lengths(&g.spacing, &h.spacing)
    {
        Ok(*g)
    } else {
        Err(Cause::GridsDiffer)
    }
}

/// The points of a sample, unless none is left or a step is too wide.
pub fn thinned(rate: [u32; 3], grid: &Grid) -> Result<Grid, Cause>
    requires { IsRate (rate_of rate) }
    ensures { result ≡ thinned (rate_of rate) grid.now }
{
    let Some(extent) = grid.extent.sampled(rate) else {
        return Err(Cause::EmptyExtent);
    };
    let spacing = longer(rate, &grid.spacing);
    if !is_short(&spacing) {
        return Err(Cause::TooWide);
    }
    Ok(Grid {
        extent,
        origin: grid.origin,
        spacing,
    })
}
