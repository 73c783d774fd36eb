//! The values of a volume, and its image.

ghost use Rattle.std.specs.Prelude.{◌≡◌, ◌<◌, ◌^◌, IfOk, length, sum};
ghost use Rattle.viz_make.specs.Volume.{next, value_in, values_behind, volume, volume_sum};

use std::alloc::{AllocError, Global};
use viz_column::Column;
use viz_dataset::Image;
use viz_extent::Extent;

/// Where index 0 lies, in billionths.
const ORIGIN: [i128; 3] = [0, 0, 0];

/// The steps between points, in billionths: 1.
const SPACING: [i128; 3] = [1_000_000_000, 1_000_000_000, 1_000_000_000];

/// A volume, and the sum of its values.
#[derive(Debug, Drop)]
pub struct Generated {
    pub image: Image,
    pub sum: u64,
}

// The number behind a number.
fn next(r: u32) -> u32
    ensures value { result ≡ next r }
    ensures within { result < 2 ^ 31 }
{
    ((u64::from(r) * 1_103_515_245 + 12_345) % (1 << 31)) as u32
}

// The value that a number gives.
fn value_in(r: u32) -> u8
    ensures { result ≡ value_in r }
{
    (r / 65_536 % 256) as u8
}

// So many values behind a number.
#[tactic(auto, using(crate::proofs::ValueLemmas::values_more))]
fn values_behind(alloc: Global, number: u32, count: usize) -> Result<Vec<u8>, AllocError>
    ensures value { IfOk result (λ v. v.items ≡ values_behind number count) }
    ensures count { IfOk result (λ v. length v.items ≡ count) }
{
    let mut values = Vec::with_capacity(alloc, count)?;
    let mut r = number;
    for _ in 0..count {
        r = next(r);
        values.push(value_in(r))?;
    }
    Ok(values)
}

// The sum of bytes.
fn sum_of(values: &[u8]) -> u64
    requires { length values.now < 2 ^ 31 }
    ensures { result ≡ sum values.now }
{
    let mut sum = 0;
    for value in values {
        sum += u64::from(*value);
    }
    sum
}

/// The volume that a number makes: a byte for each point of the extent, in the order of their
/// numbers, index 0 at 0 and steps of 1.
///
/// The only error is want of memory.
pub fn generate(alloc: Global, number: u32, extent: &Extent) -> Result<Generated, AllocError>
    ensures image { IfOk result (λ made. made.image ≡ volume number extent.now) }
    ensures sum { IfOk result (λ made. made.sum ≡ volume_sum number extent.now) }
{
    let values = values_behind(alloc, number, extent.count() as usize)?;
    let sum = sum_of(&values);
    let image = Image::new(*extent, ORIGIN, SPACING, Column::of(values));
    Ok(Generated { image, sum })
}
