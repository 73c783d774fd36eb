//! A made volume, and its numbers.

ghost use Rattle.std.specs.Prelude.{◌≡◌, IfOk};
ghost use Rattle.viz_make.specs.Make.{IsClosed, IsMade, volume_text};
ghost use Rattle.viz_make.specs.Steps.Contouring.{IsWritable};
ghost use Rattle.viz_make.specs.Views.{make_of};
ghost use Rattle.viz_make.specs.Volume.{volume_sum};

use crate::contour::audited;
use crate::serving::Make;
use crate::volume::{Generated, generate};
use std::alloc::{AllocError, Global};
use std::thread::Threads;
use viz_base::{Bytes, Gate, Shared};
use viz_image_write::{Style, WriteStop, write_image};

/// How volumes are written: in words.
const STYLE: Style = Style {
    binary: false,
    digits: 0,
    version: 3,
};

/// The numbers of a made volume: its points, the sum of its values, the triangles of its contour,
/// and their sides: all, those in two triangles, those in one, and those of them on the boundary.
#[derive(Clone, Copy, PartialEq, Eq, Debug)]
pub struct Made {
    pub points: u64,
    pub sum: u64,
    pub cells: u64,
    pub sides: u64,
    pub two: u64,
    pub lone: u64,
    pub border: u64,
}

/// The text of the volume that a command names, and the sum of its values. The image is given up.
fn volume_with(alloc: Global, command: &Make<'_>) -> Result<(Shared<Bytes>, u64), AllocError>
    ensures text { IfOk result (λ r. r.0 ≡ volume_text (make_of command.now)) }
    ensures sum { IfOk result (λ r. r.1 ≡ volume_sum command.now.number command.now.extent) }
    ensures writable { IfOk result (λ _. IsWritable (make_of command.now)) }
{
    let Generated { image, sum } = generate(alloc, command.number, &command.extent)?;
    let _valid = image.extent();
    match write_image(alloc, &image, &STYLE) {
        Ok(text) => Ok((Shared::new(alloc, text)?, sum)),
        Err(WriteStop::TooWide) => unreachable!(),
        Err(WriteStop::TooMany) => unreachable!(),
        Err(WriteStop::Memory) => Err(AllocError),
    }
}

/// The text and the numbers of the volume that a command names. Its contour is made of the text
/// alone.
pub fn made_of<R: Threads + Sync, G: Gate + Sync>(
    rt: &R,
    alloc: Global,
    command: &Make<'_>,
    gate: &G,
) -> Result<(Shared<Bytes>, Made), AllocError>
    ensures text { IfOk result (λ r. r.0 ≡ volume_text (make_of command.now)) }
    ensures made { IfOk result (λ r. IsMade (make_of command.now) r.1) }
    ensures closed { IfOk result (λ r. IsClosed r.1) }
{
    let points = command.extent.count();
    let (text, sum) = volume_with(alloc, command)?;
    let (counts, cells) = audited(rt, alloc, command, text.copy()?, gate)?;
    let made = Made {
        points,
        sum,
        cells,
        sides: counts.sides,
        two: counts.two,
        lone: counts.lone,
        border: counts.border,
    };
    Ok((text, made))
}
