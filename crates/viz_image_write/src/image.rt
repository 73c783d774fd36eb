//! The text of an image.

ghost use Rattle.std.specs.Prelude.{◌≡◌, ◌*◌, ◌++◌, ◌↔◌, OnOk, IfOk, IsErrOf};
ghost use Rattle.viz_dataset.specs.Images.{IsOrigin, corner};
ghost use Rattle.viz_image_write.specs.ImageText.{image_text};
ghost use Rattle.viz_image_write.specs.Version.{is_later};

use crate::image_heads::put_header;
use crate::rows::put_column;
use crate::stop::WriteStop;
use crate::style::Style;
use std::alloc::{AllocError, Global};
use viz_base::Bytes;
use viz_column::Kind8;
use viz_dataset::{Image, is_origin};

/// The room that is taken for a value before the first one is written: its bytes, or the digits of
/// a usual value and what stands behind them.
fn room_per_value(binary: bool, kind: Kind8) -> usize {
    if binary {
        return kind.size();
    }
    match kind {
        Kind8::I8 | Kind8::U8 => 4,
        Kind8::I16 | Kind8::U16 => 6,
        Kind8::I32 | Kind8::U32 | Kind8::I64 | Kind8::U64 => 8,
    }
}

/// The whole text.
#[tactic(auto, unfolding(crate::specs::ImageText::image_text))]
fn put_image(
    alloc: Global,
    text: &mut Vec<u8>,
    later: bool,
    binary: bool,
    image: &Image,
) -> Result<(), AllocError>
    ensures { OnOk result (text.new.items ≡ text.old.items ++ image_text later binary image.now) }
{
    put_header(text, later, binary, image)?;
    let column = image.column();
    let room = room_per_value(binary, column.kind()) as u64;
    text.reserve(room.saturating_mul(column.len()) as usize)?;
    let [x0, x1, y0, y1, z0, z1] = image.extent().bounds();
    let width = (x1 - x0) as usize + 1;
    let rows = (u64::from(y1 - y0) + 1) * (u64::from(z1 - z0) + 1);
    put_column(alloc, text, binary, rows, width, column)?;
    Ok(())
}

/// The text of an image: in ASCII each row along x is one line, in BINARY the bytes of the numbers
/// and a newline. `ORIGIN` is the position of the lowest corner of the extent, so a text has
/// no indices of its own. By the version the first line differs alone.
///
/// # Errors
///
/// `TooWide` exactly where that position exceeds 10^18 units in magnitude, along some axis;
/// `TooMany` never, since an extent has at most 2^31 - 1 points.
pub fn write_image(alloc: Global, image: &Image, style: &Style) -> Result<Bytes, WriteStop>
    ensures value { IfOk result (λ text.
        text ≡ image_text (is_later style.now.version) style.now.binary image.now) }
    ensures fits { OnOk result (IsOrigin (corner image.now)) }
    ensures too_wide { IsErrOf result WriteStop.TooWide ↔ ¬ IsOrigin (corner image.now) }
    ensures too_many { ¬ IsErrOf result WriteStop.TooMany }
{
    if !is_origin(&image.corner()) {
        return Err(WriteStop::TooWide);
    }
    let mut text = Vec::new(alloc);
    put_image(alloc, &mut text, style.is_later(), style.binary, image)?;
    Ok(Bytes::new(text))
}
