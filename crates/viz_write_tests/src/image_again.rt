//! Images that are written and read again; what is wanted was counted by hand.

use std::alloc::Global;
use std::process::Abort;
use std::test::Fail;
use viz_base::{Bytes, Pick};
use viz_column::{Column, Number};
use viz_dataset::{Dataset, Image, is_origin, is_spacing};
use viz_extent::Extent;
use viz_image_write::{Style, write_image};
use viz_legacy_read::read;

/// So many billionths make 1.
const ONE: i128 = 1_000_000_000;

/// The bounds, the origin and the spacing.
type Place = ([u32; 6], [i128; 3], [i128; 3]);

// The text of an image of these numbers.
fn text_of<T: Number>(
    alloc: Global,
    place: &Place,
    binary: bool,
    numbers: &[i128],
) -> Result<Bytes, Fail> {
    let (bounds, origin, spacing) = *place;
    let extent = Extent::new(bounds).ok_or("an extent")?;
    let mut values = Vec::new(alloc);
    for n in numbers {
        values.push(T::of_whole(*n).ok_or("a number of the type")?)?;
    }
    let column = Column::of(values);
    if !is_origin(&origin) || !is_spacing(&spacing) || column.len() != extent.count() {
        return Err("an image".into());
    }
    let image = Image::new(extent, origin, spacing, column);
    let style = Style {
        binary,
        digits: 0,
        version: 3,
    };
    let text = write_image(alloc, &image, &style)?;
    Ok(text)
}

// An image is read again in both forms: at this place, with its type and its numbers.
fn again<T: Number>(
    rt: &impl Abort,
    alloc: Global,
    written: &Place,
    place: &Place,
    numbers: &[i128],
) -> Result<(), Fail> {
    for binary in [false, true] {
        let text = text_of::<T>(alloc, written, binary, numbers)?;
        let Dataset::Image(image) = read(alloc, text.list(), &Pick::First, 0)? else {
            return Err("an image".into());
        };
        let found = (image.extent().bounds(), image.origin(), image.spacing());
        assert_eq!(*rt; found, *place, "{binary}");
        let column = image.column();
        assert_eq!(*rt; column.kind(), T::kind(), "{binary}");
        assert_eq!(*rt; column.len(), numbers.len() as u64, "{binary}");
        for k in 0..column.len() {
            assert!(*rt;
                numbers.get(k as usize) == Some(&column.get(k)),
                "{binary} {k}"
            );
        }
    }
    Ok(())
}

#[test]
fn an_image_from_index_0_is_read_as_it_was(rt: HostRuntime) -> Result<(), Fail> {
    let alloc = rt.alloc();
    // One point, with the greatest number of the widest type.
    let point = ([0; 6], [0; 3], [ONE; 3]);
    again::<u64>(&rt, alloc, &point, &point, &[18_446_744_073_709_551_615])?;
    // Two rows of three, one of whose bytes is a newline.
    let rows = (
        [0, 2, 0, 1, 0, 0],
        [-ONE / 2, 0, 1],
        [ONE / 4, 2 * ONE, ONE * ONE],
    );
    again::<i16>(
        &rt,
        alloc,
        &rows,
        &rows,
        &[-32_768, 0, 10, 32_767, -1, 2_570],
    )
}

// The first point stands at -0.5 + 3 / 4, at 1 - 2 and at 2 + 2 * 3.
#[test]
fn an_image_from_further_on_is_read_from_0(rt: HostRuntime) -> Result<(), Fail> {
    let spacing = [ONE / 4, 2 * ONE, 3 * ONE];
    let written = ([3, 4, 1, 2, 2, 2], [-ONE / 2, -3 * ONE, 2 * ONE], spacing);
    let place = ([0, 1, 0, 1, 0, 0], [ONE / 4, -ONE, 8 * ONE], spacing);
    again::<u8>(&rt, rt.alloc(), &written, &place, &[7, 32, 10, 255])
}
