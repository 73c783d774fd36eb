//! Images whose texts are written by hand.
use std::alloc::Global;
use std::process::Abort;
use std::test::Fail;
use viz_base::Bytes;
use viz_column::{Column, Number};
use viz_dataset::{Image, is_origin, is_spacing};
use viz_extent::Extent;
use viz_image_write::{Style, WriteStop, write_image};

/// So many billionths make 1.
const ONE: i128 = 1_000_000_000;

/// One unsigned byte at 0.
const ONE_POINT: &str = "# vtk DataFile Version 3.0
vizrun image
ASCII
DATASET STRUCTURED_POINTS
DIMENSIONS 1 1 1
ORIGIN 0 0 0
SPACING 1 1 1
POINT_DATA 1
SCALARS scalars unsigned_char 1
LOOKUP_TABLE default
7
";

/// The same in a file of version 5.1.
const ONE_POINT_LATER: &str = "# vtk DataFile Version 5.1
vizrun image
ASCII
DATASET STRUCTURED_POINTS
DIMENSIONS 1 1 1
ORIGIN 0 0 0
SPACING 1 1 1
POINT_DATA 1
SCALARS scalars unsigned_char 1
LOOKUP_TABLE default
7
";

/// Two by two points; the extent begins at 3, 1, 2, so the origin is -0.5 + 3 / 4, 1 - 2 and 10^-9.
const SHIFTED: &str = "# vtk DataFile Version 3.0
vizrun image
ASCII
DATASET STRUCTURED_POINTS
DIMENSIONS 2 2 1
ORIGIN 0.25 -1 0.000000001
SPACING 0.25 2 0.000000001
POINT_DATA 4
SCALARS scalars short 1
LOOKUP_TABLE default
-1 300
2 -32768
";

// The image of these numbers, where there is one.
fn image_of(
    extent: Extent,
    origin: [i128; 3],
    spacing: [i128; 3],
    column: Column,
) -> Option<Image> {
    if !is_origin(&origin) || !is_spacing(&spacing) || column.len() != extent.count() {
        return None;
    }
    Some(Image::new(extent, origin, spacing, column))
}

// Words in a file of this version, where it is one.
fn style_of(version: u8) -> Option<Style> {
    if version != 3 && version != 5 {
        return None;
    }
    Some(Style {
        binary: false,
        digits: 3,
        version,
    })
}

// The text of an image of these numbers.
fn text_of<T: Number>(
    alloc: Global,
    bounds: [u32; 6],
    origin: [i128; 3],
    spacing: [i128; 3],
    binary: bool,
    numbers: &[i128],
) -> Result<Bytes, Fail> {
    let extent = Extent::new(bounds).ok_or("an extent")?;
    let mut values = Vec::new(alloc);
    for n in numbers {
        values.push(T::of_whole(*n).unwrap_or(T::zero()))?;
    }
    let image = image_of(extent, origin, spacing, Column::of(values)).ok_or("an image")?;
    let style = Style {
        binary,
        digits: 3,
        version: 3,
    };
    let text = write_image(alloc, &image, &style)?;
    Ok(text)
}

#[test]
fn a_row_is_a_line(rt: HostRuntime) -> Result<(), Fail> {
    let alloc = rt.alloc();
    let one = text_of::<u8>(alloc, [0; 6], [0; 3], [ONE; 3], false, &[7])?;
    assert!(rt; one.list() == ONE_POINT.as_bytes());
    let shifted = text_of::<i16>(
        alloc,
        [3, 4, 1, 2, 2, 2],
        [-ONE / 2, -3 * ONE, -1],
        [ONE / 4, 2 * ONE, 1],
        false,
        &[-1, 300, 2, -32_768],
    )?;
    assert!(rt; shifted.list() == SHIFTED.as_bytes());
    Ok(())
}

// By the version the first line differs alone.
#[test]
fn the_first_line_tells_the_version(rt: HostRuntime) -> Result<(), Fail> {
    let alloc = rt.alloc();
    for (version, want) in [(3, ONE_POINT), (5, ONE_POINT_LATER)] {
        let extent = Extent::new([0; 6]).ok_or("an extent")?;
        let column = Column::of(Vec::<u8>::from_slice(alloc, &[7])?);
        let image = image_of(extent, [0; 3], [ONE; 3], column).ok_or("an image")?;
        let style = style_of(version).ok_or("a version")?;
        let text = write_image(alloc, &image, &style)?;
        assert!(rt; text.list() == want.as_bytes(), "{version}");
    }
    Ok(())
}

// The end of a text from its line SCALARS on.
fn ends<T: Number>(
    rt: &impl Abort,
    alloc: Global,
    binary: bool,
    numbers: &[i128],
    end: &[u8],
) -> Result<(), Fail> {
    let text = text_of::<T>(alloc, [0, 1, 0, 0, 0, 0], [0; 3], [ONE; 3], binary, numbers)?;
    assert!(rt; text.list().ends_with(end), "{end:?}");
    Ok(())
}

#[test]
fn each_type_has_its_word(rt: HostRuntime) -> Result<(), Fail> {
    let a = rt.alloc();
    ends::<i8>(
        &rt,
        a,
        false,
        &[-128, 1],
        b"s char 1\nLOOKUP_TABLE default\n-128 1\n",
    )?;
    ends::<u8>(
        &rt,
        a,
        false,
        &[255, 0],
        b"s unsigned_char 1\nLOOKUP_TABLE default\n255 0\n",
    )?;
    ends::<i16>(
        &rt,
        a,
        false,
        &[-2, 1],
        b"s short 1\nLOOKUP_TABLE default\n-2 1\n",
    )?;
    ends::<u16>(
        &rt,
        a,
        false,
        &[9, 8],
        b"s unsigned_short 1\nLOOKUP_TABLE default\n9 8\n",
    )?;
    ends::<i32>(
        &rt,
        a,
        false,
        &[-9, 8],
        b"s int 1\nLOOKUP_TABLE default\n-9 8\n",
    )?;
    ends::<u32>(
        &rt,
        a,
        false,
        &[4, 5],
        b"s unsigned_int 1\nLOOKUP_TABLE default\n4 5\n",
    )?;
    ends::<i64>(
        &rt,
        a,
        false,
        &[-4, 5],
        b"s long 1\nLOOKUP_TABLE default\n-4 5\n",
    )?;
    ends::<u64>(
        &rt,
        a,
        false,
        &[6, 7],
        b"s unsigned_long 1\nLOOKUP_TABLE default\n6 7\n",
    )
}

#[test]
fn bytes_stand_the_highest_first(rt: HostRuntime) -> Result<(), Fail> {
    let a = rt.alloc();
    ends::<i8>(&rt, a, true, &[-1, 2], b"default\n\xff\x02\n")?;
    ends::<i16>(&rt, a, true, &[258, -2], b"default\n\x01\x02\xff\xfe\n")?;
    ends::<u32>(&rt, a, true, &[1, 256], b"default\n\0\0\0\x01\0\0\x01\0\n")?;
    ends::<i64>(
        &rt,
        a,
        true,
        &[0, -1],
        b"default\n\0\0\0\0\0\0\0\0\xff\xff\xff\xff\xff\xff\xff\xff\n",
    )
}

// An origin at the limit may be written, and one past it by a step may not.
#[test]
fn a_far_corner_is_too_wide(rt: HostRuntime) -> Result<(), Fail> {
    let alloc = rt.alloc();
    let far = ONE * ONE * ONE;
    for (first, wide) in [(0, false), (1, true)] {
        let extent = Extent::new([first, first, 0, 0, 0, 0]).ok_or("an extent")?;
        let column = Column::of(Vec::<u8>::from_slice(alloc, &[0])?);
        let image = image_of(extent, [far, 0, 0], [1; 3], column).ok_or("an image")?;
        let style = Style {
            binary: true,
            digits: 0,
            version: 3,
        };
        let answer = write_image(alloc, &image, &style);
        assert_eq!(rt; matches!(answer, Err(WriteStop::TooWide)), wide);
        assert_eq!(rt; answer.is_ok(), !wide);
    }
    Ok(())
}

// A row of 200,000 points: 200,000 digits, each with a blank or the newline behind it.
#[test]
fn a_long_row_is_written_whole(rt: HostRuntime) -> Result<(), Fail> {
    let alloc = rt.alloc();
    let numbers: Vec<i128> = vec![in alloc; 5; 200_000]?;
    let row = [0, 199_999, 0, 0, 0, 0];
    let words = text_of::<u64>(alloc, row, [0; 3], [ONE; 3], false, &numbers)?;
    let bytes = text_of::<u64>(alloc, row, [0; 3], [ONE; 3], true, &numbers)?;
    // Two bytes a word, eight bytes a number and a newline; BINARY is a letter longer than ASCII.
    assert_eq!(rt; words.list().len() + 1_200_002, bytes.list().len());
    assert!(rt; words.list().ends_with(b" 5 5\n"));
    assert!(rt; bytes.list().ends_with(b"\0\0\0\0\0\0\0\x05\n"));
    Ok(())
}
