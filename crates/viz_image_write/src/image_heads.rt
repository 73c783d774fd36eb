//! The lines in front of an image's values.

ghost use Rattle.std.specs.Prelude.{◌≡◌, ◌++◌, OnOk};
ghost use Rattle.viz_extent.specs.Extent.{size_x, size_y, size_z};
ghost use Rattle.viz_dataset.specs.Images.{vector_of};
ghost use Rattle.viz_lex.specs.Written.{decimal_text};
ghost use Rattle.viz_image_write.specs.ImageText.{title_lines, form_line, dataset_line};
ghost use Rattle.viz_image_write.specs.ImageText.{spaced_size, dimensions_line, spaced_decimal};
ghost use Rattle.viz_image_write.specs.ImageText.{vector_line, origin_line, spacing_line};
ghost use Rattle.viz_image_write.specs.ImageText.{geometry_lines, point_data_line, type_word};
ghost use Rattle.viz_image_write.specs.ImageText.{array_line, table_line, header_lines};
ghost use Rattle.viz_image_write.specs.Version.{version_line};

use std::alloc::AllocError;
use viz_column::Kind8;
use viz_dataset::Image;
use viz_extent::Extent;
use viz_lex::{put_decimal, put_whole};

/// Puts the first line of a file, by whether it is of version 5.1.
///
/// # Errors
///
/// Want of memory.
#[tactic(auto, unfolding(crate::specs::Version::version_line))]
pub fn put_version(text: &mut Vec<u8>, later: bool) -> Result<(), AllocError>
    ensures put { OnOk result (text.new.items ≡ text.old.items ++ version_line later) }
{
    if later {
        text.extend_from_slice(b"# vtk DataFile Version 5.1\n")?;
    } else {
        text.extend_from_slice(b"# vtk DataFile Version 3.0\n")?;
    }
    Ok(())
}

/// The version and the title.
#[tactic(auto, unfolding(crate::specs::ImageText::title_lines))]
fn put_title(text: &mut Vec<u8>, later: bool) -> Result<(), AllocError>
    ensures { OnOk result (text.new.items ≡ text.old.items ++ title_lines later) }
{
    put_version(text, later)?;
    text.extend_from_slice(b"vizrun image\n")?;
    Ok(())
}

/// Whether the values are bytes or words.
#[tactic(auto, unfolding(crate::specs::ImageText::form_line))]
fn put_form(text: &mut Vec<u8>, binary: bool) -> Result<(), AllocError>
    ensures { OnOk result (text.new.items ≡ text.old.items ++ form_line binary) }
{
    if binary {
        text.extend_from_slice(b"BINARY\n")?;
    } else {
        text.extend_from_slice(b"ASCII\n")?;
    }
    Ok(())
}

/// The kind of dataset.
#[tactic(auto, unfolding(crate::specs::ImageText::dataset_line))]
fn put_dataset(text: &mut Vec<u8>) -> Result<(), AllocError>
    ensures { OnOk result (text.new.items ≡ text.old.items ++ dataset_line) }
{
    text.extend_from_slice(b"DATASET STRUCTURED_POINTS\n")?;
    Ok(())
}

/// How many points lie in a row along x, along y and along z.
fn sizes(extent: &Extent) -> (u64, u64, u64)
    ensures x { result.0 ≡ size_x extent.now }
    ensures y { result.1 ≡ size_y extent.now }
    ensures z { result.2 ≡ size_z extent.now }
{
    let [x0, x1, y0, y1, z0, z1] = extent.bounds();
    (
        u64::from(x1 - x0) + 1,
        u64::from(y1 - y0) + 1,
        u64::from(z1 - z0) + 1,
    )
}

/// A size behind a space.
fn put_size(text: &mut Vec<u8>, size: u64) -> Result<(), AllocError>
    ensures { OnOk result (text.new.items ≡ text.old.items ++ spaced_size size) }
{
    text.push(b' ')?;
    put_whole(text, i128::from(size))?;
    Ok(())
}

/// Three sizes, on a line.
#[tactic(auto, unfolding(crate::specs::ImageText::dimensions_line))]
fn put_dimensions(text: &mut Vec<u8>, x: u64, y: u64, z: u64) -> Result<(), AllocError>
    ensures { OnOk result (text.new.items ≡ text.old.items ++ dimensions_line x y z) }
{
    text.extend_from_slice(b"DIMENSIONS")?;
    put_size(text, x)?;
    put_size(text, y)?;
    put_size(text, z)?;
    text.push(b'\n')?;
    Ok(())
}

/// The sizes of an extent, on a line.
fn put_sizes(text: &mut Vec<u8>, extent: &Extent) -> Result<(), AllocError>
    ensures { OnOk result (text.new.items ≡ text.old.items
        ++ dimensions_line (size_x extent.now) (size_y extent.now) (size_z extent.now)) }
{
    let (x, y, z) = sizes(extent);
    put_dimensions(text, x, y, z)?;
    Ok(())
}

/// A decimal behind a space.
fn put_coordinate(text: &mut Vec<u8>, n: &i128) -> Result<(), AllocError>
    ensures { OnOk result (text.new.items ≡ text.old.items ++ spaced_decimal n.now) }
{
    text.push(b' ')?;
    put_decimal(text, *n)?;
    Ok(())
}

/// A word and three decimals, on a line.
#[tactic(auto, unfolding(crate::specs::ImageText::vector_line))]
fn put_vector(text: &mut Vec<u8>, word: &[u8], numbers: &[i128; 3]) -> Result<(), AllocError>
    ensures { OnOk result (text.new.items
        ≡ text.old.items ++ vector_line word.now (vector_of numbers.now)) }
{
    text.extend_from_slice(word)?;
    put_coordinate(text, &numbers[0])?;
    put_coordinate(text, &numbers[1])?;
    put_coordinate(text, &numbers[2])?;
    text.push(b'\n')?;
    Ok(())
}

/// The position of the lowest corner, on a line.
#[tactic(auto, unfolding(crate::specs::ImageText::origin_line))]
fn put_origin(text: &mut Vec<u8>, corner: &[i128; 3]) -> Result<(), AllocError>
    ensures { OnOk result (text.new.items ≡ text.old.items ++ origin_line (vector_of corner.now)) }
{
    put_vector(text, b"ORIGIN", corner)?;
    Ok(())
}

/// The steps between points, on a line.
#[tactic(auto, unfolding(crate::specs::ImageText::spacing_line))]
fn put_spacing(text: &mut Vec<u8>, spacing: &[i128; 3]) -> Result<(), AllocError>
    ensures { OnOk result (text.new.items
        ≡ text.old.items ++ spacing_line (vector_of spacing.now)) }
{
    put_vector(text, b"SPACING", spacing)?;
    Ok(())
}

/// The lines that say where the points are.
#[tactic(auto, unfolding(crate::specs::ImageText::geometry_lines))]
fn put_geometry(text: &mut Vec<u8>, image: &Image) -> Result<(), AllocError>
    ensures { OnOk result (text.new.items ≡ text.old.items ++ geometry_lines image.now) }
{
    put_sizes(text, &image.extent())?;
    put_origin(text, &image.corner())?;
    put_spacing(text, &image.spacing())?;
    Ok(())
}

/// The number of points, on a line.
#[tactic(auto, unfolding(crate::specs::ImageText::point_data_line))]
fn put_point_data(text: &mut Vec<u8>, points: u64) -> Result<(), AllocError>
    ensures { OnOk result (text.new.items ≡ text.old.items ++ point_data_line points) }
{
    text.extend_from_slice(b"POINT_DATA ")?;
    put_whole(text, i128::from(points))?;
    text.push(b'\n')?;
    Ok(())
}

/// The word of a type.
fn word_of(kind: Kind8) -> &'static str
    ensures { result.now ≡ type_word kind }
{
    match kind {
        Kind8::I8 => "char",
        Kind8::U8 => "unsigned_char",
        Kind8::I16 => "short",
        Kind8::U16 => "unsigned_short",
        Kind8::I32 => "int",
        Kind8::U32 => "unsigned_int",
        Kind8::I64 => "long",
        Kind8::U64 => "unsigned_long",
    }
}

/// The same word, at the end of a text.
fn put_word(text: &mut Vec<u8>, kind: Kind8) -> Result<(), AllocError>
    ensures { OnOk result (text.new.items ≡ text.old.items ++ type_word kind) }
{
    text.extend_from_slice(word_of(kind).as_bytes())?;
    Ok(())
}

/// The name, the type and the number of components.
fn put_array(text: &mut Vec<u8>, kind: Kind8) -> Result<(), AllocError>
    ensures { OnOk result (text.new.items ≡ text.old.items ++ array_line kind) }
{
    text.extend_from_slice(b"SCALARS scalars ")?;
    put_word(text, kind)?;
    text.extend_from_slice(b" 1\n")?;
    Ok(())
}

/// The name of the colour table.
#[tactic(auto, unfolding(crate::specs::ImageText::table_line))]
fn put_table(text: &mut Vec<u8>) -> Result<(), AllocError>
    ensures { OnOk result (text.new.items ≡ text.old.items ++ table_line) }
{
    text.extend_from_slice(b"LOOKUP_TABLE default\n")?;
    Ok(())
}

/// The lines in front of the values.
#[tactic(auto, unfolding(crate::specs::ImageText::header_lines))]
pub(crate) fn put_header(
    text: &mut Vec<u8>,
    later: bool,
    binary: bool,
    image: &Image,
) -> Result<(), AllocError>
    ensures { OnOk result (text.new.items ≡ text.old.items ++ header_lines later binary image.now) }
{
    put_title(text, later)?;
    put_form(text, binary)?;
    put_dataset(text)?;
    put_geometry(text, image)?;
    put_point_data(text, image.extent().count())?;
    put_array(text, image.column().kind())?;
    put_table(text)?;
    Ok(())
}
