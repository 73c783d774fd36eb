//! The lines in front of points, cells and scalars.

ghost use Rattle.std.specs.Prelude.{◌≡◌, ◌++◌, OnOk};
ghost use Rattle.viz_image_write.specs.ImageText.{form_line};
ghost use Rattle.viz_mesh_write.specs.MeshText.{title_lines, dataset_line, points_line};
ghost use Rattle.viz_mesh_write.specs.MeshText.{types_line, scalars_head};
ghost use Rattle.viz_mesh_write.specs.Sections.{section_line, offsets_line, connectivity_line};

use crate::numbers::put_count;
use crate::target::Target;
use std::alloc::AllocError;
use viz_image_write::put_version;

/// The version, and the title with the number of places.
pub(crate) fn put_title(text: &mut Vec<u8>, later: bool, digits: u8) -> Result<(), AllocError>
    ensures { OnOk result (text.new.items ≡ text.old.items ++ title_lines later digits) }
{
    put_version(text, later)?;
    text.extend_from_slice(b"vizrun fixed 10^-")?;
    put_count(text, digits as u64)?;
    text.push(b'\n')?;
    Ok(())
}

/// Whether the numbers are words or bytes.
#[tactic(auto, unfolding(viz_image_write::specs::ImageText::form_line))]
pub(crate) fn put_form(text: &mut Vec<u8>, binary: bool) -> Result<(), AllocError>
    ensures { OnOk result (text.new.items ≡ text.old.items ++ form_line binary) }
{
    if binary {
        text.extend_from_slice(b"BINARY\n")?;
    } else {
        text.extend_from_slice(b"ASCII\n")?;
    }
    Ok(())
}

/// The kind of dataset.
#[tactic(auto, unfolding(crate::specs::MeshText::dataset_line))]
pub(crate) fn put_dataset(text: &mut Vec<u8>, is_grid: bool) -> Result<(), AllocError>
    ensures { OnOk result (text.new.items ≡ text.old.items ++ dataset_line is_grid) }
{
    if is_grid {
        text.extend_from_slice(b"DATASET UNSTRUCTURED_GRID\n")?;
    } else {
        text.extend_from_slice(b"DATASET POLYDATA\n")?;
    }
    Ok(())
}

/// The number of points, on a line.
fn make_points_line(line: &mut Vec<u8>, n: u64) -> Result<(), AllocError>
    ensures { OnOk result (line.new.items ≡ line.old.items ++ points_line n) }
{
    line.extend_from_slice(b"POINTS ")?;
    put_count(line, n)?;
    line.extend_from_slice(b" long\n")?;
    Ok(())
}

/// The keyword of a section, the number of its cells and of all their numbers, on a line.
#[tactic(auto, unfolding(crate::specs::Sections::section_line))]
fn make_section_line(
    line: &mut Vec<u8>,
    keyword: &[u8],
    n: u64,
    size: u64,
) -> Result<(), AllocError>
    ensures { OnOk result (line.new.items ≡ line.old.items ++ section_line keyword.now n size) }
{
    line.extend_from_slice(keyword)?;
    line.push(b' ')?;
    put_count(line, n)?;
    line.push(b' ')?;
    put_count(line, size)?;
    line.push(b'\n')?;
    Ok(())
}

/// Puts the line in front of offsets.
pub(crate) fn put_offsets_line<T: Target>(text: &mut T) -> Result<(), AllocError>
    ensures { OnOk result (T.text text.new ≡ T.text text.old ++ offsets_line) }
{
    let mut line = text.line();
    make_offsets_line(&mut line)?;
    text.put(line)?;
    Ok(())
}

/// Puts the line in front of indices.
pub(crate) fn put_connectivity_line<T: Target>(text: &mut T) -> Result<(), AllocError>
    ensures { OnOk result (T.text text.new ≡ T.text text.old ++ connectivity_line) }
{
    let mut line = text.line();
    make_connectivity_line(&mut line)?;
    text.put(line)?;
    Ok(())
}

/// The line in front of offsets.
#[tactic(auto, unfolding(crate::specs::Sections::offsets_line))]
fn make_offsets_line(line: &mut Vec<u8>) -> Result<(), AllocError>
    ensures { OnOk result (line.new.items ≡ line.old.items ++ offsets_line) }
{
    line.extend_from_slice(b"OFFSETS vtktypeint64\n")?;
    Ok(())
}

/// The line in front of indices.
#[tactic(auto, unfolding(crate::specs::Sections::connectivity_line))]
fn make_connectivity_line(line: &mut Vec<u8>) -> Result<(), AllocError>
    ensures { OnOk result (line.new.items ≡ line.old.items ++ connectivity_line) }
{
    line.extend_from_slice(b"CONNECTIVITY vtktypeint64\n")?;
    Ok(())
}

/// The number of types, on a line.
fn make_types_line(line: &mut Vec<u8>, n: u64) -> Result<(), AllocError>
    ensures { OnOk result (line.new.items ≡ line.old.items ++ types_line n) }
{
    line.extend_from_slice(b"CELL_TYPES ")?;
    put_count(line, n)?;
    line.extend_from_slice(b"\n")?;
    Ok(())
}

/// The lines in front of the scalars.
fn make_scalars_head(line: &mut Vec<u8>, n: u64) -> Result<(), AllocError>
    ensures { OnOk result (line.new.items ≡ line.old.items ++ scalars_head n) }
{
    line.extend_from_slice(b"POINT_DATA ")?;
    put_count(line, n)?;
    line.extend_from_slice(b"\nSCALARS scalars long 1\nLOOKUP_TABLE default\n")?;
    Ok(())
}

/// Puts the number of points, on a line.
pub(crate) fn put_points_line<T: Target>(text: &mut T, n: u64) -> Result<(), AllocError>
    ensures { OnOk result (T.text text.new ≡ T.text text.old ++ points_line n) }
{
    let mut line = text.line();
    make_points_line(&mut line, n)?;
    text.put(line)?;
    Ok(())
}

/// Puts the line of a section.
pub(crate) fn put_section_line<T: Target>(
    text: &mut T,
    keyword: &[u8],
    n: u64,
    size: u64,
) -> Result<(), AllocError>
    ensures { OnOk result (T.text text.new ≡ T.text text.old ++ section_line keyword.now n size) }
{
    let mut line = text.line();
    make_section_line(&mut line, keyword, n, size)?;
    text.put(line)?;
    Ok(())
}

/// Puts the number of types, on a line.
pub(crate) fn put_types_line<T: Target>(text: &mut T, n: u64) -> Result<(), AllocError>
    ensures { OnOk result (T.text text.new ≡ T.text text.old ++ types_line n) }
{
    let mut line = text.line();
    make_types_line(&mut line, n)?;
    text.put(line)?;
    Ok(())
}

/// Puts the lines in front of the scalars.
pub(crate) fn put_scalars_head<T: Target>(text: &mut T, n: u64) -> Result<(), AllocError>
    ensures { OnOk result (T.text text.new ≡ T.text text.old ++ scalars_head n) }
{
    let mut line = text.line();
    make_scalars_head(&mut line, n)?;
    text.put(line)?;
    Ok(())
}
