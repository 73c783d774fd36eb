//! The lines in front of points, cells and scalars.

ghost use Rattle.std.specs.Prelude.{◌≡◌, ◌++◌, OnOk};
ghost use Rattle.std.specs.Fmt.{decimal};
ghost use Rattle.viz_mesh_write.specs.MeshText.{points_line, scalars_head};
ghost use Rattle.viz_mesh_write.specs.Sections.{section_line};
ghost use Rattle.viz_strip_write.specs.StripText.{head_text};

use itoa::Buffer;
use std::alloc::AllocError;
use viz_image_write::put_version;

/// A count in words.
pub(crate) fn put_count(text: &mut Vec<u8>, n: u64) -> Result<(), AllocError>
    ensures { OnOk result (text.new.items ≡ text.old.items ++ decimal n) }
{
    let mut buffer = Buffer::new();
    text.extend_from_slice(buffer.format(n).as_bytes())
}

/// The lines in front of the points.
pub(crate) fn put_head(text: &mut Vec<u8>) -> Result<(), AllocError>
    ensures { OnOk result (text.new.items ≡ text.old.items ++ head_text) }
{
    put_version(text, false)?;
    text.extend_from_slice(b"vizrun fixed 10^-")?;
    put_count(text, 3)?;
    text.extend_from_slice(b"\nASCII\nDATASET POLYDATA\n")?;
    Ok(())
}

/// The number of points, on a line.
pub(crate) fn put_points_line(text: &mut Vec<u8>, n: u64) -> Result<(), AllocError>
    ensures { OnOk result (text.new.items ≡ text.old.items ++ points_line n) }
{
    text.extend_from_slice(b"POINTS ")?;
    put_count(text, n)?;
    text.extend_from_slice(b" long\n")?;
    Ok(())
}

/// The keyword of a section, the number of its cells and of all their numbers, on a line.
#[tactic(auto, unfolding(viz_mesh_write::specs::Sections::section_line))]
pub(crate) fn put_section_line(
    text: &mut Vec<u8>,
    keyword: &[u8],
    n: u64,
    size: u64,
) -> Result<(), AllocError>
    ensures { OnOk result (text.new.items ≡ text.old.items ++ section_line keyword.now n size) }
{
    text.extend_from_slice(keyword)?;
    text.push(b' ')?;
    put_count(text, n)?;
    text.push(b' ')?;
    put_count(text, size)?;
    text.push(b'\n')?;
    Ok(())
}

/// The lines in front of the scalars.
pub(crate) fn put_scalars_head(text: &mut Vec<u8>, n: u64) -> Result<(), AllocError>
    ensures { OnOk result (text.new.items ≡ text.old.items ++ scalars_head n) }
{
    text.extend_from_slice(b"POINT_DATA ")?;
    put_count(text, n)?;
    text.extend_from_slice(b"\nSCALARS scalars long 1\nLOOKUP_TABLE default\n")?;
    Ok(())
}
