//! Contours of files in memory. `contour_texts` says who counted each surface.

use crate::contour_texts::{
    CUBE, FIRST_LEVEL, FIRST_REPORT, FIRST_SURFACE, FIRST_VALUES, LAYER_FILE, MIXED_FILE,
    MIXED_REPORT, MIXED_SURFACE, NO_REPORT, NO_SURFACE, TIE_SURFACE,
};
use crate::image_files::{CORNER, CORNER_BINARY, CORNER_END};
use crate::mesh_files::{
    FAR_LINE, FAR_LINE_CONTOUR, FAR_LINE_REPORT, GRID, GRID_CONTOUR, GRID_REPORT, LONG_STRIP,
    LONG_STRIP_CONTOUR, LONG_STRIP_REPORT, NO_CELLS, POLYLINE, POLYLINE_CONTOUR, POLYLINE_REPORT,
};
use crate::runs::{joined, output_of, ran_on, replaced};
use std::alloc::Global;
use std::process::Abort;
use std::test::Fail;
use viz_base::MemoryPort;
use viz_lex::put_whole;
use viz_told::Status;

// The contour of a file of these bytes at the level.
fn contoured(
    alloc: Global,
    level: &str,
    bytes: &[u8],
) -> Result<(Status, String, Vec<MemoryPort>), Fail> {
    let line = format!(in alloc; "a.vtk o.vtk contour {level}")?;
    ran_on(alloc, line.as_str(), bytes)
}

// The contour of these bytes has this report and this surface.
fn shows<R: AllocGlobal + Abort>(
    rt: &R,
    level: &str,
    bytes: &[u8],
    report: &str,
    surface: &str,
) -> Result<(), Fail> {
    let (status, told, ports) = contoured(rt.alloc(), level, bytes)?;
    assert!(rt; status == Status::Done, "{level}: {told}");
    assert_eq!(rt; told.as_str(), report, "{level}");
    assert!(rt; output_of(&ports) == Some(surface.as_bytes()), "{level}");
    Ok(())
}

// That a run is Done, and not Memory, where there is ample memory is each row, the first to begin
// with.
#[test]
fn contours_are_written(rt: HostRuntime) -> Result<(), Fail> {
    let alloc = rt.alloc();
    let (least, greatest) = ("-9223372036854775808", "9223372036854775807");
    for (level, front, values, report, surface) in [
        // first-contour
        (FIRST_LEVEL, CUBE, FIRST_VALUES, FIRST_REPORT, FIRST_SURFACE),
        // corner-contour
        (FIRST_LEVEL, CORNER, "", FIRST_REPORT, FIRST_SURFACE),
        // tie-at-corner: a value at the level is inside.
        ("5", CUBE, "0 0 0 0 0 0 0 5", FIRST_REPORT, TIE_SURFACE),
        // empty-contour, all-inside and single-layer
        ("10", CUBE, FIRST_VALUES, NO_REPORT, NO_SURFACE),
        ("5", CUBE, "9 9 9 9 9 9 9 9", NO_REPORT, NO_SURFACE),
        ("5", LAYER_FILE, "", NO_REPORT, NO_SURFACE),
        // Both ends of 64 bits: no value is inside, or each is.
        (greatest, CUBE, FIRST_VALUES, NO_REPORT, NO_SURFACE),
        (least, CUBE, FIRST_VALUES, NO_REPORT, NO_SURFACE),
        // Many cubes, values on both sides of the level and at it, places below 0.
        ("11", MIXED_FILE, "", MIXED_REPORT, MIXED_SURFACE),
    ] {
        let text = joined(alloc, &[front.as_bytes(), values.as_bytes()])?;
        shows(&rt, level, &text, report, surface)?;
    }
    // corner-contour-binary
    let front: [&[u8]; 3] = [CORNER_BINARY.as_bytes(), &[0; 31], b"\x09"];
    let binary = joined(
        alloc,
        &[front[0], front[1], front[2], CORNER_END.as_bytes()],
    )?;
    shows(&rt, FIRST_LEVEL, &binary, FIRST_REPORT, FIRST_SURFACE)
}

#[test]
fn contours_of_meshes_are_written(rt: HostRuntime) -> Result<(), Fail> {
    for (level, mesh, report, contour) in [
        // A triangle of a tetrahedron and a line of a triangle, in one file.
        ("1", GRID, GRID_REPORT, GRID_CONTOUR),
        // Lines of a strip whose second triangle is turned, and vertices of a polyline.
        ("1", LONG_STRIP, LONG_STRIP_REPORT, LONG_STRIP_CONTOUR),
        ("1", POLYLINE, POLYLINE_REPORT, POLYLINE_CONTOUR),
        ("1", FAR_LINE, FAR_LINE_REPORT, FAR_LINE_CONTOUR),
        // Each point is inside, and none is.
        ("0", GRID, NO_REPORT, NO_SURFACE),
        ("4", GRID, NO_REPORT, NO_SURFACE),
        // No cells, and the contour of a contour.
        ("0", NO_CELLS, NO_REPORT, NO_SURFACE),
        ("3", FIRST_SURFACE, NO_REPORT, NO_SURFACE),
    ] {
        shows(&rt, level, mesh.as_bytes(), report, contour)?;
    }
    Ok(())
}

// A place is written in thousandths within signed 64 bits: up to 9223372036854775807, and from
// -9223372036854775808. The surface goes from 5/9 to 1 above the origin.
#[test]
fn a_wide_place_is_refused(rt: HostRuntime) -> Result<(), Fail> {
    let alloc = rt.alloc();
    let refused = "refused fault:op:TooWide\n";
    let whole = format!(in alloc; "{CUBE}{FIRST_VALUES}")?;
    for (origin, status, report) in [
        ("9223372036854774 0 0", Status::Done, FIRST_REPORT),
        ("9223372036854775 0 0", Status::Refused, refused),
        ("0 9223372036854775 0", Status::Refused, refused),
        ("-9223372036854776 0 0", Status::Done, FIRST_REPORT),
        ("0 0 -9223372036854777", Status::Refused, refused),
    ] {
        let text = replaced(alloc, whole.as_str(), "0 0 0", origin)?;
        let (ended, told, ports) = contoured(alloc, FIRST_LEVEL, text.as_bytes())?;
        assert!(rt; ended == status, "{origin}: {told}");
        assert_eq!(rt; told.as_str(), report, "{origin}");
        let stays = output_of(&ports) == Some(b"old".as_slice());
        assert!(rt; stays == (told.as_str() == refused), "{origin}");
    }
    Ok(())
}

// The values (7 i + 11 j + 13 k) mod 17 of 32 x 32 x 32 points.
fn put_mixed(text: &mut Vec<u8>) -> Result<(), Fail> {
    for k in 0..32_u32 {
        for j in 0..32_u32 {
            for i in 0..32_u32 {
                put_whole(text, i128::from((7 * i + 11 * j + 13 * k) % 17))?;
                text.push(b' ')?;
            }
        }
    }
    Ok(())
}

// At a size where giving up for memory would show. The counts are those of .ci/contour.py.
#[test]
fn a_large_contour_is_written(rt: HostRuntime) -> Result<(), Fail> {
    let alloc = rt.alloc();
    let front = replaced(alloc, CUBE, "2 2 2", "32 32 32")?;
    let front = replaced(alloc, front.as_str(), "POINT_DATA 8", "POINT_DATA 32768")?;
    let mut text = joined(alloc, &[front.as_bytes()])?;
    put_mixed(&mut text)?;
    let (ended, told, _) = contoured(alloc, "8", &text)?;
    assert!(rt; ended == Status::Done);
    assert_eq!(rt; told.as_str(), "file cells 238328 points 113799\n");
    Ok(())
}
