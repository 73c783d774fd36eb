//! Image files that were written by hand; the places of faults were counted by Python.

use std::alloc::Global;
use std::process::Abort;
use std::test::Fail;
use viz_base::Pick;
use viz_column::Kind8;
use viz_dataset::{Dataset, Info};
use viz_legacy_read::{ReadStop, header, read};
use viz_lex::{FileFault, FileKind};

/// The version, a title, the form and the dataset.
const FRONT: &[u8] = b"# vtk DataFile Version 3.0\nt\nASCII\nDATASET STRUCTURED_POINTS\n";

/// The three header lines of two points.
const LINES: &[u8] = b"DIMENSIONS 2 1 1\nORIGIN 0 0 0\nSPACING 1 1 1\n";

/// The bounds, the origin and the spacing.
type Place = ([u32; 6], [i128; 3], [i128; 3]);

fn joined(alloc: Global, parts: [&[u8]; 3]) -> Result<Vec<u8>, Fail> {
    let mut text = Vec::new(alloc);
    for part in parts {
        text.extend_from_slice(part)?;
    }
    Ok(text)
}

/// The place of an image, the kind and the first and the last number; or the fault.
fn told(
    alloc: Global,
    pick: &Pick,
    text: &[u8],
) -> Result<(Place, Kind8, [i128; 2]), Option<FileFault>> {
    match read(alloc, text, pick, 0) {
        Ok(Dataset::Image(image)) => {
            let place = (image.extent().bounds(), image.origin(), image.spacing());
            let column = image.column();
            let last = image.extent().count() - 1;
            Ok((place, column.kind(), [column.get(0), column.get(last)]))
        }
        Ok(Dataset::Mesh(_)) => Err(None),
        Err(ReadStop::File(fault)) => Err(Some(fault)),
        Err(ReadStop::Memory) => Err(None),
    }
}

/// The place of an image by its header alone, or the fault.
fn header_told(text: &[u8]) -> Result<Place, Option<FileFault>> {
    match &header(text) {
        Ok(
            Info::Image {
                whole,
                origin,
                spacing,
            },
        ) => Ok((whole.bounds(), *origin, *spacing)),
        Ok(Info::Mesh) => Err(None),
        Err(fault) => Err(Some(*fault)),
    }
}

/// Two points along z, with blanks behind the version and FIELDs in front of two lines.
const TURNED: &[u8] = b"# vtk DataFile Version 12.345\t \r
any title
BINARY
DATASET structured_points
ASPECT_RATIO 0.5 .25 1e9
FIELD f 1 a 1 1 short
\x00\x07
ORIGIN -1.5 2E-9 1e18
DIMENSIONS 1 1 2
POINT_DATA 2
SCALARS s short
LOOKUP_TABLE default
\xff\xfe\x01\x02";

#[test]
fn lines_in_any_order_and_values_in_binary(rt: HostRuntime) -> Result<(), Fail> {
    let place = (
        [0, 0, 0, 0, 0, 1],
        [-1_500_000_000, 2, 1_000_000_000_000_000_000_000_000_000],
        [500_000_000, 250_000_000, 1_000_000_000_000_000_000],
    );
    assert_eq!(rt;
        told(rt.alloc(), &Pick::First, TURNED),
        Ok((place, Kind8::I16, [-2, 258]))
    );
    // none is asked for
    assert_eq!(rt;
        told(rt.alloc(), &Pick::Zero, TURNED),
        Ok((place, Kind8::U8, [0, 0]))
    );
    assert_eq!(rt; header_told(TURNED), Ok(place));
    Ok(())
}

#[test]
fn faults_in_front_of_the_header_lines(rt: HostRuntime) -> Result<(), Fail> {
    for (text, kind, place) in [
        (
            b"# vtk DataFile Version 3\nt\nASCII\n".as_slice(),
            FileKind::Magic,
            0,
        ),
        (
            b"# vtk DataFile Version 3.0\nno newline",
            FileKind::Title,
            27,
        ),
        (
            b"# vtk DataFile Version 3.0\nt\nTEXT\nDATASET STRUCTURED_POINTS\n",
            FileKind::Form,
            29,
        ),
        (
            b"# vtk DataFile Version 3.0\nt\nASCII\nDIMENSIONS 2 1 1\n",
            FileKind::Keyword,
            35,
        ),
        (
            b"# vtk DataFile Version 3.0\nt\nASCII\nDATASET RECTILINEAR_GRID\n",
            FileKind::Unsupported,
            43,
        ),
        (
            b"# vtk DataFile Version 3.0\nt\nASCII\nDATASET STRUCTURED_GRID\n",
            FileKind::Unsupported,
            43,
        ),
        (
            b"# vtk DataFile Version 3.0\nt\nASCII\nDATASET GRID\n",
            FileKind::Keyword,
            43,
        ),
    ] {
        let fault = Some(FileFault { kind, place });
        assert_eq!(rt;
            told(rt.alloc(), &Pick::First, text),
            Err(fault),
            "{text:?}"
        );
        assert_eq!(rt; header_told(text), Err(fault), "{text:?}");
    }
    Ok(())
}

#[test]
fn faults_of_header_lines(rt: HostRuntime) -> Result<(), Fail> {
    for (lines, kind, place) in [
        (b"DIMENSIONS 2 0 1\n".as_slice(), FileKind::Count, 74),
        (b"DIMENSIONS 2 x 1\n", FileKind::Number, 74),
        (b"DIMENSIONS 2048 2048 512\n", FileKind::TooMany, 82),
        (b"ORIGIN 0 1e19 0\n", FileKind::HeaderNumber, 70),
        (b"SPACING 1 0 1\n", FileKind::Spacing, 71),
        (b"SPACING 1 1 -1\n", FileKind::Spacing, 73),
        (
            b"ASPECT_RATIO 1000000000.1 1 1\n",
            FileKind::HeaderNumber,
            74,
        ),
        (b"ORIGIN 0 0 0\nORIGIN 0 0 0\n", FileKind::Keyword, 74),
        (
            b"ASPECT_RATIO 1 1 1\nSPACING 1 1 1\n",
            FileKind::Keyword,
            80,
        ),
        (b"ORIGIN 0 0 0\nSPACING 1 1 1\n", FileKind::Truncated, 88),
        (b"FIELD f 1\na 1 2 int\n7 ", FileKind::Truncated, 83),
    ] {
        let text = joined(rt.alloc(), [FRONT, lines, b""])?;
        let fault = Some(FileFault { kind, place });
        assert_eq!(rt;
            told(rt.alloc(), &Pick::First, &text),
            Err(fault),
            "{lines:?}"
        );
        assert_eq!(rt; header_told(&text), Err(fault), "{lines:?}");
    }
    Ok(())
}

#[test]
fn faults_behind_the_header(rt: HostRuntime) -> Result<(), Fail> {
    for (parts, kind, place) in [
        (b"".as_slice(), FileKind::NoArray, 105),
        (b"POINT_DATA 3\n", FileKind::Count, 116),
        (b"CELL_DATA 2\n", FileKind::Count, 115),
        (
            b"POINT_DATA 2\nSCALARS s char\nLOOKUP_TABLE default\n1 200\n",
            FileKind::ValueRange,
            156,
        ),
    ] {
        let text = joined(rt.alloc(), [FRONT, LINES, parts])?;
        let fault = Some(FileFault { kind, place });
        assert_eq!(rt;
            told(rt.alloc(), &Pick::First, &text),
            Err(fault),
            "{parts:?}"
        );
        assert!(rt; header_told(&text).is_ok(), "{parts:?}");
    }
    Ok(())
}

// An image of eight points, with metadata behind it: 214 bytes.
const CORNER: &[u8] = b"# vtk DataFile Version 5.1\n\
    vtk output\n\
    ASCII\n\
    DATASET STRUCTURED_POINTS\n\
    DIMENSIONS 2 2 2\n\
    SPACING 1 1 1\n\
    ORIGIN 0 0 0\n\
    POINT_DATA 8\n\
    SCALARS ImageScalars int\n\
    LOOKUP_TABLE default\n\
    0 0 0 0 0 0 0 9 \n\
    METADATA\n\
    INFORMATION 0\n\
    \n";

#[test]
fn first_bytes_of_a_file(rt: HostRuntime) -> Result<(), Fail> {
    // So many bytes, up to so many, and the fault of each, at its end where no place is told.
    for (from, to, fault) in [
        (0, 0, Some((FileKind::Magic, Some(0)))),
        (30, 30, Some((FileKind::Title, Some(27)))),
        (173, 187, Some((FileKind::Truncated, None))),
        (188, 190, None),
        (191, 197, Some((FileKind::Keyword, Some(190)))),
        (198, 214, None),
    ] {
        for count in from..to + 1 {
            let text = CORNER.get(..count).ok_or("so many bytes")?;
            let want = fault.map(|(kind, place)| FileFault {
                kind,
                place: place.unwrap_or(count as u64),
            });
            let found = told(rt.alloc(), &Pick::First, text);
            assert_eq!(rt; found.err().flatten(), want, "{count}");
        }
    }
    Ok(())
}

#[test]
fn a_file_of_a_real_size(rt: HostRuntime) -> Result<(), Fail> {
    let alloc = rt.alloc();
    let lines: &[u8] = b"DIMENSIONS 32 32 32\nORIGIN 0 0 0\nSPACING 1 1 1\n";
    let part: &[u8] = b"POINT_DATA 32768\nSCALARS s int\nLOOKUP_TABLE default\n";
    let mut text = joined(alloc, [FRONT, lines, part])?;
    for _ in 0..32_767 {
        text.extend_from_slice(b"0 ")?;
    }
    text.extend_from_slice(b"-7\n")?;
    let place = (
        [0, 31, 0, 31, 0, 31],
        [0, 0, 0],
        [1_000_000_000, 1_000_000_000, 1_000_000_000],
    );
    assert_eq!(rt;
        told(alloc, &Pick::First, &text),
        Ok((place, Kind8::I32, [0, -7]))
    );
    Ok(())
}
