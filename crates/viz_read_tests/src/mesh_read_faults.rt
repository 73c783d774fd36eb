//! Faults of geometries that were written by hand; their places were counted by Python.

use std::alloc::Global;
use std::process::Abort;
use std::test::Fail;
use viz_attr::AttrStop;
use viz_lex::{FileFault, FileKind, Lexer};
use viz_mesh_read::{grid, polydata};

/// The fault of a stop, and none for want of memory.
fn fault_of(stop: &AttrStop) -> Option<FileFault> {
    match stop {
        AttrStop::File(fault) => Some(*fault),
        AttrStop::Memory => None,
    }
}

/// The fault of a grid, or none.
fn grid_fault(alloc: Global, binary: bool, later: bool, text: &[u8]) -> Option<FileFault> {
    let mut lexer = Lexer::new(text);
    match &grid(alloc, &mut lexer, binary, later) {
        Ok(_) => None,
        Err(stop) => fault_of(stop),
    }
}

/// The fault of polydata, or none.
fn poly_fault(alloc: Global, later: bool, text: &[u8]) -> Option<FileFault> {
    let mut lexer = Lexer::new(text);
    match &polydata(alloc, &mut lexer, false, later) {
        Ok(_) => None,
        Err(stop) => fault_of(stop),
    }
}

#[test]
fn faults_of_points(rt: HostRuntime) -> Result<(), Fail> {
    for (text, kind, place) in [
        // the keyword, and FIELDs in front of it
        (b"POINT 3 int\n".as_slice(), FileKind::Keyword, 0),
        (b"GLOBAL_IDS i long\n", FileKind::Unsupported, 0),
        (b"FIELD f 1 a 1 1 int 5\nCELLS 1 2\n", FileKind::Keyword, 22),
        (b"FIELD f 1 a 1 1 int", FileKind::Truncated, 19),
        // the number of points
        (b"POINTS x int\n", FileKind::Number, 7),
        (b"POINTS -1 int\n", FileKind::Count, 7),
        (b"POINTS 2147483648 int\n", FileKind::TooMany, 7),
        (
            b"POINTS 170141183460469231731687303715884105728 int\n",
            FileKind::ValueRange,
            7,
        ),
        // the type
        (b"POINTS 1 float\n0 0 0\n", FileKind::FloatArray, 9),
        (b"POINTS 1 double\n", FileKind::FloatArray, 9),
        (b"POINTS 1 vtkIdType\n", FileKind::Unsupported, 9),
        (b"POINTS 1 integer\n", FileKind::Keyword, 9),
        // the values
        (b"POINTS 1 char\n0 128 0\n", FileKind::ValueRange, 16),
        (b"POINTS 1 char\n0 0.5 0\n", FileKind::Number, 16),
        (b"POINTS 1 char\n0 1", FileKind::Truncated, 17),
        (b"POINTS 1 char\n0 1\n", FileKind::Truncated, 18),
        // METADATA behind METADATA
        (
            b"POINTS 1 char\n0 0 0\nMETADATA\n\nMETADATA\n\n",
            FileKind::Keyword,
            30,
        ),
    ] {
        let fault = Some(FileFault { kind, place });
        assert_eq!(rt;
            grid_fault(rt.alloc(), false, false, text),
            fault,
            "{text:?}"
        );
    }
    Ok(())
}

#[test]
fn faults_of_cells_and_types(rt: HostRuntime) -> Result<(), Fail> {
    for (text, kind, place) in [
        // n and size
        (
            b"POINTS 3 int\n0 0 0 1 0 0 0 1 0\nVERTICES 1 2 1 0\n".as_slice(),
            FileKind::Keyword,
            31,
        ),
        (
            b"POINTS 3 int\n0 0 0 1 0 0 0 1 0\nEDGE_FLAGS\n",
            FileKind::Unsupported,
            31,
        ),
        (
            b"POINTS 3 int\n0 0 0 1 0 0 0 1 0\nCELLS x 4\n",
            FileKind::Number,
            37,
        ),
        (
            b"POINTS 3 int\n0 0 0 1 0 0 0 1 0\nCELLS -1 4\n",
            FileKind::Count,
            37,
        ),
        (
            b"POINTS 3 int\n0 0 0 1 0 0 0 1 0\nCELLS 2147483648 4\n",
            FileKind::TooMany,
            37,
        ),
        (
            b"POINTS 3 int\n0 0 0 1 0 0 0 1 0\nCELLS 1 -4\n",
            FileKind::Count,
            39,
        ),
        (
            b"POINTS 3 int\n0 0 0 1 0 0 0 1 0\nCELLS 1 2147483648\n",
            FileKind::TooMany,
            39,
        ),
        (
            b"POINTS 3 int\n0 0 0 1 0 0 0 1 0\nCELLS 0 1\n0\n",
            FileKind::Count,
            39,
        ),
        (
            b"POINTS 3 int\n0 0 0 1 0 0 0 1 0\nCELLS 0 2147483648\n",
            FileKind::TooMany,
            39,
        ),
        // no number is left for a cell
        (
            b"POINTS 3 int\n0 0 0 1 0 0 0 1 0\nCELLS 2 0\n3 0 1 2\n",
            FileKind::Count,
            41,
        ),
        (
            b"POINTS 3 int\n0 0 0 1 0 0 0 1 0\nCELLS 2 0\nx\n",
            FileKind::Number,
            41,
        ),
        (
            b"POINTS 3 int\n0 0 0 1 0 0 0 1 0\nCELLS 2 0\n",
            FileKind::Truncated,
            41,
        ),
        // a count that takes more than is left, and the last that takes less
        (
            b"POINTS 3 int\n0 0 0 1 0 0 0 1 0\nCELLS 1 4\n4 0 1 2 0\n",
            FileKind::Count,
            41,
        ),
        (
            b"POINTS 3 int\n0 0 0 1 0 0 0 1 0\nCELLS 1 4\n-1\n",
            FileKind::Count,
            41,
        ),
        (
            b"POINTS 3 int\n0 0 0 1 0 0 0 1 0\nCELLS 2 8\n7 0 1 2 0 1 2 0\n",
            FileKind::Count,
            41,
        ),
        (
            b"POINTS 3 int\n0 0 0 1 0 0 0 1 0\nCELLS 1 4\n2 0 1\n",
            FileKind::Count,
            41,
        ),
        (
            b"POINTS 3 int\n0 0 0 1 0 0 0 1 0\nCELLS 2 8\n3 0 1 2 2 0 1\n",
            FileKind::Count,
            49,
        ),
        (
            b"POINTS 3 int\n0 0 0 1 0 0 0 1 0\nCELLS 2 8\n6 0 1 2 0 1 2 1 0\n",
            FileKind::Count,
            55,
        ),
        (
            b"POINTS 3 int\n0 0 0 1 0 0 0 1 0\nCELLS 2 8\n1 0 6 0 1 2 0 1 2\n",
            FileKind::Count,
            45,
        ),
        // an index
        (
            b"POINTS 3 int\n0 0 0 1 0 0 0 1 0\nCELLS 1 4\n3 0 1 3\n",
            FileKind::Index,
            47,
        ),
        (
            b"POINTS 3 int\n0 0 0 1 0 0 0 1 0\nCELLS 1 4\n3 0 -1 9\n",
            FileKind::Index,
            45,
        ),
        (
            b"POINTS 3 int\n0 0 0 1 0 0 0 1 0\nCELLS 1 4\n3 1099511627776 0 0\n",
            FileKind::Index,
            43,
        ),
        (
            b"POINTS 3 int\n0 0 0 1 0 0 0 1 0\nCELLS 1 4\n3 0 1 x\n",
            FileKind::Number,
            47,
        ),
        (
            b"POINTS 3 int\n0 0 0 1 0 0 0 1 0\nCELLS 1 4\n3 0 1",
            FileKind::Truncated,
            46,
        ),
        // the types
        (
            b"POINTS 3 int\n0 0 0 1 0 0 0 1 0\nCELLS 1 4\n3 0 1 2\nMETADATA\n\n",
            FileKind::Keyword,
            49,
        ),
        (
            b"POINTS 3 int\n0 0 0 1 0 0 0 1 0\nCELLS 1 4\n3 0 1 2",
            FileKind::Truncated,
            48,
        ),
        (
            b"POINTS 3 int\n0 0 0 1 0 0 0 1 0\nCELLS 1 4\n3 0 1 2\nCELL_TYPES 2\n5 5\n",
            FileKind::Count,
            60,
        ),
        (
            b"POINTS 3 int\n0 0 0 1 0 0 0 1 0\nCELLS 1 4\n3 0 1 2\nCELL_TYPES -1\n",
            FileKind::Count,
            60,
        ),
        (
            b"POINTS 3 int\n0 0 0 1 0 0 0 1 0\nCELLS 1 4\n3 0 1 2\nCELL_TYPES 2147483648\n",
            FileKind::Count,
            60,
        ),
        (
            b"POINTS 3 int\n0 0 0 1 0 0 0 1 0\nCELLS 1 4\n3 0 1 2\nCELL_TYPES 1\n7\n",
            FileKind::CellType(7),
            62,
        ),
        (
            b"POINTS 3 int\n0 0 0 1 0 0 0 1 0\nCELLS 1 4\n3 0 1 2\nCELL_TYPES 1\n1099511627776\n",
            FileKind::CellType(1_099_511_627_776),
            62,
        ),
        (
            b"POINTS 3 int\n0 0 0 1 0 0 0 1 0\nCELLS 1 4\n3 0 1 2\nCELL_TYPES 1\n-5\n",
            FileKind::CellType(-5),
            62,
        ),
        (
            b"POINTS 3 int\n0 0 0 1 0 0 0 1 0\nCELLS 1 4\n3 0 1 2\nCELL_TYPES 1\n10\n",
            FileKind::Count,
            62,
        ),
        (
            b"POINTS 3 int\n0 0 0 1 0 0 0 1 0\nCELLS 1 4\n3 0 1 2\nCELL_TYPES 1\n5x\n",
            FileKind::Number,
            62,
        ),
        (
            b"POINTS 3 int\n0 0 0 1 0 0 0 1 0\nCELLS 1 4\n3 0 1 2\nCELL_TYPES 1\n",
            FileKind::Truncated,
            62,
        ),
    ] {
        let fault = Some(FileFault { kind, place });
        assert_eq!(rt;
            grid_fault(rt.alloc(), false, false, text),
            fault,
            "{text:?}"
        );
    }
    Ok(())
}

#[test]
fn faults_in_binary(rt: HostRuntime) -> Result<(), Fail> {
    for (text, kind, place) in [
        // the end of the line, also where no value follows
        (
            b"POINTS 2 char x\nabcdef\n".as_slice(),
            FileKind::Keyword,
            14,
        ),
        (b"POINTS 2 short\nabcdef", FileKind::Truncated, 21),
        (
            b"POINTS 2 char\nabcdef\nCELLS 1 3 x\n",
            FileKind::Keyword,
            31,
        ),
        (b"POINTS 2 char\nabcdef\nCELLS 1 3", FileKind::Truncated, 30),
        (
            b"POINTS 2 char\nabcdef\nCELLS 0 0 CELL_TYPES 0\n",
            FileKind::Keyword,
            31,
        ),
        (
            b"POINTS 2 char\nabcdef\nCELLS 0 0\nCELL_TYPES 0 POINT_DATA 2\n",
            FileKind::Keyword,
            44,
        ),
        // counts and indices
        (
            b"POINTS 2 char\nabcdef\nCELLS 1 3\n\
              \x00\x00\x00\x03\x00\x00\x00\x00\x00\x00\x00\x01\x00\x00\x00\x00",
            FileKind::Count,
            31,
        ),
        (
            b"POINTS 2 char\nabcdef\nCELLS 1 3\n\xff\xff\xff\xff",
            FileKind::Count,
            31,
        ),
        (
            b"POINTS 2 char\nabcdef\nCELLS 1 3\n\x00\x00\x00\x01\x00\x00\x00\x00",
            FileKind::Count,
            31,
        ),
        (
            b"POINTS 2 char\nabcdef\nCELLS 1 3\n\x00\x00\x00\x02\x00\x00\x00\x00\x00\x00\x00\x02",
            FileKind::Index,
            39,
        ),
        (
            b"POINTS 2 char\nabcdef\nCELLS 1 3\n\x00\x00\x00\x02\xff\xff\xff\xff\x00\x00\x00\x00",
            FileKind::Index,
            35,
        ),
        // a value in front of the cut end, and the end
        (
            b"POINTS 2 char\nabcdef\nCELLS 1 3\n\x00\x00\x00\x02\x00\x00\x00\x02\x00",
            FileKind::Index,
            35,
        ),
        (
            b"POINTS 2 char\nabcdef\nCELLS 1 3\n\x00\x00\x00\x02\x00\x00\x00\x01\x00\x00\x00",
            FileKind::Truncated,
            42,
        ),
        // the types
        (
            b"POINTS 2 char\nabcdef\nCELLS 1 3\n\
              \x00\x00\x00\x02\x00\x00\x00\x00\x00\x00\x00\x01\nCELL_TYPES 1\n\x00\x00\x00\x07",
            FileKind::CellType(7),
            57,
        ),
        (
            b"POINTS 2 char\nabcdef\nCELLS 1 3\n\
              \x00\x00\x00\x02\x00\x00\x00\x00\x00\x00\x00\x01\nCELL_TYPES 1\n\x00\x00\x00\x05",
            FileKind::Count,
            57,
        ),
        (
            b"POINTS 2 char\nabcdef\nCELLS 1 3\n\
              \x00\x00\x00\x02\x00\x00\x00\x00\x00\x00\x00\x01\nCELL_TYPES 1\n\x00\x00\x00",
            FileKind::Truncated,
            60,
        ),
    ] {
        let fault = Some(FileFault { kind, place });
        assert_eq!(rt;
            grid_fault(rt.alloc(), true, false, text),
            fault,
            "{text:?}"
        );
    }
    Ok(())
}

#[test]
fn faults_of_polydata(rt: HostRuntime) -> Result<(), Fail> {
    for (text, kind, place) in [
        // points and sections
        (b"LINES 1 3 2 0 1\n".as_slice(), FileKind::Keyword, 0),
        (
            b"POINTS 3 int\n0 0 0 1 0 0 0 1 0\nLINES 1 3\n2 0 3\n",
            FileKind::Index,
            45,
        ),
        (
            b"POINTS 3 int\n0 0 0 1 0 0 0 1 0\nPOLYGONS 1 4\n3 0 1 2\nTRIANGLE_STRIPS 1 4\n2 0 1\n",
            FileKind::Count,
            72,
        ),
        (
            b"POINTS 3 int\n0 0 0 1 0 0 0 1 0\nPOLYGONS 0 4\n",
            FileKind::Count,
            42,
        ),
        (
            b"POINTS 3 int\n0 0 0 1 0 0 0 1 0\nFIELD f 1 a 1 1 ints 5\n",
            FileKind::Keyword,
            47,
        ),
    ] {
        let fault = Some(FileFault { kind, place });
        assert_eq!(rt; poly_fault(rt.alloc(), false, text), fault, "{text:?}");
    }
    Ok(())
}

#[test]
fn sections_of_later_versions(rt: HostRuntime) -> Result<(), Fail> {
    for (text, kind, place) in [
        (
            b"POINTS 3 int\n0 0 0 1 0 0 0 1 0\nCELLS 2 6\n".as_slice(),
            FileKind::Truncated,
            41,
        ),
        (
            b"POINTS 3 int\n0 0 0 1 0 0 0 1 0\nMETADATA\n\ncells 2 6\nOFFSETS float",
            FileKind::Keyword,
            59,
        ),
        // the last offset, and the number of points of a type
        (
            b"POINTS 3 int\n0 0 0 1 0 0 0 1 0\nCELLS 2 3\nOFFSETS vtktypeint64\n0 5\n",
            FileKind::Count,
            64,
        ),
        (
            b"POINTS 3 int\n0 0 0 1 0 0 0 1 0\nCELLS 2 3\nOFFSETS vtktypeint64\n0 3\n\
CONNECTIVITY vtktypeint64\n0 1 2\nCELL_TYPES 1\n10",
            FileKind::Count,
            111,
        ),
    ] {
        let fault = Some(FileFault { kind, place });
        assert_eq!(rt;
            grid_fault(rt.alloc(), false, true, text),
            fault,
            "{text:?}"
        );
    }
    for (text, kind, place) in [
        (
            b"POINTS 3 int\n0 0 0 1 0 0 0 1 0\nVERTICES 2 1\nOFFSETS vtktypeint64\n0 1\n\
CONNECTIVITY vtktypeint64\n3\n"
                .as_slice(),
            FileKind::Index,
            95,
        ),
        (
            b"POINTS 3 int\n0 0 0 1 0 0 0 1 0\nLINES 0 6\n",
            FileKind::Count,
            39,
        ),
        (
            b"POINTS 3 int\n0 0 0 1 0 0 0 1 0\npolygons 2 6\n",
            FileKind::Truncated,
            44,
        ),
        (
            b"POINTS 3 int\n0 0 0 1 0 0 0 1 0\nTRIANGLE_STRIPS 2 4\nOFFSETS vtktypeint64\n0 4\n\
connectivity double",
            FileKind::Keyword,
            89,
        ),
    ] {
        let fault = Some(FileFault { kind, place });
        assert_eq!(rt; poly_fault(rt.alloc(), true, text), fault, "{text:?}");
    }
    Ok(())
}
