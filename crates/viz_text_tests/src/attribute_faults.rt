//! Faults and their places: the texts by hand, the places counted in them by Python.

use crate::attributes::told;
use std::test::Fail;
use viz_base::Pick;
use viz_lex::{FileFault, FileKind};

#[test]
fn words_that_may_not_stand_there(rt: HostRuntime) -> Result<(), Fail> {
    for (text, kind, place) in [
        // no keyword, and none that may stand in front of the first part
        (
            b"POINT_DATA 2\nSCALAR s int\n".as_slice(),
            FileKind::Keyword,
            13,
        ),
        (b"SCALARS s int\n", FileKind::Keyword, 0),
        (b"METADATA\n\nPOINT_DATA 2\n", FileKind::Keyword, 0),
        // METADATA behind a count, behind METADATA, and where the name of a second array is due
        (b"POINT_DATA 2\nMETADATA\n\n", FileKind::Keyword, 13),
        (
            b"POINT_DATA 2\nNORMALS n int\n1 2 3 4 5 6\nMETADATA\nx\n\nMETADATA\n\n",
            FileKind::Keyword,
            51,
        ),
        (
            b"POINT_DATA 2\nFIELD f 2\na 1 1 int 5\nMETADATA\n\nMETADATA 1 1 int 5",
            FileKind::Keyword,
            45,
        ),
        // no type, and another word where LOOKUP_TABLE is due
        (b"POINT_DATA 2\nSCALARS s integer\n", FileKind::Keyword, 23),
        (b"POINT_DATA 2\nSCALARS s int\n1 2", FileKind::Keyword, 27),
        (
            b"POINT_DATA 2\nSCALARS s int 1\nTABLE t\n",
            FileKind::Keyword,
            29,
        ),
        // keywords and types of the format that are left out
        (b"GLOBAL_IDS i long\n", FileKind::Unsupported, 0),
        (
            b"POINT_DATA 2\npedigree_ids i long\n",
            FileKind::Unsupported,
            13,
        ),
        (
            b"POINT_DATA 2\nTENSORS6 t float\n",
            FileKind::Unsupported,
            13,
        ),
        (b"POINT_DATA 2\nEDGE_FLAGS 2\n", FileKind::Unsupported, 13),
        (
            b"POINT_DATA 2\nSCALARS s int\nGLOBAL_IDS i long\n",
            FileKind::Unsupported,
            27,
        ),
        (b"POINT_DATA 2\nSCALARS s bit\n", FileKind::Unsupported, 23),
        (
            b"POINT_DATA 2\nVECTORS v vtkIdType\n",
            FileKind::Unsupported,
            23,
        ),
        (
            b"POINT_DATA 2\nTENSORS t string\n",
            FileKind::Unsupported,
            23,
        ),
        (
            b"POINT_DATA 2\nFIELD f 1\na 1 1 utf8_string",
            FileKind::Unsupported,
            29,
        ),
        (
            b"POINT_DATA 2\nTEXTURE_COORDINATES t 2 Variant",
            FileKind::Unsupported,
            37,
        ),
    ] {
        let found = told(&rt, rt.alloc(), false, &Pick::First, text);
        assert_eq!(rt; found, Err(Some(FileFault { kind, place })), "{text:?}");
    }
    Ok(())
}

#[test]
fn numbers_that_are_none_or_too_large(rt: HostRuntime) -> Result<(), Fail> {
    for (text, kind, place) in [
        // counts, a word on the line of SCALARS, and values of the picked array
        (b"POINT_DATA two\n".as_slice(), FileKind::Number, 11),
        (
            b"POINT_DATA 2\nSCALARS s int LOOKUP_TABLE t\n",
            FileKind::Number,
            27,
        ),
        (b"POINT_DATA 2\nFIELD f 1.0\n", FileKind::Number, 21),
        (
            b"POINT_DATA 2\nSCALARS s int\nLOOKUP_TABLE t\n1 x",
            FileKind::Number,
            44,
        ),
        (
            b"POINT_DATA 2\nSCALARS s int 3\nLOOKUP_TABLE t\n1 2 nan",
            FileKind::Number,
            48,
        ),
        (
            b"POINT_DATA 2\nSCALARS s char\nLOOKUP_TABLE t\n127 128",
            FileKind::ValueRange,
            47,
        ),
        (
            b"POINT_DATA 2\nSCALARS s char\nLOOKUP_TABLE t\n-128 -129",
            FileKind::ValueRange,
            48,
        ),
        (
            b"POINT_DATA 2\nSCALARS s unsigned_short\nLOOKUP_TABLE t\n65535 -1",
            FileKind::ValueRange,
            59,
        ),
        // a component that is not kept
        (
            b"POINT_DATA 2\nSCALARS s unsigned_char 3\nLOOKUP_TABLE t\n0 0 0 0 0 256",
            FileKind::ValueRange,
            64,
        ),
        // past 128 bits
        (
            b"POINT_DATA 2\nSCALARS s int\nLOOKUP_TABLE t\n170141183460469231731687303715884105728",
            FileKind::ValueRange,
            42,
        ),
        (
            b"POINT_DATA 170141183460469231731687303715884105728",
            FileKind::ValueRange,
            11,
        ),
        (
            b"POINT_DATA 2\nSCALARS s int -170141183460469231731687303715884105729",
            FileKind::ValueRange,
            27,
        ),
        (b"POINT_DATA 2\nSCALARS s float\n", FileKind::FloatArray, 23),
        (
            b"POINT_DATA 2\nSCALARS s Double\n",
            FileKind::FloatArray,
            23,
        ),
    ] {
        let found = told(&rt, rt.alloc(), false, &Pick::First, text);
        assert_eq!(rt; found, Err(Some(FileFault { kind, place })), "{text:?}");
    }
    Ok(())
}

#[test]
fn counts_that_disagree(rt: HostRuntime) -> Result<(), Fail> {
    for (text, kind, place) in [
        // another number of points and of cells
        (b"POINT_DATA 3\n".as_slice(), FileKind::Count, 11),
        (b"POINT_DATA -2\n", FileKind::Count, 11),
        (b"CELL_DATA 2\n", FileKind::Count, 10),
        (b"POINT_DATA 2147483648\n", FileKind::Count, 11),
        // components, dimensions, a size, and numbers of arrays and tuples
        (b"POINT_DATA 2\nSCALARS s int 0\n", FileKind::Count, 27),
        (b"POINT_DATA 2\nSCALARS s int -1\n", FileKind::Count, 27),
        (
            b"POINT_DATA 2\nTEXTURE_COORDINATES t 0 int",
            FileKind::Count,
            35,
        ),
        (
            b"POINT_DATA 2\nTEXTURE_COORDINATES t 4 int",
            FileKind::Count,
            35,
        ),
        (b"POINT_DATA 2\nCOLOR_SCALARS c 0\n", FileKind::Count, 29),
        (b"POINT_DATA 2\nLOOKUP_TABLE t -1\n", FileKind::Count, 28),
        (b"POINT_DATA 2\nFIELD f -1\n", FileKind::Count, 21),
        (b"POINT_DATA 2\nFIELD f 1\na 0 2 int", FileKind::Count, 25),
        (b"POINT_DATA 2\nFIELD f 1\na 1 -1 int", FileKind::Count, 27),
        (
            b"POINT_DATA 2\nSCALARS s int 2147483648\n",
            FileKind::TooMany,
            27,
        ),
        (
            b"POINT_DATA 2\nCOLOR_SCALARS c 2147483648\n",
            FileKind::TooMany,
            29,
        ),
        (
            b"POINT_DATA 2\nLOOKUP_TABLE t 2147483648\n",
            FileKind::TooMany,
            28,
        ),
        (b"POINT_DATA 2\nFIELD f 2147483648\n", FileKind::TooMany, 21),
        (
            b"POINT_DATA 2\nFIELD f 1\na 2147483648 2 int",
            FileKind::TooMany,
            25,
        ),
        (
            b"POINT_DATA 2\nFIELD f 1\na 1 2147483648 int",
            FileKind::TooMany,
            27,
        ),
    ] {
        let found = told(&rt, rt.alloc(), false, &Pick::First, text);
        assert_eq!(rt; found, Err(Some(FileFault { kind, place })), "{text:?}");
    }
    Ok(())
}

#[test]
fn ends_where_something_is_due(rt: HostRuntime) -> Result<(), Fail> {
    for (text, kind, place) in [
        (b"".as_slice(), FileKind::NoArray, 0),
        (b"POINT_DATA 2\n", FileKind::NoArray, 13),
        (
            b"POINT_DATA 2\nVECTORS s int\n1 2 3 4 5 6\n",
            FileKind::NoArray,
            39,
        ),
        (
            b"CELL_DATA 3\nSCALARS s int\nLOOKUP_TABLE t\n1 2 3\n",
            FileKind::NoArray,
            47,
        ),
        // a count, a name, a type, a keyword, the name of a table
        (b"POINT_DATA ", FileKind::Truncated, 11),
        (b"POINT_DATA 2\nSCALARS", FileKind::Truncated, 20),
        (b"POINT_DATA 2\nSCALARS s", FileKind::Truncated, 22),
        (b"POINT_DATA 2\nSCALARS s int \n", FileKind::Truncated, 28),
        (b"POINT_DATA 2\nSCALARS s int 1 ", FileKind::Truncated, 29),
        (
            b"POINT_DATA 2\nSCALARS s int\nLOOKUP_TABLE",
            FileKind::Truncated,
            39,
        ),
        // values, of the picked array and of others
        (
            b"POINT_DATA 2\nSCALARS s int\nLOOKUP_TABLE t\n",
            FileKind::Truncated,
            42,
        ),
        (
            b"POINT_DATA 2\nSCALARS s int\nLOOKUP_TABLE t\n1 ",
            FileKind::Truncated,
            44,
        ),
        (
            b"POINT_DATA 2\nSCALARS s int 2\nLOOKUP_TABLE t\n1 2 3 ",
            FileKind::Truncated,
            50,
        ),
        (
            b"POINT_DATA 2\nVECTORS v float\n1 2 3 4 5",
            FileKind::Truncated,
            38,
        ),
        (
            b"POINT_DATA 2\nTENSORS t int\n1 2 3 4 5 6 7 8 9 1 2 3 4 5 6 7 8",
            FileKind::Truncated,
            60,
        ),
        (
            b"POINT_DATA 2\nTEXTURE_COORDINATES t 3 int\n1 2 3 4 5",
            FileKind::Truncated,
            50,
        ),
        (
            b"POINT_DATA 2\nCOLOR_SCALARS c 2\n1 2 3",
            FileKind::Truncated,
            36,
        ),
        (
            b"POINT_DATA 2\nLOOKUP_TABLE t 2\n1 2 3 4 5 6 7",
            FileKind::Truncated,
            43,
        ),
        // parts of a FIELD
        (b"POINT_DATA 2\nFIELD", FileKind::Truncated, 18),
        (b"POINT_DATA 2\nFIELD f", FileKind::Truncated, 20),
        (b"POINT_DATA 2\nFIELD f 1", FileKind::Truncated, 22),
        (b"POINT_DATA 2\nFIELD f 1\na", FileKind::Truncated, 24),
        (b"POINT_DATA 2\nFIELD f 1\na 1", FileKind::Truncated, 26),
        (b"POINT_DATA 2\nFIELD f 1\na 1 2", FileKind::Truncated, 28),
        (
            b"POINT_DATA 2\nFIELD f 1\na 2 2 int\n1 2 3",
            FileKind::Truncated,
            38,
        ),
        (
            b"POINT_DATA 2\nFIELD f 2\na 1 1 int\n1\n",
            FileKind::Truncated,
            35,
        ),
    ] {
        let found = told(&rt, rt.alloc(), false, &Pick::First, text);
        assert_eq!(rt; found, Err(Some(FileFault { kind, place })), "{text:?}");
    }
    Ok(())
}

#[test]
fn faults_of_blocks(rt: HostRuntime) -> Result<(), Fail> {
    for (text, kind, place) in [
        // a byte before a block, also before one of no bytes, and bytes behind it
        (
            b"POINT_DATA 2\nSCALARS s short\nLOOKUP_TABLE t x\nabcd".as_slice(),
            FileKind::Keyword,
            44,
        ),
        (
            b"POINT_DATA 2\nSCALARS s short\nLOOKUP_TABLE t\x0b\nabcd",
            FileKind::Keyword,
            43,
        ),
        (
            b"POINT_DATA 2\nFIELD f 1\na 1 0 int x\n",
            FileKind::Keyword,
            33,
        ),
        (
            b"POINT_DATA 2\nSCALARS s short\nLOOKUP_TABLE t\nabcde",
            FileKind::Keyword,
            48,
        ),
        // no newline, and blocks that are cut
        (
            b"POINT_DATA 2\nSCALARS s short\nLOOKUP_TABLE t \t\r",
            FileKind::Truncated,
            46,
        ),
        (
            b"POINT_DATA 2\nFIELD f 1\na 1 0 int",
            FileKind::Truncated,
            32,
        ),
        (
            b"POINT_DATA 2\nSCALARS s short\nLOOKUP_TABLE t\nabc",
            FileKind::Truncated,
            47,
        ),
        (
            b"POINT_DATA 2\nSCALARS s int 2\nLOOKUP_TABLE t\nabcdefghijklmno",
            FileKind::Truncated,
            59,
        ),
        (
            b"POINT_DATA 2\nVECTORS v double\nabcdefghijklmnopqrstuvwxyzabcdefghijklmnopqrstu",
            FileKind::Truncated,
            77,
        ),
        (
            b"POINT_DATA 2\nNORMALS n float\nabcdefghijklmnopqrstuvw",
            FileKind::Truncated,
            52,
        ),
        (
            b"POINT_DATA 2\nCOLOR_SCALARS c 2\nabc",
            FileKind::Truncated,
            34,
        ),
        (
            b"POINT_DATA 2\nLOOKUP_TABLE t 2\nabcdefg",
            FileKind::Truncated,
            37,
        ),
        (
            b"POINT_DATA 2\nTEXTURE_COORDINATES t 2 char\nabc",
            FileKind::Truncated,
            45,
        ),
        (
            b"POINT_DATA 2\nTENSORS t char\nabcdefghijklmnopq",
            FileKind::Truncated,
            45,
        ),
        (
            b"POINT_DATA 2\nFIELD f 1\na 2 3 short\nabcdefghijk",
            FileKind::Truncated,
            46,
        ),
        (
            b"POINT_DATA 2\nSCALARS s float\nLOOKUP_TABLE t\nabcdefgh",
            FileKind::FloatArray,
            23,
        ),
        (
            b"CELL_DATA 3\nCOLOR_SCALARS c 1\nabc",
            FileKind::NoArray,
            33,
        ),
    ] {
        let found = told(&rt, rt.alloc(), true, &Pick::First, text);
        assert_eq!(rt; found, Err(Some(FileFault { kind, place })), "{text:?}");
    }
    Ok(())
}
