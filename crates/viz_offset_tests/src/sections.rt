//! Sections of version 5.1 that were written by hand, and what is read of them.

use std::alloc::Global;
use std::process::Abort;
use std::test::Fail;
use viz_counted_cells::CellSection;
use viz_lex::Lexer;
use viz_offset_cells::offset_section;

/// Three cells of 3, 2 and 4 points, in words.
const WORDS: &[u8] = b"4 9\nOFFSETS vtktypeint64\n0 3 5 9\nCONNECTIVITY vtktypeint64\n0 1 2\
\x203 0\n3 2 1 0 behind";

/// The same in BINARY, of 64 bits each.
const BLOCKS: &[u8] = b"4 9\nOFFSETS vtktypeint64\n\x00\x00\x00\x00\x00\x00\x00\x00\x00\x00\
\x00\x00\x00\x00\x00\x03\x00\x00\x00\x00\x00\x00\x00\x05\x00\x00\x00\
\x00\x00\x00\x00\x09\nCONNECTIVITY vtktypeint64\n\x00\x00\x00\x00\
\x00\x00\x00\x00\x00\x00\x00\x00\x00\x00\x00\x01\x00\x00\x00\x00\x00\
\x00\x00\x02\x00\x00\x00\x00\x00\x00\x00\x03\x00\x00\x00\x00\x00\x00\
\x00\x00\x00\x00\x00\x00\x00\x00\x00\x03\x00\x00\x00\x00\x00\x00\x00\
\x02\x00\x00\x00\x00\x00\x00\x00\x01\x00\x00\x00\x00\x00\x00\x00\x00\
\nbehind";

/// The same in BINARY, with indices of a byte each.
const SMALL: &[u8] = b"4 9\noffsets vtktypeuint32\n\x00\x00\x00\x00\x00\x00\x00\x03\x00\x00\
\x00\x05\x00\x00\x00\x09\nconnectivity unsigned_char\n\x00\x01\x02\
\x03\x00\x03\x02\x01\x00\nbehind";

/// The same in BINARY, of 32 bits each, without a newline behind the blocks.
const INTS: &[u8] = b"4 9\nOFFSETS int\n\x00\x00\x00\x00\x00\x00\x00\x03\x00\x00\x00\x05\
\x00\x00\x00\x09CONNECTIVITY vtktypeint32\n\x00\x00\x00\x00\x00\x00\
\x00\x01\x00\x00\x00\x02\x00\x00\x00\x03\x00\x00\x00\x00\x00\x00\x00\
\x03\x00\x00\x00\x02\x00\x00\x00\x01\x00\x00\x00\x00behind";

/// Three triangles in BINARY, of 64 bits each.
const TRIANGLES: &[u8] = b"4 9\nOFFSETS vtktypeint64\n\x00\x00\x00\x00\x00\x00\x00\x00\
\x00\x00\x00\x00\x00\x00\x00\x03\x00\x00\x00\x00\x00\x00\x00\x06\x00\x00\x00\x00\x00\x00\
\x00\x09\nCONNECTIVITY vtktypeint64\n\x00\x00\x00\x00\x00\x00\x00\x00\x00\x00\x00\x00\
\x00\x00\x00\x01\x00\x00\x00\x00\x00\x00\x00\x02\x00\x00\x00\x00\x00\x00\x00\x01\x00\x00\
\x00\x00\x00\x00\x00\x02\x00\x00\x00\x00\x00\x00\x00\x03\x00\x00\x00\x00\x00\x00\x00\x03\
\x00\x00\x00\x00\x00\x00\x00\x02\x00\x00\x00\x00\x00\x00\x00\x00\nbehind";

/// Two tetrahedra in BINARY, of 64 bits each, without a newline between the blocks.
const TETRAHEDRA: &[u8] = b"3 8\nOFFSETS long\n\x00\x00\x00\x00\x00\x00\x00\x00\x00\x00\
\x00\x00\x00\x00\x00\x04\x00\x00\x00\x00\x00\x00\x00\x08CONNECTIVITY vtktypeuint64\n\x00\
\x00\x00\x00\x00\x00\x00\x00\x00\x00\x00\x00\x00\x00\x00\x01\x00\x00\x00\x00\x00\x00\x00\
\x02\x00\x00\x00\x00\x00\x00\x00\x03\x00\x00\x00\x00\x00\x00\x00\x03\x00\x00\x00\x00\x00\
\x00\x00\x02\x00\x00\x00\x00\x00\x00\x00\x01\x00\x00\x00\x00\x00\x00\x00\x00\nbehind";

/// Two cells of 2 and 4 points, which have three in the mean.
const UNEQUAL: &[u8] = b"3 6\nOFFSETS vtktypeint64\n\x00\x00\x00\x00\x00\x00\x00\x00\x00\
\x00\x00\x00\x00\x00\x00\x02\x00\x00\x00\x00\x00\x00\x00\x06\nCONNECTIVITY vtktypeint64\
\n\x00\x00\x00\x00\x00\x00\x00\x00\x00\x00\x00\x00\x00\x00\x00\x01\x00\x00\x00\x00\x00\
\x00\x00\x03\x00\x00\x00\x00\x00\x00\x00\x02\x00\x00\x00\x00\x00\x00\x00\x01\x00\x00\x00\
\x00\x00\x00\x00\x00\nbehind";

/// Two cells of 2 points in BINARY, of 64 bits each.
const PAIRS: &[u8] = b"3 4\nOFFSETS vtktypeint64\n\x00\x00\x00\x00\x00\x00\x00\x00\x00\
\x00\x00\x00\x00\x00\x00\x02\x00\x00\x00\x00\x00\x00\x00\x04\nCONNECTIVITY vtktypeint64\
\n\x00\x00\x00\x00\x00\x00\x00\x00\x00\x00\x00\x00\x00\x00\x00\x01\x00\x00\x00\x00\x00\
\x00\x00\x02\x00\x00\x00\x00\x00\x00\x00\x03\nbehind";

/// Two triangles in BINARY, with offsets of 64 bits and indices of 32.
const NARROW: &[u8] = b"3 6\nOFFSETS vtktypeint64\n\x00\x00\x00\x00\x00\x00\x00\x00\x00\
\x00\x00\x00\x00\x00\x00\x03\x00\x00\x00\x00\x00\x00\x00\x06\nCONNECTIVITY int\n\x00\x00\
\x00\x00\x00\x00\x00\x01\x00\x00\x00\x02\x00\x00\x00\x01\x00\x00\x00\x02\x00\x00\x00\x03\
\nbehind";

/// The numbers of these cells: of each its count, and then its indices.
const CELLS: &[u32] = &[3, 0, 1, 2, 2, 3, 0, 4, 3, 2, 1, 0];

/// Whether a section has so many cells of these numbers.
fn has_numbers(alloc: Global, section: CellSection, count: u64, numbers: &[u32]) -> bool {
    if section.count != count {
        return false;
    }
    match section.numbers.into_list(alloc) {
        Ok(list) => list.as_slice() == numbers,
        Err(_) => false,
    }
}

/// How many bytes of a section in a file of four points were read, where it has these cells.
fn tells(alloc: Global, binary: bool, text: &[u8], count: u64, numbers: &[u32]) -> Option<u64> {
    let mut lexer = Lexer::new(text);
    match offset_section(alloc, &mut lexer, binary, 4) {
        Ok(section) => {
            if has_numbers(alloc, section, count, numbers) {
                return Some(lexer.place());
            }
            None
        }
        Err(_) => None,
    }
}

#[test]
fn cells_in_both_forms(rt: HostRuntime) -> Result<(), Fail> {
    for (text, binary, count, numbers, read) in [
        (WORDS, false, 3, CELLS, 76),
        (BLOCKS, true, 3, CELLS, 156),
        (SMALL, true, 3, CELLS, 79),
        (INTS, true, 3, CELLS, 94),
    ] {
        let told = tells(rt.alloc(), binary, text, count, numbers);
        assert_eq!(rt; told, Some(read), "{text:?}");
    }
    Ok(())
}

#[test]
fn equal_and_unequal_cells_in_blocks(rt: HostRuntime) -> Result<(), Fail> {
    for (text, count, numbers, read) in [
        (
            TRIANGLES,
            3,
            [3, 0, 1, 2, 3, 1, 2, 3, 3, 3, 2, 0].as_slice(),
            156,
        ),
        (
            TETRAHEDRA,
            2,
            [4, 0, 1, 2, 3, 4, 3, 2, 1, 0].as_slice(),
            132,
        ),
        (UNEQUAL, 2, [2, 0, 1, 4, 3, 2, 1, 0].as_slice(), 124),
        (PAIRS, 2, [2, 0, 1, 2, 2, 3].as_slice(), 108),
        (NARROW, 2, [3, 0, 1, 2, 3, 1, 2, 3].as_slice(), 91),
    ] {
        let told = tells(rt.alloc(), true, text, count, numbers);
        assert_eq!(rt; told, Some(read), "{text:?}");
    }
    Ok(())
}

#[test]
fn no_cells_and_empty_cells(rt: HostRuntime) -> Result<(), Fail> {
    for (text, binary, count, numbers, read) in [
        (b"0 0 CELL_TYPES 0".as_slice(), false, 0, [].as_slice(), 3),
        (b"0 0\n", false, 0, [].as_slice(), 3),
        (b"0 0", true, 0, [].as_slice(), 3),
        (
            b"0 0\nOFFSETS vtktypeint64\nCONNECTIVITY vtktypeint64\nCELL_TYPES 0",
            false,
            0,
            [].as_slice(),
            50,
        ),
        (
            b"0 0\nOFFSETS vtktypeint64\nCONNECTIVITY vtktypeint64\nCELL_TYPES 0",
            true,
            0,
            [].as_slice(),
            51,
        ),
        (
            b"1 0\nOFFSETS int\n0\nCONNECTIVITY int\nx",
            false,
            0,
            [].as_slice(),
            34,
        ),
        (
            b"1 0\nOFFSETS vtktypeint64\n\x00\x00\x00\x00\x00\x00\x00\x00\n\
              CONNECTIVITY vtktypeint64\nx",
            true,
            0,
            [].as_slice(),
            60,
        ),
        // a cell of no point in front of a triangle
        (
            b"3 3\nOFFSETS int\n0 0 3\nCONNECTIVITY int\n2 1 0",
            false,
            2,
            [0, 3, 2, 1, 0].as_slice(),
            44,
        ),
    ] {
        let told = tells(rt.alloc(), binary, text, count, numbers);
        assert_eq!(rt; told, Some(read), "{text:?}");
    }
    Ok(())
}
