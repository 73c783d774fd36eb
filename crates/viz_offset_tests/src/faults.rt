//! Faults of sections of version 5.1 that were written by hand; Python counted their places.

use std::alloc::Global;
use std::process::Abort;
use std::test::Fail;
use viz_attr::AttrStop;
use viz_lex::{FileFault, FileKind, Lexer};
use viz_offset_cells::offset_section;

/// The fault of a section in a file of four points, or none.
fn fault(alloc: Global, binary: bool, text: &[u8]) -> Option<FileFault> {
    let mut lexer = Lexer::new(text);
    match &offset_section(alloc, &mut lexer, binary, 4) {
        Ok(_) => None,
        Err(AttrStop::File(fault)) => Some(*fault),
        Err(AttrStop::Memory) => None,
    }
}

#[test]
fn faults_in_words(rt: HostRuntime) -> Result<(), Fail> {
    for (text, kind, place) in [
        // how many offsets and indices
        (b"-1 0".as_slice(), FileKind::Count, 0),
        (b"x 0", FileKind::Number, 0),
        (b"2147483648 0", FileKind::TooMany, 0),
        (b"2 -1", FileKind::Count, 2),
        (b"2 2147483648", FileKind::TooMany, 2),
        (b"0 4", FileKind::Count, 2),
        (b"2", FileKind::Truncated, 1),
        // OFFSETS and its type
        (b"2 3\nCONNECTIVITY int", FileKind::Keyword, 4),
        (b"2 3\nEDGE_FLAGS int", FileKind::Unsupported, 4),
        (b"2 3\n", FileKind::Truncated, 4),
        (b"2 3\nOFFSETS float\n0 3", FileKind::Keyword, 12),
        (b"2 3\nOFFSETS double\n0 3", FileKind::Keyword, 12),
        (b"2 3\nOFFSETS vtkIdType\n0 3", FileKind::Unsupported, 12),
        (b"2 3\nOFFSETS vtktypeint16\n0 3", FileKind::Keyword, 12),
        // the offsets
        (b"2 3\nOFFSETS int\n1 3\n", FileKind::Count, 16),
        (b"2 3\nOFFSETS int\n-1 3\n", FileKind::Count, 16),
        (b"2 3\nOFFSETS int\n0 2\n", FileKind::Count, 18),
        (b"2 3\nOFFSETS int\n0 4\n", FileKind::Count, 18),
        (b"3 3\nOFFSETS int\n0 2 1\n", FileKind::Count, 20),
        (b"3 3\nOFFSETS int\n0 4 3\n", FileKind::Count, 20),
        (b"1 3\nOFFSETS int\n0\n", FileKind::Count, 16),
        (b"2 3\nOFFSETS int\n0 x\n", FileKind::Number, 18),
        (b"2 3\nOFFSETS char\n0 128\n", FileKind::ValueRange, 19),
        (
            b"2 3\nOFFSETS vtktypeint32\n0 2147483648\n",
            FileKind::ValueRange,
            27,
        ),
        (
            b"2 3\nOFFSETS vtktypeuint32\n0 4294967296\n",
            FileKind::ValueRange,
            28,
        ),
        (
            b"2 3\nOFFSETS vtktypeuint32\n0 4294967295\n",
            FileKind::Count,
            28,
        ),
        (
            b"2 3\nOFFSETS vtktypeint64\n0 4294967299\n",
            FileKind::Count,
            27,
        ),
        (b"2 3\nOFFSETS vtktypeint64\n0", FileKind::Truncated, 26),
        // CONNECTIVITY, its type and the indices
        (
            b"2 3\nOFFSETS int\n0 3\nCELL_TYPES 1\n",
            FileKind::Keyword,
            20,
        ),
        (
            b"2 3\nOFFSETS int\n0 3\nCONNECTIVITY float\n0 1 2\n",
            FileKind::Keyword,
            33,
        ),
        (
            b"2 3\nOFFSETS int\n0 3\nCONNECTIVITY int\n0 4 2\n",
            FileKind::Index,
            39,
        ),
        (
            b"2 3\nOFFSETS int\n0 3\nCONNECTIVITY int\n0 1 -1\n",
            FileKind::Index,
            41,
        ),
        (
            b"2 3\nOFFSETS int\n0 3\nCONNECTIVITY int\n0 1.5 2\n",
            FileKind::Number,
            39,
        ),
        (
            b"2 3\nOFFSETS int\n0 3\nCONNECTIVITY unsigned_char\n0 256 2\n",
            FileKind::ValueRange,
            49,
        ),
        (
            b"2 3\nOFFSETS int\n0 3\nCONNECTIVITY int\n0 1\n",
            FileKind::Truncated,
            41,
        ),
        (b"0 0\nOFFSETS int\nCELL_TYPES 0\n", FileKind::Keyword, 16),
    ] {
        let wanted = Some(FileFault { kind, place });
        assert_eq!(rt; fault(rt.alloc(), false, text), wanted, "{text:?}");
    }
    Ok(())
}

#[test]
fn faults_in_blocks(rt: HostRuntime) -> Result<(), Fail> {
    for (text, kind, place) in [
        // the newline behind a type
        (b"2 3\nOFFSETS int 0 3".as_slice(), FileKind::Keyword, 16),
        (b"2 3\nOFFSETS int", FileKind::Truncated, 15),
        // the numbers, and the cut end of their block
        (
            b"2 3\nOFFSETS vtktypeint64\n\x00\x00\x00\x00\x00\x00\x00\x01\
              \x00\x00\x00\x00\x00\x00\x00\x03",
            FileKind::Count,
            25,
        ),
        (
            b"2 3\nOFFSETS vtktypeint64\n\x00\x00\x00\x00\x00\x00\x00\x00\
              \x00\x00\x00\x01\x00\x00\x00\x03",
            FileKind::Count,
            33,
        ),
        (
            b"2 3\nOFFSETS vtktypeint64\n\x00\x00\x00\x00\x00\x00\x00\x00\x00\x00\x00",
            FileKind::Truncated,
            36,
        ),
        (
            b"2 3\nOFFSETS vtktypeint64\n\x00\x00\x00\x00\x00\x00\x00\x01\x00\x00\x00",
            FileKind::Count,
            25,
        ),
        (
            b"2 3\nOFFSETS vtktypeint64\n\x00\x00\x00\x00\x00\x00\x00\x00\
              \x00\x00\x00\x00\x00\x00\x00\x03\nCONNECTIVITY vtktypeint64\n\
              \x00\x00\x00\x00\x00\x00\x00\x00\x00\x00\x00\x00\x00\x00\x00\x01\
              \x00\x00\x00\x00\x00\x00\x00\x04",
            FileKind::Index,
            84,
        ),
        (
            b"2 3\nOFFSETS vtktypeint64\n\x00\x00\x00\x00\x00\x00\x00\x00\
              \x00\x00\x00\x00\x00\x00\x00\x03\nCONNECTIVITY vtktypeint64\n\
              \x00\x00\x00\x00\x00\x00\x00\x00\x00\x00\x00\x01\x00\x00\x00\x01\
              \x00\x00\x00\x00\x00\x00\x00\x02",
            FileKind::Index,
            76,
        ),
        (
            b"2 3\nOFFSETS vtktypeint64\n\x00\x00\x00\x00\x00\x00\x00\x00\
              \x00\x00\x00\x00\x00\x00\x00\x03\nCONNECTIVITY vtktypeint64\n\
              \x00\x00\x00\x00\x00\x00\x00\x00\xff\xff\xff\xff\xff\xff\xff\xff\
              \x00\x00\x00\x00\x00\x00\x00\x02",
            FileKind::Index,
            76,
        ),
        (
            b"2 3\nOFFSETS vtktypeint64\n\x00\x00\x00\x00\x00\x00\x00\x00\
              \x00\x00\x00\x00\x00\x00\x00\x03\nCONNECTIVITY vtktypeint64\n\
              \x00\x00\x00\x00\x00\x00\x00\x00\x00\x00\x00\x00\x00\x00\x00\x01",
            FileKind::Truncated,
            84,
        ),
        (
            b"2 3\nOFFSETS vtktypeint64\n\x00\x00\x00\x00\x00\x00\x00\x00\
              \x00\x00\x00\x00\x00\x00\x00\x03\nCONNECTIVITY unsigned_char\n\
              \x00\x04\x01",
            FileKind::Index,
            70,
        ),
        // cells of one size: an offset or an index that is wrong, and the cut end
        (
            b"4 9\nOFFSETS vtktypeint64\n\x00\x00\x00\x00\x00\x00\x00\x00\x00\x00\x00\
              \x00\x00\x00\x00\x06\x00\x00\x00\x00\x00\x00\x00\x03\x00\x00\x00\x00\x00\
              \x00\x00\x09\nCONNECTIVITY vtktypeint64\n\x00\x00\x00\x00\x00\x00\x00\x00\
              \x00\x00\x00\x00\x00\x00\x00\x01\x00\x00\x00\x00\x00\x00\x00\x02\x00\x00\
              \x00\x00\x00\x00\x00\x01\x00\x00\x00\x00\x00\x00\x00\x02\x00\x00\x00\x00\
              \x00\x00\x00\x03\x00\x00\x00\x00\x00\x00\x00\x03\x00\x00\x00\x00\x00\x00\
              \x00\x02\x00\x00\x00\x00\x00\x00\x00\x00",
            FileKind::Count,
            41,
        ),
        (
            b"4 9\nOFFSETS vtktypeint64\n\x00\x00\x00\x00\x00\x00\x00\x00\x00\x00\x00\
              \x00\x00\x00\x00\x03\x00\x00\x00\x00\x00\x00\x00\x06\x00\x00\x00\x00\x00\
              \x00\x00\x08\nCONNECTIVITY vtktypeint64\n\x00\x00\x00\x00\x00\x00\x00\x00",
            FileKind::Count,
            49,
        ),
        (
            b"3 6\nOFFSETS vtktypeint64\n\x00\x00\x00\x00\x00\x00\x00\x00\x00\x00\x00\
              \x00\x00\x00\x00\x03\x00\x00\x00\x00\x00\x00\x00\x06\n\
              CONNECTIVITY vtktypeint64\n\x00\x00\x00\x00\x00\x00\x00\x00\x00\x00\x00\
              \x00\x00\x00\x00\x01\x00\x00\x00\x00\x00\x00\x00\x02\x00\x00\x00\x00\x00\
              \x00\x00\x01\x00\x00\x00\x00\x00\x00\x00\x02\x00\x00\x00\x00\x00\x00\x00\
              \x04",
            FileKind::Index,
            116,
        ),
        (
            b"3 6\nOFFSETS vtktypeint64\n\x00\x00\x00\x00\x00\x00\x00\x00\x00\x00\x00\
              \x00\x00\x00\x00\x03\x00\x00\x00\x00\x00\x00\x00\x06\n\
              CONNECTIVITY vtktypeint64\n\x00\x00\x00\x00\x00\x00\x00\x00\x00\x00\x00\
              \x00\x00\x00\x00\x01\x00\x00\x00\x00\x00\x00\x00\x02\x00\x00\x00\x00\x00\
              \x00\x00\x01\x00\x00\x00\x00\x00\x00\x00\x02\x00\x00\x00\x01\x00\x00\x00\
              \x01",
            FileKind::Index,
            116,
        ),
        (
            b"3 8\nOFFSETS vtktypeint64\n\x00\x00\x00\x00\x00\x00\x00\x00\x00\x00\x00\
              \x00\x00\x00\x00\x04\x00\x00\x00\x00\x00\x00\x00\x08\n\
              CONNECTIVITY vtktypeint64\n\x00\x00\x00\x00\x00\x00\x00\x00\x00\x00\x00\
              \x00\x00\x00\x00\x01\x00\x00\x00\x00\x00\x00\x00\x02\x00\x00\x00\x00\x00\
              \x00\x00\x03\x00\x00\x00\x00\x00\x00\x00\x03\x00\x00\x00\x00\x00\x00\x00\
              \x02\xff\xff\xff\xff\xff\xff\xff\xff\x00\x00\x00\x00\x00\x00\x00\x00",
            FileKind::Index,
            124,
        ),
        (
            b"3 8\nOFFSETS vtktypeint64\n\x00\x00\x00\x00\x00\x00\x00\x00\x00\x00\x00\
              \x00\x00\x00\x00\x04\x00\x00\x00\x00\x00\x00\x00\x08\n\
              CONNECTIVITY vtktypeint64\n\x00\x00\x00\x00\x00\x00\x00\x00\x00\x00\x00\
              \x00\x00\x00\x00\x01\x00\x00\x00\x00\x00\x00\x00\x02\x00\x00\x00\x00\x00\
              \x00\x00\x03\x00\x00\x00\x00\x00\x00\x00\x03\x00\x00\x00\x00\x00\x00\x00\
              \x02\x00\x00\x00\x00\x00\x00\x00\x01\x00\x00\x00\x00\x00",
            FileKind::Truncated,
            137,
        ),
        // cells of several sizes: an index of the last one
        (
            b"3 6\nOFFSETS vtktypeint64\n\x00\x00\x00\x00\x00\x00\x00\x00\x00\x00\x00\
              \x00\x00\x00\x00\x02\x00\x00\x00\x00\x00\x00\x00\x06\n\
              CONNECTIVITY vtktypeint64\n\x00\x00\x00\x00\x00\x00\x00\x00\x00\x00\x00\
              \x00\x00\x00\x00\x01\x00\x00\x00\x00\x00\x00\x00\x03\x00\x00\x00\x00\x00\
              \x00\x00\x02\x00\x00\x00\x00\x00\x00\x00\x01\x00\x00\x00\x00\x00\x00\x00\
              \x04",
            FileKind::Index,
            116,
        ),
    ] {
        let wanted = Some(FileFault { kind, place });
        assert_eq!(rt; fault(rt.alloc(), true, text), wanted, "{text:?}");
    }
    Ok(())
}
