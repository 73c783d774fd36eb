//! Picked arrays of texts that were written by hand, in both forms.

use crate::attribute_texts::{BLOCKS, FLOAT_BEHIND, FLOAT_IN_FRONT, TWICE, WORDS};
use std::alloc::Global;
use std::process::Abort;
use std::test::Fail;
use viz_attr::{AttrStop, Stored, attributes, pass_field, type_word};
use viz_base::{Pick, Word};
use viz_column::Kind8;
use viz_lex::{FileFault, FileKind, Lexer};

/// The kind and the two numbers of the picked array, none, the fault, or none for want of memory.
pub(crate) type Told = Result<Option<(Kind8, [i128; 2])>, Option<FileFault>>;

/// What is told of a file of two points and three cells.
pub(crate) fn told(rt: &impl Abort, alloc: Global, binary: bool, pick: &Pick, text: &[u8]) -> Told {
    let mut lexer = Lexer::new(text);
    match attributes(alloc, &mut lexer, binary, 2, 3, pick) {
        Ok(Some(column)) => {
            assert_eq!(rt; column.len(), 2, "{text:?}");
            Ok(Some((column.kind(), [column.get(0), column.get(1)])))
        }
        Ok(None) => Ok(None),
        Err(AttrStop::File(fault)) => Err(Some(fault)),
        Err(AttrStop::Memory) => Err(None),
    }
}

fn named(name: &[u8]) -> Result<Pick, Fail> {
    let word = Word::new(name).ok_or("a name")?;
    Ok(Pick::Named(word))
}

const fn no_array(text: &[u8]) -> Told {
    Err(Some(FileFault {
        kind: FileKind::NoArray,
        place: text.len() as u64,
    }))
}

#[test]
fn each_keyword_in_both_forms(rt: HostRuntime) -> Result<(), Fail> {
    for (binary, text) in [(false, WORDS), (true, BLOCKS)] {
        // the first of SCALARS of points, behind one of cells
        let first = told(&rt, rt.alloc(), binary, &Pick::First, text);
        assert_eq!(rt; first, Ok(Some((Kind8::I32, [-1, 2]))), "{binary}");
        assert_eq!(rt;
            told(&rt, rt.alloc(), binary, &Pick::Zero, text),
            Ok(None),
            "{binary}"
        );
        for (name, want) in [
            (b"s".as_slice(), Ok(Some((Kind8::I32, [-1, 2])))),
            // three components, and two in a FIELD
            (b"S", Ok(Some((Kind8::I16, [11, -14])))),
            (b"b", Ok(Some((Kind8::U8, [255, 2])))),
            // cells, a FIELD array of three tuples, and then one of two
            (b"a", Ok(Some((Kind8::I64, [-5, 6])))),
            // a name, where it is the first
            (b"METADATA", Ok(Some((Kind8::I8, [3, 4])))),
            // arrays that no pick names, and names that stand nowhere
            (b"v", no_array(text)),
            (b"tc", no_array(text)),
            (b"cs", no_array(text)),
            (b"metadata", no_array(text)),
            (b"f", no_array(text)),
        ] {
            let found = told(&rt, rt.alloc(), binary, &named(name)?, text);
            assert_eq!(rt; found, want, "{name:?} {binary}");
        }
    }
    Ok(())
}

#[test]
fn a_picked_array(rt: HostRuntime) -> Result<(), Fail> {
    for (pick, text, want) in [
        // nothing is asked for, and nothing is read as numbers
        (Pick::Zero, b"".as_slice(), Ok(None)),
        (
            Pick::Zero,
            b"POINT_DATA 2\nSCALARS s float\nLOOKUP_TABLE t\nabc nan",
            Ok(None),
        ),
        // lines end with a carriage return and a newline
        (
            Pick::First,
            b"POINT_DATA 2\r\nSCALARS s int\r\nLOOKUP_TABLE t\r\n1 2\r\nMETADATA\r\nx\r\n\r\n",
            Ok(Some((Kind8::I32, [1, 2]))),
        ),
        // all on one line but the table, and the ends of a type
        (
            Pick::First,
            b"point_data 2 scalars s long\nlookup_table t -9223372036854775808 9223372036854775807",
            Ok(Some((
                Kind8::I64,
                [-9_223_372_036_854_775_808, 9_223_372_036_854_775_807],
            ))),
        ),
        // a second array is no longer read, also one of float
        (Pick::First, FLOAT_BEHIND, Ok(Some((Kind8::I8, [3, 4])))),
        // the same name twice, and in two parts
        (named(b"s")?, TWICE, Ok(Some((Kind8::I8, [3, 4])))),
        // one of float is passed over, where another is asked for
        (named(b"s")?, FLOAT_IN_FRONT, Ok(Some((Kind8::I32, [5, 6])))),
        // and one that is asked for is a fault at its type, but not with another number of tuples
        (
            named(b"s")?,
            b"POINT_DATA 2\nFIELD f 1\ns 1 2 double\n1 2",
            Err(Some(FileFault {
                kind: FileKind::FloatArray,
                place: 29,
            })),
        ),
        (
            named(b"s")?,
            b"POINT_DATA 2\nFIELD f 1\ns 1 3 double\n1 2 3",
            Err(Some(FileFault {
                kind: FileKind::NoArray,
                place: 41,
            })),
        ),
    ] {
        assert_eq!(rt; told(&rt, rt.alloc(), false, &pick, text), want, "{text:?}");
    }
    Ok(())
}

#[test]
fn carriage_returns_in_front_of_blocks(rt: HostRuntime) {
    let text =
        b"POINT_DATA 2\r\nSCALARS s short\r\nLOOKUP_TABLE t \t\r\n\0\x05\xff\xff\nMETADATA\r\n\r\n";
    let found = told(&rt, rt.alloc(), true, &Pick::First, text);
    assert_eq!(rt; found, Ok(Some((Kind8::I16, [5, -1]))));
}

// The end of the bytes, where they are far fewer than a count promises.
fn cut(alloc: Global, binary: bool, text: &[u8]) -> bool {
    let mut lexer = Lexer::new(text);
    let found = attributes(alloc, &mut lexer, binary, 2_147_483_647, 0, &Pick::First);
    let end = FileFault {
        kind: FileKind::Truncated,
        place: text.len() as u64,
    };
    matches!(found, Err(AttrStop::File(fault)) if fault == end)
}

#[test]
fn counts_take_no_memory(rt: HostRuntime) {
    for text in [
        b"POINT_DATA 2147483647\nSCALARS s long 2147483647\nLOOKUP_TABLE t\n1 2 3 4".as_slice(),
        b"POINT_DATA 2147483647\nFIELD f 1\na 2147483647 2147483647 long\n1 2 3 4",
    ] {
        assert!(rt; cut(rt.alloc(), false, text), "{text:?}");
        assert!(rt; cut(rt.alloc(), true, text), "{text:?}");
    }
}

// The numbers of so many points, each of which is this word or these bytes: how many, and the last.
fn many(
    alloc: Global,
    binary: bool,
    head: &[u8],
    value: &[u8],
) -> Result<Option<(u64, i128)>, Fail> {
    let mut text = Vec::from_slice(alloc, head)?;
    for _ in 0..100_000 {
        text.extend_from_slice(value)?;
    }
    let mut lexer = Lexer::new(&text);
    match attributes(alloc, &mut lexer, binary, 100_000, 0, &Pick::First) {
        Ok(Some(column)) if column.len() > 0 => {
            let count = column.len();
            Ok(Some((count, column.get(count - 1))))
        }
        _ => Ok(None),
    }
}

#[test]
fn large_arrays(rt: HostRuntime) -> Result<(), Fail> {
    let head = b"POINT_DATA 100000\nSCALARS s short\nLOOKUP_TABLE t\n".as_slice();
    let three = b"POINT_DATA 100000\nSCALARS s short 3\nLOOKUP_TABLE t\n".as_slice();
    let want = Some((100_000, -12_345));
    assert_eq!(rt; many(rt.alloc(), false, head, b"-12345 ")?, want);
    assert_eq!(rt; many(rt.alloc(), false, three, b"-12345 0 7\n")?, want);
    // 65536 - 12345 is 0xcfc7
    assert_eq!(rt; many(rt.alloc(), true, head, b"\xcf\xc7")?, want);
    assert_eq!(rt; many(rt.alloc(), true, three, b"\xcf\xc7abcd")?, want);
    Ok(())
}

#[test]
fn type_words(rt: HostRuntime) {
    for (word, stored, bytes) in [
        (b"char".as_slice(), Stored::Whole(Kind8::I8), 1),
        (b"unsigned_char", Stored::Whole(Kind8::U8), 1),
        (b"short", Stored::Whole(Kind8::I16), 2),
        (b"unsigned_short", Stored::Whole(Kind8::U16), 2),
        (b"int", Stored::Whole(Kind8::I32), 4),
        (b"UNSIGNED_INT", Stored::Whole(Kind8::U32), 4),
        (b"long", Stored::Whole(Kind8::I64), 8),
        (b"vtktypeint64", Stored::Whole(Kind8::I64), 8),
        (b"unsigned_long", Stored::Whole(Kind8::U64), 8),
        (b"vtkTypeUInt64", Stored::Whole(Kind8::U64), 8),
        (b"float", Stored::Float, 4),
        (b"double", Stored::Double, 8),
    ] {
        assert_eq!(rt;
            type_word(&mut Lexer::new(word), false),
            Ok(stored),
            "{word:?}"
        );
        assert_eq!(rt; stored.bytes(), bytes, "{word:?}");
        let is_real = bytes == 4 && stored == Stored::Float || stored == Stored::Double;
        assert_eq!(rt; stored.is_real(), is_real, "{word:?}");
    }
}

#[test]
fn a_field_is_passed_over(rt: HostRuntime) {
    // behind the word FIELD: no numbers, METADATA, and a name that is METADATA
    let words = b"f 3 METADATA 1 2 float nan abc b 2 1 int 1 2\nMETADATA\nx\n\nc 1 0 char\nCELLS";
    let blocks =
        b"f 3\nMETADATA 1 1 double\nabcdefgh b 2 1 short\nabcd\nMETADATA\nx\n\nc 1 0 int\nCELLS";
    for (binary, text, place) in [
        (false, words.as_slice(), words.len() as u64 - 6),
        (true, blocks.as_slice(), blocks.len() as u64 - 5),
    ] {
        let mut lexer = Lexer::new(text);
        assert_eq!(rt; pass_field(&mut lexer, binary), Ok(()), "{text:?}");
        assert_eq!(rt; lexer.place(), place, "{text:?}");
    }
    let mut lexer = Lexer::new(b"f 2 a 1 1 char 1\nMETADATA\n\nMetadata 1 1 char 1");
    let second = Err(FileFault {
        kind: FileKind::Keyword,
        place: 27,
    });
    assert_eq!(rt; pass_field(&mut lexer, false), second);
}
