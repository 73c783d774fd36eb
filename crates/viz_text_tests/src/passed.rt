//! Blocks, words and lines that are passed over, counted by hand.

use std::test::Fail;
use viz_lex::*;

const fn truncated(place: u64) -> FileFault {
    FileFault {
        kind: FileKind::Truncated,
        place,
    }
}

#[test]
fn blocks_are_cut_by_their_number(rt: HostRuntime) {
    for (count, want, place) in [
        (0, Ok((2, 2)), 2),
        (1, Ok((2, 3)), 3),
        (3, Ok((2, 5)), 5),
        // one more than is left, and as many as no text has
        (4, Err(truncated(5)), 2),
        (u64::MAX, Err(truncated(5)), 2),
    ] {
        let mut lexer = Lexer::new(b"a bcd");
        let _word = lexer.word();
        let _blank = lexer.block(1);
        assert_eq!(rt;
            lexer.block(count).map(|s| (s.start, s.end)),
            want,
            "{count}"
        );
        assert_eq!(rt; lexer.place(), place, "{count}");
    }
}

#[test]
fn words_are_passed_over(rt: HostRuntime) {
    for (count, want, place) in [
        (0, Ok(()), 0),
        (1, Ok(()), 3),
        (2, Ok(()), 7),
        (3, Ok(()), 9),
        (4, Err(truncated(10)), 0),
        (u64::MAX, Err(truncated(10)), 0),
    ] {
        let mut lexer = Lexer::new(b" 12\n-34\t5 ");
        assert_eq!(rt; lexer.pass(count), want, "{count}");
        assert_eq!(rt; lexer.place(), place, "{count}");
    }
    let mut last = Lexer::new(b"1 2");
    assert_eq!(rt; last.pass(2), Ok(()), "the last word ends with the bytes");
    assert_eq!(rt; last.place(), 3);
}

#[test]
fn many_words_are_passed_over(rt: HostRuntime) -> Result<(), Fail> {
    // seven bytes a word: the 586th begins at 4095, so that a chunk of 4096 bytes cuts it
    let mut text = Vec::new(rt.alloc());
    for _ in 0..1000 {
        text.extend_from_slice(b"123456 ")?;
    }
    for (count, want, place) in [
        (1, Ok(()), 6),
        (585, Ok(()), 4094),
        (586, Ok(()), 4101),
        (587, Ok(()), 4108),
        (1000, Ok(()), 6999),
        (1001, Err(truncated(7000)), 0),
    ] {
        let mut lexer = Lexer::new(&text);
        assert_eq!(rt; lexer.pass(count), want, "{count}");
        assert_eq!(rt; lexer.place(), place, "{count}");
    }
    Ok(())
}

#[test]
fn metadata_ends_at_the_first_empty_line(rt: HostRuntime) {
    for (text, place) in [
        (b"METADATA\nINFORMATION 0\n\nFIELD".as_slice(), 24),
        (b"METADATA\r\nINFORMATION 0\r\n\r\nFIELD", 27),
        // the rest of its own line is not the empty one
        (b"METADATA \n\nFIELD", 11),
        (b"METADATA x\n\n\nFIELD", 12),
        // blanks and two carriage returns make no line empty
        (b"METADATA\n \n\t\n\x0b\n\r\r\n\nFIELD", 19),
        // no empty line
        (b"METADATA\nNAME", 13),
        (b"METADATA\nNAME\n", 14),
        (b"METADATA", 8),
    ] {
        let mut lexer = Lexer::new(text);
        let _word = lexer.word();
        lexer.pass_metadata();
        assert_eq!(rt; lexer.place(), place, "{text:?}");
    }
}
