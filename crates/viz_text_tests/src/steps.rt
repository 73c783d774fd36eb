//! Steps of reading over short texts, whose places were counted by hand.

use viz_lex::*;

const fn fault(kind: FileKind, place: u64) -> FileFault {
    FileFault { kind, place }
}

#[test]
fn words_and_numbers_are_due(rt: HostRuntime) {
    let mut lexer = Lexer::new(b" s -7 1.5 x 0.1y");
    assert_eq!(rt; lexer.due_word(), Ok((1, b"s".as_slice())));
    assert_eq!(rt; lexer.due_number(), Ok((3, -7)));
    assert_eq!(rt; lexer.due_decimal(), Ok((6, 1_500_000_000)));
    assert_eq!(rt; lexer.due_number(), Err(fault(FileKind::Number, 10)));
    assert_eq!(rt; lexer.due_decimal(), Err(fault(FileKind::HeaderNumber, 12)));
    assert!(rt; lexer.is_done());
    let mut end = Lexer::new(b" \n");
    let truncated = fault(FileKind::Truncated, 2);
    assert_eq!(rt; end.due_word(), Err(truncated));
    assert_eq!(rt; end.due_number(), Err(truncated));
    assert_eq!(rt; end.due_decimal(), Err(truncated));
    assert_eq!(rt; end.due_keyword(b"CELLS"), Err(truncated));
}

#[test]
fn keywords_are_due_in_any_case(rt: HostRuntime) {
    for (text, next, want) in [
        (b" Cells 1".as_slice(), true, Ok(())),
        // no other word, also not one that begins like it
        (b"CELL", false, Err(fault(FileKind::Keyword, 0))),
        (b"\nCELLSX", false, Err(fault(FileKind::Keyword, 1))),
        // words of the format that are left out
        (b"GLOBAL_IDS", false, Err(fault(FileKind::Unsupported, 0))),
        (
            b" Pedigree_Ids",
            false,
            Err(fault(FileKind::Unsupported, 1)),
        ),
        (b"TENSORS6", false, Err(fault(FileKind::Unsupported, 0))),
        (b"edge_flags", false, Err(fault(FileKind::Unsupported, 0))),
        (b"TENSORS", false, Err(fault(FileKind::Keyword, 0))),
        (b" ", false, Err(fault(FileKind::Truncated, 1))),
    ] {
        let mut lexer = Lexer::new(text);
        assert_eq!(rt; lexer.is_next(b"CELLS"), next, "{text:?}");
        assert_eq!(rt; lexer.due_keyword(b"CELLS"), want, "{text:?}");
    }
    assert_eq!(rt; keyword_fault(5, b"bit"), fault(FileKind::Keyword, 5));
    assert_eq!(rt;
        keyword_fault(5, b"EDGE_FLAGS"),
        fault(FileKind::Unsupported, 5)
    );
    assert!(rt; is_word(b"x_9", b"X_9") && !is_word(b"x", b"x_"));
}

#[test]
fn a_word_may_stand_on_the_same_line(rt: HostRuntime) {
    for (text, beside, done) in [
        (b" 3\n".as_slice(), true, false),
        (b"3", true, false),
        // a vertical tab and a form feed end no line
        (b"\t\x0b\x0c\r3", true, false),
        (b" \r\n3", false, false),
        (b" \n ", false, true),
        (b" ", false, true),
        (b"", false, true),
    ] {
        let lexer = Lexer::new(text);
        assert_eq!(rt; lexer.is_beside(), beside, "{text:?}");
        assert_eq!(rt; lexer.is_done(), done, "{text:?}");
    }
}

#[test]
fn metadata_may_stand_here(rt: HostRuntime) {
    for (text, place) in [
        (b"\nMetaData\nx\n\nFIELD".as_slice(), 13),
        // once, and no other word
        (b"METADATA\n\nMETADATA\n\n", 10),
        (b" METADATA2\n\n", 0),
        (b"", 0),
    ] {
        let mut lexer = Lexer::new(text);
        assert_eq!(rt; lexer.any_metadata(), Ok(()), "{text:?}");
        assert_eq!(rt; lexer.place(), place, "{text:?}");
    }
}
