//! Words of scripts, one by one.

use std::test::Fail;
use viz_kinds::{Kind, Param, Value};
use viz_words::{
    Command, ScriptRefusal, Verb, array_name, command_named, command_word, due, edit_in, file_name,
    four, is_plain, is_skipped, kind_named, kind_word, line_len, natural, next_line, next_word,
    node_name, number, one, param_named, param_word, set_in, three, two, verb_of,
};

#[test]
fn lines_and_words_are_cut(rt: HostRuntime) -> Result<(), Fail> {
    let (line, rest) = next_line(b"a b\r\nc").ok_or("no line")?;
    assert_eq!(rt; (line, rest), (b"a b".as_slice(), b"c".as_slice()));
    assert!(rt; next_line(b"").is_none());
    assert_eq!(rt; line_len(b"ab\n"), Some(2));
    let (word, rest) = next_word(b" \ta b").ok_or("no word")?;
    assert_eq!(rt; (word, rest), (b"a".as_slice(), b" b".as_slice()));
    assert!(rt; next_word(b" \t").is_none());
    assert!(rt; is_plain(b"a\t~") && !is_plain(b"\x1f"));
    assert!(rt; is_skipped(b"#a") && is_skipped(b" \t") && !is_skipped(b" #"));
    Ok(())
}

#[test]
fn numbers_have_64_bits(rt: HostRuntime) -> Result<(), Fail> {
    let rows: [(&[u8], Option<i64>); 8] = [
        (b"9223372036854775807", Some(i64::MAX)),
        (b"9223372036854775808", None),
        (b"-9223372036854775808", Some(i64::MIN)),
        (b"-9223372036854775809", None),
        (b"0000000000000000000000007", Some(7)),
        (b"-0", Some(0)),
        (b"-", None),
        (b"+1", None),
    ];
    for (word, want) in rows {
        assert_eq!(rt; number(word), want, "{word:?}");
    }
    assert_eq!(rt; natural(b"255", 0, 255), Ok(255));
    assert_eq!(rt; natural(b"0", 1, 255), Err(ScriptRefusal::Number));
    Ok(())
}

#[test]
fn names_have_their_bytes(rt: HostRuntime) -> Result<(), Fail> {
    assert_eq!(rt; node_name(b"a_Z9")?.bytes(), b"a_Z9".as_slice());
    assert_eq!(rt; file_name(b"a-.")?.text(), "a-.");
    assert_eq!(rt; array_name(b"!~")?.bytes(), b"!~".as_slice());
    assert!(rt; node_name(&[b'a'; 64]).is_ok() && node_name(&[b'a'; 65]).is_err());
    Ok(())
}

#[test]
fn words_are_found_in_their_tables(rt: HostRuntime) -> Result<(), Fail> {
    for kind in [Kind::File, Kind::Threshold, Kind::Contour, Kind::Writer] {
        assert_eq!(rt; kind_named(kind_word(kind)), Some(kind));
    }
    assert_eq!(rt; kind_word(Kind::Boundary), b"boundary".as_slice());
    assert_eq!(rt; kind_named(b"boundary"), Some(Kind::Boundary));
    assert_eq!(rt; kind_named(b"glyph"), None);
    assert_eq!(rt; param_named(b"form"), Some(Param::Style));
    assert_eq!(rt; param_word(Param::Bounds), b"box".as_slice());
    assert_eq!(rt; param_word(Param::Version), b"version".as_slice());
    assert_eq!(rt; param_named(b"version"), Some(Param::Version));
    assert_eq!(rt; command_named(b"load"), Some(Command::Load));
    assert_eq!(rt; command_named(b"audit"), Some(Command::Audit));
    assert_eq!(rt; command_named(b"begin"), Some(Command::Begin));
    assert_eq!(rt; command_word(Command::End), b"end".as_slice());
    assert_eq!(rt; command_word(Command::Audit), b"audit".as_slice());
    Ok(())
}

#[test]
fn commands_have_so_many_words(rt: HostRuntime) -> Result<(), Fail> {
    assert_eq!(rt; due(b" a b")?.0, b"a".as_slice());
    assert_eq!(rt; one(b" a ")?, b"a".as_slice());
    assert_eq!(rt; two(b"a b")?.1, b"b".as_slice());
    assert_eq!(rt; three(b"a b c")?.2, b"c".as_slice());
    assert_eq!(rt; four(b"a b c d")?.3, b"d".as_slice());
    assert_eq!(rt; verb_of(b"set a unit 1"), Ok(Verb::Set(Param::Unit)));
    assert_eq!(rt; verb_of(b"set a"), Ok(Verb::Missing));
    assert!(rt; edit_in(Verb::Remove, b"a").is_ok());
    let (node, value) = set_in(Param::Range, b"a range 1 -2")?;
    assert_eq!(rt; node.bytes(), b"a".as_slice());
    let items = [1, -2, 0, 0, 0, 0, 0, 0];
    assert_eq!(rt; value, Value::Numbers { count: 2, items });
    Ok(())
}
