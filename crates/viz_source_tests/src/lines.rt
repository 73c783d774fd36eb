//! Lines of short texts, cut by hand and compared with pieces of every size.

use std::alloc::Global;
use viz_base::Bytes;
use viz_source::{LineReader, MemorySource, NextLine, Source, StreamStop};

// More answers than any text here has.
const ROUNDS: u32 = 16;

// What stands behind the answers, if one is the last: its word, or nothing.
fn last_word(answer: Result<NextLine, StreamStop>) -> Option<&'static str> {
    match answer {
        Ok(NextLine::Line | NextLine::LongLine) => None,
        Ok(NextLine::End) => Some("end"),
        Err(StreamStop::TooLong) => Some("past the limit"),
        Err(StreamStop::Failed) => Some("failed"),
    }
}

// The lines, each with a bar behind it, and the word of the last answer.
fn answers<S: Source>(alloc: Global, source: &mut S) -> Option<Vec<u8>> {
    let mut reader = LineReader::new(alloc).ok()?;
    let mut text = Vec::new(alloc);
    for _ in 0..ROUNDS {
        if let Some(word) = last_word(reader.next_line(source)) {
            text.extend_from_slice(word.as_bytes()).ok()?;
            return Some(text);
        }
        text.extend_from_slice(reader.line()).ok()?;
        text.push(b'|').ok()?;
    }
    None
}

// A source of this text, in pieces of one size, with one failing pull.
fn source_of(alloc: Global, text: &str, cut: u32, failing: u64) -> Option<MemorySource> {
    let bytes = Bytes::new(text.as_bytes().to_vec(alloc).ok()?);
    let cuts = vec![in alloc; cut; text.len()].ok()?;
    let failing = vec![in alloc; failing].ok()?;
    Some(MemorySource::new(bytes, cuts, failing))
}

fn answers_are(alloc: Global, text: &str, cut: u32, failing: u64, want: &str) -> bool {
    let Some(mut source) = source_of(alloc, text, cut, failing) else {
        return false;
    };
    match answers(alloc, &mut source) {
        Some(got) => got.as_slice() == want.as_bytes(),
        None => false,
    }
}

const TEXTS: [(&str, &str); 12] = [
    // The last line may lack its newline; nothing is no line.
    ("", "end"),
    ("\n", "|end"),
    ("a", "a|end"),
    ("a\n", "a|end"),
    ("a\n\nbc", "a||bc|end"),
    // A carriage return is dropped in front of a newline, one of several.
    ("a\r\nb\r\n", "a|b|end"),
    ("\r\n", "|end"),
    ("a\r\r\n", "a\r|end"),
    // It is kept elsewhere.
    ("a\rb\n", "a\rb|end"),
    ("a\r", "a\r|end"),
    ("\r", "\r|end"),
    ("\n\r", "|\r|end"),
];

#[test]
fn the_lines_are_the_same_for_every_cut(rt: HostRuntime) {
    for cut in [0, 1, 2, 3, 4096, 4097] {
        for (text, want) in &TEXTS {
            assert!(rt;
                answers_are(rt.alloc(), text, cut, 0, want),
                "{text:?} by {cut}"
            );
        }
    }
}

const FAILURES: [(&str, u32, u64, &str); 8] = [
    // The first pull, with and without bytes.
    ("", 1, 1, "failed"),
    ("a\n", 1, 1, "failed"),
    // A line is answered before the pull behind its newline, and none before its newline.
    ("ab\ncd\n", 3, 2, "ab|failed"),
    ("ab\ncd\n", 1, 4, "ab|failed"),
    ("ab\ncd\n", 2, 3, "ab|failed"),
    ("ab\ncd", 3, 3, "ab|failed"),
    // No pull follows the one that gives nothing.
    ("a", 1, 3, "a|end"),
    ("a\n", 2, 3, "a|end"),
];

#[test]
fn a_failed_pull_is_told_behind_the_lines_taken_whole(rt: HostRuntime) {
    for (text, cut, failing, want) in &FAILURES {
        let holds = answers_are(rt.alloc(), text, *cut, *failing, want);
        assert!(rt; holds, "{text:?} by {cut}, {failing} fails");
    }
}

// The next two answers behind an end, the second one of another source.
fn stays_ended(alloc: Global) -> Option<bool> {
    let mut reader = LineReader::new(alloc).ok()?;
    let mut empty = source_of(alloc, "", 1, 0)?;
    let mut other = source_of(alloc, "a\n", 1, 0)?;
    let first = reader.next_line(&mut empty) == Ok(NextLine::End);
    let second = reader.next_line(&mut other) == Ok(NextLine::End);
    Some(first && second)
}

#[test]
fn an_end_stays_one(rt: HostRuntime) {
    assert!(rt; stays_ended(rt.alloc()) == Some(true));
}
