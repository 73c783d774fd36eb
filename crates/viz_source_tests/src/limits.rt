//! Lines and streams at their limits.

ghost use Rattle.std.specs.Prelude.{[], false};

use std::alloc::Global;
use viz_base::{Bytes, Failed};
use viz_source::{LineReader, MemorySource, NextLine, PIECE, STREAM_LIMIT, Source, StreamStop};

// Stands for a line that is too long.
const LONG: usize = 9_999;

// The length of the next line, if one comes.
fn next_length<S: Source>(reader: &mut LineReader, source: &mut S) -> Option<usize> {
    match reader.next_line(source) {
        Ok(NextLine::Line) => Some(reader.line().len()),
        Ok(NextLine::LongLine) => Some(LONG),
        Ok(NextLine::End) | Err(_) => None,
    }
}

// So many letters, what ends them, and a line of one letter.
fn text_of(alloc: Global, letters: usize, ending: &str) -> Option<Bytes> {
    let mut text = vec![in alloc; b'a'; letters].ok()?;
    text.extend_from_slice(ending.as_bytes()).ok()?;
    text.extend_from_slice(b"b\n").ok()?;
    Some(Bytes::new(text))
}

fn lengths_are(alloc: Global, letters: usize, ending: &str, cut: u32, want: &[usize; 2]) -> bool {
    let (Some(bytes), Ok(mut reader)) = (text_of(alloc, letters, ending), LineReader::new(alloc))
    else {
        return false;
    };
    let Ok(cuts) = vec![in alloc; cut; letters] else {
        return false;
    };
    let mut source = MemorySource::new(bytes, cuts, Vec::new(alloc));
    let first = next_length(&mut reader, &mut source);
    let second = next_length(&mut reader, &mut source);
    first == Some(want[0]) && second == Some(want[1])
}

const LENGTHS: [(usize, &str, [usize; 2]); 8] = [
    (4_095, "\n", [4_095, 1]),
    (4_096, "\n", [4_096, 1]),
    (4_097, "\n", [LONG, 1]),
    // The carriage return before the newline isn't counted, another one is.
    (4_096, "\r\n", [4_096, 1]),
    (4_097, "\r\n", [LONG, 1]),
    (4_095, "\r\r\n", [4_096, 1]),
    (4_096, "\r\r\n", [LONG, 1]),
    (20_000, "\r\n", [LONG, 1]),
];

#[test]
fn a_line_has_at_most_4096_bytes(rt: HostRuntime) {
    for cut in [1, 1_000, 4_096] {
        for (letters, ending, want) in &LENGTHS {
            let holds = lengths_are(rt.alloc(), *letters, ending, cut, want);
            assert!(rt; holds, "{letters} and {ending:?} by {cut}");
        }
    }
}

// A source of zeros with a newline at one place, counted from 1. The zeros of the first pull stay
// in the piece.
#[derive(Drop)]
struct Zeros {
    given: u64,
    total: u64,
    newline: u64,
}

impl Source for Zeros {
    ghost tells_bytes = { false };

    ghost left = { λ _. [] };

    ghost faults = { λ _. 0 };

    fn pull(&mut self, piece: &mut [u8; PIECE]) -> Result<u32, Failed> {
        let n = self.total.saturating_sub(self.given).min(PIECE as u64);
        let place = self.newline.wrapping_sub(self.given).wrapping_sub(1);
        if self.given == 0 {
            piece.fill(0);
        }
        if place < n {
            piece[place as usize] = b'\n';
        }
        self.given = self.given.saturating_add(n);
        Ok(n as u32)
    }
}

// The first two answers to zeros.
fn zeros_are(alloc: Global, row: &Stream) -> bool {
    let Ok(mut reader) = LineReader::new(alloc) else {
        return false;
    };
    let mut source = Zeros {
        given: 0,
        total: row.total,
        newline: row.newline,
    };
    let first = reader.next_line(&mut source);
    let second = reader.next_line(&mut source);
    first == row.first && second == row.second
}

#[derive(Clone, Copy)]
struct Stream {
    total: u64,
    newline: u64,
    first: Result<NextLine, StreamStop>,
    second: Result<NextLine, StreamStop>,
}

const STREAMS: [Stream; 4] = [
    Stream {
        total: STREAM_LIMIT,
        newline: 0,
        first: Ok(NextLine::LongLine),
        second: Ok(NextLine::End),
    },
    Stream {
        total: STREAM_LIMIT + 1,
        newline: 0,
        first: Err(StreamStop::TooLong),
        second: Err(StreamStop::TooLong),
    },
    Stream {
        total: STREAM_LIMIT + 1,
        newline: STREAM_LIMIT,
        first: Ok(NextLine::LongLine),
        second: Err(StreamStop::TooLong),
    },
    Stream {
        total: STREAM_LIMIT + 1,
        newline: STREAM_LIMIT + 1,
        first: Err(StreamStop::TooLong),
        second: Err(StreamStop::TooLong),
    },
];

#[test]
fn a_stream_has_at_most_1073741824_bytes(rt: HostRuntime) {
    for row in &STREAMS {
        assert!(rt;
            zeros_are(rt.alloc(), row),
            "{} with {}",
            row.total,
            row.newline
        );
    }
}
