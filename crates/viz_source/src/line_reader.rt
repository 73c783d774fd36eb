//! Lines of a source, one after the other.

ghost use Rattle.std.specs.Prelude.{◌≡◌, ◌≤◌, ◌<◌, ◌+◌, ◌++◌, ◌⊎◌, length, take, drop};
ghost use Rattle.std.specs.Prelude.{vec_len, vec_capacity, IsTrue, IfOk, OnOk, OnErr, Err};
ghost use Rattle.viz_base.specs.Faults.{Rose};
ghost use Rattle.viz_words.specs.Steps.Scans.{trimmed};
ghost use Rattle.viz_source.specs.Readers.{fresh, held, taken, bytes_of, stream_of};
ghost use Rattle.viz_source.specs.Readers.{NeedsNoPull, IsPrompt, Answers, Tells};
ghost use Rattle.viz_source.specs.Steps.Reading.{FindsNewline, Looks, kept_on, ended_at};
ghost use Rattle.viz_source.specs.Steps.Reading.{measured, last_measured};

use crate::limits::{KEPT, LINE_LIMIT, PIECE, STREAM_LIMIT};
use crate::next_line::{NextLine, StreamStop};
use crate::source::Source;
use memchr::memchr;
use std::alloc::{AllocError, Global};
use std::marker::Model;
use viz_base::Failed;

/// A reader of the lines of a source. It keeps one piece, and the first bytes of one line.
#[derive(Debug, Drop)]
pub struct LineReader {
    piece: [u8; PIECE],
    count: usize,
    place: usize,
    passed: u64,
    ended: bool,
    line: Vec<u8>,
}

impl Model for LineReader {
    ghost use Rattle.std.specs.Prelude.{◌≡◌, ◌≤◌, ◌+◌, ◌-◌, length, take, vec_len, vec_capacity};
    ghost use Rattle.viz_source.specs.Readers.{Reader};
    ghost use Rattle.viz_source.specs.Steps.Reading.{IsSound};

    ghost Value = { Reader };

    ghost view = { λ r. record {
      piece = take r.count r.piece;
      place = r.place;
      passed = r.passed;
      ended = r.ended;
      line = r.line.items;
    } };

    ghost invariant = { λ r. IsSound (length r.piece) r.count r.place r.passed
        (vec_len r.line) (vec_capacity r.line) r.ended };
}

// The length of the line in front, if a newline ends it.
fn newline_in(bytes: &[u8]) -> Option<usize>
    ensures { FindsNewline bytes.now result }
{
    memchr(b'\n', bytes)
}

// Puts the bytes behind those that are kept of a line, as far as there is room.
fn put_run(line: &mut Vec<u8>, run: &[u8])
    requires len { vec_len line.old ≤ KEPT }
    requires room { KEPT ≤ vec_capacity line.old }
    ensures items { line.new.items ≡ take KEPT (line.old.items ++ run.now) }
    ensures len { vec_len line.new ≤ KEPT }
    ensures room { KEPT ≤ vec_capacity line.new }
{
    let n = run.len().min(KEPT - line.len());
    let _ = line.extend_from_slice(&run[..n]);
}

// Puts so many bytes of a piece, from a place on, behind those that are kept of a line.
fn put_part(line: &mut Vec<u8>, piece: &[u8], place: usize, n: usize)
    requires len { vec_len line.old ≤ KEPT }
    requires room { KEPT ≤ vec_capacity line.old }
    requires within { place + n ≤ length piece.now }
    ensures items { line.new.items ≡ take KEPT (line.old.items ++ take n (drop place piece.now)) }
    ensures len { vec_len line.new ≤ KEPT }
    ensures room { KEPT ≤ vec_capacity line.new }
{
    put_run(line, &piece[place..place + n]);
}

// Drops the carriage return at the end of a line.
fn drop_return(line: &mut Vec<u8>)
    ensures items { line.new.items ≡ trimmed line.old.items }
    ensures len { vec_len line.new ≤ vec_len line.old }
    ensures room { vec_capacity line.new ≡ vec_capacity line.old }
{
    let len = line.len();
    if len > 0 && line[len - 1] == b'\r' {
        line.truncate(len - 1);
    }
}

// Whether a line is too long, by what is kept of it.
fn measured(line: &[u8]) -> NextLine
    ensures { result ≡ measured line.now }
{
    if line.len() <= LINE_LIMIT {
        NextLine::Line
    } else {
        NextLine::LongLine
    }
}

impl LineReader {
    /// A reader that stands at the start of its source, with room for a line.
    pub fn new(alloc: Global) -> Result<LineReader, AllocError>
        ensures value { IfOk result (λ reader. reader ≡ fresh) }
    {
        let line = Vec::with_capacity(alloc, KEPT)?;
        Ok(LineReader {
            piece: [0; PIECE],
            count: 0,
            place: 0,
            passed: 0,
            ended: false,
            line,
        })
    }

    /// The line that was answered last.
    pub fn line(&self) -> &[u8]
        ensures value { result.now ≡ self.now.line }
    {
        &self.line
    }

    /// Goes behind the next line, and says whether it is within the limit. It pulls only where no
    /// newline was taken that isn't answered, and never again once the input has ended. After a
    /// refusal nothing is said of what comes next.
    pub fn next_line<S: Source>(&mut self, source: &mut S) -> Result<NextLine, StreamStop>
        // Of a source that tells its bytes.
        ensures answers { IsTrue S.tells_bytes → Answers result self.new.line
            (stream_of self.old (S.left source.old)) (stream_of self.new (S.left source.new))
            (S.left source.new) }
        ensures lines { IsTrue S.tells_bytes → Tells result self.new.line
            (stream_of self.old (S.left source.old)) (stream_of self.new (S.left source.new)) }

        // Of every source.
        ensures prompt { OnOk result (IsPrompt self.new) }
        ensures no_pull { NeedsNoPull self.old → source.new ≡ source.old }
        ensures passes { IfOk result (λ next. (next ≡ NextLine.End)
            ⊎ (self.old.passed < self.new.passed)) }
        ensures within { OnOk result (self.new.passed ≤ STREAM_LIMIT) }
        ensures too_long { result ≡ Err StreamStop.TooLong → STREAM_LIMIT < taken self.new }
        ensures failed { result ≡ Err StreamStop.Failed
            → Rose (S.faults source.old) (S.faults source.new) }
        ensures later { S.faults source.old ≤ S.faults source.new }
    {
        self.line.clear();
        while !self.ended {
            if let Some(next) = self.held_line()? {
                return Ok(next);
            }
            self.refill(source)?;
        }
        Ok(self.last_line())
    }

    // The place of the next newline among the bytes that are held.
    fn newline(&self) -> Option<usize>
        ensures { FindsNewline (held self.now) result }
    {
        newline_in(&self.piece[self.place..self.count])
    }

    // How many bytes are held.
    fn held_len(&self) -> usize
        ensures { result ≡ length (held self.now) }
    {
        self.count - self.place
    }

    // Keeps so many of the bytes that are held.
    fn keep(&mut self, n: usize)
        requires { n ≤ length (held self.old) }
        ensures { self.new ≡ kept_on self.old n }
    {
        put_part(&mut self.line, &self.piece, self.place, n);
        self.place += n;
        self.passed += n as u64;
    }

    // Goes behind the newline that follows so many bytes, if it stands within the limit.
    fn end_line(&mut self, len: usize) -> Result<NextLine, StreamStop>
        requires { len < length (held self.old) }
        ensures ok { IfOk result (λ next. next ≡ measured self.new.line) }
        ensures after { OnOk result (self.new ≡ ended_at self.old len) }
        ensures within { OnOk result (self.new.passed ≤ STREAM_LIMIT) }
        ensures too_long { OnErr result (STREAM_LIMIT < self.old.passed + (len + 1)) }
        ensures stop { OnErr result (result ≡ Err StreamStop.TooLong) }
        ensures err { OnErr result (self.new ≡ self.old) }
    {
        if self.passed + (len as u64 + 1) > STREAM_LIMIT {
            return Err(StreamStop::TooLong);
        }
        self.keep(len);
        drop_return(&mut self.line);
        self.place += 1;
        self.passed += 1;
        Ok(measured(&self.line))
    }

    // The line that ends among the bytes that are held. Where none does, all of them are kept.
    fn held_line(&mut self) -> Result<Option<NextLine>, StreamStop>
        ensures { Looks self.old self.new result }
    {
        if let Some(len) = self.newline() {
            let next = self.end_line(len)?;
            return Ok(Some(next));
        }
        self.keep(self.held_len());
        if self.passed > STREAM_LIMIT {
            return Err(StreamStop::TooLong);
        }
        Ok(None)
    }

    // Pulls the next piece.
    fn refill<S: Source>(&mut self, source: &mut S) -> Result<(), StreamStop>
        requires { self.old.passed ≤ STREAM_LIMIT }
        ensures bytes { IsTrue S.tells_bytes
            → OnOk result (S.left source.old ≡ bytes_of self.new (S.left source.new)) }
        ensures grows { OnOk result (IsTrue self.new.ended ⊎ (0 < length (held self.new))) }
        ensures passed { self.new.passed ≡ self.old.passed }
        ensures line { self.new.line ≡ self.old.line }
        ensures failed { OnErr result (Rose (S.faults source.old) (S.faults source.new)) }
        ensures stop { OnErr result (result ≡ Err StreamStop.Failed) }
        ensures err { IsTrue S.tells_bytes
            → OnErr result (S.left source.new ≡ S.left source.old) }
        ensures later { S.faults source.old ≤ S.faults source.new }
    {
        self.count = 0;
        self.place = 0;
        match source.pull(&mut self.piece) {
            Ok(n) => {
                self.count = n as usize;
                self.ended = n == 0;
                Ok(())
            }
            Err(Failed) => Err(StreamStop::Failed),
        }
    }

    // What stands behind the last newline, where the input has ended: a line, or nothing.
    fn last_line(&self) -> NextLine
        ensures { result ≡ last_measured self.now.line }
    {
        if self.line.is_empty() {
            NextLine::End
        } else {
            measured(&self.line)
        }
    }
}
