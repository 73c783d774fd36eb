//! Sessions: lines and their answers, however the input is cut, and calls that fail.

use std::alloc::Global;
use std::process::Abort;
use std::sync::Wait;
use std::test::Fail;
use std::thread::Threads;
use viz_base::{Bytes, FILE_LIMIT, FailAt, FileEntry, MemoryOut, MemoryPort, OpenGate, Word};
use viz_console::{End, serve};
use viz_source::MemorySource;

/// An image of 2 x 2 x 2 points, all 0 but the last, which is 9.
const CORNER: &str = "# vtk DataFile Version 5.1
vtk output
ASCII
DATASET STRUCTURED_POINTS
DIMENSIONS 2 2 2
SPACING 1 1 1
ORIGIN 0 0 0
POINT_DATA 8
SCALARS ImageScalars int
LOOKUP_TABLE default
0 0 0 0 0 0 0 9 
METADATA
INFORMATION 0

";

/// The contour at 5, by hand.
const ONE: &str = "# vtk DataFile Version 3.0
vizrun fixed 10^-3
ASCII
DATASET POLYDATA
POINTS 7 long
555 555 555
1000 555 555
555 1000 555
1000 1000 555
555 555 1000
1000 555 1000
555 1000 1000
POLYGONS 6 24
3 1 0 3
3 5 0 1
3 3 0 2
3 2 0 6
3 4 0 5
3 6 0 4
POINT_DATA 7
SCALARS scalars long 1
LOOKUP_TABLE default
5
5
5
5
5
5
5
";

const SESSION: &str = "add file src
load src a.vtk
add contour iso
connect src iso 1
set iso levels 5
update iso o.vtk 1 1
quit
";

const SESSION_ANSWERS: &str = "edit 1 at 1
edit 2 at 2
edit 3 at 3
edit 4 at 4
edit 5 at 5
file 6 at 5 cells 6 points 7
";

/// What a session left.
#[derive(Drop)]
struct Left {
    end: End,
    text: String,
    port: MemoryPort,
}

// Calls that fail, counted from 1: a pull, a call of the port, a put. None does where it is 0.
#[derive(Clone, Copy)]
struct Failing {
    pull: u64,
    call: u64,
    put: u64,
}

const NONE: Failing = Failing {
    pull: 0,
    call: 0,
    put: 0,
};

fn source(alloc: Global, lines: &str, cut: u32, pull: u64) -> Result<MemorySource, Fail> {
    let bytes = Bytes::new(lines.as_bytes().to_vec(alloc)?);
    let cuts = vec![in alloc; cut; lines.len()]?;
    Ok(MemorySource::new(bytes, cuts, vec![in alloc; pull]?))
}

fn port(alloc: Global, call: u64) -> Result<MemoryPort, Fail> {
    let mut files = Vec::new(alloc);
    files.push(FileEntry {
        name: Word::new(b"a.vtk").ok_or("no name")?,
        bytes: Bytes::new(CORNER.as_bytes().to_vec(alloc)?),
    })?;
    let failing = vec![in alloc; FailAt { call, kept: 0 }]?;
    Ok(MemoryPort::new(alloc, files, FILE_LIMIT, failing))
}

// Serves the lines, which come in pieces of one size.
fn serve_lines<R: Threads + Wait + Sync + AllocGlobal>(
    rt: &R,
    lines: &str,
    cut: u32,
    failing: Failing,
) -> Result<Left, Fail> {
    let alloc = rt.alloc();
    let mut source = source(alloc, lines, cut, failing.pull)?;
    let mut port = port(alloc, failing.call)?;
    let mut out = MemoryOut::new(alloc, vec![in alloc; failing.put]?);
    let end = serve(rt, &mut source, &mut port, &mut out, &OpenGate);
    let text = String::from_utf8(out.text().to_vec(alloc)?)?;
    Ok(Left { end, text, port })
}

// Serves the lines, and compares the answers and the end.
fn comes_to<R: Threads + Wait + Sync + AllocGlobal + Abort>(
    rt: &R,
    lines: &str,
    cut: u32,
    failing: Failing,
    answers: &str,
    end: End,
) -> Result<(), Fail> {
    let left = serve_lines(rt, lines, cut, failing)?;
    assert_eq!(rt; left.text.as_str(), answers, "{lines:?} by {cut}");
    assert!(rt; left.end == end, "{lines:?} by {cut}: {:?}", left.end);
    Ok(())
}

#[test]
fn a_session_is_answered_line_by_line(rt: HostRuntime) -> Result<(), Fail> {
    // console-session
    for cut in [1, 7, 4_096] {
        let left = serve_lines(&rt, SESSION, cut, NONE)?;
        assert_eq!(rt; left.text.as_str(), SESSION_ANSWERS, "{cut}");
        assert!(rt; left.end == End::Quit, "{cut}");
        let made = left.port.file("o.vtk").ok_or("no file")?.list();
        assert!(rt; made == ONE.as_bytes(), "{cut}");
    }
    Ok(())
}

#[test]
fn a_refused_line_changes_nothing(rt: HostRuntime) -> Result<(), Fail> {
    for (lines, answers, end) in [
        // console-bad-line: the last line lacks its newline
        (
            "blend a\nadd crop a\nadd crop a",
            "bad 1 Word\nedit 1 at 1\nrefused 2 Exists at 1\n",
            End::Closed,
        ),
        // lines without a word and `#` lines are counted alone
        ("\n# x\n\t \nblend\n", "bad 4 Word\n", End::Closed),
        // quit
        ("", "", End::Closed),
        ("quit", "", End::Quit),
        ("quit\nadd crop a\n", "", End::Quit),
        (
            "quit x\nadd crop a\n",
            "bad 1 Arity\nedit 1 at 1\n",
            End::Closed,
        ),
        (
            "phase\n1 add crop a\nhelp\n",
            "bad 1 Word\nbad 2 Word\nbad 3 Word\n",
            End::Closed,
        ),
    ] {
        for cut in [1, 4_096] {
            comes_to(&rt, lines, cut, NONE, answers, end)?;
        }
    }
    Ok(())
}

#[test]
fn a_batch_is_one_command(rt: HostRuntime) -> Result<(), Fail> {
    for (lines, answers, end) in [
        (
            "begin\nadd crop a\nadd crop b\nend\nadd crop c\n",
            "edit 1 at 1\nedit 2 at 2\n",
            End::Closed,
        ),
        // a bad line leaves the batch open, and so does an end of no edit
        (
            "begin\nend\nbegin\naudit a 1 1\nquit\nadd crop a\nend\nquit\n",
            "bad 2 Batch\nbad 3 Batch\nbad 4 Batch\nbad 5 Batch\nedit 1 at 1\n",
            End::Quit,
        ),
        // one of its edits is refused
        (
            "begin\nadd crop a\nadd crop a\nend\n",
            "refused 1 2:Exists at 0\n",
            End::Closed,
        ),
        // a batch that is open at the end is dropped
        (
            "add crop a\nbegin\nadd crop b\n",
            "edit 1 at 1\n",
            End::Closed,
        ),
        ("end\n", "bad 1 Batch\n", End::Closed),
    ] {
        for cut in [1, 4_096] {
            comes_to(&rt, lines, cut, NONE, answers, end)?;
        }
    }
    Ok(())
}

// A line of so many letters and a command.
fn long_line(alloc: Global, letters: usize, ending: &str) -> Result<String, Fail> {
    let mut text = vec![in alloc; b'#'; letters]?;
    text.extend_from_slice(ending.as_bytes())?;
    text.extend_from_slice(b"add crop a\n")?;
    Ok(String::from_utf8(text)?)
}

#[test]
fn a_line_has_at_most_4096_bytes(rt: HostRuntime) -> Result<(), Fail> {
    for (letters, ending, answers) in [
        (4_096, "\n", "edit 1 at 1\n"),
        (4_096, "\r\n", "edit 1 at 1\n"),
        (4_097, "\n", "bad 1 TooLong\nedit 1 at 1\n"),
        (20_000, "\r\n", "bad 1 TooLong\nedit 1 at 1\n"),
    ] {
        let lines = long_line(rt.alloc(), letters, ending)?;
        for cut in [1, 4_096] {
            comes_to(&rt, &lines, cut, NONE, answers, End::Closed)?;
        }
    }
    Ok(())
}

/// The answers where the load fails, and the update behind it finds no file.
const UNREAD: &str = "edit 1 at 1
fault 2 read
edit 3 at 2
edit 4 at 3
edit 5 at 4
refused 6 fault:src:NoFile at 4
";

/// The answers where the write fails.
const UNWRITTEN: &str = "edit 1 at 1
edit 2 at 2
edit 3 at 3
edit 4 at 4
edit 5 at 5
fault 6 write
";

#[test]
fn a_failing_call_is_a_fault(rt: HostRuntime) -> Result<(), Fail> {
    for (pull, call, put, answers, end) in [
        // a pull of pieces of 14 bytes: the first one, and one in the second line
        (1, 0, 0, "", End::Fault),
        (2, 0, 0, "edit 1 at 1\n", End::Fault),
        // a call of the port: the session goes on
        (0, 1, 0, UNREAD, End::Quit),
        (0, 2, 0, UNWRITTEN, End::Quit),
        // a put: nothing behind it is answered
        (0, 0, 1, "", End::Fault),
        (0, 0, 3, "edit 1 at 1\nedit 2 at 2\n", End::Fault),
    ] {
        let failing = Failing { pull, call, put };
        comes_to(&rt, SESSION, 14, failing, answers, end)?;
    }
    Ok(())
}
