//! Runs over files in memory: a script and its journal, calls that fail, gates that wait.

mod actors;
mod during;
mod failing;
mod scratch;
mod volumes;

use std::alloc::Global;
use std::process::Abort;
use std::sync::Wait;
use std::test::Fail;
use std::thread::Threads;
use viz_base::{Bytes, FILE_LIMIT, FailAt, FileEntry, MemoryOut, MemoryPort, OpenGate, Word};
use viz_session::{Status, run};

/// An image of 2 x 2 x 2 points, all 0 but the last, which is 9.
const CORNER: &str = "# vtk DataFile Version 5.1
vtk output
ASCII
DATASET STRUCTURED_POINTS
DIMENSIONS 2 2 2
SPACING 1 1 1
ORIGIN 0 0 0
POINT_DATA 8
SCALARS ImageScalars int
LOOKUP_TABLE default
0 0 0 0 0 0 0 9 
METADATA
INFORMATION 0

";

/// A mesh without points.
const EMPTY: &str = "# vtk DataFile Version 3.0
vizrun fixed 10^-3
ASCII
DATASET POLYDATA
POINTS 0 long
POLYGONS 0 0
";

const LEVELS: &str = "1 add file src
1 load src a.vtk
1 add contour iso
1 connect src iso 1
1 set iso levels 5
1 update iso one.vtk 1 1
1 set iso levels 10
1 update iso two.vtk 1 1
";

const LEVELS_REPORT: &str = "edit 1 1 at 1
edit 1 2 at 2
edit 1 3 at 3
edit 1 4 at 4
edit 1 5 at 5
file 1 6 at 5 cells 6 points 7 ran 2
edit 1 7 at 6
";

/// What a run left.
#[derive(Drop)]
struct Left {
    status: Status,
    text: String,
    desk: MemoryPort,
    ports: Vec<MemoryPort>,
}

fn port(
    alloc: Global,
    name: &str,
    bytes: &[u8],
    limit: u64,
    failing: Vec<FailAt>,
) -> Result<MemoryPort, Fail> {
    let mut files = Vec::new(alloc);
    files.push(FileEntry {
        name: Word::new(name.as_bytes()).ok_or("no name")?,
        bytes: Bytes::new(bytes.to_vec(alloc)?),
    })?;
    Ok(MemoryPort::new(alloc, files, limit, failing))
}

fn words(alloc: Global, line: &str) -> Result<Vec<Bytes>, Fail> {
    let mut words = Vec::new(alloc);
    for word in line.split_whitespace() {
        words.push(Bytes::new(word.as_bytes().to_vec(alloc)?))?;
    }
    Ok(words)
}

// Runs the line over a desk whose one file is `s`, and a port.
fn run_over<R: Threads + Wait + Sync>(
    rt: &R,
    alloc: Global,
    line: &str,
    script: &[u8],
    first: MemoryPort,
) -> Result<Left, Fail> {
    let desk = port(alloc, "s", script, FILE_LIMIT, Vec::new(alloc))?;
    let out = MemoryOut::new(alloc, Vec::new(alloc));
    run_with(rt, alloc, line, desk, first, out)
}

// Runs the line over a desk, a port and an output.
fn run_with<R: Threads + Wait + Sync>(
    rt: &R,
    alloc: Global,
    line: &str,
    desk: MemoryPort,
    first: MemoryPort,
    out: MemoryOut,
) -> Result<Left, Fail> {
    let words = words(alloc, line)?;
    let mut desk = desk;
    let mut ports = vec![in alloc; first]?;
    let mut out = out;
    let status = run(
        rt, alloc, &words, &mut desk, &mut ports, &mut out, &OpenGate,
    );
    let text = String::from_utf8(out.text().to_vec(alloc)?)?;
    Ok(Left {
        status,
        text,
        desk,
        ports,
    })
}

fn corner(alloc: Global, failing: Vec<FailAt>) -> Result<MemoryPort, Fail> {
    port(alloc, "a.vtk", CORNER.as_bytes(), FILE_LIMIT, failing)
}

fn file<'a>(ports: &'a [MemoryPort], name: &str) -> Option<&'a [u8]> {
    Some(ports.first()?.file(name)?.list())
}

#[test]
fn a_changed_level_is_contoured_again(rt: HostRuntime) -> Result<(), Fail> {
    // level-changed, and scratch-of-journal on its journal
    let alloc = rt.alloc();
    let first = corner(alloc, Vec::new(alloc))?;
    let left = run_over(&rt, alloc, "run s j", LEVELS.as_bytes(), first)?;
    assert!(rt; left.status == Status::Done, "{}", left.text);
    let want = format!(in alloc; "{LEVELS_REPORT}file 1 8 at 6 cells 0 points 0 ran 1\n")?;
    assert_eq!(rt; left.text.as_str(), want.as_str());
    assert!(rt; file(&left.ports, "two.vtk") == Some(EMPTY.as_bytes()));
    let journal = left.desk.file("j").ok_or("no journal")?.list();
    let lines = "1 3 1\nadd contour iso\n1 4 1\nconnect src iso 1\n1 5 1\nset iso levels 5\n1 6 1\n\
                 set iso levels 10\nend 6\n";
    let front = "vizrun journal 2\n1 1 1\nadd file src\n1 2 1\nload src 214\n";
    let want = format!(in alloc; "{front}{CORNER}\n{lines}")?;
    assert!(rt; journal == want.as_bytes());
    replayed(&rt, alloc, journal, file(&left.ports, "one.vtk"))
}

// The journal's first five entries give this file, and all of them the empty one.
fn replayed<R: Threads + Wait + Sync + Abort>(
    rt: &R,
    alloc: Global,
    journal: &[u8],
    one: Option<&[u8]>,
) -> Result<(), Fail> {
    for (line, want, bytes) in [
        ("scratch s 5 iso o.vtk", "file at 5 cells 6 points 7\n", one),
        (
            "scratch s 99 iso o.vtk",
            "file at 6 cells 0 points 0\n",
            Some(EMPTY.as_bytes()),
        ),
        ("scratch s 2 iso o.vtk", "refused Unknown at 2\n", None),
        (
            "scratch s 3 iso o.vtk",
            "refused fault:iso:Unconnected(1) at 3\n",
            None,
        ),
    ] {
        let first = MemoryPort::new(alloc, Vec::new(alloc), FILE_LIMIT, Vec::new(alloc));
        let left = run_over(rt, alloc, line, journal, first)?;
        assert_eq!(rt; left.text.as_str(), want);
        assert!(rt; file(&left.ports, "o.vtk") == bytes);
    }
    Ok(())
}

#[test]
fn a_file_past_the_limit_is_too_long(rt: HostRuntime) -> Result<(), Fail> {
    // the long file of usage-and-long-file: it has 214 bytes
    let alloc = rt.alloc();
    for (limit, status, line) in [
        (213, Status::Refused, "refused 1 2 TooLong at 1\n"),
        (214, Status::Done, "edit 1 2 at 2\n"),
    ] {
        let script = b"1 add file src\n1 load src a.vtk\n";
        let first = port(alloc, "a.vtk", CORNER.as_bytes(), limit, Vec::new(alloc))?;
        let left = run_over(&rt, alloc, "run s j", script, first)?;
        let want = format!(in alloc; "edit 1 1 at 1\n{line}")?;
        assert_eq!(rt; left.text.as_str(), want.as_str());
        assert!(rt; left.status == status, "{limit}");
    }
    Ok(())
}
