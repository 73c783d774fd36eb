//! The calls of a run of a script that fail, each by itself, and a desk that reads few bytes.

use super::*;

const WHOLE: &str = "edit 1 1 at 1
edit 1 2 at 2
edit 1 3 at 3
edit 1 4 at 4
edit 1 5 at 5
file 1 6 at 5 cells 6 points 7 ran 2
edit 1 7 at 6
file 1 8 at 6 cells 0 points 0 ran 1
";

const UNREAD: &str = "edit 1 1 at 1
fault 1 2 read
edit 1 3 at 2
edit 1 4 at 3
edit 1 5 at 4
refused 1 6 fault:src:NoFile at 4
edit 1 7 at 5
refused 1 8 fault:src:NoFile at 5
";

const FIRST_UNWRITTEN: &str = "edit 1 1 at 1
edit 1 2 at 2
edit 1 3 at 3
edit 1 4 at 4
edit 1 5 at 5
fault 1 6 write
edit 1 7 at 6
file 1 8 at 6 cells 0 points 0 ran 1
";

const SECOND_UNWRITTEN: &str = "edit 1 1 at 1
edit 1 2 at 2
edit 1 3 at 3
edit 1 4 at 4
edit 1 5 at 5
file 1 6 at 5 cells 6 points 7 ran 2
edit 1 7 at 6
fault 1 8 write
";

/// The first 40 bytes of the mesh without points.
pub const BEGUN: &str = "# vtk DataFile Version 3.0\nvizrun fixed ";

/// The contour at 5, by hand.
pub const ONE: &str = "# vtk DataFile Version 3.0
vizrun fixed 10^-3
ASCII
DATASET POLYDATA
POINTS 7 long
555 555 555
1000 555 555
555 1000 555
1000 1000 555
555 555 1000
1000 555 1000
555 1000 1000
POLYGONS 6 24
3 1 0 3
3 5 0 1
3 3 0 2
3 2 0 6
3 4 0 5
3 6 0 4
POINT_DATA 7
SCALARS scalars long 1
LOOKUP_TABLE default
5
5
5
5
5
5
5
";

pub const JOURNAL: &str = "vizrun journal 2
1 1 1
add file src
1 2 1
load src 214
# vtk DataFile Version 5.1
vtk output
ASCII
DATASET STRUCTURED_POINTS
DIMENSIONS 2 2 2
SPACING 1 1 1
ORIGIN 0 0 0
POINT_DATA 8
SCALARS ImageScalars int
LOOKUP_TABLE default
0 0 0 0 0 0 0 9 
METADATA
INFORMATION 0


1 3 1
add contour iso
1 4 1
connect src iso 1
1 5 1
set iso levels 5
1 6 1
set iso levels 10
end 6
";

const JOURNAL_UNREAD: &str = "vizrun journal 2
1 1 1
add file src
1 2 1
add contour iso
1 3 1
connect src iso 1
1 4 1
set iso levels 5
1 5 1
set iso levels 10
end 5
";

// Runs the script of two levels. Of the calls of the port, of the desk and of the output those with
// these numbers fail, none where it is 0. A failing write keeps the first bytes.
fn run_failing<R: Threads + Wait + Sync>(
    rt: &R,
    alloc: Global,
    calls: [u64; 3],
    kept: u64,
) -> Result<Left, Fail> {
    let [call, desk_call, put] = calls;
    let first = corner(alloc, vec![in alloc; FailAt { call, kept }]?)?;
    let fails = vec![in alloc;
        FailAt {
            call: desk_call,
            kept
        },
    ]?;
    let desk = port(alloc, "s", LEVELS.as_bytes(), FILE_LIMIT, fails)?;
    let out = MemoryOut::new(alloc, vec![in alloc; put]?);
    run_with(rt, alloc, "run s j", desk, first, out)
}

fn bytes<'a>(text: Option<&'a str>) -> Option<&'a [u8]> {
    text.map(|t| t.as_bytes())
}

// Runs so, and compares the text put, the two files and the journal.
fn comes_to<R: Threads + Wait + Sync + Abort>(
    rt: &R,
    alloc: Global,
    calls: [u64; 3],
    kept: u64,
    text: &str,
    files: [Option<&str>; 3],
) -> Result<(), Fail> {
    let left = run_failing(rt, alloc, calls, kept)?;
    let [one, two, journal] = files;
    let want = if calls == [0, 0, 0] {
        Status::Done
    } else {
        Status::Fault
    };
    assert_eq!(rt; left.text.as_str(), text, "{calls:?}");
    assert!(rt; left.status == want, "{calls:?}");
    assert!(rt; file(&left.ports, "one.vtk") == bytes(one), "{calls:?}");
    assert!(rt; file(&left.ports, "two.vtk") == bytes(two), "{calls:?}");
    assert!(rt;
        left.desk.file("j").map(|j| j.list()) == bytes(journal),
        "{calls:?}"
    );
    Ok(())
}

#[test]
fn each_failing_call_is_a_fault(rt: HostRuntime) -> Result<(), Fail> {
    // level-changed, and write-fails-midway
    let alloc = rt.alloc();
    let whole = [Some(ONE), Some(EMPTY), Some(JOURNAL)];
    for (calls, kept, text, files) in [
        ([0, 0, 0], 0, WHOLE, whole),
        // calls of the port: the load's, and each update's
        ([1, 0, 0], 0, UNREAD, [None, None, Some(JOURNAL_UNREAD)]),
        (
            [2, 0, 0],
            0,
            FIRST_UNWRITTEN,
            [Some(""), Some(EMPTY), Some(JOURNAL)],
        ),
        (
            [3, 0, 0],
            40,
            SECOND_UNWRITTEN,
            [Some(ONE), Some(BEGUN), Some(JOURNAL)],
        ),
        // calls of the desk: the script's, and the journal's
        ([0, 1, 0], 0, "fault read\n", [None, None, None]),
        ([0, 2, 0], 0, WHOLE, [Some(ONE), Some(EMPTY), Some("")]),
        (
            [0, 2, 0],
            20,
            WHOLE,
            [Some(ONE), Some(EMPTY), Some("vizrun journal 2\n1 1")],
        ),
        // the put
        ([0, 0, 1], 0, "", whole),
    ] {
        comes_to(&rt, alloc, calls, kept, text, files)?;
    }
    Ok(())
}

#[test]
fn a_text_past_the_limit_is_refused_at_line_0(rt: HostRuntime) -> Result<(), Fail> {
    // a script of 15 bytes, which is no journal, at a desk that reads 14 or 15
    let alloc = rt.alloc();
    let too_long = "script line 0 TooLong\n";
    for (line, limit, status, want) in [
        ("run s j", 14, Status::Script, too_long),
        ("run s j", 15, Status::Done, "edit 1 1 at 1\n"),
        ("scratch s 1 a o", 14, Status::Script, too_long),
        (
            "scratch s 1 a o",
            15,
            Status::Script,
            "script line 1 Word\n",
        ),
        ("migrate s o", 14, Status::Script, too_long),
        ("migrate s o", 15, Status::Script, "script line 1 Word\n"),
    ] {
        let desk = port(alloc, "s", b"1 add file src\n", limit, Vec::new(alloc))?;
        let first = corner(alloc, Vec::new(alloc))?;
        let out = MemoryOut::new(alloc, Vec::new(alloc));
        let left = run_with(&rt, alloc, line, desk, first, out)?;
        assert_eq!(rt; left.text.as_str(), want, "{line} {limit}");
        assert!(rt; left.status == status, "{line} {limit}");
        assert_eq!(rt;
            left.desk.file("j").is_some(),
            status == Status::Done,
            "{line} {limit}"
        );
    }
    Ok(())
}
