//! Journals served again or written anew, whose calls fail, and runs over no port.

use super::failing::{BEGUN, JOURNAL, ONE};
use super::*;

const EMPTY_JOURNAL: &str = "vizrun journal 2\nend 0\n";

/// The journal of the two levels in version 1.
const OLD_JOURNAL: &str = "vizrun journal 1
1 1 add file src
1 2 load src 214
# vtk DataFile Version 5.1
vtk output
ASCII
DATASET STRUCTURED_POINTS
DIMENSIONS 2 2 2
SPACING 1 1 1
ORIGIN 0 0 0
POINT_DATA 8
SCALARS ImageScalars int
LOOKUP_TABLE default
0 0 0 0 0 0 0 9 
METADATA
INFORMATION 0


1 3 add contour iso
1 4 connect src iso 1
1 5 set iso levels 5
1 6 set iso levels 10
end 6
";

/// Three entries of two actors; the first one has two edits, and the load ten bytes.
const BATCHES: &str = "vizrun journal 2
1 1 2
add file src
set src unit 2
2 1 1
load src 10
two
lines

1 2 1
set src unit 3
end 3
";

/// What `scratch` puts of the first five entries.
const AGAIN: &str = "file at 5 cells 6 points 7\n";

// Runs the line over a desk with the journal as `s`. Of the calls of the port, of the desk and of the
// output those with these numbers fail, none where it is 0. A failing write keeps the first bytes.
fn run_failing<R: Threads + Wait + Sync>(
    rt: &R,
    alloc: Global,
    line: &str,
    journal: &str,
    calls: [u64; 3],
    kept: u64,
) -> Result<Left, Fail> {
    let [call, desk_call, put] = calls;
    let first = corner(alloc, vec![in alloc; FailAt { call, kept }]?)?;
    let fails = vec![in alloc;
        FailAt {
            call: desk_call,
            kept
        },
    ]?;
    let desk = port(alloc, "s", journal.as_bytes(), FILE_LIMIT, fails)?;
    let out = MemoryOut::new(alloc, vec![in alloc; put]?);
    run_with(rt, alloc, line, desk, first, out)
}

// Runs so, and compares the status, the text put and the file.
fn comes_to<R: Threads + Wait + Sync + Abort>(
    rt: &R,
    alloc: Global,
    line: &str,
    calls: [u64; 3],
    kept: u64,
    status: Status,
    text: &str,
    made: Option<&str>,
) -> Result<(), Fail> {
    let left = run_failing(rt, alloc, line, JOURNAL, calls, kept)?;
    assert_eq!(rt; left.text.as_str(), text, "{line} {calls:?}");
    assert!(rt; left.status == status, "{line} {calls:?}");
    assert!(rt;
        file(&left.ports, "o.vtk") == made.map(|m| m.as_bytes()),
        "{line} {calls:?}"
    );
    assert!(rt; left.desk.file("j").is_none(), "{line} {calls:?}");
    Ok(())
}

#[test]
fn each_failing_call_of_scratch_is_a_fault(rt: HostRuntime) -> Result<(), Fail> {
    // scratch-of-journal
    let alloc = rt.alloc();
    let (line, fault) = ("scratch s 5 iso o.vtk", Status::Fault);
    for (line, calls, kept, status, text, made) in [
        (line, [0, 0, 0], 0, Status::Done, AGAIN, Some(ONE)),
        // the write of the port, the read of the desk, the put
        (line, [1, 0, 0], 0, fault, "fault write\n", Some("")),
        (line, [1, 0, 0], 40, fault, "fault write\n", Some(BEGUN)),
        (line, [0, 1, 0], 0, fault, "fault read\n", None),
        (line, [0, 0, 1], 0, fault, "", Some(ONE)),
        // a refusal, and one whose put fails
        (
            "scratch s 2 iso o.vtk",
            [0, 0, 0],
            0,
            Status::Refused,
            "refused Unknown at 2\n",
            None,
        ),
        ("scratch s 2 iso o.vtk", [0, 0, 1], 0, fault, "", None),
        // no write: the one call of the port that fails isn't made
        (
            "scratch s 2 iso o.vtk",
            [1, 0, 0],
            0,
            Status::Refused,
            "refused Unknown at 2\n",
            None,
        ),
        // no script, and its put fails
        ("run s j", [0, 0, 1], 0, Status::Script, "", None),
    ] {
        comes_to(&rt, alloc, line, calls, kept, status, text, made)?;
    }
    Ok(())
}

// Writes the journal anew so, and compares the status, the text put and the file.
fn migrates<R: Threads + Wait + Sync + Abort>(
    rt: &R,
    alloc: Global,
    journal: &str,
    calls: [u64; 3],
    kept: u64,
    status: Status,
    text: &str,
    made: Option<&str>,
) -> Result<(), Fail> {
    let left = run_failing(rt, alloc, "migrate s n", journal, calls, kept)?;
    assert_eq!(rt; left.text.as_str(), text, "{journal} {calls:?}");
    assert!(rt; left.status == status, "{journal} {calls:?}");
    assert!(rt;
        file(&left.ports, "n") == made.map(|m| m.as_bytes()),
        "{journal} {calls:?}"
    );
    assert!(rt; left.desk.file("n").is_none(), "{journal} {calls:?}");
    Ok(())
}

#[test]
fn each_failing_call_of_migrate_is_a_fault(rt: HostRuntime) -> Result<(), Fail> {
    // journal-migrated
    let alloc = rt.alloc();
    let (old, fault) = (OLD_JOURNAL, Status::Fault);
    for (journal, calls, kept, status, text, made) in [
        (
            old,
            [0, 0, 0],
            0,
            Status::Done,
            "migrated 6\n",
            Some(JOURNAL),
        ),
        // the write of the port, the read of the desk, the put
        (old, [1, 0, 0], 0, fault, "fault write\n", Some("")),
        (
            old,
            [1, 0, 0],
            20,
            fault,
            "fault write\n",
            Some("vizrun journal 2\n1 1"),
        ),
        (old, [0, 1, 0], 0, fault, "fault read\n", None),
        (old, [0, 0, 1], 0, fault, "", Some(JOURNAL)),
    ] {
        migrates(&rt, alloc, journal, calls, kept, status, text, made)?;
    }
    Ok(())
}

#[test]
fn a_journal_is_written_anew_entry_by_entry(rt: HostRuntime) -> Result<(), Fail> {
    let alloc = rt.alloc();
    let none = "script line 1 Word\n";
    for (journal, calls, status, text, made) in [
        // version 2 is written as it stands
        (
            JOURNAL,
            [0, 0, 0],
            Status::Done,
            "migrated 6\n",
            Some(JOURNAL),
        ),
        (
            BATCHES,
            [0, 0, 0],
            Status::Done,
            "migrated 3\n",
            Some(BATCHES),
        ),
        (
            "vizrun journal 1\nend 0\n",
            [0, 0, 0],
            Status::Done,
            "migrated 0\n",
            Some(EMPTY_JOURNAL),
        ),
        // no journal, and its put fails; the call of the port that fails isn't made
        (LEVELS, [0, 0, 0], Status::Script, none, None),
        (LEVELS, [0, 0, 1], Status::Script, "", None),
        (LEVELS, [1, 0, 0], Status::Script, none, None),
    ] {
        migrates(&rt, alloc, journal, calls, 0, status, text, made)?;
    }
    Ok(())
}

// What the line comes to over a desk with this text as `s`, and no port.
fn run_alone<R: Threads + Wait + Sync>(
    rt: &R,
    alloc: Global,
    line: &str,
    script: &str,
) -> Result<Left, Fail> {
    let words = words(alloc, line)?;
    let mut desk = port(alloc, "s", script.as_bytes(), FILE_LIMIT, Vec::new(alloc))?;
    let mut ports = Vec::new(alloc);
    let mut out = MemoryOut::new(alloc, Vec::new(alloc));
    let status = run(
        rt, alloc, &words, &mut desk, &mut ports, &mut out, &OpenGate,
    );
    let text = String::from_utf8(out.text().to_vec(alloc)?)?;
    Ok(Left {
        status,
        text,
        desk,
        ports,
    })
}

// Runs so, and compares the status, the text put and the journal.
fn ends_alone<R: Threads + Wait + Sync + Abort>(
    rt: &R,
    alloc: Global,
    line: &str,
    script: &str,
    status: Status,
    text: &str,
    journal: Option<&str>,
) -> Result<(), Fail> {
    let left = run_alone(rt, alloc, line, script)?;
    assert_eq!(rt; left.text.as_str(), text, "{line}");
    assert!(rt; left.status == status, "{line}");
    let written = left.desk.file("j").map(|j| j.list());
    assert!(rt; written == journal.map(|j| j.as_bytes()), "{line}");
    assert!(rt; left.ports.is_empty(), "{line}");
    Ok(())
}

#[test]
fn no_port_is_an_actor_out_of_range(rt: HostRuntime) -> Result<(), Fail> {
    let alloc = rt.alloc();
    let none = "script line 0 ActorRange\n";
    for (line, script, status, text, journal) in [
        ("scratch s 5 iso o.vtk", JOURNAL, Status::Script, none, None),
        ("migrate s n", JOURNAL, Status::Script, none, None),
        ("make 7 2 2 1 v.vtk", "", Status::Script, none, None),
        ("once s o.vtk contour 5", CORNER, Status::Script, none, None),
        // a script without a command has no actor
        (
            "run s j",
            "phase\n1 add file a\n",
            Status::Script,
            "script line 2 ActorRange\n",
            None,
        ),
        ("run s j", "phase\n", Status::Done, "", Some(EMPTY_JOURNAL)),
    ] {
        ends_alone(&rt, alloc, line, script, status, text, journal)?;
    }
    Ok(())
}
