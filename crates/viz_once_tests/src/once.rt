//! Worked values, counted by hand: thresholds, refusals and faults over files in memory.

use crate::contour_texts::FIRST_SURFACE;
use crate::image_files::{
    CORNER, CORNER_BINARY, CORNER_END, LARGE, LARGE_WRITTEN, PAST_TYPE, SQUARE, SQUARE_WRITTEN,
};
use crate::mesh_files::{CUT, FAR_LINE, FLOAT_POINTS, GRID, NO_CELLS, STRIP};
use crate::runs::{files, joined, output_of, port, ran, ran_on, replaced, run, words};
use std::process::Abort;
use std::test::Fail;
use viz_base::{FILE_LIMIT, FailAt, MemoryOut, MemoryPort, NeverFails};
use viz_once::read_once;
use viz_told::Status;

const ONCE: &str = "a.vtk o.vtk threshold 2 3";

// The line over these bytes is Done, with this report, and writes this text.
fn writes<R: AllocGlobal + Abort>(
    rt: &R,
    line: &str,
    bytes: &[u8],
    report: &str,
    want: &[u8],
) -> Result<(), Fail> {
    let (status, told, ports) = ran_on(rt.alloc(), line, bytes)?;
    assert!(rt; status == Status::Done, "{line}: {told}");
    assert_eq!(rt; told.as_str(), report, "{line}");
    assert!(rt; output_of(&ports) == Some(want), "{line}");
    Ok(())
}

#[test]
fn values_outside_the_bounds_become_0(rt: HostRuntime) -> Result<(), Fail> {
    let alloc = rt.alloc();
    let least = "a.vtk o.vtk threshold -9223372036854775808 9223372036854775807";
    for (line, values, want) in [
        // threshold-two-by-two
        (ONCE, "1 2\n3 4\n", "0 2\n3 0\n"),
        // With the lower bound above, nothing is kept.
        ("a.vtk o.vtk threshold 3 2", "1 2 3 4", "0 0\n0 0\n"),
        // Both ends of 32 bits, between both ends of 64 bits.
        (
            least,
            "-2147483648 2147483647 +0 007 \n\n",
            "-2147483648 2147483647\n0 7\n",
        ),
    ] {
        let text = joined(alloc, &[SQUARE.as_bytes(), values.as_bytes()])?;
        let want = joined(alloc, &[SQUARE_WRITTEN.as_bytes(), want.as_bytes()])?;
        writes(&rt, line, &text, "file cells 0 points 4\n", &want)?;
    }
    Ok(())
}

#[test]
fn every_type_and_form_is_read(rt: HostRuntime) -> Result<(), Fail> {
    let alloc = rt.alloc();
    let square = joined(alloc, &[SQUARE.as_bytes(), b"1 2 3 4"])?;
    let square = String::from_utf8(square)?;
    let want = joined(alloc, &[SQUARE_WRITTEN.as_bytes(), b"0 2\n3 0\n"])?;
    // A part of numbers of cells in front.
    let cells = "CELL_DATA 1\nSCALARS c int\nLOOKUP_TABLE default\n7\nPOINT_DATA 4";
    let text = replaced(alloc, square.as_str(), "POINT_DATA 4", cells)?;
    writes(&rt, ONCE, text.as_bytes(), "file cells 0 points 4\n", &want)?;
    // What was written is read again, with the same bytes.
    writes(&rt, ONCE, &want, "file cells 0 points 4\n", &want)?;
    // Bytes, which are signed, in BINARY; the type is kept.
    let bytes = replaced(alloc, SQUARE, "ASCII", "BINARY")?;
    let bytes = replaced(alloc, bytes.as_str(), "s int", "s char")?;
    let bytes = joined(alloc, &[bytes.as_bytes(), b"\xff\x02\x03\x04"])?;
    let chars = replaced(alloc, SQUARE_WRITTEN, "int", "char")?;
    let chars = joined(alloc, &[chars.as_bytes(), b"0 2\n3 0\n"])?;
    writes(&rt, ONCE, &bytes, "file cells 0 points 4\n", &chars)?;
    // A number past signed 64 bits lies above every bound.
    let line = "a.vtk o.vtk threshold 5 9223372036854775807";
    let (large, want) = (LARGE.as_bytes(), LARGE_WRITTEN.as_bytes());
    writes(&rt, line, large, "file cells 0 points 3\n", want)
}

#[test]
fn nothing_fails_over_a_port_that_never_does(rt: HostRuntime) -> Result<(), Fail> {
    let alloc = rt.alloc();
    let text = joined(alloc, &[SQUARE.as_bytes(), b"1 2 3 4"])?;
    let port = NeverFails::new(alloc, files(alloc, &text)?, FILE_LIMIT);
    let (status, told, ports) = ran(alloc, ONCE, port, Vec::new(alloc))?;
    assert!(rt; status == Status::Done);
    assert_eq!(rt; told.as_str(), "file cells 0 points 4\n");
    let port = ports.first().ok_or("no port")?;
    let file = port.file("o.vtk").ok_or("no file")?;
    let want = joined(alloc, &[SQUARE_WRITTEN.as_bytes(), b"0 2\n3 0\n"])?;
    assert_eq!(rt; file.list(), want.as_slice());
    Ok(())
}

// The line over these bytes, with this limit and with this call failing, puts this line and
// leaves the output.
fn leaves<R: AllocGlobal + Abort>(
    rt: &R,
    bytes: &[u8],
    limit: u64,
    call: u64,
    status: Status,
    want: &str,
) -> Result<(), Fail> {
    let alloc = rt.alloc();
    let failing = vec![in alloc; FailAt { call, kept: 0 }]?;
    let port = MemoryPort::new(alloc, files(alloc, bytes)?, limit, failing);
    let (ended, told, ports) = ran(alloc, ONCE, port, Vec::new(alloc))?;
    assert!(rt; ended == status, "{told}");
    assert_eq!(rt; told.as_str(), want);
    assert!(rt; output_of(&ports) == Some(b"old".as_slice()), "{want}");
    Ok(())
}

#[test]
fn refusals_leave_the_output(rt: HostRuntime) -> Result<(), Fail> {
    let short = joined(rt.alloc(), &[CORNER_BINARY.as_bytes(), &[0; 31]])?;
    let past = PAST_TYPE.as_bytes();
    let (refused, fault) = (Status::Refused, Status::Fault);
    // value-past-type and block-cut-short
    let want = "refused fault:src:BadFile(ValueRange,163)\n";
    leaves(&rt, past, 205, 9, refused, want)?;
    let want = "refused fault:src:BadFile(Truncated,205)\n";
    leaves(&rt, &short, 205, 9, refused, want)?;
    leaves(&rt, &short, 204, 9, refused, "refused TooLong\n")?;
    leaves(&rt, &short, 205, 1, fault, "fault read\n")
}

const THRESHOLD: &str = "a.vtk o.vtk threshold 1 2";

const CONTOUR: &str = "a.vtk o.vtk contour 0";

// The filter refuses these bytes with this line, and leaves the output.
fn refuses<R: AllocGlobal + Abort>(
    rt: &R,
    line: &str,
    bytes: &str,
    want: &str,
) -> Result<(), Fail> {
    let (status, told, ports) = ran_on(rt.alloc(), line, bytes.as_bytes())?;
    assert!(rt; status == Status::Refused, "{line}: {told}");
    assert_eq!(rt; told.as_str(), want, "{line}: {bytes}");
    assert!(rt; output_of(&ports) == Some(b"old".as_slice()), "{line}");
    Ok(())
}

#[test]
fn a_mesh_has_no_threshold_by_its_header_alone(rt: HostRuntime) -> Result<(), Fail> {
    let past = replaced(rt.alloc(), GRID, "4 0 1 2 3", "4 0 1 2 4")?;
    for bytes in [
        // A grid, polydata without an array, a mesh without cells, and a written surface.
        GRID,
        STRIP,
        NO_CELLS,
        FIRST_SURFACE,
        // Faults behind the header: no number of points, points of floats, an index past them.
        CUT,
        FLOAT_POINTS,
        past.as_str(),
    ] {
        refuses(&rt, THRESHOLD, bytes, "refused fault:op:WrongInput(1)\n")?;
    }
    Ok(())
}

#[test]
fn a_broken_mesh_has_no_contour(rt: HostRuntime) -> Result<(), Fail> {
    let alloc = rt.alloc();
    let past = replaced(alloc, GRID, "4 0 1 2 3", "4 0 1 2 4")?;
    let floats = replaced(alloc, GRID, "4 int", "4 float")?;
    for (bytes, want) in [
        // No array of points to take the values from, and no number of points.
        (STRIP, "refused fault:src:BadFile(NoArray,121)\n"),
        (CUT, "refused fault:src:BadFile(Truncated,68)\n"),
        // float-points-once, and a grid of such points
        (FLOAT_POINTS, "refused fault:src:BadFile(FloatArray,61)\n"),
        (
            floats.as_str(),
            "refused fault:src:BadFile(FloatArray,70)\n",
        ),
        // An index past the points.
        (past.as_str(), "refused fault:src:BadFile(Index,116)\n"),
    ] {
        refuses(&rt, CONTOUR, bytes, want)?;
    }
    // A place past signed 64 bits, in thousandths.
    let line = "a.vtk o.vtk contour 2";
    refuses(&rt, line, FAR_LINE, "refused fault:op:TooWide\n")
}

// Both filters refuse a header that has a fault: the form, and a dataset that isn't read.
#[test]
fn a_fault_of_the_header_comes_first(rt: HostRuntime) -> Result<(), Fail> {
    let alloc = rt.alloc();
    let form = replaced(alloc, GRID, "ASCII", "TEXT")?;
    let other = replaced(alloc, STRIP, "POLYDATA", "STRUCTURED_GRID")?;
    for line in [THRESHOLD, CONTOUR] {
        let want = "refused fault:src:BadFile(Form,29)\n";
        refuses(&rt, line, form.as_str(), want)?;
        let want = "refused fault:src:BadFile(Unsupported,43)\n";
        refuses(&rt, line, other.as_str(), want)?;
    }
    Ok(())
}

#[test]
fn other_words_are_no_command(rt: HostRuntime) -> Result<(), Fail> {
    let alloc = rt.alloc();
    for line in [
        "",
        "a.vtk o.vtk",
        "a.vtk o.vtk threshold 2",
        "a.vtk o.vtk threshold 2 +3",
        "a.vtk o.vtk threshold 2 9223372036854775808",
        "a.vtk o.vtk contour",
        "a.vtk o.vtk contour 2 3",
        "a.vtk o.vtk contour -9223372036854775809",
        "a.vtk o.vtk Contour 2",
        "a.vtk .o.vtk threshold 2 3",
        "a.vtk a/o.vtk threshold 2 3",
    ] {
        let words = words(alloc, line)?;
        assert!(rt; read_once(&words).is_none(), "{line}");
    }
    // A name that no file has.
    let line = "c.vtk o.vtk threshold 2 3";
    let (ended, told, _) = ran_on(alloc, line, CORNER.as_bytes())?;
    assert!(rt; ended == Status::Fault);
    assert_eq!(rt; told.as_str(), "fault read\n");
    Ok(())
}

#[test]
fn a_failed_write_keeps_some_bytes_and_a_failed_put_none(rt: HostRuntime) -> Result<(), Fail> {
    let alloc = rt.alloc();
    let good = joined(alloc, &[SQUARE.as_bytes(), b"1 2 3 4"])?;
    for (call, put, status, want, kept) in [
        (2, 9, Status::Fault, "fault write\n", "# vt"),
        (9, 1, Status::Fault, "", SQUARE_WRITTEN),
    ] {
        let failing = vec![in alloc; FailAt { call, kept: 4 }]?;
        let port = MemoryPort::new(alloc, files(alloc, &good)?, FILE_LIMIT, failing);
        let puts = vec![in alloc; put]?;
        let (ended, told, ports) = ran(alloc, ONCE, port, puts)?;
        assert!(rt; ended == status, "{told}");
        assert_eq!(rt; told.as_str(), want);
        let written = output_of(&ports).ok_or("no file")?;
        assert!(rt; written.starts_with(kept.as_bytes()), "{kept}");
    }
    Ok(())
}

#[test]
fn the_first_port_alone_is_called(rt: HostRuntime) -> Result<(), Fail> {
    let alloc = rt.alloc();
    let binary = joined(
        alloc,
        &[CORNER_BINARY.as_bytes(), &[0; 32], CORNER_END.as_bytes()],
    )?;
    for (count, status, want) in [
        (0, Status::Script, "script line 0 ActorRange\n"),
        (2, Status::Done, "file cells 1 points 8\n"),
    ] {
        let mut ports = Vec::new(alloc);
        for _ in 0..count {
            ports.push(port(alloc, &binary)?).ok().ok_or("no room")?;
        }
        let mut out = MemoryOut::new(alloc, Vec::new(alloc));
        let ended = run(alloc, ONCE, &mut ports, &mut out)?;
        assert!(rt; ended == status);
        assert_eq!(rt; out.text(), want.as_bytes());
        if let Some(second) = ports.get(1) {
            let file = second.file("o.vtk").ok_or("no file")?;
            assert_eq!(rt; file.list(), b"old".as_slice());
        }
    }
    Ok(())
}
