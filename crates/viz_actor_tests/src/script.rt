//! Scripts of two actors over files in memory: rows, histories and files.

ghost use Rattle.std.specs.Prelude.{◌≡◌};
ghost use Rattle.viz_actor.specs.Groups.{actors_over};

use crate::updating::CORNER;
use std::alloc::Global;
use std::process::Abort;
use std::sync::Wait;
use std::test::Fail;
use std::thread::Threads;
use viz_actor::{Served, serve_script};
use viz_base::{ACTORS, Bytes, FILE_LIMIT, FailAt, FileEntry, MemoryPort, OpenGate, Word};
use viz_report::report_text;
use viz_script::parse;

const IMAGE: &str = "# vtk DataFile Version 3.0\nvizrun image\nASCII\nDATASET STRUCTURED_POINTS\n\
    DIMENSIONS 2 2 2\nORIGIN 0 0 0\nSPACING 1 1 1\nPOINT_DATA 8\nSCALARS scalars int 1\n\
    LOOKUP_TABLE default\n0 0\n0 0\n0 0\n0 9\n";

fn actors<P>(ports: &[P]) -> u32
    ensures { result ≡ actors_over ports.now }
{
    ports.len().min(ACTORS as usize) as u32
}

// A port with the image, at which this call fails, if any does.
fn port(alloc: Global, failing: Option<FailAt>) -> Result<MemoryPort, Fail> {
    let entry = FileEntry {
        name: Word::new(b"a.vtk").ok_or("no name")?,
        bytes: Bytes::new(CORNER.as_bytes().to_vec(alloc)?),
    };
    let mut calls = Vec::new(alloc);
    if let Some(call) = failing {
        calls.push(call)?;
    }
    Ok(MemoryPort::new(alloc, vec![in alloc; entry]?, FILE_LIMIT, calls))
}

// What the script comes to over these ports.
fn serve<R: Threads + Wait + Sync>(
    rt: &R,
    alloc: Global,
    script: &str,
    ports: &mut Vec<MemoryPort>,
) -> Result<Served, Fail> {
    let Ok(script) = parse(alloc, script.as_bytes(), actors(ports)) else {
        return Err("no script".into());
    };
    Ok(serve_script(rt, alloc, &script.steps, ports, &OpenGate)?)
}

#[test]
fn a_second_phase_begins_behind_the_first(rt: HostRuntime) -> Result<(), Fail> {
    // second-phase-update; the second actor's read fails, and only its own line tells it. Nothing
    // is kept, so that each update runs its task, whoever comes first
    let alloc = rt.alloc();
    let mut ports = Vec::new(alloc);
    ports.push(port(alloc, None)?)?;
    ports.push(port(alloc, Some(FailAt { call: 1, kept: 0 }))?)?;
    ports.push(port(alloc, None)?)?;
    let script = "1 add file src\n1 load src a.vtk\n1 set src release 1\n2 load src a.vtk\nphase\n\
        2 update src o.vtk 1 1\n1 update src o.vtk 1 1\n";
    let served = serve(&rt, alloc, script, &mut ports)?;
    let told = report_text(alloc, &served.rows)?;
    let want = "edit 1 1 at 1\nedit 1 2 at 2\nedit 1 3 at 3\nfault 2 1 read\n\
        file 1 4 at 3 cells 1 points 8 ran 1\nfile 2 2 at 3 cells 1 points 8 ran 1\n";
    assert!(rt; told.list() == want.as_bytes(), "{told:?}");
    assert_eq!(rt; served.history.len(), 3);
    for port in &ports {
        if let Some(bytes) = port.file("o.vtk") {
            assert!(rt; bytes.list() == IMAGE.as_bytes());
        }
    }
    let written = ports.iter().filter(|port| port.file("o.vtk").is_some());
    assert_eq!(rt; (ports.len(), written.count()), (3, 2));
    Ok(())
}

#[test]
fn a_batch_is_one_entry_or_none(rt: HostRuntime) -> Result<(), Fail> {
    // The contour of the corner has a triangle in each of the cube's six tetrahedra. The second
    // batch is refused at its second edit, so the level stays, and the file of 5 is written.
    let alloc = rt.alloc();
    let mut ports = Vec::new(alloc);
    ports.push(port(alloc, None)?)?;
    let script = "1 add file src\n1 begin\n1 add contour iso\n1 connect src iso 1\n\
        1 set iso levels 5\n1 end\n1 begin\n1 set iso levels 7\n1 remove src\n1 end\n\
        1 load src a.vtk\n1 update iso o.vtk 1 1\n1 begin\n1 add crop iso\n1 end\n";
    let served = serve(&rt, alloc, script, &mut ports)?;
    let told = report_text(alloc, &served.rows)?;
    let want = "edit 1 1 at 1\nedit 1 2 at 2\nrefused 1 3 2:InUse at 2\nedit 1 4 at 3\n\
        file 1 5 at 3 cells 6 points 7 ran 2\nrefused 1 6 1:Exists at 3\n";
    assert!(rt; told.list() == want.as_bytes(), "{told:?}");
    assert_eq!(rt; served.history.len(), 3);
    Ok(())
}

#[test]
fn every_accepted_edit_stands_once(rt: HostRuntime) -> Result<(), Fail> {
    let alloc = rt.alloc();
    let mut ports = Vec::new(alloc);
    ports.push(port(alloc, None)?)?;
    ports.push(port(alloc, None)?)?;
    let mut script = String::new(alloc);
    for i in 0..100 {
        script.push_str(&format!(in alloc; "1 add file a{i}\n2 add crop b{i}\n")?)?;
    }
    let served = serve(&rt, alloc, &script, &mut ports)?;
    assert_eq!(rt; (served.rows.len(), served.history.len()), (200, 200));
    Ok(())
}
