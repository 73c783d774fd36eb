//! Scripts of several actors, each of whom edits in phases of its own.

use super::*;

/// A call that no port comes to.
const NEVER: FailAt = FailAt { call: 0, kept: 0 };

// Runs the script over three ports, at the second of which this call fails.
fn run_three<R: Threads + Wait + Sync>(
    rt: &R,
    alloc: Global,
    script: &str,
    failing: FailAt,
) -> Result<Left, Fail> {
    let words = words(alloc, "run s j")?;
    let mut desk = port(alloc, "s", script.as_bytes(), FILE_LIMIT, Vec::new(alloc))?;
    let mut ports = Vec::new(alloc);
    for fails in [NEVER, failing, NEVER] {
        ports.push(corner(alloc, vec![in alloc; fails]?)?)?;
    }
    let mut out = MemoryOut::new(alloc, Vec::new(alloc));
    let status = run(
        rt, alloc, &words, &mut desk, &mut ports, &mut out, &OpenGate,
    );
    let text = String::from_utf8(out.text().to_vec(alloc)?)?;
    Ok(Left {
        status,
        text,
        desk,
        ports,
    })
}

fn bytes_of<'a>(port: &'a MemoryPort, name: &str) -> Option<&'a [u8]> {
    Some(port.file(name)?.list())
}

// A file of each of three ports.
fn files<'a>(ports: &'a [MemoryPort], name: &str) -> [Option<&'a [u8]>; 3] {
    match ports {
        [one, two, three] => [
            bytes_of(one, name),
            bytes_of(two, name),
            bytes_of(three, name),
        ],
        _ => [None; 3],
    }
}

const IMAGE: &str = "# vtk DataFile Version 3.0
vizrun image
ASCII
DATASET STRUCTURED_POINTS
DIMENSIONS 2 2 2
ORIGIN 0 0 0
SPACING 1 1 1
POINT_DATA 8
SCALARS scalars int 1
LOOKUP_TABLE default
0 0
0 0
0 0
0 9
";

// Nothing is kept, so that each update runs its task, whoever comes first.
const BESIDE: &str = "1 add file src
1 load src a.vtk
1 set src release 1
phase
1 update src o.vtk 1 1
2 update src o.vtk 1 1
phase
2 load src a.vtk
2 update src p.vtk 1 1
";

const BESIDE_FRONT: &str = "edit 1 1 at 1
edit 1 2 at 2
edit 1 3 at 3
file 1 4 at 3 cells 1 points 8 ran 1
";

/// The first 40 bytes of the image.
const BEGUN: &str = "# vtk DataFile Version 3.0\nvizrun image\n";

// Where this call of the second actor's port fails, its lines and its two files are these, and the
// first actor's file is whole.
fn fails_beside<R: Threads + Wait + Sync + Abort>(
    rt: &R,
    alloc: Global,
    failing: FailAt,
    lines: &str,
    second: [&str; 2],
) -> Result<(), Fail> {
    let left = run_three(rt, alloc, BESIDE, failing)?;
    let want = format!(in alloc; "{BESIDE_FRONT}{lines}")?;
    assert_eq!(rt; left.text.as_str(), want.as_str());
    assert_eq!(rt; left.status == Status::Done, failing == NEVER, "{lines}");
    assert_eq!(rt; left.status == Status::Fault, failing != NEVER, "{lines}");
    let [one, two] = second;
    let (one, two) = (Some(one.as_bytes()), Some(two.as_bytes()));
    assert!(rt;
        files(&left.ports, "o.vtk") == [Some(IMAGE.as_bytes()), one, None],
        "{lines}"
    );
    assert!(rt; files(&left.ports, "p.vtk") == [None, two, None], "{lines}");
    Ok(())
}

#[test]
fn a_failing_port_is_its_actors_alone(rt: HostRuntime) -> Result<(), Fail> {
    let alloc = rt.alloc();
    let written = "file 2 1 at 3 cells 1 points 8 ran 1\n";
    let loaded = "edit 2 2 at 4\n";
    let last = "file 2 3 at 4 cells 1 points 8 ran 1\n";
    for (call, kept, lines, second) in [
        (0, 0, [written, loaded, last], [IMAGE, IMAGE]),
        (1, 0, ["fault 2 1 write\n", loaded, last], ["", IMAGE]),
        (1, 40, ["fault 2 1 write\n", loaded, last], [BEGUN, IMAGE]),
        (
            2,
            0,
            [
                written,
                "fault 2 2 read\n",
                "file 2 3 at 3 cells 1 points 8 ran 1\n",
            ],
            [IMAGE, IMAGE],
        ),
        (
            3,
            40,
            [written, loaded, "fault 2 3 write\n"],
            [IMAGE, BEGUN],
        ),
    ] {
        let [one, two, three] = lines;
        let lines = format!(in alloc; "{one}{two}{three}")?;
        fails_beside(&rt, alloc, FailAt { call, kept }, &lines, second)?;
    }
    Ok(())
}

#[test]
fn an_actor_has_a_port(rt: HostRuntime) -> Result<(), Fail> {
    let alloc = rt.alloc();
    let left = run_three(&rt, alloc, "3 add file a\n4 add file b\n", NEVER)?;
    assert!(rt; left.status == Status::Script, "{}", left.text);
    assert_eq!(rt; left.text.as_str(), "script line 2 ActorRange\n");
    assert!(rt; left.desk.file("j").is_none());
    Ok(())
}
