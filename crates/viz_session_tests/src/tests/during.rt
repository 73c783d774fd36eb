//! Updates and audits whose evaluation goes on while others edit and evaluate.

ghost use Rattle.std.specs.Prelude.{false};

use super::*;
use std::sync::atomic::{AtomicU64, Ordering};
use std::thread;
use viz_base::{ACTORS, Gate, LongText, Port, ReadRefusal, WriteRefusal};

const SURFACE: &str = "1 add file src
1 load src a.vtk
1 add contour iso
1 connect src iso 1
1 set iso levels 5
";

const SURFACE_REPORT: &str = "edit 1 1 at 1
edit 1 2 at 2
edit 1 3 at 3
edit 1 4 at 4
edit 1 5 at 5
";

/// How often a task or a read looks for what it waits for.
const TURNS: u32 = 10_000_000;

/// What the tasks and the reads of the second actor tell each other.
#[derive(Drop)]
struct Signs {
    /// How many tasks entered the gate, and the sum of their numbers. A read that waits for tasks
    /// counts as one.
    entered: AtomicU64,
    numbers: AtomicU64,
    /// How many reads the second actor began.
    reads: AtomicU64,
    /// How many writes were asked for, and how many of them before a gate had opened.
    writes: AtomicU64,
    early: AtomicU64,
    /// How many waits came to their end in vain.
    vain: AtomicU64,
}

impl Signs {
    fn new() -> Signs {
        Signs {
            entered: AtomicU64::new(0),
            numbers: AtomicU64::new(0),
            reads: AtomicU64::new(0),
            writes: AtomicU64::new(0),
            early: AtomicU64::new(0),
            vain: AtomicU64::new(0),
        }
    }

    // Waits until the count is as great as this.
    fn wait(&self, count: &AtomicU64, least: u64) {
        for _ in 0..TURNS {
            if count.load(Ordering::SeqCst) >= least {
                return;
            }
            thread::yield_now();
        }
        self.vain.fetch_add(1, Ordering::SeqCst);
    }

    // Tasks that entered, the sum of their numbers, and waits in vain.
    fn counts(&self) -> [u64; 3] {
        let entered = self.entered.load(Ordering::SeqCst);
        let numbers = self.numbers.load(Ordering::SeqCst);
        [entered, numbers, self.vain.load(Ordering::SeqCst)]
    }
}

/// A port. The second actor's first read waits until a task has entered the gate. A read waits for
/// so many tasks, of which it is one, where they aren't 0.
#[derive(Drop)]
struct Meeting<'a> {
    port: MemoryPort,
    signs: &'a Signs,
    is_second: bool,
    tasks: u64,
}

impl Port for Meeting<'_> {
    ghost tells_files = { false };

    ghost tells_calls = { false };

    ghost files = { λ port. ⟦<MemoryPort as Port>⟧.files port.port };

    ghost calls = { λ port. ⟦<MemoryPort as Port>⟧.calls port.port };

    ghost limit = { λ port. ⟦<MemoryPort as Port>⟧.limit port.port };

    ghost faults = { λ port. ⟦<MemoryPort as Port>⟧.faults port.port };

    fn read(&mut self, alloc: Global, name: &str) -> Result<Bytes, ReadRefusal> {
        if self.is_second {
            self.signs.wait(&self.signs.entered, 1);
            self.signs.reads.fetch_add(1, Ordering::SeqCst);
        }
        if self.tasks > 0 {
            self.signs.entered.fetch_add(1, Ordering::SeqCst);
            self.signs.wait(&self.signs.entered, self.tasks);
        }
        self.port.read(alloc, name)
    }

    fn write(&mut self, alloc: Global, name: &str, text: &LongText) -> Result<(), WriteRefusal> {
        self.signs.writes.fetch_add(1, Ordering::SeqCst);
        self.port.write(alloc, name, text)
    }
}

/// A gate that opens once so many tasks have entered and so many reads have begun.
#[derive(Drop)]
struct Waiting<'a> {
    signs: &'a Signs,
    tasks: u64,
    reads: u64,
}

impl Gate for Waiting<'_> {
    fn enter(&self, task: u64) {
        self.signs.numbers.fetch_add(task, Ordering::SeqCst);
        self.signs.entered.fetch_add(1, Ordering::SeqCst);
        self.signs.wait(&self.signs.entered, self.tasks);
        self.signs.wait(&self.signs.reads, self.reads);
        let writes = self.signs.writes.load(Ordering::SeqCst);
        self.signs.early.fetch_add(writes, Ordering::SeqCst);
    }
}

// What a run of the script by eight actors comes to. The first actor's port takes files up to this
// limit, and its reads wait for so many tasks.
fn run_all<R: Threads + Wait + Sync>(
    rt: &R,
    alloc: Global,
    script: &str,
    gate: &Waiting<'_>,
    limit: u64,
    tasks: u64,
) -> Result<(Status, String), Fail> {
    let signs = gate.signs;
    let mut desk = Meeting {
        port: port(alloc, "s", script.as_bytes(), FILE_LIMIT, Vec::new(alloc))?,
        signs,
        is_second: false,
        tasks: 0,
    };
    let mut ports = Vec::with_capacity(alloc, ACTORS as usize)?;
    ports.push(Meeting {
        port: port(alloc, "a.vtk", CORNER.as_bytes(), limit, Vec::new(alloc))?,
        signs,
        is_second: false,
        tasks,
    })?;
    for actor in 2..=ACTORS {
        ports.push(Meeting {
            port: corner(alloc, Vec::new(alloc))?,
            signs,
            is_second: actor == 2,
            tasks: 0,
        })?;
    }
    let words = words(alloc, "run s j")?;
    let mut out = MemoryOut::new(alloc, Vec::new(alloc));
    let status = run(rt, alloc, &words, &mut desk, &mut ports, &mut out, gate);
    Ok((status, String::from_utf8(out.text().to_vec(alloc)?)?))
}

// Behind the surface's commands the first actor's last one evaluates, and the second actor's edits.
const DURING: &str = "2 load src a.vtk
2 set iso levels 10
2 load src a.vtk
";

const DURING_REPORT: &str = "edit 2 1 at 6
edit 2 2 at 7
edit 2 3 at 8
";

// The second actor loads once the first one's task has entered the gate, and a second time behind
// an edit, and that opens the gate. So all its edits stand behind what was pinned, and nothing may
// be written before the gate has opened.
fn edited_during<R: Threads + Wait + Sync + Abort>(
    rt: &R,
    alloc: Global,
    command: &str,
    line: &str,
    counts: [u64; 3],
) -> Result<(), Fail> {
    let signs = Signs::new();
    let gate = Waiting {
        signs: &signs,
        tasks: 1,
        reads: 2,
    };
    let script = format!(in alloc; "{SURFACE}phase\n{command}{DURING}")?;
    let (status, text) = run_all(rt, alloc, &script, &gate, FILE_LIMIT, 0)?;
    let want = format!(in alloc; "{SURFACE_REPORT}{line}{DURING_REPORT}")?;
    assert_eq!(rt; text.as_str(), want.as_str());
    assert!(rt; status == Status::Done);
    assert_eq!(rt; signs.counts(), counts, "{command}");
    assert_eq!(rt; signs.early.load(Ordering::SeqCst), 0, "{command}");
    Ok(())
}

#[test]
fn others_edit_during_an_update(rt: HostRuntime) -> Result<(), Fail> {
    // edits-during-update
    let alloc = rt.alloc();
    let line = "file 1 6 at 5 cells 6 points 7 ran 2\n";
    edited_during(&rt, alloc, "1 update iso o.vtk 1 1\n", line, [2, 1, 0])
}

#[test]
fn others_edit_during_an_audit(rt: HostRuntime) -> Result<(), Fail> {
    let alloc = rt.alloc();
    let line = "audit 1 6 at 5 sides 12 two 6 open 6 border 6\n";
    edited_during(&rt, alloc, "1 audit iso 1 1\n", line, [2, 1, 0])
}

const EIGHT: &str = "8 add file src
8 load src a.vtk
phase
1 update src o.vtk 1 1
2 update src o.vtk 1 1
3 update src o.vtk 1 1
4 update src o.vtk 1 1
5 update src o.vtk 1 1
6 update src o.vtk 1 1
7 update src o.vtk 1 1
8 update src o.vtk 1 1
1 update src p.vtk 1 1
2 update src p.vtk 1 1
3 update src p.vtk 1 1
4 update src p.vtk 1 1
5 update src p.vtk 1 1
6 update src p.vtk 1 1
7 update src p.vtk 1 1
8 update src p.vtk 1 1
";

const EIGHT_REPORT: &str = "edit 8 1 at 1
edit 8 2 at 2
file 1 1 at 2 cells 1 points 8 ran 1
file 1 2 at 2 cells 1 points 8 ran 0
file 2 1 at 2 cells 1 points 8 ran 1
file 2 2 at 2 cells 1 points 8 ran 0
file 3 1 at 2 cells 1 points 8 ran 1
file 3 2 at 2 cells 1 points 8 ran 0
file 4 1 at 2 cells 1 points 8 ran 1
file 4 2 at 2 cells 1 points 8 ran 0
file 5 1 at 2 cells 1 points 8 ran 1
file 5 2 at 2 cells 1 points 8 ran 0
file 6 1 at 2 cells 1 points 8 ran 1
file 6 2 at 2 cells 1 points 8 ran 0
file 7 1 at 2 cells 1 points 8 ran 1
file 7 2 at 2 cells 1 points 8 ran 0
file 8 3 at 2 cells 1 points 8 ran 1
file 8 4 at 2 cells 1 points 8 ran 0
";

#[test]
fn eight_actors_evaluate_beside_each_other(rt: HostRuntime) -> Result<(), Fail> {
    // each task waits until all eight have entered the gate, so the first eight of these sixteen
    // commands are served beside each other, none with what another made; the others find it kept
    let alloc = rt.alloc();
    let signs = Signs::new();
    let gate = Waiting {
        signs: &signs,
        tasks: 8,
        reads: 0,
    };
    let (status, text) = run_all(&rt, alloc, EIGHT, &gate, FILE_LIMIT, 0)?;
    assert_eq!(rt; text.as_str(), EIGHT_REPORT);
    assert!(rt; status == Status::Done);
    assert_eq!(rt; signs.counts(), [8, 0, 0]);
    Ok(())
}

const TOO_LONG: &str = "1 add file src
phase
1 load src a.vtk
2 load src a.vtk
2 audit src 1 1
";

const TOO_LONG_REPORT: &str = "edit 1 1 at 1
refused 1 2 TooLong at 2
edit 2 1 at 2
refused 2 2 fault:src:WrongInput(1) at 2
";

#[test]
fn a_load_that_is_too_long_tells_what_is_seen_then(rt: HostRuntime) -> Result<(), Fail> {
    // The second actor's edits wait until the first one's read has begun, and that read until the
    // second actor audits behind them.
    let alloc = rt.alloc();
    let signs = Signs::new();
    let gate = Waiting {
        signs: &signs,
        tasks: 1,
        reads: 0,
    };
    let (status, text) = run_all(&rt, alloc, TOO_LONG, &gate, 10, 2)?;
    assert_eq!(rt; text.as_str(), TOO_LONG_REPORT);
    assert!(rt; status == Status::Refused);
    assert_eq!(rt; signs.counts(), [2, 0, 0]);
    Ok(())
}
