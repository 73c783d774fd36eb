//! How many tasks an update runs, counted by hand.

use crate::edits::Plan;
use crate::kinds::SOLID;
use crate::updates::{Outcome, fresh};
use Plan::{Add, Connect, Load, Set};
use std::alloc::Global;
use std::sync::atomic::{AtomicU64, Ordering};
use std::test::Fail;
use std::thread::Threads;
use viz_base::Gate;
use viz_network::{Kind, Param};

// A gate that counts who enters, and adds their numbers up.
#[derive(Drop)]
struct Counting {
    entries: AtomicU64,
    numbers: AtomicU64,
}

impl Gate for Counting {
    fn enter(&self, task: u64) {
        self.entries.fetch_add(1, Ordering::SeqCst);
        self.numbers.fetch_add(task, Ordering::SeqCst);
    }
}

// A threshold of an image, and a crop of that.
const CROPPED: [Plan; 7] = [
    Add(Kind::File, "src"),
    Load("src", SOLID),
    Add(Kind::Threshold, "t"),
    Connect("src", "t", 1),
    Add(Kind::Crop, "c"),
    Connect("t", "c", 1),
    Set("c", Param::Bounds, 6, [0, 1, 0, 2, 1, 3, 0, 0]),
];

// A contour of an image, its boundary, and a writer of that.
const BORDER: [Plan; 9] = [
    Add(Kind::File, "src"),
    Load("src", SOLID),
    Add(Kind::Contour, "iso"),
    Connect("src", "iso", 1),
    Set("iso", Param::Levels, 1, [4, 0, 0, 0, 0, 0, 0, 0]),
    Add(Kind::Boundary, "edge"),
    Connect("iso", "edge", 1),
    Add(Kind::Writer, "out"),
    Connect("edge", "out", 1),
];

// A threshold that feeds both ports of another node.
const TWICE: [Plan; 7] = [
    Add(Kind::File, "src"),
    Load("src", SOLID),
    Add(Kind::Threshold, "t"),
    Connect("src", "t", 1),
    Add(Kind::Arith, "sum"),
    Connect("t", "sum", 1),
    Connect("t", "sum", 2),
];

// A network, its sink, in how many pieces, and how many tasks there are.
const ROWS: [(&[Plan<'static>], &str, u32, usize); 11] = [
    // a file is read whole, and every other node makes a block for each slab
    (&CROPPED, "src", 3, 1),
    (&CROPPED, "t", 1, 2),
    (&CROPPED, "t", 3, 4),
    (&CROPPED, "c", 1, 3),
    (&CROPPED, "c", 2, 5),
    // pieces of a mesh, also those past the three layers; a writer makes nothing
    (&BORDER, "iso", 7, 8),
    (&BORDER, "edge", 2, 5),
    (&BORDER, "out", 1, 3),
    (&BORDER, "out", 2, 5),
    // what two ports ask for is made once
    (&TWICE, "sum", 1, 3),
    (&TWICE, "sum", 2, 5),
];

// What an update comes to, how many tasks entered the gate, and the sum of their numbers.
fn counted<R: Threads + Sync>(
    rt: &R,
    alloc: Global,
    edits: &[Plan<'_>],
    sink: &str,
    pieces: u32,
) -> Result<(Outcome, u64, u64), Fail> {
    let gate = Counting {
        entries: AtomicU64::new(0),
        numbers: AtomicU64::new(0),
    };
    let outcome = fresh(rt, alloc, edits, sink, (pieces, 2), &gate)?;
    let numbers = gate.numbers.load(Ordering::SeqCst);
    Ok((outcome, gate.entries.load(Ordering::SeqCst), numbers))
}

// The sum of the numbers from 0 on, so many.
fn sum_of(count: u64) -> u64 {
    count.wrapping_mul(count.wrapping_sub(1)) / 2
}

#[test]
fn each_task_is_done_once(rt: HostRuntime) -> Result<(), Fail> {
    for (edits, sink, pieces, tasks) in ROWS {
        let same = Outcome::Same {
            ran: tasks as u64,
            made: tasks,
            used: 0,
        };
        let got = counted(&rt, rt.alloc(), edits, sink, pieces)?;
        let want = (same, tasks as u64, sum_of(tasks as u64));
        assert_eq!(rt; got, want, "{sink} in {pieces}");
    }
    Ok(())
}
