//! Two tasks that are done at the same time. The test ends by itself, whatever the schedule.

use crate::edits::{Plan, network};
use crate::kinds::SOLID;
use crate::updates::{Outcome, update};
use Plan::{Add, Connect, Load};
use std::sync::atomic::{AtomicU64, Ordering};
use std::test::Fail;
use std::thread;
use viz_base::Gate;
use viz_network::Kind;

// The most turns that a task waits for another.
const TURNS: u64 = 10_000_000;

// A gate in which the second and the third that enter wait for each other. Each that sees the other
// counts itself.
#[derive(Drop)]
struct Meeting {
    entries: AtomicU64,
    second: AtomicU64,
    third: AtomicU64,
    met: AtomicU64,
}

impl Meeting {
    fn wait(&self, mine: &AtomicU64, other: &AtomicU64) {
        mine.store(1, Ordering::SeqCst);
        for _ in 0..TURNS {
            if other.load(Ordering::SeqCst) == 1 {
                self.met.fetch_add(1, Ordering::SeqCst);
                return;
            }
            thread::yield_now();
        }
    }
}

impl Gate for Meeting {
    fn enter(&self, _task: u64) {
        match self.entries.fetch_add(1, Ordering::SeqCst) {
            1 => self.wait(&self.second, &self.third),
            2 => self.wait(&self.third, &self.second),
            _ => {}
        }
    }
}

// A threshold of an image.
const EDITS: [Plan; 4] = [
    Add(Kind::File, "src"),
    Load("src", SOLID),
    Add(Kind::Threshold, "t"),
    Connect("src", "t", 1),
];

#[test]
fn two_slabs_meet_on_two_workers(rt: HostRuntime) -> Result<(), Fail> {
    let meeting = Meeting {
        entries: AtomicU64::new(0),
        second: AtomicU64::new(0),
        third: AtomicU64::new(0),
        met: AtomicU64::new(0),
    };
    let mut story = network(rt.alloc(), &EDITS)?;
    let got = update(&rt, rt.alloc(), &mut story, "t", (2, 2), &meeting)?;
    let want = Outcome::Same {
        ran: 3,
        made: 3,
        used: 0,
    };
    assert_eq!(rt; got, want);
    // where one ran after the other, only the later one would have seen the other
    assert_eq!(rt; meeting.met.load(Ordering::SeqCst), 2);
    Ok(())
}
