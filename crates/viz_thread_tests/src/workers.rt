//! Levels on one and on several workers. Each test ends by itself, whatever the schedule.

ghost use Rattle.std.specs.Prelude.{◌≡◌, ◌+◌, ◌<◌, ◌^◌};

use std::alloc::{AllocError, Global};
use std::sync::atomic::{AtomicU64, Ordering};
use std::thread;
use viz_base::{Gate, OpenGate};
use viz_workers::{Job, run_level};

// The most turns that a task waits for another.
const TURNS: u64 = 10_000_000;

// Gives each task its number, and counts the tasks at work: now, and at most so far.
#[derive(Drop)]
struct Numbers {
    working: AtomicU64,
    most: AtomicU64,
}

impl Numbers {
    fn new() -> Numbers {
        Numbers {
            working: AtomicU64::new(0),
            most: AtomicU64::new(0),
        }
    }
}

impl Job for Numbers {
    type Item = u64;

    ghost may = { λ numbers task. Unit {0} };

    ghost has = { λ numbers task item. item ≡ task };

    fn work(&self, task: u64) -> u64 {
        let others = self.working.fetch_add(1, Ordering::SeqCst);
        self.most
            .fetch_max(others.wrapping_add(1), Ordering::SeqCst);
        thread::yield_now();
        self.working.fetch_sub(1, Ordering::SeqCst);
        task
    }
}

// A gate that counts who enters, and a job that asks it whether its task did. It is for 64 tasks.
#[derive(Drop)]
struct Watched {
    entries: AtomicU64,
    entered: AtomicU64,
}

fn bit(task: u64) -> u64 {
    1 << (task % 64)
}

impl Gate for Watched {
    fn enter(&self, task: u64) {
        self.entries.fetch_add(1, Ordering::SeqCst);
        self.entered.fetch_or(bit(task), Ordering::SeqCst);
    }
}

impl Job for Watched {
    type Item = bool;

    ghost may = { λ watched task. task < 64 };

    ghost has = { λ watched task item. Unit {0} };

    fn work(&self, task: u64) -> bool {
        self.entered.load(Ordering::SeqCst) & bit(task) != 0
    }
}

// Makes of each task a list on the heap, of its number twice, or has no memory for it.
#[derive(Drop)]
struct Pairs {
    alloc: Global,
}

impl Job for Pairs {
    ghost use Rattle.std.specs.Prelude.{[], ◌∷◌, IfOk};

    type Item = Result<Vec<u64>, AllocError>;

    ghost may = { λ pairs task. task < 2 ^ 32 };

    ghost has = { λ pairs task item. IfOk item (λ list. list.items ≡ task ∷ task ∷ []) };

    fn work(&self, task: u64) -> Result<Vec<u64>, AllocError> {
        let mut list = Vec::new(self.alloc);
        list.push(task)?;
        list.push(task)?;
        Ok(list)
    }
}

// A gate in which tasks 1 and 2 wait for each other. Each that sees the other counts itself.
#[derive(Drop)]
struct Meeting {
    first: AtomicU64,
    second: AtomicU64,
    met: AtomicU64,
}

impl Meeting {
    fn wait(&self, mine: &AtomicU64, other: &AtomicU64) {
        mine.store(1, Ordering::SeqCst);
        for _ in 0..TURNS {
            if other.load(Ordering::SeqCst) == 1 {
                self.met.fetch_add(1, Ordering::SeqCst);
                return;
            }
            thread::yield_now();
        }
    }
}

impl Gate for Meeting {
    fn enter(&self, task: u64) {
        match task {
            1 => self.wait(&self.first, &self.second),
            2 => self.wait(&self.second, &self.first),
            _ => {}
        }
    }
}

#[test]
fn items_stand_in_the_order_of_their_tasks(rt: HostRuntime) -> Result<(), AllocError> {
    // one, as many as workers and one more or less, and many; the last tasks that there are
    for (first, count) in [
        (0, 0),
        (7, 1),
        (3, 2),
        (1, 7),
        (2, 8),
        (9, 9),
        (u64::MAX - 20_000, 20_000),
    ] {
        for workers in 1..=8 {
            let job = Numbers::new();
            let items = run_level(&rt, rt.alloc(), &job, first, count, workers, &OpenGate)?;
            assert_eq!(rt; items.len() as u64, count, "{count} on {workers}");
            for (index, item) in items.iter().enumerate() {
                assert_eq!(rt;
                    *item,
                    first.wrapping_add(index as u64),
                    "{count} on {workers}"
                );
            }
            let most = job.most.load(Ordering::SeqCst);
            assert!(rt;
                most <= u64::from(workers).min(count),
                "{most} of {count} on {workers}"
            );
        }
    }
    Ok(())
}

#[test]
fn each_task_enters_the_gate_once_and_first(rt: HostRuntime) -> Result<(), AllocError> {
    for workers in [1, 2, 4, 8] {
        // tasks 0 to 63; the second row has tasks 1 to 3, whose bits make 14
        for (first, count, entered) in [(0, 64, u64::MAX), (1, 3, 14)] {
            let watched = Watched {
                entries: AtomicU64::new(0),
                entered: AtomicU64::new(0),
            };
            let items = run_level(&rt, rt.alloc(), &watched, first, count, workers, &watched)?;
            assert!(rt; items.iter().all(|item| *item), "{count} on {workers}");
            assert_eq!(rt;
                watched.entries.load(Ordering::SeqCst),
                count,
                "on {workers}"
            );
            assert_eq!(rt;
                watched.entered.load(Ordering::SeqCst),
                entered,
                "on {workers}"
            );
        }
    }
    Ok(())
}

#[test]
fn items_may_own_memory(rt: HostRuntime) -> Result<(), AllocError> {
    let pairs = Pairs { alloc: rt.alloc() };
    for workers in [1, 3] {
        let mut all = Vec::new(rt.alloc());
        for item in run_level(&rt, rt.alloc(), &pairs, 8, 4, workers, &OpenGate)? {
            all.extend_from_slice(&item?)?;
        }
        assert_eq!(rt; all.as_slice(), [8, 8, 9, 9, 10, 10, 11, 11].as_slice());
    }
    Ok(())
}

#[test]
fn two_tasks_meet_on_two_workers(rt: HostRuntime) -> Result<(), AllocError> {
    let meeting = Meeting {
        first: AtomicU64::new(0),
        second: AtomicU64::new(0),
        met: AtomicU64::new(0),
    };
    let items = run_level(&rt, rt.alloc(), &Numbers::new(), 1, 2, 2, &meeting)?;
    assert_eq!(rt; items.as_slice(), [1, 2].as_slice());
    // where one ran after the other, only the second would have seen the first
    assert_eq!(rt; meeting.met.load(Ordering::SeqCst), 2);
    Ok(())
}
