//! What a worker does.

ghost use Rattle.std.specs.Prelude.{◌≡◌, ◌+◌, ◌^◌, ◌<◌, IfOk, IfSome, vec_len};
ghost use Rattle.viz_workers.specs.Level.{EachTask, AreItems};
ghost use Rattle.viz_workers.specs.Steps.Sharing.{IsDone, AreDone};

use crate::job::Job;
use std::alloc::{AllocError, Global};
use std::sync::atomic::{AtomicU64, Ordering};
use viz_base::Gate;

/// An item, and the index of its task within the level.
#[derive(Drop)]
pub struct Done<X> {
    pub index: u64,
    pub item: X,
}

/// What one worker hands in: the tasks that it did, unless memory ran out.
pub type Share<X> = Result<Vec<Done<X>>, AllocError>;

/// Enters the gate, and does one task.
pub fn enter_and_work<J: Job, G: Gate>(job: &J, task: u64, gate: &G) -> J::Item
    requires asked { J.may job.now task }
    ensures item { J.has job.now task result }
{
    gate.enter(task);
    job.work(task)
}

/// The items of a level, whose tasks are done one after the other.
pub fn one_by_one<J: Job, G: Gate>(
    alloc: Global,
    job: &J,
    first: u64,
    count: u64,
    gate: &G,
) -> Result<Vec<J::Item>, AllocError>
    requires room { first + count < 2 ^ 64 }
    requires asked { EachTask (J.may job.now) first count }
    ensures len { IfOk result (λ items. vec_len items ≡ count) }
    ensures each { IfOk result (λ items. AreItems (J.has job.now) first items.items) }
{
    let mut items = Vec::with_capacity(alloc, count as usize)?;
    for index in 0..count {
        items.push(enter_and_work(job, first + index, gate))?;
    }
    Ok(items)
}

// Takes the task that is next for all workers, and does it; there is none where none is left.
//
// `next` is a plain counter, of which proofs know nothing. For the items it doesn't matter whether
// each index is taken, and once: an item has its index beside it, and `gather` does what is
// missing.
fn next_done<J: Job, G: Gate>(
    job: &J,
    first: u64,
    count: u64,
    next: &AtomicU64,
    gate: &G,
) -> Option<Done<J::Item>>
    requires room { first + count < 2 ^ 64 }
    requires asked { EachTask (J.may job.now) first count }
    ensures done { IfSome result (IsDone (J.has job.now) first count) }
{
    let index = next.fetch_add(1, Ordering::SeqCst);
    if index >= count {
        return None;
    }
    let item = enter_and_work(job, first + index, gate);
    Some(Done { index, item })
}

/// What one worker does: the next task, and again, until none is left.
pub fn share_of<J: Job, G: Gate>(
    alloc: Global,
    job: &J,
    first: u64,
    count: u64,
    next: &AtomicU64,
    gate: &G,
) -> Share<J::Item>
    requires room { first + count < 2 ^ 64 }
    requires asked { EachTask (J.may job.now) first count }
    ensures done { AreDone (J.has job.now) first count result }
{
    let mut share = Vec::new(alloc);
    for _ in 0..count {
        let Some(done) = next_done(job, first, count, next, gate) else {
            break;
        };
        share.push(done)?;
    }
    Ok(share)
}
