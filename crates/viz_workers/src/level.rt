//! A level of tasks.

ghost use Rattle.std.specs.Prelude.{◌≡◌, ◌+◌, ◌^◌, ◌<◌, IfOk, vec_len};
ghost use Rattle.viz_workers.specs.Level.{EachTask, AreItems};
ghost use Rattle.viz_workers.specs.Steps.Sharing.{AreDone};

use crate::gathering::gather;
use crate::job::Job;
use crate::working::{Share, one_by_one, share_of};
use std::alloc::{AllocError, Global};
use std::sync::atomic::AtomicU64;
use std::thread;
use std::thread::Threads;
use viz_base::Gate;

/// The items of the tasks `first` to `first + count - 1`, in their order.
///
/// Each task enters the gate and is then done, by whichever worker is free. The caller is one of
/// the workers, the others are threads of this call; there are never more than tasks, so a single
/// task or a single worker makes no thread. Where no thread can be had the caller does the work.
/// Want of memory is the only refusal.
pub fn run_level<R: Threads + Sync, J: Job, G: Gate + Sync>(
    rt: &R,
    alloc: Global,
    job: &J,
    first: u64,
    count: u64,
    workers: u32,
    gate: &G,
) -> Result<Vec<J::Item>, AllocError>
    requires workers { 0 < workers }
    requires room { first + count < 2 ^ 64 }
    requires asked { EachTask (J.may job.now) first count }
    ensures len { IfOk result (λ items. vec_len items ≡ count) }
    ensures each { IfOk result (λ items. AreItems (J.has job.now) first items.items) }
{
    let busy = u64::from(workers).min(count) as usize;
    if busy < 2 {
        return one_by_one(alloc, job, first, count, gate);
    }
    let counter = AtomicU64::new(0);
    let next = &counter;
    let shares = thread::map_indices(
        rt,
        alloc,
        busy,
        &move |_: usize| -> Share<J::Item>
            requires { (first + count < 2 ^ 64) × EachTask (J.may job.now) first count }
            ensures { AreDone (J.has job.entry.now) first count result }
        { share_of(alloc, job, first, count, next, gate) },
    )?;
    gather(alloc, job, first, count, gate, shares)
}
