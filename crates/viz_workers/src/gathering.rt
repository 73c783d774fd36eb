//! How what the workers hand in is put in order.

ghost use Rattle.std.specs.Prelude.{◌≡◌, ◌+◌, ◌^◌, ◌<◌, All, IfOk, IfSome};
ghost use Rattle.std.specs.Prelude.{length, vec_len};
ghost use Rattle.viz_workers.specs.Level.{EachTask, AreItems};
ghost use Rattle.viz_workers.specs.Steps.Sharing.{IsDone, AreDone, AreFound};

use crate::job::Job;
use crate::working::{Done, Share, enter_and_work};
use std::alloc::{AllocError, Global};
use viz_base::Gate;

// For each task, that no item is found yet.
fn none_found<J: Job>(
    alloc: Global,
    _job: &J,
    first: u64,
    count: u64,
) -> Result<Vec<Option<J::Item>>, AllocError>
    ensures len { IfOk result (λ found. vec_len found ≡ count) }
    ensures found { IfOk result (λ found. AreFound (J.has _job.now) first found.items) }
{
    let mut found = Vec::with_capacity(alloc, count as usize)?;
    for _ in 0..count {
        found.push(None)?;
    }
    Ok(found)
}

// Puts an item at its index.
fn put<J: Job>(_job: &J, first: u64, found: &mut [Option<J::Item>], done: Done<J::Item>)
    requires done { IsDone (J.has _job.now) first (length found.old) done }
    requires found { AreFound (J.has _job.now) first found.old }
    ensures found { AreFound (J.has _job.now) first found.new }
    ensures len { length found.new ≡ length found.old }
{
    found[done.index as usize] = Some(done.item);
}

// Puts the items of one worker.
fn put_all<J: Job>(
    job: &J,
    first: u64,
    found: &mut [Option<J::Item>],
    mut share: Vec<Done<J::Item>>,
)
    requires share { All (IsDone (J.has job.now) first (length found.old)) share.items }
    requires found { AreFound (J.has job.now) first found.old }
    ensures found { AreFound (J.has job.now) first found.new }
    ensures len { length found.new ≡ length found.old }
{
    for _ in 0..share.len() {
        if let Some(done) = share.pop() {
            put(job, first, found, done);
        }
    }
}

// Puts what one worker handed in.
fn put_share<J: Job>(
    job: &J,
    first: u64,
    count: u64,
    found: &mut [Option<J::Item>],
    share: Share<J::Item>,
) -> Result<(), AllocError>
    requires len { length found.old ≡ count }
    requires share { AreDone (J.has job.now) first count share }
    requires found { AreFound (J.has job.now) first found.old }
    ensures found { AreFound (J.has job.now) first found.new }
    ensures len { length found.new ≡ count }
{
    put_all(job, first, found, share?);
    Ok(())
}

// What the last of the workers that are left handed in.
fn last_share<J: Job>(
    _job: &J,
    first: u64,
    count: u64,
    shares: &mut Vec<Share<J::Item>>,
) -> Share<J::Item>
    requires some { 0 < vec_len shares.old }
    requires shares { All (AreDone (J.has _job.now) first count) shares.old.items }
    ensures share { AreDone (J.has _job.now) first count result }
    ensures shares { All (AreDone (J.has _job.now) first count) shares.new.items }
    ensures len { vec_len shares.new + 1 ≡ vec_len shares.old }
{
    match shares.pop() {
        Some(share) => share,
        None => Err(AllocError),
    }
}

// Puts what all workers handed in.
fn put_shares<J: Job>(
    job: &J,
    first: u64,
    count: u64,
    found: &mut [Option<J::Item>],
    mut shares: Vec<Share<J::Item>>,
) -> Result<(), AllocError>
    requires len { length found.old ≡ count }
    requires shares { All (AreDone (J.has job.now) first count) shares.items }
    requires found { AreFound (J.has job.now) first found.old }
    ensures found { AreFound (J.has job.now) first found.new }
    ensures len { length found.new ≡ count }
{
    for _ in 0..shares.len() {
        let share = last_share(job, first, count, &mut shares);
        put_share(job, first, count, found, share)?;
    }
    Ok(())
}

// Takes what stands at an index.
fn take_at<J: Job>(
    _job: &J,
    first: u64,
    found: &mut [Option<J::Item>],
    index: usize,
) -> Option<J::Item>
    requires within { index < length found.old }
    requires found { AreFound (J.has _job.now) first found.old }
    ensures item { IfSome result (J.has _job.now (first + index)) }
    ensures found { AreFound (J.has _job.now) first found.new }
    ensures len { length found.new ≡ length found.old }
{
    found[index].take()
}

// The item of a task, which is done here where no worker handed it in.
fn found_or_done<J: Job, G: Gate>(found: Option<J::Item>, job: &J, task: u64, gate: &G) -> J::Item
    requires asked { J.may job.now task }
    requires found { IfSome found (J.has job.now task) }
    ensures item { J.has job.now task result }
{
    match found {
        Some(item) => item,
        None => enter_and_work(job, task, gate),
    }
}

// The items of all tasks.
fn all_items<J: Job, G: Gate>(
    alloc: Global,
    job: &J,
    first: u64,
    count: u64,
    gate: &G,
    found: &mut [Option<J::Item>],
) -> Result<Vec<J::Item>, AllocError>
    requires len { length found.old ≡ count }
    requires room { first + count < 2 ^ 64 }
    requires asked { EachTask (J.may job.now) first count }
    requires found { AreFound (J.has job.now) first found.old }
    ensures len { IfOk result (λ items. vec_len items ≡ count) }
    ensures each { IfOk result (λ items. AreItems (J.has job.now) first items.items) }
{
    let mut items = Vec::with_capacity(alloc, found.len())?;
    for index in 0..found.len() {
        let item = take_at(job, first, found, index);
        items.push(found_or_done(item, job, first + index as u64, gate))?;
    }
    Ok(items)
}

/// Puts what the workers handed in in order, and does what is missing.
pub fn gather<J: Job, G: Gate>(
    alloc: Global,
    job: &J,
    first: u64,
    count: u64,
    gate: &G,
    shares: Vec<Share<J::Item>>,
) -> Result<Vec<J::Item>, AllocError>
    requires room { first + count < 2 ^ 64 }
    requires asked { EachTask (J.may job.now) first count }
    requires shares { All (AreDone (J.has job.now) first count) shares.items }
    ensures len { IfOk result (λ items. vec_len items ≡ count) }
    ensures each { IfOk result (λ items. AreItems (J.has job.now) first items.items) }
{
    let mut found = none_found(alloc, job, first, count)?;
    let row = found.as_mut_slice();
    put_shares(job, first, count, row, shares)?;
    all_items(alloc, job, first, count, gate, row)
}
