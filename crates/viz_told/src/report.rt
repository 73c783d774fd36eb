//! The text of an outcome put, and the status by what the put answered.

ghost use Rattle.std.specs.Prelude.{◌≡◌, Result};
ghost use Rattle.viz_base.specs.declared.refusal.WriteRefusal.{WriteRefusal as Refusal};
ghost use Rattle.viz_told.specs.Told.{IsPut, IsTold, bytes_of, status_at_fault, status_at_memory};
ghost use Rattle.viz_told.specs.Told.{status_after};

use crate::lines::memory_line;
use crate::status::Status;
use crate::tells::Tells;
use crate::text::Text;
use std::alloc::Global;
use viz_base::{Out, WriteRefusal};

/// The status where the put failed.
fn status_at_fault(status: Status) -> Status
    ensures { result ≡ status_at_fault status }
{
    match status {
        Status::Usage | Status::Script | Status::Memory => status,
        Status::Done | Status::Refused | Status::Fault => Status::Fault,
    }
}

/// The status where memory ran out at the put.
fn status_at_memory(status: Status) -> Status
    ensures { result ≡ status_at_memory status }
{
    match status {
        Status::Usage => Status::Usage,
        _ => Status::Memory,
    }
}

/// The status by what the put answered.
fn status_after(status: Status, answer: &Result<(), WriteRefusal>) -> Status
    ensures { result ≡ status_after status answer.now }
{
    match answer {
        Ok(()) => status,
        Err(WriteRefusal::Failed) => status_at_fault(status),
        Err(WriteRefusal::Memory) => status_at_memory(status),
    }
}

/// The bytes of a text.
fn bytes_of(text: &Text) -> &[u8]
    ensures { result.now ≡ bytes_of text.now }
{
    match text {
        Text::Fixed(bytes) => bytes,
        Text::Made(bytes) => bytes.list(),
    }
}

/// Puts a text, once.
fn put<O: Out>(alloc: Global, out: &mut O, text: &[u8], status: Status) -> Status
    ensures { (answer : Result (Unit {0}) Refusal) × (result ≡ status_after status answer)
        × IsPut O.Out text.now answer out.old out.new }
{
    let answer = out.put(alloc, text);
    status_after(status, &answer)
}

/// Puts the text of an outcome, once, and gives the status. Where memory runs out at the making of
/// the text, that is told in its place.
pub fn tell<T: Tells, O: Out>(alloc: Global, out: &mut O, outcome: &T) -> Status
    ensures value { IsTold O.Out (T.telling outcome.now) result out.old out.new }
{
    match outcome.text(alloc) {
        Ok(text) => put(alloc, out, bytes_of(&text), outcome.status()),
        Err(_) => put(alloc, out, memory_line(), Status::Memory),
    }
}
