//! The calls of a port, as items of a list.

ghost use Rattle.std.specs.Prelude.{◌≡◌, ◌⊎◌, [], ◌∷◌, ◌++◌, IfOk, IsErrOf};
ghost use Rattle.viz_base.specs.Calls.{read_calls};

use crate::bytes::Bytes;
use crate::files::copy_of;
use crate::refusal::ReadRefusal;
use std::alloc::{AllocError, Global};

/// A call of a port, with its answer. A call that answered Memory is none.
#[derive(Debug, Drop)]
pub enum Call {
    /// A read of the file of this name.
    Read {
        name: Bytes,
        answer: ReadAnswer,
    },
    /// A write of these bytes to the file of this name.
    Write {
        name: Bytes,
        bytes: Bytes,
        answer: WriteAnswer,
    },
}

/// What a read answered.
#[derive(Debug, Drop)]
pub enum ReadAnswer {
    /// Ok, with these bytes.
    Given(Bytes),
    /// The file is too long; so many bytes were taken.
    TooLong(u64),
    /// It failed.
    Failed,
}

/// What a write answered.
#[derive(Clone, Copy, PartialEq, Eq, Debug)]
pub enum WriteAnswer {
    /// Ok: all bytes were written.
    Written,
    /// It failed.
    Failed,
}

// The item of a read with this answer. There is none of a read that answers Memory.
fn read_item(
    alloc: Global,
    name: &[u8],
    answer: &Result<Bytes, ReadRefusal>,
) -> Result<Call, AllocError>
    ensures { IfOk result (λ call. read_calls name.now answer.now ≡ call ∷ []) }
{
    let answer = match answer {
        Ok(bytes) => ReadAnswer::Given(copy_of(alloc, bytes.list())?),
        Err(ReadRefusal::TooLong(count)) => ReadAnswer::TooLong(*count),
        Err(ReadRefusal::Failed) => ReadAnswer::Failed,
        Err(ReadRefusal::Memory) => return Err(AllocError),
    };
    let name = copy_of(alloc, name)?;
    Ok(Call::Read { name, answer })
}

// Notes a read with this answer, and passes the answer on. Without room for the item it answers
// Memory.
pub(crate) fn note_read(
    alloc: Global,
    calls: &mut Vec<Call>,
    name: &[u8],
    answer: Result<Bytes, ReadRefusal>,
) -> Result<Bytes, ReadRefusal>
    ensures answers { IsErrOf result ReadRefusal.Memory ⊎ (result ≡ answer) }
    ensures told { calls.new.items ≡ calls.old.items ++ read_calls name.now result }
{
    let Ok(item) = read_item(alloc, name, &answer) else {
        return Err(ReadRefusal::Memory);
    };
    if calls.push(item).is_err() {
        return Err(ReadRefusal::Memory);
    }
    answer
}

// The item of a write of these bytes with this answer.
pub(crate) fn write_item(
    alloc: Global,
    name: &[u8],
    bytes: &[u8],
    answer: WriteAnswer,
) -> Result<Call, AllocError>
    ensures { IfOk result (λ call. call ≡ Call.Write name.now bytes.now answer) }
{
    let name = copy_of(alloc, name)?;
    let bytes = copy_of(alloc, bytes)?;
    Ok(Call::Write {
        name,
        bytes,
        answer,
    })
}
