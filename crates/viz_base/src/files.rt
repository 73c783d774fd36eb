//! Files in memory, as both memory ports keep them.

ghost use Rattle.std.specs.Prelude.{◌≡◌, ◌⊎◌, Some, IfOk, OnOk, OnErr, IsErrOf};
ghost use Rattle.std.specs.Option.{option_copied};
ghost use Rattle.viz_base.specs.Names.{IsName};
ghost use Rattle.viz_base.specs.Entries.{file_at, read_of, IsPlace, Puts};

use crate::bytes::Bytes;
use crate::memory_port::FileEntry;
use crate::refusal::ReadRefusal;
use crate::word::Word;
use std::alloc::{AllocError, Global};

// The bytes of the first file with this name.
pub(crate) fn find<'a>(files: &'a [FileEntry], name: &[u8]) -> Option<&'a Bytes>
    ensures { option_copied result ≡ file_at files.now name.now }
{
    for file in files {
        if file.name.bytes() == name {
            return Some(&file.bytes);
        }
    }
    None
}

// The place of the first file with this name.
fn place(files: &[FileEntry], name: &[u8]) -> Option<usize>
    ensures { IsPlace files.now name.now result }
{
    for (i, file) in files.iter().enumerate() {
        if file.name.bytes() == name {
            return Some(i);
        }
    }
    None
}

// Replaces the file of this name, or adds it.
fn put(files: &mut Vec<FileEntry>, name: Word, bytes: Bytes) -> Result<(), AllocError>
    ensures ok { OnOk result (Puts files.old.items files.new.items name bytes) }
    ensures err { OnErr result (files.new.items ≡ files.old.items) }
{
    match place(files, name.bytes()) {
        Some(i) => files[i] = FileEntry { name, bytes },
        None => files.push(FileEntry { name, bytes })?,
    }
    Ok(())
}

// A copy of the bytes.
pub(crate) fn copy_of(alloc: Global, bytes: &[u8]) -> Result<Bytes, AllocError>
    ensures { IfOk result (λ copy. copy ≡ bytes.now) }
{
    Ok(Bytes::new(Vec::from_slice(alloc, bytes)?))
}

// Replaces the file of this name, or adds it, where a file can have the name.
pub(crate) fn replace(
    alloc: Global,
    files: &mut Vec<FileEntry>,
    name: &[u8],
    bytes: &[u8],
) -> Result<(), AllocError>
    ensures ok { OnOk result (IsName name.now
        → Puts files.old.items files.new.items name.now bytes.now) }
    ensures no_name { (IsName name.now → ⊥) → files.new.items ≡ files.old.items }
    ensures err { OnErr result (files.new.items ≡ files.old.items) }
{
    match Word::new(name) {
        Some(name) => put(files, name, copy_of(alloc, bytes)?),
        None => Ok(()),
    }
}

// What a read of a file of these bytes takes.
pub(crate) fn taken(alloc: Global, bytes: &Bytes, limit: u64) -> Result<Bytes, ReadRefusal>
    ensures { IsErrOf result ReadRefusal.Memory ⊎ (result ≡ read_of (Some bytes.now) limit) }
{
    let bytes = bytes.list();
    if bytes.len() as u64 > limit {
        return Err(ReadRefusal::TooLong(limit + 1));
    }
    copy_of(alloc, bytes).map_err(|_| ReadRefusal::Memory)
}
