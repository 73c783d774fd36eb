//! A port to files in memory, with calls that fail by a list.

ghost use Rattle.std.specs.Prelude.{◌≡◌, ℕ, ◌+◌, ◌^◌, ◌<◌, ◌≤◌, ◌↔◌, ◌⊎◌, ◌++◌, [], true, Some};
ghost use Rattle.std.specs.Prelude.{List, length, IsNone, IfOk, IsErrOf};
ghost use Rattle.std.specs.Option.{option_copied};
ghost use Rattle.viz_base.specs.Names.{IsName};
ghost use Rattle.viz_base.specs.Entries.{file_at, Puts};
ghost use Rattle.viz_base.specs.Faults.{read_faults, write_faults};
ghost use Rattle.viz_base.specs.Calls.{read_calls, write_calls};
ghost use Rattle.viz_base.specs.Files.{IsLonger};
ghost use Rattle.viz_base.specs.MemoryPort.{kept_at, next_kept, next_read, next_write, left_of};

use crate::bytes::Bytes;
use crate::call::{Call, WriteAnswer, note_read, write_item};
use crate::files::{find, replace, taken};
use crate::long_text::LongText;
use crate::port::Port;
use crate::refusal::{ReadRefusal, WriteRefusal};
use crate::word::Word;
use std::alloc::Global;
use std::marker::Model;

/// A file in memory.
#[derive(Debug, Drop)]
pub struct FileEntry {
    pub name: Word,
    pub bytes: Bytes,
}

/// A call that is to fail: its number, from 1 over reads and writes together, and how many bytes a
/// failing write keeps.
#[derive(Clone, Copy, PartialEq, Eq, Debug)]
pub struct FailAt {
    pub call: u64,
    pub kept: u64,
}

/// A port to files in memory that keeps the list of its calls. The listed calls fail, and so do
/// reads of a missing name and writes to a name that no file can have. Each failure raises the
/// count by one.
#[derive(Debug, Drop)]
pub struct MemoryPort {
    files: Vec<FileEntry>,
    limit: u64,
    failing: Vec<FailAt>,
    calls: Vec<Call>,
    faults: u64,
}

impl Model for MemoryPort {
    ghost use Rattle.viz_base.specs.MemoryPort.{Store};

    ghost Value = { Store };

    ghost view = { λ p. record {
      files = p.files.items;
      limit = p.limit;
      failing = p.failing.items;
      calls = p.calls.items;
      faults = p.faults;
    } };
}

// How many bytes the call after `made` others keeps, if it is listed to fail.
fn listed(failing: &[FailAt], made: usize) -> Option<u64>
    ensures { result ≡ kept_at failing.now (made + 1) }
{
    for fail in failing {
        if fail.call > 0 && fail.call - 1 == made as u64 {
            return Some(fail.kept);
        }
    }
    None
}

// What a write to this name answers.
fn write_answer(kept: Option<u64>, name: &[u8]) -> WriteAnswer
    ensures { result ≡ WriteAnswer.Written ↔ (IsNone kept × IsName name.now) }
{
    if kept.is_none() && Word::new(name).is_some() {
        WriteAnswer::Written
    } else {
        WriteAnswer::Failed
    }
}

// The bytes that a write leaves in the file: all, or as many as a listed call keeps.
fn left(bytes: &[u8], kept: Option<u64>) -> &[u8]
    ensures { result.now ≡ left_of kept bytes.now }
{
    match kept {
        Some(kept) if kept < bytes.len() as u64 => &bytes[..kept as usize],
        _ => bytes,
    }
}

impl MemoryPort {
    /// A port with these files. Of files of one name the first is read and replaced.
    pub fn new(alloc: Global, files: Vec<FileEntry>, limit: u64, failing: Vec<FailAt>) -> MemoryPort
        ensures files { (name : List ℕ)
            → ⟦<MemoryPort as Port>⟧.files result name ≡ file_at files.items name }
        ensures calls { ⟦<MemoryPort as Port>⟧.calls result ≡ [] }
        ensures limit { ⟦<MemoryPort as Port>⟧.limit result ≡ limit }
        ensures faults { ⟦<MemoryPort as Port>⟧.faults result ≡ 0 }
        ensures failing { result.failing ≡ failing.items }
    {
        MemoryPort {
            files,
            limit,
            failing,
            calls: Vec::new(alloc),
            faults: 0,
        }
    }

    /// The file of this name. It is no call: nothing is noted.
    pub fn file(&self, name: &str) -> Option<&Bytes>
        ensures value { option_copied result ≡ ⟦<MemoryPort as Port>⟧.files self.now name.now }
    {
        find(&self.files, name.as_bytes())
    }

    // What a read of this name answers, if there is memory for its item.
    fn answer(&self, alloc: Global, name: &[u8]) -> Result<Bytes, ReadRefusal>
        ensures { IsErrOf result ReadRefusal.Memory ⊎ (result ≡ next_read self.now name.now) }
    {
        if listed(&self.failing, self.calls.len()).is_some() {
            return Err(ReadRefusal::Failed);
        }
        match find(&self.files, name) {
            Some(bytes) => taken(alloc, bytes, self.limit),
            None => Err(ReadRefusal::Failed),
        }
    }
}

impl Port for MemoryPort {
    ghost tells_files = { true };

    ghost tells_calls = { true };

    ghost files = { λ port. file_at port.files };

    ghost calls = { λ port. port.calls };

    ghost limit = { λ port. port.limit };

    ghost faults = { λ port. port.faults };

    fn read(&mut self, alloc: Global, name: &str) -> Result<Bytes, ReadRefusal>
        ensures answers { IsErrOf result ReadRefusal.Memory
            ⊎ (result ≡ next_read self.old name.now) }

        // The call and its failure are noted, and nothing else changes.
        ensures after { self.new ≡ record self.old {
          calls = self.old.calls ++ read_calls name.now result;
          faults = read_faults self.old.faults result;
        } }
        ensures later { self.old.faults ≤ self.new.faults }
        ensures counted { self.new.faults < 2 ^ 64 }
    {
        let faults = self.faults;
        let name = name.as_bytes();
        let answer = self.answer(alloc, name);
        let answer = note_read(alloc, &mut self.calls, name, answer);
        if let Err(ReadRefusal::Failed) = answer {
            self.faults = faults.saturating_add(1);
        }
        answer
    }

    fn write(&mut self, alloc: Global, name: &str, text: &LongText) -> Result<(), WriteRefusal>
        ensures answers { IsErrOf result WriteRefusal.Memory
            ⊎ (result ≡ next_write self.old name.now) }

        // The file, where it can have the name.
        ensures put { IsName name.now → IsErrOf result WriteRefusal.Memory
            ⊎ Puts self.old.files self.new.files name.now (left_of (next_kept self.old) text.now) }
        ensures no_name { (IsName name.now → ⊥) → self.new.files ≡ self.old.files }
        ensures err { IsErrOf result WriteRefusal.Memory → self.new.files ≡ self.old.files }

        // The call and its failure are noted, and nothing else changes.
        ensures after { self.new ≡ record self.old {
          files = self.new.files;
          calls = self.old.calls ++ write_calls name.now text.now result;
          faults = write_faults self.old.faults result;
        } }
        ensures later { self.old.faults ≤ self.new.faults }
        ensures counted { self.new.faults < 2 ^ 64 }
    {
        let faults = self.faults;
        let name = name.as_bytes();
        let kept = listed(&self.failing, self.calls.len());
        let answer = write_answer(kept, name);
        let Ok(bytes) = text.to_bytes(alloc) else {
            return Err(WriteRefusal::Memory);
        };
        let bytes = bytes.list();
        let Ok(item) = write_item(alloc, name, bytes, answer) else {
            return Err(WriteRefusal::Memory);
        };
        if self.calls.reserve(1).is_err() {
            return Err(WriteRefusal::Memory);
        }
        if replace(alloc, &mut self.files, name, left(bytes, kept)).is_err() {
            return Err(WriteRefusal::Memory);
        }
        self.calls.push_reserved(item);
        match answer {
            WriteAnswer::Written => Ok(()),
            WriteAnswer::Failed => {
                self.faults = faults.saturating_add(1);
                Err(WriteRefusal::Failed)
            }
        }
    }
}
