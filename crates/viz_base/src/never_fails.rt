//! A port to files in memory that never fails.

ghost use Rattle.std.specs.Prelude.{◌≡◌, ℕ, ◌⊎◌, ◌++◌, [], true, Ok, Some, List, OnOk, IsErrOf};
ghost use Rattle.std.specs.Option.{option_copied};
ghost use Rattle.viz_base.specs.Names.{IsName};
ghost use Rattle.viz_base.specs.Calls.{read_calls, write_calls};
ghost use Rattle.viz_base.specs.Entries.{read_of, Puts};
ghost use Rattle.viz_base.specs.NeverFails.{present_at};

use crate::bytes::Bytes;
use crate::call::{Call, WriteAnswer, note_read, write_item};
use crate::files::{find, replace, taken};
use crate::long_text::LongText;
use crate::memory_port::FileEntry;
use crate::port::Port;
use crate::refusal::{ReadRefusal, WriteRefusal};
use crate::word::Word;
use std::alloc::Global;
use std::marker::Model;

/// A port to files in memory where every name has a file: one that was neither given nor written is
/// empty. No call fails. A write to a name that no file can have answers Memory.
#[derive(Debug, Drop)]
pub struct NeverFails {
    files: Vec<FileEntry>,
    limit: u64,
    calls: Vec<Call>,
    empty: Bytes,
}

impl Model for NeverFails {
    ghost use Rattle.std.specs.Prelude.{◌≡◌, []};
    ghost use Rattle.viz_base.specs.NeverFails.{Present};

    ghost Value = { Present };

    ghost view = { λ p. record { files = p.files.items; limit = p.limit; calls = p.calls.items } };

    ghost invariant = { λ p. p.empty ≡ [] };
}

impl NeverFails {
    /// A port with these files. Of files of one name the first is read and replaced.
    pub fn new(alloc: Global, files: Vec<FileEntry>, limit: u64) -> NeverFails
        ensures files { (name : List ℕ)
            → ⟦<NeverFails as Port>⟧.files result name ≡ Some (present_at files.items name) }
        ensures calls { ⟦<NeverFails as Port>⟧.calls result ≡ [] }
        ensures limit { ⟦<NeverFails as Port>⟧.limit result ≡ limit }
    {
        NeverFails {
            files,
            limit,
            calls: Vec::new(alloc),
            empty: Bytes::new(Vec::new(alloc)),
        }
    }

    /// The file of this name. It is no call: nothing is noted.
    pub fn file(&self, name: &str) -> Option<&Bytes>
        ensures value { option_copied result ≡ ⟦<NeverFails as Port>⟧.files self.now name.now }
    {
        Some(self.present(name.as_bytes()))
    }

    // The file of this name; an empty one where none was given or written.
    fn present(&self, name: &[u8]) -> &Bytes
        ensures { result.now ≡ present_at self.now.files name.now }
    {
        match find(&self.files, name) {
            Some(bytes) => bytes,
            None => &self.empty,
        }
    }
}

impl Port for NeverFails {
    ghost tells_files = { true };

    ghost tells_calls = { true };

    ghost files = { λ port name. Some (present_at port.files name) };

    ghost calls = { λ port. port.calls };

    ghost limit = { λ port. port.limit };

    ghost faults = { λ _. 0 };

    fn read(&mut self, alloc: Global, name: &str) -> Result<Bytes, ReadRefusal>
        ensures answers { IsErrOf result ReadRefusal.Memory
            ⊎ (result ≡ read_of (Some (present_at self.old.files name.now)) self.old.limit) }
        ensures after { self.new ≡ record self.old {
          calls = self.old.calls ++ read_calls name.now result;
        } }
    {
        let name = name.as_bytes();
        let answer = taken(alloc, self.present(name), self.limit);
        note_read(alloc, &mut self.calls, name, answer)
    }

    fn write(&mut self, alloc: Global, name: &str, text: &LongText) -> Result<(), WriteRefusal>
        ensures answers { IsErrOf result WriteRefusal.Memory ⊎ (result ≡ Ok tt) }
        ensures put { OnOk result (Puts self.old.files self.new.files name.now text.now) }
        ensures no_name { (IsName name.now → ⊥) → IsErrOf result WriteRefusal.Memory }
        ensures err { IsErrOf result WriteRefusal.Memory → self.new.files ≡ self.old.files }
        ensures after { self.new ≡ record self.old {
          files = self.new.files;
          calls = self.old.calls ++ write_calls name.now text.now result;
        } }
    {
        let name = name.as_bytes();
        if Word::new(name).is_none() {
            return Err(WriteRefusal::Memory);
        }
        let Ok(bytes) = text.to_bytes(alloc) else {
            return Err(WriteRefusal::Memory);
        };
        let bytes = bytes.list();
        let Ok(item) = write_item(alloc, name, bytes, WriteAnswer::Written) else {
            return Err(WriteRefusal::Memory);
        };
        if self.calls.reserve(1).is_err() {
            return Err(WriteRefusal::Memory);
        }
        if replace(alloc, &mut self.files, name, bytes).is_err() {
            return Err(WriteRefusal::Memory);
        }
        self.calls.push_reserved(item);
        Ok(())
    }
}
