//! The port to a real folder: a trusted edge, which tells neither files nor calls.

ghost use Rattle.std.specs.Prelude.{◌≡◌, ℕ, ◌+◌, ◌<◌, ◌≤◌, ◌++◌, [], false, None, length, take};
ghost use Rattle.std.specs.Prelude.{drop, vec_len, string_bytes, codes, IfOk, OnOk, IfSome};
ghost use Rattle.std.specs.Prelude.{IsErrOf};
ghost use Rattle.std.specs.Io.{ReadsAtMost};
ghost use Rattle.std.specs.Io.KnownBytes.{Consumes, Appends, IsAtEnd};
ghost use Rattle.viz_base.specs.Refusals.{IsWithin, NeverTooLong};
ghost use Rattle.viz_base.specs.Readers.{Gains};

use crate::bytes::Bytes;
use crate::long_text::LongText;
use crate::port::Port;
use crate::refusal::{ReadRefusal, WriteRefusal};
use std::alloc::{AllocError, Global};
use std::fs::{File, OpenFile};
use std::io::{ErrorKind, Read, Write};
use std::marker::Model;
use std::rt::Files;

// The greatest number of bytes of one real read.
const PIECE: usize = 65_536;

/// A port to the files of a folder. Its count of faults rises at each failure.
#[derive(Drop)]
pub struct DirPort<'a, R: Files + Sync> {
    rt: &'a R,
    folder: String,
    limit: u64,
    faults: u64,
}

impl<'a, R: Files + Sync> Model for DirPort<'a, R> {
    ghost use Rattle.std.specs.Prelude.{string_bytes};
    ghost use Rattle.viz_base.specs.DirPort.{Folder};

    ghost Value = { Folder };

    ghost view = { λ p. record {
      path = string_bytes p.folder;
      limit = p.limit;
      faults = p.faults;
    } };
}

// Where the file of this name lies.
fn path_of(alloc: Global, folder: &str, name: &str) -> Result<String, AllocError>
    ensures { IfOk result (λ path. string_bytes path ≡ folder.now ++ codes "/" ++ name.now) }
{
    format!(in alloc; "{folder}/{name}")
}

// One real read, tried again where a signal interrupts it.
fn read_some<F: Read>(file: &mut F, bytes: &mut [u8]) -> Result<usize, ReadRefusal>
    ensures within { ReadsAtMost result bytes.new }
    ensures taken { IfOk result (λ n.
        Consumes (F.remaining file.old) (F.remaining file.new) (take n bytes.new)) }
    ensures end { IfOk result (λ n. n ≡ 0 → 0 < length bytes.new → IsAtEnd (F.remaining file.new)) }
    ensures refused { NeverTooLong result }
{
    for _ in 0..u64::MAX {
        match file.read(bytes) {
            Ok(n) => return Ok(n),
            Err(e) if e.kind() == ErrorKind::Interrupted => {}
            Err(_) => return Err(ReadRefusal::Failed),
        }
    }
    Err(ReadRefusal::Failed)
}

// One real read behind the first `start` bytes.
fn read_at<F: Read>(file: &mut F, bytes: &mut [u8], start: usize) -> Result<usize, ReadRefusal>
    requires { start < length bytes.old }
    ensures front { take start bytes.new ≡ take start bytes.old }
    ensures within { IfOk result (λ n. start + n ≤ length bytes.new) }
    ensures taken { IfOk result (λ n.
        Consumes (F.remaining file.old) (F.remaining file.new) (take n (drop start bytes.new))) }
    ensures end { IfOk result (λ n. n ≡ 0 → IsAtEnd (F.remaining file.new)) }
    ensures refused { NeverTooLong result }
{
    read_some(file, &mut bytes[start..])
}

// How many bytes the next real read takes at most: what is reserved, if anything is.
fn piece_of(bytes: &Vec<u8>, most: u64) -> usize
    requires { 0 < most }
    ensures some { 0 < result }
    ensures within { result ≤ most }
{
    let reserved = bytes.capacity().saturating_sub(bytes.len());
    let piece = if reserved == 0 {
        PIECE
    } else {
        reserved.min(PIECE)
    };
    piece.min(most as usize)
}

// Appends what one real read gives, at most so many bytes. It gives none at the end of the file.
fn read_more<F: Read>(file: &mut F, bytes: &mut Vec<u8>, most: u64) -> Result<usize, ReadRefusal>
    requires { 0 < most }
    ensures gains { IfOk result (Gains (F.remaining file.old) (F.remaining file.new)
        bytes.old.items bytes.new.items) }
    ensures within { IfOk result (λ n. n ≤ most) }
    ensures refused { NeverTooLong result }
{
    let start = bytes.len();
    let Some(end) = start.checked_add(piece_of(bytes, most)) else {
        return Err(ReadRefusal::Memory);
    };
    if bytes.resize(end, 0).is_err() {
        return Err(ReadRefusal::Memory);
    }
    let n = read_at(file, bytes, start)?;
    bytes.truncate(start + n);
    Ok(n)
}

// The file's bytes from here to its end, if they are within the limit.
fn read_rest<F: Read>(file: &mut F, mut bytes: Vec<u8>, limit: u64) -> Result<Bytes, ReadRefusal>
    requires { bytes.items ≡ [] }
    ensures all { IfOk result (λ b. IfSome (F.remaining file.old) (λ xs. b ≡ xs)) }
    ensures within { IsWithin limit result }
    ensures longer { (taken : ℕ) → IsErrOf result (ReadRefusal.TooLong taken)
        → IfSome (F.remaining file.old) (λ xs. limit < length xs) }
{
    for _ in 0..u64::MAX {
        let most = (limit - bytes.len() as u64).saturating_add(1);
        if read_more(file, &mut bytes, most)? == 0 {
            return Ok(Bytes::new(bytes));
        }
        if bytes.len() as u64 > limit {
            return Err(ReadRefusal::TooLong(bytes.len() as u64));
        }
    }
    Err(ReadRefusal::Failed)
}

// Room for the file's bytes and one more, by the length that the system tells.
fn room_for<F: OpenFile>(alloc: Global, file: &F, limit: u64) -> Result<Vec<u8>, AllocError>
    ensures { IfOk result (λ bytes. bytes.items ≡ []) }
{
    let told = match file.metadata() {
        Ok(metadata) => metadata.len(),
        Err(_) => 0,
    };
    Vec::with_capacity(alloc, told.min(limit).saturating_add(1) as usize)
}

fn read_file<R: Files>(rt: &R, alloc: Global, path: &str, limit: u64) -> Result<Bytes, ReadRefusal>
    ensures { IsWithin limit result }
{
    let Ok(mut file) = File::open(rt, path) else {
        return Err(ReadRefusal::Failed);
    };
    let Ok(bytes) = room_for(alloc, &file, limit) else {
        return Err(ReadRefusal::Memory);
    };
    read_rest(&mut file, bytes, limit)
}

// Writes all the bytes, in as many real writes as it takes.
fn write_all<F: Write>(file: &mut F, bytes: &[u8]) -> Result<(), WriteRefusal>
    ensures { OnOk result (Appends (F.contents file.old) (F.contents file.new) bytes.now) }
{
    let mut rest = bytes;
    for _ in 0..u64::MAX {
        if rest.is_empty() {
            return Ok(());
        }
        match file.write(rest) {
            Ok(0) => return Err(WriteRefusal::Failed),
            Ok(n) => rest = &rest[n..],
            Err(e) if e.kind() == ErrorKind::Interrupted => {}
            Err(_) => return Err(WriteRefusal::Failed),
        }
    }
    Err(WriteRefusal::Failed)
}

// Writes all parts of a text, one after the other.
fn write_parts<F: Write>(file: &mut F, text: &LongText) -> Result<(), WriteRefusal>
    ensures { OnOk result (Appends (F.contents file.old) (F.contents file.new) text.now) }
{
    for part in text.parts() {
        write_all(file, part.get().list())?;
    }
    Ok(())
}

fn write_file<R: Files>(rt: &R, path: &str, text: &LongText) -> Result<(), WriteRefusal> {
    let Ok(mut file) = File::create(rt, path) else {
        return Err(WriteRefusal::Failed);
    };
    write_parts(&mut file, text)
}

impl<'a, R: Files + Sync> DirPort<'a, R> {
    /// A port to this folder.
    pub fn new(
        rt: &'a R,
        alloc: Global,
        folder: &str,
        limit: u64,
    ) -> Result<DirPort<'a, R>, AllocError>
        ensures path { IfOk result (λ port. port.path ≡ folder.now) }
        ensures limit { IfOk result (λ port. ⟦<DirPort<'a, R> as Port>⟧.limit port ≡ limit) }
        ensures faults { IfOk result (λ port. ⟦<DirPort<'a, R> as Port>⟧.faults port ≡ 0) }
    {
        let folder = String::from_str(alloc, folder)?;
        Ok(DirPort {
            rt,
            folder,
            limit,
            faults: 0,
        })
    }
}

impl<'a, R: Files + Sync> Port for DirPort<'a, R> {
    ghost tells_files = { false };

    ghost tells_calls = { false };

    ghost files = { λ _ _. None };

    ghost calls = { λ _. [] };

    ghost limit = { λ port. port.limit };

    ghost faults = { λ port. port.faults };

    fn read(&mut self, alloc: Global, name: &str) -> Result<Bytes, ReadRefusal> {
        let faults = self.faults;
        let Ok(path) = path_of(alloc, &self.folder, name) else {
            return Err(ReadRefusal::Memory);
        };
        let answer = read_file(self.rt, alloc, &path, self.limit);
        if let Err(ReadRefusal::Failed) = answer {
            self.faults = faults.saturating_add(1);
        }
        answer
    }

    fn write(&mut self, alloc: Global, name: &str, text: &LongText) -> Result<(), WriteRefusal> {
        let faults = self.faults;
        let Ok(path) = path_of(alloc, &self.folder, name) else {
            return Err(WriteRefusal::Memory);
        };
        let answer = write_file(self.rt, &path, text);
        if let Err(WriteRefusal::Failed) = answer {
            self.faults = faults.saturating_add(1);
        }
        answer
    }
}
