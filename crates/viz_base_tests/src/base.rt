//! Values counted by hand, and a real folder.

use std::alloc::Global;
use std::cmp::Ordering;
use std::collections::HashMap;
use std::fs;
use std::process::Abort;
use std::test::Fail;
use viz_base::{
    Bytes, DirPort, FailAt, FileEntry, Gate, Items, LongText, MemoryOut, MemoryPort, NeverFails,
    OpenGate, Out, Port, Shape, Shared, StdOut, Steps, Word,
};

const FAILED: &str = "[the read failed]";

const TOO_LONG: &str = "[the file is longer than the limit]";

// What a read answers: the bytes as text, or the refusal in brackets.
fn read<P: Port>(port: &mut P, alloc: Global, name: &str) -> Result<String, Fail> {
    match port.read(alloc, name) {
        Ok(bytes) => Ok(String::from_utf8(bytes.list().to_vec(alloc)?)?),
        Err(e) => Ok(format!(in alloc; "[{e}]")?),
    }
}

// Reads each name, and wants this answer.
fn reads<P: Port>(
    rt: &impl Abort,
    alloc: Global,
    port: &mut P,
    rows: &[(&str, &str)],
) -> Result<(), Fail> {
    for (name, want) in rows {
        let answer = read(port, alloc, name)?;
        assert!(rt; answer.as_str() == *want, "a read of {name}");
    }
    Ok(())
}

// The text in parts of one byte each, behind an empty one.
fn parted(alloc: Global, text: &str) -> Result<LongText, Fail> {
    let mut parts = LongText::of(alloc, Bytes::new(Vec::new(alloc)))?;
    for byte in text.as_bytes() {
        let part = Bytes::new(vec![in alloc; *byte]?);
        parts.push(Shared::new(alloc, part)?)?;
    }
    Ok(parts)
}

// Writes each text in parts, and wants it written or not.
fn writes<P: Port>(
    rt: &impl Abort,
    alloc: Global,
    port: &mut P,
    rows: &[(&str, &str, bool)],
) -> Result<(), Fail> {
    for (name, text, want) in rows {
        let text = parted(alloc, text)?;
        let written = port.write(alloc, name, &text).is_ok();
        assert!(rt; written == *want, "a write to {name}");
    }
    Ok(())
}

fn holds(file: Option<&Bytes>, want: &[u8]) -> bool {
    match file {
        Some(bytes) => bytes.list() == want,
        None => false,
    }
}

fn entry(alloc: Global, name: &str, text: &str) -> Result<FileEntry, Fail> {
    let name = Word::new(name.as_bytes()).ok_or("no name")?;
    let bytes = Bytes::new(text.as_bytes().to_vec(alloc)?);
    Ok(FileEntry { name, bytes })
}

fn two_files(alloc: Global) -> Result<Vec<FileEntry>, Fail> {
    let mut files = Vec::new(alloc);
    files.push(entry(alloc, "a", "one")?)?;
    files.push(entry(alloc, "b", "three")?)?;
    Ok(files)
}

#[test]
fn a_name_has_1_to_64_bytes(rt: HostRuntime) {
    let text = [b'n'; 65];
    for (len, want) in [(0, false), (1, true), (64, true), (65, false)] {
        let same = match Word::new(&text[..len]) {
            Some(word) => word.bytes() == &text[..len],
            None => false,
        };
        assert!(rt; same == want, "{len} bytes");
    }
}

#[test]
fn a_memory_port_fails_by_its_list(rt: HostRuntime) -> Result<(), Fail> {
    let alloc = rt.alloc();
    let failing = vec![in alloc; FailAt { call: 5, kept: 2 }, FailAt { call: 4, kept: 0 }]?;
    let mut port = MemoryPort::new(alloc, two_files(alloc)?, 4, failing);
    // Calls 1 to 4: a file, a missing one, one that is too long, and a listed call.
    reads(
        &rt,
        alloc,
        &mut port,
        &[("a", "one"), ("c", FAILED), ("b", TOO_LONG), ("a", FAILED)],
    )?;
    // Calls 5 to 8: a listed call keeps two bytes, and no file has the last name.
    writes(
        &rt,
        alloc,
        &mut port,
        &[
            ("a", "four", false),
            ("b", "z", true),
            ("c", "new", true),
            ("", "x", false),
        ],
    )?;
    reads(
        &rt,
        alloc,
        &mut port,
        &[("a", "fo"), ("b", "z"), ("c", "new"), ("", FAILED)],
    )?;
    assert!(rt; holds(port.file("a"), b"fo") && port.file("").is_none());
    Ok(())
}

#[test]
fn a_missing_file_is_empty_where_nothing_fails(rt: HostRuntime) -> Result<(), Fail> {
    let alloc = rt.alloc();
    let mut port = NeverFails::new(alloc, two_files(alloc)?, 4);
    reads(
        &rt,
        alloc,
        &mut port,
        &[("c", ""), ("a", "one"), ("b", TOO_LONG), ("", "")],
    )?;
    writes(
        &rt,
        alloc,
        &mut port,
        &[("c", "new", true), ("", "x", false)],
    )?;
    assert!(rt; holds(port.file("c"), b"new") && holds(port.file("d"), b""));
    Ok(())
}

#[test]
fn a_listed_put_appends_nothing(rt: HostRuntime) -> Result<(), Fail> {
    let alloc = rt.alloc();
    let mut out = MemoryOut::new(alloc, vec![in alloc; 2]?);
    for (text, want) in [("one ", true), ("two ", false), ("three", true)] {
        assert!(rt; out.put(alloc, text.as_bytes()).is_ok() == want, "{text}");
    }
    assert!(rt; out.text() == b"one three".as_slice());
    Ok(())
}

#[test]
fn a_folder_is_read_and_written(rt: HostRuntime) -> Result<(), Fail> {
    let alloc = rt.alloc();
    let folder = "viz_base_folder";
    let _ = fs::remove_dir_all(&rt, folder);
    fs::create_dir_all(&rt, "viz_base_folder/sub")?;
    let mut port = DirPort::new(&rt, alloc, folder, 8)?;
    reads(&rt, alloc, &mut port, &[("a", FAILED), ("sub", FAILED)])?;
    // Nine bytes are one too many; the shorter files replace the longer one.
    for (text, want) in [
        ("ninebytes", TOO_LONG),
        ("8 bytes.", "8 bytes."),
        ("short", "short"),
    ] {
        writes(
            &rt,
            alloc,
            &mut port,
            &[("a", text, true), ("sub", text, false)],
        )?;
        reads(&rt, alloc, &mut port, &[("a", want)])?;
    }
    fs::remove_dir_all(&rt, folder)?;
    Ok(())
}

#[test]
fn the_edges_answer(rt: HostRuntime) {
    let mut out = StdOut::new(&rt);
    assert!(rt; out.put(rt.alloc(), b"printed\n").is_ok());
    let shape = Shape {
        pieces: 64,
        workers: 1,
    };
    OpenGate.enter(u64::from(shape.pieces));
}

#[test]
fn names_compare_by_their_bytes(rt: HostRuntime) -> Result<(), Fail> {
    // The order of a dictionary: a shorter name stands before what it begins.
    for (left, right, want) in [
        ("a", "a", Ordering::Equal),
        ("a", "aa", Ordering::Less),
        ("b", "aa", Ordering::Greater),
        ("Z", "a", Ordering::Less),
    ] {
        let a = Word::new(left.as_bytes()).ok_or("no name")?;
        let b = Word::new(right.as_bytes()).ok_or("no name")?;
        assert!(rt; a.cmp(&b) == want, "{left} {right}");
        assert!(rt; a.partial_cmp(&b) == Some(want), "{left} {right}");
        assert!(rt; (a == b) == (want == Ordering::Equal), "{left} {right}");
        let mut seen = HashMap::new(rt.alloc());
        seen.insert(a, 1u8)?;
        assert!(rt;
            seen.get(&b).is_some() == (want == Ordering::Equal),
            "{left} {right}"
        );
    }
    Ok(())
}

#[test]
fn owners_share_a_list(rt: HostRuntime) -> Result<(), Fail> {
    let alloc = rt.alloc();
    let shared = Shared::new(alloc, Items::new([3, 1, 2].to_vec(alloc)?))?;
    let copy = shared.copy()?;
    let clone = copy.clone()?;
    drop(shared);
    assert_eq!(rt; copy.get().list(), [3, 1, 2].as_slice());
    assert_eq!(rt; clone.get().list(), [3, 1, 2].as_slice());
    let copy = match copy.try_unwrap() {
        Ok(_) => Err("the one owner of two")?,
        Err(copy) => copy,
    };
    drop(clone);
    match copy.try_unwrap() {
        Ok(items) => assert_eq!(rt; items.list(), [3, 1, 2].as_slice()),
        Err(_) => Err("an owner beside the last")?,
    }
    let taken = Items::new([7u8].to_vec(alloc)?).take();
    assert_eq!(rt; taken.as_slice(), [7].as_slice());
    let mut steps = Steps::new(taken);
    steps.tick();
    Ok(())
}
