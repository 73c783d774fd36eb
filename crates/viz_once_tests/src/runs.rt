//! Runs over files in memory, for the tests.

use std::alloc::Global;
use std::test::Fail;
use viz_base::{Bytes, FILE_LIMIT, FileEntry, MemoryOut, MemoryPort, Out, Port, Word};
use viz_once::{read_once, run_once};
use viz_told::Status;

// The words behind `once`.
pub fn words(alloc: Global, line: &str) -> Result<Vec<Bytes>, Fail> {
    let mut words = Vec::new(alloc);
    for word in line.split_whitespace() {
        words.push(Bytes::new(word.as_bytes().to_vec(alloc)?))?;
    }
    Ok(words)
}

// These parts, one after the other.
pub fn joined(alloc: Global, parts: &[&[u8]]) -> Result<Vec<u8>, Fail> {
    let mut all = Vec::new(alloc);
    for part in parts {
        all.extend_from_slice(part)?;
    }
    Ok(all)
}

// The file `a.vtk` with these bytes, and `o.vtk` with the text `old`.
pub fn files(alloc: Global, bytes: &[u8]) -> Result<Vec<FileEntry>, Fail> {
    let mut files = Vec::new(alloc);
    for (name, bytes) in [("a.vtk", bytes), ("o.vtk", b"old".as_slice())] {
        files.push(FileEntry {
            name: Word::new(name.as_bytes()).ok_or("no name")?,
            bytes: Bytes::new(bytes.to_vec(alloc)?),
        })?;
    }
    Ok(files)
}

// A port with these files, of which no call fails.
pub fn port(alloc: Global, bytes: &[u8]) -> Result<MemoryPort, Fail> {
    let files = files(alloc, bytes)?;
    Ok(MemoryPort::new(alloc, files, FILE_LIMIT, Vec::new(alloc)))
}

// Runs the command of the line over these ports, and gives the status.
pub fn run<P: Port, O: Out>(
    alloc: Global,
    line: &str,
    ports: &mut Vec<P>,
    out: &mut O,
) -> Result<Status, Fail> {
    let words = words(alloc, line)?;
    let once = read_once(&words).ok_or("no command")?;
    Ok(run_once(alloc, &once, ports, out))
}

// Runs the line over one port, and gives the status, the text put and the port.
pub fn ran<P: Port + Send + Drop>(
    alloc: Global,
    line: &str,
    port: P,
    failing_puts: Vec<u64>,
) -> Result<(Status, String, Vec<P>), Fail> {
    let mut ports = Vec::new(alloc);
    ports.push(port).ok().ok_or("no room")?;
    let mut out = MemoryOut::new(alloc, failing_puts);
    let status = run(alloc, line, &mut ports, &mut out)?;
    let text = String::from_utf8(out.text().to_vec(alloc)?)?;
    Ok((status, text, ports))
}

// The same of a line over these bytes, where no call fails.
pub fn ran_on(
    alloc: Global,
    line: &str,
    bytes: &[u8],
) -> Result<(Status, String, Vec<MemoryPort>), Fail> {
    let port = port(alloc, bytes)?;
    ran(alloc, line, port, Vec::new(alloc))
}

pub fn output_of(ports: &Vec<MemoryPort>) -> Option<&[u8]> {
    match ports.first()?.file("o.vtk") {
        Some(bytes) => Some(bytes.list()),
        None => None,
    }
}

// The text with `new` in place of the first `old`.
pub fn replaced(alloc: Global, whole: &str, old: &str, new: &str) -> Result<String, Fail> {
    let (front, behind) = whole.split_once(old).ok_or("no such words")?;
    Ok(format!(in alloc; "{front}{new}{behind}")?)
}
