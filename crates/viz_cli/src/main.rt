//! The program: the words of its command line, ports over a folder, and the status.
#![tactic(auto)]

mod options;
mod progress;
mod std_in;

use options::{LineOptions, read_options, shown};
use progress::Progress;
use std::alloc::{AllocError, Global};
use std::io::{ErrorKind, IsTerminal};
use std::process::ExitCode;
use std::rt::{Env, Files};
use std::{env, io};
use std_in::StdIn;
use viz_base::{ACTORS, Bytes, DirPort, FILE_LIMIT, Out, StdOut, WriteRefusal};
use viz_console::{End, serve};
use viz_session::{Status, run};
use viz_told::usage_line;

/// The program's name in front of the words that clap reads.
const NAME: &str = "vizrun";

/// The folder that vizrun is started in, which the empty text names too.
const HERE: &str = ".";

/// What a person is told in front of a session.
const WELCOME: &str = "\
A command a line, as `add file src`; `quit` or control-D ends. The words stand in docs/CONSOLE.md.
";

/// The words behind the program's own name.
fn words<R: Env + AllocGlobal>(rt: &R) -> io::Result<Vec<String>> {
    let mut words = Vec::new(rt.alloc());
    for word in env::args(rt)?.skip(1) {
        words.push(word)?;
    }
    Ok(words)
}

/// Whether a word is the option `--dir`.
fn is_folder(word: &String) -> bool {
    word.as_str() == "--dir"
}

/// Whether a word is the option `--progress`.
fn is_progress(word: &String) -> bool {
    word.as_str() == "--progress"
}

/// How many words in front are options, each at most once, where the first one is `--progress`.
fn words_with_progress(rest: &[String]) -> usize {
    match rest {
        [option] if is_folder(option) => 2,
        [option, _, ..] if is_folder(option) => 3,
        _ => 1,
    }
}

/// How many words in front are options, each at most once and in any order: `--progress`, and
/// `--dir` with its value.
fn option_words(words: &[String]) -> usize {
    match words {
        [option, rest @ ..] if is_progress(option) => words_with_progress(rest),
        [option] if is_folder(option) => 1,
        [option, _, more, ..] if is_folder(option) && is_progress(more) => 3,
        [option, _, ..] if is_folder(option) => 2,
        _ => 0,
    }
}

/// Whether help or the version is asked for, by a word that stands alone.
fn asks_to_be_shown(words: &[String]) -> bool {
    match words {
        [word] => word.as_str() == "--help" || word.as_str() == "--version",
        _ => false,
    }
}

/// The program's name, and so many words.
fn line(alloc: Global, words: &[String], count: usize) -> Result<Vec<&str>, AllocError> {
    let mut line = Vec::new(alloc);
    line.push(NAME)?;
    for word in words.iter().take(count) {
        line.push(word.as_str())?;
    }
    Ok(line)
}

/// The words behind so many, as bytes.
fn bytes(alloc: Global, words: &[String], count: usize) -> Result<Vec<Bytes>, AllocError> {
    let mut list = Vec::new(alloc);
    for word in words.iter().skip(count) {
        list.push(Bytes::new(Vec::from_slice(alloc, word.as_bytes())?))?;
    }
    Ok(list)
}

/// A port for each actor.
fn ports<'a, R: Files + Sync>(
    rt: &'a R,
    alloc: Global,
    folder: &str,
) -> Result<Vec<DirPort<'a, R>>, AllocError> {
    let mut ports = Vec::with_capacity(alloc, ACTORS as usize)?;
    for _ in 0..ACTORS {
        ports.push(DirPort::new(rt, alloc, folder, FILE_LIMIT)?)?;
    }
    Ok(ports)
}

/// Puts the text of help or of the version.
fn put_shown<O: Out>(alloc: Global, out: &mut O, text: &[u8]) -> Status {
    match out.put(alloc, text) {
        Ok(()) => Status::Done,
        Err(WriteRefusal::Failed) => Status::Fault,
        Err(WriteRefusal::Memory) => Status::Memory,
    }
}

/// Puts the line of words that are no command.
fn put_usage<O: Out>(alloc: Global, out: &mut O) -> Status {
    let _ = out.put(alloc, usage_line());
    Status::Usage
}

/// The folder of a name.
fn folder_of(alloc: Global, name: &str) -> Result<String, AllocError> {
    if name.is_empty() {
        return String::from_str(alloc, HERE);
    }
    String::from_str(alloc, name)
}

/// What the command line asks for.
#[derive(Drop)]
enum Wanted {
    /// A run of these words over a folder, whose progress may be shown.
    Run {
        folder: String,
        words: Vec<Bytes>,
        progress: bool,
    },
    /// Nothing more: this is the status.
    Ended(Status),
}

/// What the options in front of the words ask for, and the words behind them.
fn asked_of(alloc: Global, words: &[String]) -> Result<Wanted, AllocError> {
    let front = option_words(words);
    let line = line(alloc, words, front)?;
    match read_options(alloc, &line) {
        Ok(LineOptions { folder, progress }) => Ok(Wanted::Run {
            folder: folder_of(alloc, folder)?,
            words: bytes(alloc, words, front)?,
            progress,
        }),
        Err(status) => Ok(Wanted::Ended(status)),
    }
}

/// Puts the text of help or of the version.
fn show<O: Out>(alloc: Global, words: &[String], out: &mut O) -> Result<Status, AllocError> {
    let line = line(alloc, words, 1)?;
    match shown(alloc, &line) {
        Some(text) => Ok(put_shown(alloc, out, text.as_bytes())),
        None => Err(AllocError),
    }
}

/// What the words ask for, where it isn't answered at once.
fn asked<O: Out>(alloc: Global, words: &[String], out: &mut O) -> Wanted {
    if asks_to_be_shown(words) {
        return Wanted::Ended(show(alloc, words, out).unwrap_or(Status::Memory));
    }
    match asked_of(alloc, words) {
        Ok(Wanted::Ended(Status::Usage)) => Wanted::Ended(put_usage(alloc, out)),
        Ok(asked) => asked,
        Err(_) => Wanted::Ended(Status::Memory),
    }
}

/// Whether the words ask for a session: the word `console`, alone.
fn asks_for_session(words: &[Bytes]) -> bool {
    match words {
        [word] => word.list() == b"console".as_slice(),
        _ => false,
    }
}

/// The input of a session. A person is told what to type, and has a prompt.
fn welcomed<R: Input + Eprint>(rt: &R, is_person: bool) -> StdIn<'_, R> {
    if is_person {
        let _ = eprint!(rt; "{WELCOME}");
    }
    StdIn::new(rt, is_person)
}

/// The status of a session that ended so.
fn status_of(end: End) -> Status {
    match end {
        End::Closed | End::Quit => Status::Done,
        End::TooLong => Status::Script,
        End::Fault => Status::Fault,
        End::Memory => Status::Memory,
    }
}

/// The code of a status.
fn code(status: Status) -> ExitCode {
    ExitCode::from(status as u8)
}

fn main(rt: HostRuntime) -> ExitCode {
    let alloc = rt.alloc();
    let mut out = StdOut::new(&rt);
    let words = match words(&rt) {
        Ok(words) => words,
        Err(e) if e.kind() == ErrorKind::OutOfMemory => return code(Status::Memory),
        Err(_) => return code(put_usage(alloc, &mut out)),
    };
    let (folder, words, progress) = match asked(alloc, &words, &mut out) {
        Wanted::Run {
            folder,
            words,
            progress,
        } => (folder, words, progress),
        Wanted::Ended(status) => return code(status),
    };
    let Ok(mut desk) = DirPort::new(&rt, alloc, folder.as_str(), FILE_LIMIT) else {
        return code(Status::Memory);
    };
    let gate = Progress::new(&rt, progress && rt.stderr().is_terminal());
    if asks_for_session(&words) {
        let mut input = welcomed(&rt, rt.stdin().is_terminal() && rt.stderr().is_terminal());
        let end = serve(&rt, &mut input, &mut desk, &mut out, &gate);
        gate.end();
        return code(status_of(end));
    }
    let Ok(mut ports) = ports(&rt, alloc, folder.as_str()) else {
        return code(Status::Memory);
    };
    let status = run(&rt, alloc, &words, &mut desk, &mut ports, &mut out, &gate);
    gate.end();
    code(status)
}
