//! The program's own options, and its help, by clap.

use clap::error::ErrorKind;
use clap::{Arg, ArgAction, Command, Error};
use std::alloc::{AllocError, Global};
use viz_session::Status;

/// What the commands are, and the statuses.
const COMMANDS: &str = "\
WORDS are one of:
  once IN OUT threshold LO HI  keep the values of an image from LO to HI
  once IN OUT contour V        cut the surface at V out of an image or a mesh
  strip IN OUT                 write the triangles of a mesh as strips
  clip IN OUT A B C R          keep what of an image's or a grid's tetrahedra lies
                               where A x + B y + C z is at least R
  run SCRIPT JOURNAL           serve a script, keep its edits and put a report
  scratch JOURNAL N SINK OUT   write the file of SINK after the first N entries
  migrate JOURNAL OUT          write a journal anew in version 2
  console                      answer each line of the standard input at once
  make NUMBER NX NY NZ OUT     write a volume made of a number, and audit it

All files lie in DIR; their names have no slash.

The program ends with the status
  0  all was done
  1  the words are no command
  2  the script or journal isn't one, or a session's input is too long
  3  something was refused
  4  a file or the output failed
  5  memory ran out";

/// The version of the program, and what its number means.
const VERSION: &str = "\
0.9.0
Before 1.0 scripts, journals, reports and written files may change with the
second number; CHANGES.md says how. Journals of earlier versions are read.";

/// What the options ask for.
#[derive(Clone, Copy, Debug)]
pub struct LineOptions<'a> {
    /// The folder of all files.
    pub folder: &'a str,
    /// Whether progress is shown.
    pub progress: bool,
}

/// A word that asks for something, which has no short form.
fn asking<'a>(alloc: Global, name: &'a str, action: ArgAction, text: &'a str) -> Arg<'a> {
    Arg::new(alloc, name).long(name).action(action).help(text)
}

/// The options, and the texts of help and version.
fn command<'a>(alloc: Global) -> Result<Command<'a>, AllocError> {
    let folder = Arg::new(alloc, "dir")
        .long("dir")
        .value_name("DIR")
        .action(ArgAction::Set)
        .default_value(".")
        .help("The folder of all files");
    Command::new(alloc, "vizrun")
        .version(VERSION)
        .about("Cuts surfaces out of volumes, proved")
        .override_usage("vizrun [--dir DIR] [--progress] WORDS")
        .after_help(COMMANDS)
        .disable_help_flag(true)
        .disable_version_flag(true)
        .arg(folder)?
        .arg(asking(
            alloc,
            "progress",
            ArgAction::SetTrue,
            "Show how many tasks have begun, on a terminal",
        ))?
        .arg(asking(alloc, "help", ArgAction::Help, "Print this, alone"))?
        .arg(asking(
            alloc,
            "version",
            ArgAction::Version,
            "Print the version, alone",
        ))
}

/// The status where the command line was refused.
fn status_of(error: &Error) -> Status {
    match error.kind() {
        ErrorKind::OutOfMemory => Status::Memory,
        _ => Status::Usage,
    }
}

/// The options of a line: the program's name, and behind it the options that were given. The folder
/// is `.` where none is named.
pub fn read_options<'a>(alloc: Global, line: &'a [&'a str]) -> Result<LineOptions<'a>, Status> {
    let Ok(command) = command(alloc) else {
        return Err(Status::Memory);
    };
    match command.try_get_matches_from(line) {
        Ok(matches) => Ok(LineOptions {
            folder: matches.get_str("dir").ok_or(Status::Usage)?,
            progress: matches.get_flag("progress"),
        }),
        Err(error) => Err(status_of(&error)),
    }
}

/// The text of help or of the version, which the line asks for. None for want of memory.
pub fn shown<'a>(alloc: Global, line: &'a [&'a str]) -> Option<String> {
    match command(alloc).ok()?.try_get_matches_from(line) {
        Ok(_) => None,
        Err(error) => format!(in alloc; "{error}").ok(),
    }
}
