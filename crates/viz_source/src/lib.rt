//! Sources: the bytes of a session, pulled piece by piece, and their lines.
//!
//! Contract: of a source that tells its bytes, a reader answers the lines of these bytes one after
//! the other, the same for every cut into pieces, and each as soon as its newline is taken.
//! Definitions: `specs/Streams.antt` for the lines of a stream, `specs/Readers.antt` for what a
//! reader answers; what a source in memory gives stands in `specs/MemorySource.antt`.
#![tactic(auto)]

mod laws;
mod limits;
mod line_reader;
mod memory_source;
mod next_line;
mod source;

pub use laws::{
    answers_the_lines_in_turn, answers_the_same_for_every_cut, answers_what_was_taken_whole,
    has_the_lines_of_its_bytes,
};
pub use limits::{LINE_LIMIT, PIECE, STREAM_LIMIT};
pub use line_reader::LineReader;
pub use memory_source::MemorySource;
pub use next_line::{NextLine, StreamStop};
pub use source::Source;
