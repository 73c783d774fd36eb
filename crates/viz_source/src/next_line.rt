//! What comes next in a stream.

use thiserror::Error;

/// What comes next in a stream.
#[derive(Clone, Copy, PartialEq, Eq, Debug)]
pub enum NextLine {
    /// A line of at most 4,096 bytes, which the reader lends.
    Line,
    /// A line of more than 4,096 bytes. All of it was passed over.
    LongLine,
    /// The end of the input: each line was answered.
    End,
}

/// Why no line comes.
#[derive(Clone, Copy, PartialEq, Eq, Debug, Error)]
pub enum StreamStop {
    /// More than 1,073,741,824 bytes were taken, and each line that ends within the first
    /// 1,073,741,824 was answered.
    #[error("the stream is longer than the limit")]
    TooLong,
    /// A pull failed; only where the source's count of faults rose.
    #[error("a pull failed")]
    Failed,
}
