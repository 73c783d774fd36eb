//! The limits of streams.

/// The greatest number of bytes that a source gives at once.
pub const PIECE: usize = 4_096;

/// The greatest number of bytes of a line, without its newline and the carriage return before it.
pub const LINE_LIMIT: usize = 4_096;

/// The greatest number of bytes of a stream.
pub const STREAM_LIMIT: u64 = 1_073_741_824;

/// How many bytes of a line are kept at most: those of a line within the limit, a carriage return,
/// and one byte more, by which a longer line is known.
pub(crate) const KEPT: usize = LINE_LIMIT + 2;
