//! How a session ends.

/// How a session ended.
#[derive(Clone, Copy, PartialEq, Eq, Debug)]
pub enum End {
    /// The input ended, and each line was answered.
    Closed,
    /// A line `quit` was accepted; nothing behind it was answered.
    Quit,
    /// More than 1,073,741,824 bytes were taken, and each line that ends within the first so many
    /// was answered.
    TooLong,
    /// A pull or a put failed; only where its count of faults rose.
    Fault,
    /// Want of memory.
    Memory,
}
