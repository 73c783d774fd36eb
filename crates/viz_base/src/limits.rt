//! The limits of the program.

/// The greatest number of bytes of one file that the program reads.
pub const FILE_LIMIT: u64 = 1_073_741_824;

/// The greatest number of nodes of a network.
pub const NODES: u32 = 256;

/// The greatest number of entries of the program's edit history.
pub const HISTORY: u32 = 65_536;

/// The greatest number of parts in the program's cache: one of each node of the largest network, or
/// eight of each of 32 nodes. A node with Release 1 has none. Kept parts are shared, never copied.
pub const CACHE: u32 = 256;

/// The greatest number of actors.
pub const ACTORS: u32 = 8;
