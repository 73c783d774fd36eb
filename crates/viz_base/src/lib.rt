//! What every other crate stands on: limits, names and bytes, and the outside as three traits.
//!
//! Contract: a fault of a port or an output comes only where its count of faults rose, and that
//! count never falls; what a port read and wrote is told by its files and by the list of its calls.
//! Definitions: `specs/Faults.antt`, `specs/Files.antt`, `specs/Calls.antt`, `specs/Texts.antt`;
//! what the ports in memory answer stands in `specs/MemoryPort.antt` and `specs/NeverFails.antt`.
#![tactic(auto)]

mod bytes;
mod call;
mod dir_port;
mod files;
mod gate;
mod items;
mod limits;
mod long_text;
mod memory_out;
mod memory_port;
mod never_fails;
mod node;
mod out;
mod port;
mod refusal;
mod shared;
mod std_out;
mod steps;
mod word;

pub use bytes::Bytes;
pub use call::{Call, ReadAnswer, WriteAnswer};
pub use dir_port::DirPort;
pub use gate::{Gate, OpenGate};
pub use items::Items;
pub use limits::{ACTORS, CACHE, FILE_LIMIT, HISTORY, NODES};
pub use long_text::LongText;
pub use memory_out::MemoryOut;
pub use memory_port::{FailAt, FileEntry, MemoryPort};
pub use never_fails::NeverFails;
pub use node::{NodeId, Pick, Shape};
pub use out::Out;
pub use port::Port;
pub use refusal::{Failed, ReadRefusal, WriteRefusal};
pub use shared::Shared;
pub use std_out::StdOut;
pub use steps::Steps;
pub use word::Word;
