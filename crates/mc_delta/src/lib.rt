//! Deltas as Protocol Buffers messages: read, written, and their length told.
#![tactic(auto)]

mod entry;
mod fault;
mod laws;
mod length;
mod read;
mod write;

pub use fault::{DeltaError, DeltaFault, DeltaFaultKind};
pub use laws::{deltas_are_read, written_deltas_are_read};
pub use length::len_delta;
pub use read::read_delta;
pub use write::{append_delta, write_delta};
