//! Fields in the Protocol Buffers wire format: read from offset to offset, and written.
#![tactic(auto)]

mod fault;
mod field;
mod laws;
mod read;
mod varint;
mod write;

pub use fault::{WireFault, WireFaultAt};
pub use field::{Content, Field, Key};
pub use laws::{fields_are_read, varints_are_read, written_is_read};
pub use read::{next_field, next_key, read_field};
pub use varint::varint_len;
pub use write::{put_part_field, put_part_head, put_varint_field};
