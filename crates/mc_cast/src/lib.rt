//! Broadcasts: messages that name the heads of a replica, read and written.
#![tactic(auto)]

mod fault;
mod head;
mod laws;
mod message;

pub use fault::{CastError, CastFault};
pub use laws::{casts_are_read_again, sound_casts_are_fields};
pub use message::{read_cast, write_cast};
