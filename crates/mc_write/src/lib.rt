//! The deltas that puts, deletes and batches make.
#![tactic(auto)]

mod batch;
mod cut;
mod delete;
mod dropped;
mod elements;
mod error;
mod length;
mod pair;
mod put;
mod seen;

pub use batch::Batch;
pub use cut::next_priority;
pub use delete::delete_deltas;
pub use error::WriteError;
pub use put::put_delta;
