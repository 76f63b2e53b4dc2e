//! Keys: the key rule, and which keys a prefix selects.
#![tactic(auto)]

mod fault;
mod key;
mod prefix;

pub use fault::KeyFault;
pub use key::{Key, keys_have_no_fault};
pub use prefix::under;
