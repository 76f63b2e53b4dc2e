//! The texts of content identifiers: the Multibase code `b` and lower-case base32, in both directions.
#![tactic(auto)]

mod fault;
mod text;

pub use fault::{CidTextError, CidTextFault};
pub use text::{from_text, one_text, read_again, to_text};
