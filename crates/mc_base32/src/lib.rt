//! Base32 without padding (RFC 4648, section 6), in upper or in lower case: bytes to text and back.
#![tactic(auto)]

mod decoding;
mod encoding;
mod fault;

pub use decoding::decode;
pub use encoding::{encode, one_text, read_again};
pub use fault::{Base32Error, Base32Fault};
pub use mc_base::Case;
