// A key with its value.
use mc_base::{Bytes, Text};

/// A key with its value, as a query gives it.
#[derive(Debug, Drop)]
pub struct Pair {
    /// The key.
    pub key: Text,
    /// Its value.
    pub value: Bytes,
}
