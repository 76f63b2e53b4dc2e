// What becomes of the value of a key.
use mc_base::{Bytes, Text};

/// What becomes of the value of a key once blocks are appended.
#[derive(Debug, Drop)]
pub struct Change {
    /// The key, any text.
    pub key: Text,
    /// Its value, any bytes, or none where it has none from now on.
    pub value: Option<Bytes>,
}
