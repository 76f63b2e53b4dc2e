// Fields, by their places in a text.

/// The key of a field: its number and wire type, and the offset after it.
#[derive(Clone, Copy, Debug, PartialEq, Eq)]
pub struct Key {
    pub number: u64,
    pub wire_type: u64,
    pub next: usize,
}

/// What a field holds: the value of a varint, or the offsets of its bytes.
#[derive(Clone, Copy, Debug, PartialEq, Eq)]
pub enum Content {
    /// Wire type 0.
    Varint(u64),
    /// Wire type 1: 8 bytes.
    Fixed64 { from: usize },
    /// Wire type 2: the bytes from `from` to before `to`.
    Part { from: usize, to: usize },
    /// Wire type 5: 4 bytes.
    Fixed32 { from: usize },
}

/// A field, and the offset after it.
#[derive(Clone, Copy, Debug, PartialEq, Eq)]
pub struct Field {
    pub number: u64,
    pub content: Content,
    pub next: usize,
}
