// What became of blocks that were taken in together.

/// What became of the blocks that were taken out of an inbox together.
#[derive(Clone, Copy, Debug, PartialEq, Eq)]
pub struct Grouped {
    /// How many were processed.
    pub processed: u64,
    /// How many were not in flight, or stood in the inbox before.
    pub known: u64,
}
