// What became of a job that was delivered to a shop.
use mc_fetch::Delivered;

/// What became of a job that was delivered to a shop. Each shop says when which one comes: `Shop::delivers`.
#[derive(Clone, Copy, Debug, PartialEq, Eq)]
pub enum Handover {
    /// There was no block: nothing was found, or damaged bytes; or the block was no longer in flight.
    Delivered(Delivered),
    /// The block was pushed where others take it from, and the shop was held, as this word tells.
    Queued {
        /// What the one exchange for the shop found, which isn't 0.
        word: u64,
    },
    /// This call held the shop, and committed what was found.
    Committed {
        /// How many blocks it processed.
        processed: u64,
    },
}
