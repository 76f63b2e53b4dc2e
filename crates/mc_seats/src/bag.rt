// What is around the replicas of a world beside their links: the texts that went from one to another.
use mc_base::{Bytes, List};

/// The messages that were ever sent, and the CARv1 files that were ever made or given, each numbered from 1.
#[derive(Drop)]
pub struct Bag {
    /// The messages.
    pub messages: List<Bytes>,
    /// The files.
    pub cars: List<Bytes>,
}
