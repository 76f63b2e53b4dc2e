//! What a seat knows.
use std::collections::LinkedList;

/// What one seat knows of its turn. Contracts alone read it: no value of this type is ever made.
///
/// A place is the index of an entry in the value's list.
pub struct View<E> {
    /// The longest list that the seat has seen.
    pub seen: LinkedList<E>,
    /// The shorter of the two lists that the last join brought together.
    pub shorter: LinkedList<E>,
    /// The places of the entries that were appended while the seat held the value.
    pub mine: LinkedList<u64>,
    /// The words that the seat's exchanges on word 0 have found, in order.
    pub tried: LinkedList<u64>,
    /// The seat's share of the 2^63 parts of a turn.
    pub parts: u64,
    /// The length of the value's list when the turn was made.
    pub base: u64,
    /// The list of the value, as it was published last, where the seat holds the turn.
    pub held: Option<LinkedList<E>>,
}
