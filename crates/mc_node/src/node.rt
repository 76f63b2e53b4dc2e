// The node and its seats.
ghost use Rattle.std.specs.Prelude.{◌≡◌, true};
ghost use Rattle.mc_turn.specs.Seats.{view, sight, IsIdle};
ghost use Rattle.mc_node.specs.Entries.{is_rooted_log};

use crate::entry::Entry;
use mc_core::Replica;
use mc_keep::Keeper;
use mc_turn::{Glimpse, Seat, Story, Turn};

mod ahead;
mod calls;
mod deliveries;
mod faces;
mod feeds;
mod reads;
mod seats;
mod shop;

/// A replica that threads share, beside a log of what was done with it: its value `T` is `Stored<K, J>`. Each call of a
/// thread takes the turn, makes one call of the replica and gives the turn back.
#[derive(Drop)]
pub struct Node<T: Story> {
    /// The turn that each call takes. Whoever holds it by itself lets all other seats wait.
    pub turn: Turn<T>,
}

/// What a thread calls a node with. It has no bytes; contracts read what it knows. What it has seen of the log begins
/// with the root.
///
/// Condition of each call that takes a seat: it is a seat of this node, which `new` gave or which was split from one.
#[derive(Drop)]
pub struct NodeSeat<T, K: Keeper> {
    /// The seat of the turn.
    pub seat: Seat<T, Entry<K>>,
    ghost rooted: { is_rooted_log (view seat).seen ≡ true },
    ghost idle: { IsIdle seat },
}

/// What a seat had seen of the log, as a token without bytes that another thread may learn with a seat of its own.
///
/// Condition of each call that takes one: it is of this node.
#[derive(Drop)]
pub struct NodeGlimpse<K: Keeper> {
    /// The glimpse of the turn.
    pub glimpse: Glimpse<Entry<K>>,
    ghost rooted: { is_rooted_log (sight glimpse) ≡ true },
}

/// There was no memory for a node. The replica comes back.
#[derive(Drop)]
pub struct NodeRefused<K: Keeper> {
    /// The replica that `new` was given.
    pub replica: Replica<K>,
}

/// The answer of a read.
#[derive(Debug, Drop)]
pub struct Seen<A> {
    /// What is answered, over the first `length` processed blocks.
    pub answer: A,
    /// How many blocks were processed then, at most `u64::MAX`. On a node that isn't sealed they begin with those of
    /// any earlier answer on the same seat.
    pub length: u64,
}
