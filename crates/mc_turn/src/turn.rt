//! The turn, and what threads have of it.
ghost use Rattle.std.specs.Prelude.{◌≡◌};
ghost use Rattle.mc_turn.specs.Steps.{IsAble};
ghost use Rattle.mc_turn.specs.Views.{IsGlimpse};

use crate::rule::TurnRule;
use crate::story::Story;
use crate::view::View;
use atomic_table::{Badge, Table};
use std::alloc::Global;
use std::marker::PhantomData;
use std::snapshot::Snapshot;
use thiserror::Error;

mod calls;

/// A lock with one value, which one seat at a time may hold.
///
/// Word 0 of its table is 0 where the turn is free and 1 where it is held. Word 1 is the length of the
/// value's list as it was published last. The value lies in the table's one slot where the turn is free.
#[derive(Drop)]
pub struct Turn<T: Story> {
    table: Table<Option<T>, View<T::Entry>, Snapshot<T>, TurnRule, Global>,
    ghost sized: { (table.shared.table_id.words ≡ 2) × (table.shared.table_id.slots ≡ 1) },
}

/// What a thread calls a turn with. It has no bytes; contracts read what it knows as its view.
///
/// `E` is the type of the entries, `T::Entry`. Condition of each call that takes a seat: it is a seat of
/// this turn, which `new` gave or which was split from one.
#[derive(Drop)]
pub struct Seat<T, E> {
    seat: atomic_table::Seat<Option<T>, View<E>>,
    ghost able: { IsAble seat.me },
}

/// What a seat had seen of a turn, as a token without bytes, which any thread may keep: a seat that learns it has seen
/// no less. The turn can't be called with it.
///
/// Condition of each call that takes a glimpse: it is one of this turn, which `glimpse` gave.
#[derive(Drop)]
pub struct Glimpse<E> {
    badge: Badge<View<E>>,
    ghost one: { IsGlimpse badge.views },
}

/// The value of a turn, which its owner may read and change. It can only be given back.
pub struct Held<'a, T: Story> {
    /// The value itself.
    pub value: T,
    turn: PhantomData<&'a Turn<T>>,
}

/// There was no memory for a turn. The value comes back.
#[derive(Drop)]
pub struct Refused<T> {
    /// The value that `new` was given.
    pub value: T,
}

/// The turn is held.
#[derive(Clone, Copy, Debug, PartialEq, Eq, Error)]
#[error("the turn is held, its word is {word}")]
pub struct Busy {
    /// What the exchange found in word 0.
    pub word: u64,
}
