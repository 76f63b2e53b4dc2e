//! The calls of a turn.
ghost use Rattle.std.specs.Prelude.{◌≡◌, ◌≢◌, ℕ, ◌<◌, ◌≤◌, List, [], ◌∷◌, ◌++◌, length, All, Some, IfOk, IfErr};
ghost use Rattle.mc_turn.specs.Lists.{Begins};
ghost use Rattle.mc_turn.specs.Views.{first_view, left_view, right_view, joined_view, learned_view, noted_view, held_view};
ghost use Rattle.mc_turn.specs.Views.{given_view, Extends, AreApart, KnowsPlaces, IsTaken};
ghost use Rattle.mc_turn.specs.Seats.{view, sight, IsSameSeat, IsSeatOf, IsGlimpseOf, IsIdle};

use super::{Busy, Glimpse, Held, Refused, Seat, Turn};
use crate::rule::{GlimpseView, JoinViews, Look, Publish, Release, SplitView, TryTake};
use crate::story::Story;
use atomic_table::Table;
use std::alloc::{AllocFailed, Global};
use std::marker::PhantomData;
use std::snapshot::Snapshot;
use std::sync::Wait;
use std::thread;

impl<T: Story> Turn<T> {
    /// A free turn with this value, and a seat with all its parts, which has seen the value's whole list.
    ///
    /// `Refused` comes for want of memory alone, and hands the value back.
    pub fn new(alloc: Global, value: T) -> Result<(Turn<T>, Seat<T, T::Entry>), Refused<T>>
        ensures ok { IfOk result (λ t. IsSeatOf t.0 t.1 × (view t.1 ≡ first_view (T.list value))) }
        ensures err { IfErr result (λ r. r.value ≡ value) }
    {
        let about = Snapshot::of(&value);
        let length = value.length();
        let slots = one_slot(alloc, value)?;
        match Table::new(alloc, &[0, length], slots, &about) {
            Ok((table, seat)) => Ok((Turn { table }, Seat { seat })),
            Err(refused) => {
                let atomic_table::Refused { mut slots } = refused;
                let value = slots.pop().unwrap().unwrap();
                slots.destroy_empty();
                Err(Refused { value })
            }
        }
    }

    /// A new seat, which has seen what this seat has seen, with half of its parts, rounded down.
    ///
    /// It takes no memory. Condition: the seat has at least 2 parts.
    pub fn split(&self, seat: &mut Seat<T, T::Entry>) -> Seat<T, T::Entry>
        requires own { IsSeatOf self.now seat.old }
        requires parts { 1 < (view seat.old).parts }
        ensures same { IsSameSeat seat.old seat.new }
        ensures left { view seat.new ≡ left_view (view seat.old) }
        ensures own { IsSeatOf self.now result }
        ensures right { view result ≡ right_view (view seat.old) }
    {
        Seat {
            seat: self.table.shared.split_seat::<SplitView>(&mut seat.seat),
        }
    }

    /// The seat takes in another seat, and has then seen the longer of both lists, which the shorter begins.
    /// No place stands in the `mine` of both.
    ///
    /// Condition: the other seat doesn't hold the turn.
    pub fn join(&self, seat: &mut Seat<T, T::Entry>, other: Seat<T, T::Entry>)
        requires own { IsSeatOf self.now seat.old × IsSeatOf self.now other }
        requires idle { IsIdle other }
        ensures same { IsSameSeat seat.old seat.new }
        ensures joined { view seat.new ≡ joined_view (view seat.old) (view other) }
        ensures one { Begins (view seat.old).seen (view seat.new).seen × Begins (view other).seen (view seat.new).seen }
        ensures apart { AreApart (view seat.old) (view other) }
    {
        let Seat { seat: other } = other;
        let shared = &self.table.shared;
        shared.join_seat::<JoinViews>(&mut seat.seat, other);
        shared.load::<Look>(&mut seat.seat, 1);
    }

    /// What the seat has seen, as a token that another seat may learn. The seat stays as it is. It takes no memory.
    pub fn glimpse(&self, seat: &mut Seat<T, T::Entry>) -> Glimpse<T::Entry>
        requires own { IsSeatOf self.now seat.old }
        ensures same { IsSameSeat seat.old seat.new × (view seat.new ≡ view seat.old) }
        ensures own { IsGlimpseOf self.now result }
        ensures sight { sight result ≡ (view seat.old).seen }
    {
        let shared = &self.table.shared;
        let other = shared.split_seat::<GlimpseView>(&mut seat.seat);
        Glimpse {
            badge: other.into_badge(),
        }
    }

    /// The seat learns what another one had seen: it has then seen the longer of both lists, which the shorter begins.
    /// All else that it knows stays. It takes no memory.
    pub fn learn(&self, seat: &mut Seat<T, T::Entry>, glimpse: Glimpse<T::Entry>)
        requires own { IsSeatOf self.now seat.old × IsGlimpseOf self.now glimpse }
        ensures same { IsSameSeat seat.old seat.new }
        ensures learned { view seat.new ≡ learned_view (view seat.old) (sight glimpse) }
        ensures one { Begins (view seat.old).seen (view seat.new).seen × Begins (sight glimpse) (view seat.new).seen }
    {
        let Glimpse { badge } = glimpse;
        let other = badge.into_seat::<Option<T>>();
        self.table
            .shared
            .join_seat::<JoinViews>(&mut seat.seat, other);
        self.table.shared.load::<Look>(&mut seat.seat, 1);
    }

    /// The value, once the turn is got: it tries again until then. The value's list begins with all that the
    /// seat has seen.
    ///
    /// A seat that holds the turn already waits for ever.
    pub fn take<'a, W: Wait>(&'a self, seat: &mut Seat<T, T::Entry>, wait: &W) -> Held<'a, T>
        requires own { IsSeatOf self.now seat.old }
        ensures same { IsSameSeat seat.old seat.new }
        ensures taken { IsTaken (view seat.old) (T.list result.value) }
        ensures held { (words : List ℕ) × All (λ word. word ≢ 0) words
            × (view seat.new ≡ held_view (view seat.old) (words ++ 0 ∷ []) (T.list result.value)) }
    {
        for _ in wait.forever() {
            if let Ok(held) = self.try_take(seat) {
                return held;
            }
            thread::yield_now();
        }
        unreachable!()
    }

    /// The value, where one compare-exchange on word 0 finds 0. The value's list begins with all that the seat
    /// has seen. It neither waits nor takes memory.
    ///
    /// `Busy` comes exactly where the word found isn't 0, with that word, which is 1.
    pub fn try_take<'a>(&'a self, seat: &mut Seat<T, T::Entry>) -> Result<Held<'a, T>, Busy>
        requires own { IsSeatOf self.now seat.old }
        ensures same { IsSameSeat seat.old seat.new }
        ensures taken { IfOk result (λ h. IsTaken (view seat.old) (T.list h.value)) }
        ensures held { IfOk result (λ h. view seat.new ≡ held_view (view seat.old) (0 ∷ []) (T.list h.value)) }
        ensures busy { IfErr result (λ b. (b.word ≡ 1) × (view seat.new ≡ noted_view (view seat.old) (b.word ∷ []))) }
    {
        let shared = &self.table.shared;
        let word = shared.compare_exchange::<TryTake>(&mut seat.seat, 0, 0, 1);
        if word != 0 {
            return Err(Busy { word });
        }
        let value = shared.exchange(&mut seat.seat, 0, None).unwrap();
        Ok(Held {
            value,
            turn: PhantomData,
        })
    }

    /// Gives the value back: puts it home, publishes its length and frees the turn. The seat has then seen the
    /// value's whole list, and its `mine` grows by just the places that the list has got since it was taken.
    ///
    /// Condition: the seat holds the turn, and the value's list begins with the list that was taken.
    pub fn give(&self, seat: &mut Seat<T, T::Entry>, held: Held<'_, T>)
        requires own { IsSeatOf self.now seat.old }
        requires extends { Extends (view seat.old).held (T.list held.value) }
        ensures same { IsSameSeat seat.old seat.new }
        ensures given { view seat.new ≡ given_view (view seat.old) (T.list held.entry.value) }
    {
        let Held { value, turn: _ } = held;
        let length = value.length();
        let shared = &self.table.shared;
        let before = shared.exchange(&mut seat.seat, 0, Some(value));
        let None = before else { unreachable!() };
        shared.store::<Publish>(&mut seat.seat, 1, length);
        shared.store::<Release>(&mut seat.seat, 0, 0);
    }

    /// The length that was published last. It isn't below what the seat has seen, and is just the length of
    /// the list that the places of a seat with all parts make up.
    pub fn look(&self, seat: &mut Seat<T, T::Entry>) -> u64
        requires own { IsSeatOf self.now seat.old }
        ensures same { IsSameSeat seat.old seat.new × (view seat.new ≡ view seat.old) }
        ensures seen { length (view seat.old).seen ≤ result }
        ensures places { KnowsPlaces (view seat.old) result }
    {
        self.table.shared.load::<Look>(&mut seat.seat, 1)
    }

    /// Ends the turn and hands out the value, whose list begins with all that the seat has seen. The `mine` of
    /// a seat with all parts has every place that was appended since `new`.
    ///
    /// A `Held` that was never given back makes it wait for ever.
    pub fn close<W: Wait>(self, seat: Seat<T, T::Entry>, wait: &W) -> T
        requires own { IsSeatOf self seat }
        ensures taken { IsTaken (view seat) (T.list result) }
    {
        let Turn { table } = self;
        let Seat { seat } = seat;
        let mut closed = table.close_with(seat);
        if closed.word(0) != 0 {
            for _ in wait.forever() {
                thread::yield_now();
            }
            unreachable!();
        }
        let value = closed.take(0).unwrap();
        closed.free();
        value
    }
}

/// The one slot of a turn's table, with the value.
fn one_slot<T>(alloc: Global, value: T) -> Result<Vec<Option<T>>, Refused<T>>
    ensures ok { IfOk result (λ slots. slots.items ≡ Some value ∷ []) }
    ensures err { IfErr result (λ r. r.value ≡ value) }
{
    let mut slots = match Vec::with_capacity(alloc, 1) {
        Ok(slots) => slots,
        Err(_) => return Err(Refused { value }),
    };
    if let Err(failed) = slots.push(Some(value)) {
        slots.destroy_empty();
        let AllocFailed { value } = failed;
        return Err(Refused {
            value: value.unwrap(),
        });
    }
    Ok(slots)
}
