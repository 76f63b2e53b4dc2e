//! A turn of one thread and of two.
ghost use Rattle.std.specs.Prelude.{◌≡◌, ◌≢◌, [], ◌∷◌, ◌++◌, OnOk, OnErr};
ghost use Rattle.mc_turn.specs.Seats.{view, IsSameSeat, IsSeatOf, IsIdle};

use mc_turn::{Busy, Seat, Story, Turn};
use std::alloc::{AllocFailed, Global};
use std::sync::Wait;
use std::test::Fail;
use std::thread::{Threads, join};

/// Numbers in the order in which they were appended.
#[derive(Drop)]
struct Journal {
    entries: Vec<u64>,
}

impl Story for Journal {
    type Entry = u64;

    ghost list = { λ journal. journal.entries.items };

    fn length(&self) -> u64 {
        self.entries.len() as u64
    }
}

impl Journal {
    fn new(alloc: Global) -> Journal
        ensures { result.entries.items ≡ [] }
    {
        Journal {
            entries: Vec::new(alloc),
        }
    }

    fn append(&mut self, entry: u64) -> Result<(), AllocFailed<u64>>
        ensures ok { OnOk result (self.new.entries.items ≡ self.old.entries.items ++ entry ∷ []) }
        ensures err { OnErr result (self.new.entries.items ≡ self.old.entries.items) }
    {
        self.entries.push(entry)
    }
}

/// Appends the numbers below `count`, each under a turn of its own. It ends early where memory runs out.
fn append_numbers<W: Wait>(
    wait: &W,
    turn: &Turn<Journal>,
    mut seat: Seat<Journal, u64>,
    count: u64,
) -> Seat<Journal, u64>
    requires own { IsSeatOf turn.now seat × IsIdle seat }
    ensures own { IsSeatOf turn.now result × IsIdle result }
{
    for entry in 0..count {
        let mut held = turn.take(&mut seat, wait);
        let appended = held.value.append(entry);
        turn.give(&mut seat, held);
        if appended.is_err() {
            return seat;
        }
    }
    seat
}

/// The length that the joined seat sees after two threads have appended so many numbers each, and the
/// length of the journal at the end.
fn append_beside<R: Threads + Wait + Sync>(
    rt: &R,
    alloc: Global,
    count: u64,
) -> Option<(u64, u64)> {
    let Ok((turn, mut first)) = Turn::new(alloc, Journal::new(alloc)) else {
        return None;
    };
    let second = turn.split(&mut first);
    let shared = &turn;
    let (first, second) = join(
        rt,
        || -> Seat<Journal, u64>
            requires { IsSeatOf shared.now first × IsIdle first }
            ensures { IsSeatOf shared.entry.now result × IsIdle result }
        { append_numbers(rt, shared, first, count) },
        || -> Seat<Journal, u64>
            requires { IsSeatOf shared.now second × IsIdle second }
            ensures { IsSeatOf shared.entry.now result × IsIdle result }
        { append_numbers(rt, shared, second, count) },
    );
    Some(lengths_at_end(rt, turn, first, second))
}

fn lengths_at_end<W: Wait>(
    wait: &W,
    turn: Turn<Journal>,
    mut seat: Seat<Journal, u64>,
    other: Seat<Journal, u64>,
) -> (u64, u64)
    requires own { IsSeatOf turn seat × IsSeatOf turn other × IsIdle other }
{
    turn.join(&mut seat, other);
    let seen = turn.look(&mut seat);
    let journal = turn.close(seat, wait);
    (seen, journal.length())
}

#[test]
fn two_threads_append_to_one_history(rt: HostRuntime) -> Result<(), Fail> {
    let Some((seen, length)) = append_beside(&rt, rt.alloc(), 1000) else {
        return Err(Fail::new("no memory"));
    };
    assert!(rt; seen == 2000 && length == 2000);
    Ok(())
}

/// The word that one exchange of the seat finds. The turn is given back where it is got.
fn word_found(turn: &Turn<Journal>, seat: &mut Seat<Journal, u64>) -> u64
    requires own { IsSeatOf turn.now seat.old }
    ensures same { IsSameSeat seat.old seat.new }
    ensures held { result ≢ 0 → (view seat.new).held ≡ (view seat.old).held }
{
    match turn.try_take(seat) {
        Ok(held) => {
            turn.give(seat, held);
            0
        }
        Err(busy) => busy.word,
    }
}

/// The words that the holder and another seat find, then what the other finds after the give, and the
/// length of the list that it takes at last.
fn words_in_turn<W: Wait>(wait: &W, alloc: Global) -> Option<(u64, u64, u64, u64)> {
    let Ok((turn, mut first)) = Turn::new(alloc, Journal::new(alloc)) else {
        return None;
    };
    let mut second = turn.split(&mut first);
    let mut held = turn.take(&mut first, wait);
    let appended = held.value.append(7);
    let own = match turn.try_take(&mut first) {
        Ok(_) => unreachable!(),
        Err(busy) => busy.word,
    };
    let other = word_found(&turn, &mut second);
    turn.give(&mut first, held);
    let after = word_found(&turn, &mut second);
    let held = turn.take(&mut second, wait);
    let length = held.value.length();
    turn.give(&mut second, held);
    if appended.is_err() {
        return None;
    }
    Some((own, other, after, length))
}

#[test]
fn a_held_turn_is_busy_until_the_give(rt: HostRuntime) -> Result<(), Fail> {
    let Some(words) = words_in_turn(&rt, rt.alloc()) else {
        return Err(Fail::new("no memory"));
    };
    assert!(rt; words == (1, 1, 0, 1));
    let text = format!(in rt.alloc(); "{}", Busy { word: 1 })?;
    assert!(rt; text.as_str() == "the turn is held, its word is 1");
    Ok(())
}
