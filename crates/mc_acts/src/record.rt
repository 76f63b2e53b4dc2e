// The record of a line: what failed in it.
ghost use Rattle.std.specs.Prelude.{◌≡◌, ◌≤◌, ◌+◌, ◌++◌, [], ◌∷◌, OnErr, OnOk, IfOk, cond, length, vec_capacity, vec_len};
ghost use Rattle.mc_acts.specs.Counting.{desk_counts, firsts, keeper_counts, risen_from, rises, seconds};
ghost use Rattle.mc_acts.specs.Counting.{HasRecord, entry_since};
ghost use Rattle.mc_seats.specs.Desked.{desk_sums};
ghost use Rattle.mc_seats.specs.Keepers.{desk_count, keeper_of};

use mc_base::{Counted, List};
use mc_keep::Keeper;
use mc_seats::{Held, LineEntry, Seat, World};
use smallvec::SmallVec;
use std::alloc::{AllocError, Global};

// Of so many replicas the counts take no memory of their own.
const FEW: usize = 8;

/// How often the keepers of a world have failed, each with how often by itself, and how often the desks, by replica.
#[derive(Drop)]
pub struct Counts {
    /// Those of the keepers.
    pub keepers: SmallVec<(u64, u64), FEW>,
    /// Those of the desks.
    pub desks: SmallVec<u64, FEW>,
}

/// What is counted in a world now.
pub fn counts_of<K: Keeper>(world: &World<K>, alloc: Global) -> Result<Counts, AllocError>
    ensures keepers { IfOk result (λ counts.
        firsts counts.keepers.items ≡ keeper_counts K.faults world.now.seats.items) }
    ensures owns { IfOk result (λ counts. seconds counts.keepers.items ≡ keeper_counts K.own world.now.seats.items) }
    ensures of_desks { IfOk result (λ counts. counts.desks.items ≡ desk_counts K.Desk.faults world.now.desks.items) }
{
    let keepers = count_keepers(alloc, world.seats.as_slice())?;
    let desks = SmallVec::from_slice(alloc, world.desk_counts.as_slice())?;
    Ok(Counts { keepers, desks })
}

fn count_keepers<K: Keeper>(
    alloc: Global,
    seats: &[Seat<K>],
) -> Result<SmallVec<(u64, u64), FEW>, AllocError>
    ensures keepers { IfOk result (λ counts. firsts counts.items ≡ keeper_counts K.faults seats.now) }
    ensures owns { IfOk result (λ counts. seconds counts.items ≡ keeper_counts K.own seats.now) }
{
    let mut counts = SmallVec::with_capacity(alloc, seats.len())?;
    for seat in seats {
        let keeper = keeper_of(seat);
        counts.push((keeper.faults(), keeper.own_faults()))?;
    }
    Ok(counts)
}

// The keeper of a replica.
fn keeper_of<K: Keeper>(seat: &Seat<K>) -> &K
    ensures { result.now ≡ keeper_of seat.now }
{
    match &seat.held {
        Held::Up(replica) => replica.keeper(),
        Held::Down(idle) => &idle.keeper,
    }
}

/// Records a line: what failed since these counts were read.
pub fn record_line<K: Keeper>(
    world: &mut World<K>,
    alloc: Global,
    before: &Counts,
) -> Result<(), AllocError>
    ensures ok { OnOk result (HasRecord (world.old.entries
        ++ entry_since K.faults K.own K.Desk.faults before.now world.old ∷ []) world.old world.new) }
    ensures err { OnErr result (HasRecord world.old.entries world.old world.new) }
{
    let (keepers, own) = risen_keepers(alloc, before.keepers.as_slice(), world.seats.as_slice())?;
    let desks = risen(alloc, before.desks.as_slice(), world.desk_counts.as_slice())?;
    push_entry(
        &mut world.entries,
        LineEntry {
            keepers,
            desks,
            own,
        },
    )
}

fn push_entry(entries: &mut List<LineEntry>, entry: LineEntry) -> Result<(), AllocError>
    ensures ok { OnOk result (entries.new ≡ entries.old ++ entry ∷ []) }
    ensures err { OnErr result (entries.new ≡ entries.old) }
{
    entries.push(entry)?;
    Ok(())
}

// The numbers of the keepers whose counts rose, and of those whose own counts rose.
fn risen_keepers<K: Keeper>(
    alloc: Global,
    before: &[(u64, u64)],
    seats: &[Seat<K>],
) -> Result<(List<u64>, List<u64>), AllocError>
    ensures keepers { IfOk result (λ risen.
        risen.0 ≡ risen_from 0 (firsts before.now) (keeper_counts K.faults seats.now)) }
    ensures owns { IfOk result (λ risen.
        risen.1 ≡ risen_from 0 (seconds before.now) (keeper_counts K.own seats.now)) }
{
    let mut keepers = List::new(alloc);
    let mut own = List::new(alloc);
    add_risen_keepers(&mut keepers, &mut own, 0, before, seats)?;
    Ok((keepers, own))
}

// The same from this number on, behind others.
fn add_risen_keepers<K: Keeper>(
    keepers: &mut List<u64>,
    own: &mut List<u64>,
    number: u64,
    before: &[(u64, u64)],
    seats: &[Seat<K>],
) -> Result<(), AllocError>
    requires few { number + length before.now ≤ 18446744073709551615 }
    ensures keepers { OnOk result (keepers.new
        ≡ keepers.old ++ risen_from number (firsts before.now) (keeper_counts K.faults seats.now)) }
    ensures owns { OnOk result (own.new
        ≡ own.old ++ risen_from number (seconds before.now) (keeper_counts K.own seats.now)) }
{
    let [old, before @ ..] = before else {
        return Ok(());
    };
    let [seat, seats @ ..] = seats else {
        return Ok(());
    };
    let keeper = keeper_of(seat);
    add_if_risen(keepers, number, old.0, keeper.faults())?;
    add_if_risen(own, number, old.1, keeper.own_faults())?;
    add_risen_keepers(keepers, own, number + 1, before, seats)
}

// The numbers of the counts that rose.
fn risen(alloc: Global, before: &[u64], after: &[u64]) -> Result<List<u64>, AllocError>
    ensures { IfOk result (λ numbers. numbers ≡ risen_from 0 before.now after.now) }
{
    let mut numbers = List::new(alloc);
    add_risen(&mut numbers, 0, before, after)?;
    Ok(numbers)
}

// The same from this number on, behind others.
fn add_risen(
    numbers: &mut List<u64>,
    number: u64,
    before: &[u64],
    after: &[u64],
) -> Result<(), AllocError>
    requires few { number + length before.now ≤ 18446744073709551615 }
    ensures { OnOk result (numbers.new ≡ numbers.old ++ risen_from number before.now after.now) }
{
    let [old, before @ ..] = before else {
        return Ok(());
    };
    let [new, after @ ..] = after else {
        return Ok(());
    };
    add_if_risen(numbers, number, *old, *new)?;
    add_risen(numbers, number + 1, before, after)
}

// A number behind others, where its count rose.
fn add_if_risen(
    numbers: &mut List<u64>,
    number: u64,
    before: u64,
    now: u64,
) -> Result<(), AllocError>
    ensures { OnOk result (numbers.new ≡ numbers.old ++ cond (rises before now) (number ∷ []) []) }
{
    if rises(before, now) {
        numbers.push(number)?;
    }
    Ok(())
}

// Whether a count rose, or stands at its last value.
fn rises(before: u64, now: u64) -> bool
    ensures { result ≡ rises before now }
{
    now >= before.saturating_add(1)
}
