// Whether two replicas have processed the same blocks.
ghost use Rattle.std.specs.Prelude.{◌≡◌, ◌↔◌, ◌<◌, false, true, IfOk, IfSome, OnErr, OnOk, is_some, length, slice_get};
ghost use Rattle.mc_core.specs.Counted.{capped};
ghost use Rattle.mc_model.specs.Graph.{has};
ghost use Rattle.mc_script.specs.declared.command.Command.TheVariants.{Same};
ghost use Rattle.mc_seats.specs.Asks.{is_there};
ghost use Rattle.mc_seats.specs.Keepers.{keeper_of};
ghost use Rattle.mc_acts.specs.Sames.{AllStay, Compares, FailsAt, IfBoth, IsUpAt, SeatFails, SeatStays};
ghost use Rattle.mc_acts.specs.Sames.{all_in, both_up, content_at, is_in, is_up_seat, up_at};
ghost use Rattle.mc_seats.specs.Words.{ActsOn, place, state};

use mc_base::Cid;
use mc_keep::Keeper;
use mc_script::Reply;
use mc_seats::{ActError, Held, Seat, World};

// Why two replicas were not compared.
#[derive(Clone, Copy, Debug, PartialEq, Eq)]
enum CompareError {
    // The keeper of this replica failed.
    Fault { at: u64 },
    // More blocks are processed than can be counted.
    TooMany,
}

// A keeper failed.
#[derive(Clone, Copy, Debug, PartialEq, Eq)]
struct ReadFault;

/// Compares two replicas. No memory is taken.
pub fn same_in<K: Keeper>(world: &mut World<K>, r: u64, other: u64) -> Result<Reply, ActError>
    requires there { is_there (state K.Keeper K.Desk.faults world.old) (Same r other) ≡ true }
    ensures acts { ActsOn K.Keeper K.Desk.faults (Same r other) result world.old world.new }
{
    if are_up(world, r, other) {
        return compare_in(world, r, other);
    }
    Ok(Reply::Stopped)
}

// Compares two replicas that run.
fn compare_in<K: Keeper>(world: &mut World<K>, r: u64, other: u64) -> Result<Reply, ActError>
    requires there { is_there (state K.Keeper K.Desk.faults world.old) (Same r other) ≡ true }
    requires up { both_up K.told K.fuse world.old.seats.items r other ≡ true }
    ensures acts { ActsOn K.Keeper K.Desk.faults (Same r other) result world.old world.new }
{
    match compare(&mut world.seats, r, other) {
        Ok(yes) => Ok(Reply::Same { yes }),
        Err(CompareError::Fault { at: _ }) => Ok(Reply::FaultKeeper),
        Err(CompareError::TooMany) => Err(ActError::Memory),
    }
}

// Whether two replicas run.
fn are_up<K: Keeper>(world: &World<K>, r: u64, other: u64) -> bool
    requires there { is_there (state K.Keeper K.Desk.faults world.now) (Same r other) ≡ true }
    ensures { result ≡ both_up K.told K.fuse world.now.seats.items r other }
{
    if !runs_at(world, r) {
        return false;
    }
    runs_at(world, other)
}

// Whether the replica with this number runs.
fn runs_at<K: Keeper>(world: &World<K>, r: u64) -> bool
    requires there { r < length world.now.seats.items }
    ensures { result ≡ up_at K.told K.fuse world.now.seats.items r }
{
    is_up(&world.seats[r as usize])
}

// Whether the replica in a seat runs.
pub(crate) fn is_up<K: Keeper>(seat: &Seat<K>) -> bool
    ensures { result ≡ is_up_seat K.told K.fuse seat.now }
{
    match &seat.held {
        Held::Up(replica) => replica.report().is_ok(),
        Held::Down(_) => false,
    }
}

// Whether each of two replicas has processed what the other has.
fn compare<K: Keeper>(seats: &mut Vec<Seat<K>>, r: u64, other: u64) -> Result<bool, CompareError>
    requires there { (r < length seats.old.items) × (other < length seats.old.items) }
    requires up { IsUpAt K.told K.fuse seats.old.items r × IsUpAt K.told K.fuse seats.old.items other }
    ensures acts { Compares K.Keeper r other result seats.old.items seats.new.items }
    ensures len { length seats.old.items ≡ length seats.new.items }
    ensures same { IfBoth (content_at K.told seats.old.items r) (content_at K.told seats.old.items other) (λ s t.
        IfOk result (λ yes. (yes ≡ true) ↔ ((all_in s.order t.order ≡ true) × (all_in t.order s.order ≡ true)))) }
{
    match has_all(seats, r, other) {
        Ok(true) => {}
        Ok(false) => return Ok(false),
        Err(error) => return Err(error),
    }
    match has_all(seats, other, r) {
        Ok(all) => Ok(all),
        Err(error) => Err(error),
    }
}

// Whether a replica has processed all that another one has.
fn has_all<K: Keeper>(seats: &mut Vec<Seat<K>>, r: u64, other: u64) -> Result<bool, CompareError>
    requires there { (r < length seats.old.items) × (other < length seats.old.items) }
    requires up { IsUpAt K.told K.fuse seats.old.items r × IsUpAt K.told K.fuse seats.old.items other }
    ensures acts { Compares K.Keeper r other result seats.old.items seats.new.items }
    ensures all { IfBoth (content_at K.told seats.old.items r) (content_at K.told seats.old.items other) (λ s t.
        IfOk result (λ yes. yes ≡ all_in s.order t.order)) }
{
    let count = count_of(&seats[r as usize]);
    let mut position = 0;
    while position < count {
        match has_one(seats, r, other, position) {
            Ok(true) => position += 1,
            Ok(false) => return Ok(false),
            Err(error) => return Err(error),
        }
    }
    if count == u64::MAX {
        return Err(CompareError::TooMany);
    }
    Ok(true)
}

// How many blocks a replica has processed, at most `u64::MAX`.
fn count_of<K: Keeper>(seat: &Seat<K>) -> u64
    requires up { is_up_seat K.told K.fuse seat.now ≡ true }
    ensures { IfSome (K.told (keeper_of seat.now)) (λ kept. result ≡ capped (length kept.order)) }
{
    match &seat.held {
        Held::Up(replica) => match replica.report() {
            Ok(report) => report.processed,
            Err(_) => 0,
        },
        Held::Down(_) => 0,
    }
}

// Whether a replica has processed the block that another one has at this position.
fn has_one<K: Keeper>(
    seats: &mut Vec<Seat<K>>,
    r: u64,
    other: u64,
    position: u64,
) -> Result<bool, CompareError>
    requires there { (r < length seats.old.items) × (other < length seats.old.items) }
    requires up { IsUpAt K.told K.fuse seats.old.items r × IsUpAt K.told K.fuse seats.old.items other }
    ensures acts { Compares K.Keeper r other result seats.old.items seats.new.items }
    ensures one { IfBoth (content_at K.told seats.old.items r) (content_at K.told seats.old.items other) (λ s t.
        IfOk result (λ found. found ≡ is_in (slice_get s.order position) t.order)) }
{
    let block = match block_among(seats, r, position) {
        Ok(block) => block,
        Err(ReadFault) => return Err(CompareError::Fault { at: r }),
    };
    let Some(cid) = block else {
        return Ok(false);
    };
    match found_among(seats, other, &cid) {
        Ok(found) => Ok(found),
        Err(ReadFault) => Err(CompareError::Fault { at: other }),
    }
}

// The block that one of the replicas has processed at this position.
fn block_among<K: Keeper>(
    seats: &mut Vec<Seat<K>>,
    r: u64,
    position: u64,
) -> Result<Option<Cid>, ReadFault>
    requires there { r < length seats.old.items }
    requires up { IsUpAt K.told K.fuse seats.old.items r }
    ensures block { IfSome (content_at K.told seats.old.items r) (λ kept. IfOk result (λ cid.
        cid ≡ slice_get kept.order position)) }
    ensures ok { OnOk result (AllStay K.Keeper seats.old.items seats.new.items) }
    ensures err { OnErr result (FailsAt K.Keeper r seats.old.items seats.new.items) }
{
    match block_at(&mut seats[r as usize], position) {
        Ok(block) => Ok(block),
        Err(fault) => Err(fault),
    }
}

// Whether one of the replicas has processed this block.
fn found_among<K: Keeper>(seats: &mut Vec<Seat<K>>, r: u64, cid: &Cid) -> Result<bool, ReadFault>
    requires there { r < length seats.old.items }
    requires up { IsUpAt K.told K.fuse seats.old.items r }
    ensures found { IfSome (content_at K.told seats.old.items r) (λ kept. IfOk result (λ found.
        found ≡ has cid.now kept.order)) }
    ensures ok { OnOk result (AllStay K.Keeper seats.old.items seats.new.items) }
    ensures err { OnErr result (FailsAt K.Keeper r seats.old.items seats.new.items) }
{
    match has_block(&mut seats[r as usize], cid) {
        Ok(found) => Ok(found),
        Err(fault) => Err(fault),
    }
}

// The block that a replica that runs has processed at this position.
fn block_at<K: Keeper>(seat: &mut Seat<K>, position: u64) -> Result<Option<Cid>, ReadFault>
    requires up { is_up_seat K.told K.fuse seat.old ≡ true }
    ensures block { IfSome (K.told (keeper_of seat.old)) (λ kept. IfOk result (λ cid.
        cid ≡ slice_get kept.order position)) }
    ensures ok { OnOk result (SeatStays K.Keeper seat.old seat.new) }
    ensures err { OnErr result (SeatFails K.Keeper seat.old seat.new) }
{
    match &mut seat.held {
        Held::Up(replica) => match replica.at(position) {
            Ok(cid) => Ok(cid),
            Err(_) => Err(ReadFault),
        },
        Held::Down(_) => unreachable!(),
    }
}

// Whether a replica that runs has processed this block.
fn has_block<K: Keeper>(seat: &mut Seat<K>, cid: &Cid) -> Result<bool, ReadFault>
    requires up { is_up_seat K.told K.fuse seat.old ≡ true }
    ensures found { IfSome (K.told (keeper_of seat.old)) (λ kept. IfOk result (λ found.
        found ≡ has cid.now kept.order)) }
    ensures ok { OnOk result (SeatStays K.Keeper seat.old seat.new) }
    ensures err { OnErr result (SeatFails K.Keeper seat.old seat.new) }
{
    match position_of(seat, cid) {
        Ok(position) => Ok(position.is_some()),
        Err(fault) => Err(fault),
    }
}

// The position of this block in a replica that runs, or none where it is not processed.
fn position_of<K: Keeper>(seat: &mut Seat<K>, cid: &Cid) -> Result<Option<u64>, ReadFault>
    requires up { is_up_seat K.told K.fuse seat.old ≡ true }
    ensures found { IfSome (K.told (keeper_of seat.old)) (λ kept. IfOk result (λ place.
        is_some place ≡ has cid.now kept.order)) }
    ensures ok { OnOk result (SeatStays K.Keeper seat.old seat.new) }
    ensures err { OnErr result (SeatFails K.Keeper seat.old seat.new) }
{
    match &mut seat.held {
        Held::Up(replica) => match replica.position(cid) {
            Ok(position) => Ok(position),
            Err(_) => Err(ReadFault),
        },
        Held::Down(_) => unreachable!(),
    }
}
