// One job of a replica.
ghost use Rattle.std.specs.Prelude.{◌≡◌, ◌<◌, true, None, length, map, vec_len, IfOk, IfSome};
ghost use Rattle.mc_fetch.specs.Causes.{is_peer_fault};
ghost use Rattle.mc_fetch.specs.Fits.{FoundHas};
ghost use Rattle.mc_fetch.specs.Offers.{HasDigest};
ghost use Rattle.mc_core.specs.Jobs.{found_in};
ghost use Rattle.mc_script.specs.declared.command.Command.TheVariants.{Step};
ghost use Rattle.mc_seats.specs.StepParts.{
  AllDesksGo,
  IsFoundFor,
  PeerFailed,
  SameButDesks,
  are_calm,
  given_up_of,
};
ghost use Rattle.mc_seats.specs.Words.{ActsOn, place, state};
ghost use Rattle.mc_seats.specs.Worlds.{peer_row};

use mc_base::{Bytes, Cid};
use mc_fetch::{FetchError, Found, Job};
use mc_keep::Keeper;
use mc_script::Reply;
use mc_seats::{ActError, World, begin_at, deliver_at, find_among, give_back_at, recount};
use std::alloc::Global;
use std::sync::Wait;

/// Does one job of a replica: the first block that waits is fetched from its own store and from its peers, and
/// delivered. Where a desk of a peer fails, or memory is wanted for the fetch, the job is given back.
pub fn step_in<K: Keeper, W: Wait>(
    world: &mut World<K>,
    alloc: Global,
    r: u64,
    wait: &W,
) -> Result<Reply, ActError>
    requires there { r < vec_len world.old.seats }
    ensures acts { ActsOn K.Keeper K.Desk.faults (Step r) result world.old world.new }
{
    let job = match begin_at(&mut world.seats[r as usize], alloc) {
        Ok(Ok(job)) => job,
        Ok(Err(reply)) => return Ok(reply),
        Err(error) => return Err(error),
    };
    let Job { cid, own } = job;
    match find(world, alloc, r, own, &cid, wait) {
        Ok(found) => deliver_at(&mut world.seats[r as usize], alloc, cid, found),
        Err(error) => {
            give_back_at(&mut world.seats[r as usize], cid);
            given_up(error)
        }
    }
}

// What is found for a block: these bytes of the replica's own, or else the first that its peers offer.
fn find<K: Keeper, W: Wait>(
    world: &mut World<K>,
    alloc: Global,
    r: u64,
    own: Option<Bytes>,
    cid: &Cid,
    wait: &W,
) -> Result<Found, FetchError>
    requires digest { IfSome own (HasDigest cid.now) }
    ensures found { IfOk result (λ found.
        IsFoundFor (state K.Keeper K.Desk.faults world.old) r own cid.now (found_in found)) }
    ensures digest { IfOk result (FoundHas cid.now) }
    ensures same { SameButDesks world.old world.new }
    ensures desks { AllDesksGo K.Keeper K.Desk.faults (are_calm K.Keeper world.old.seats.items)
        world.old.desks.items world.new.desks.items }
    ensures failed { is_peer_fault result ≡ true → PeerFailed K.Desk.faults
        (peer_row world.old.down.items r 0 (map (place K.Keeper) world.old.seats.items))
        world.old.desks.items world.new.desks.items }
    ensures lacks { is_peer_fault result ≡ true → own ≡ None }
{
    if let Some(bytes) = own {
        return Ok(Found::Bytes(bytes));
    }
    let seats = world.seats.as_slice();
    let found = find_among(
        alloc,
        seats,
        &mut world.desks,
        world.down.as_slice(),
        r,
        cid,
        wait,
    );
    recount::<K>(&mut world.desk_counts, world.desks.as_slice());
    match found {
        Ok(Some(bytes)) => Ok(Found::Bytes(bytes)),
        Ok(None) => Ok(Found::Missing),
        Err(error) => Err(error),
    }
}

// What is answered where the fetch failed, or where memory was wanted.
fn given_up(error: FetchError) -> Result<Reply, ActError>
    ensures { result ≡ given_up_of error }
{
    match error {
        FetchError::Failed => Ok(Reply::FaultPeer),
        FetchError::Memory => Err(ActError::Memory),
    }
}
