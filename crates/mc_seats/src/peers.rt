// The replicas that a replica fetches from, each asked in turn.
ghost use Rattle.std.specs.Prelude.{◌≡◌, ◌∷◌, ◌<◌, [], true, IfOk, IfSome, length, map};
ghost use Rattle.std.specs.Prelude.{vec_len, vec_capacity};
ghost use Rattle.mc_fetch.specs.Causes.{is_peer_fault};
ghost use Rattle.mc_fetch.specs.Offers.{HasDigest, matching};
ghost use Rattle.mc_fetch.specs.Plants.{planted_at};
ghost use Rattle.mc_seats.specs.Desked.{is_desked, is_full_list};
ghost use Rattle.mc_seats.specs.Keepers.{keeper_of};
ghost use Rattle.mc_seats.specs.StepParts.{
  AllDesksGo,
  DesksAsk,
  IsOfferedAt,
  IsOfferedBy,
  IsToldAt,
  PeerFailed,
  are_calm,
  desks_in_views,
  is_peer_at,
  peers_among,
};
ghost use Rattle.mc_seats.specs.Words.{place};
ghost use Rattle.mc_seats.specs.Worlds.{is_up, peer_row};

use crate::links::{Link, is_linked};
use crate::seat::{Held, Seat};
use crate::seats::{put_at, take_at};
use mc_base::{Bytes, Cid, List};
use mc_fetch::{FetchError, PeerFetch, PeerView, Plants, first_match};
use mc_keep::Keeper;
use std::alloc::{AllocError, Global};
use std::mem::replace;
use std::sync::Wait;

/// The bytes for a block that are found first among those that r fetches from, in order of name: of each one its planted
/// offer, where this is the block, whatever its keeper tells, and else its stored block, which is read through the first
/// of its desks. None is asked after the one that decides, nor after one whose desk failed.
pub fn find_among<K: Keeper, W: Wait>(
    alloc: Global,
    seats: &[Seat<K>],
    desks: &mut Vec<List<K::Desk>>,
    down: &[Link],
    r: u64,
    cid: &Cid,
    wait: &W,
) -> Result<Option<Bytes>, FetchError>
    requires desked { is_desked (length seats.now) desks.old.items ≡ true }
    ensures found { IfOk result (IsOfferedBy (peers_among down.now r (map (place K.Keeper) seats.now)) cid.now) }
    ensures digest { IfOk result (λ found. IfSome found (HasDigest cid.now)) }
    ensures desks { AllDesksGo K.Keeper K.Desk.faults (are_calm K.Keeper seats.now) desks.old.items desks.new.items }
    ensures failed { is_peer_fault result ≡ true → PeerFailed K.Desk.faults
        (peer_row down.now r 0 (map (place K.Keeper) seats.now)) desks.old.items desks.new.items }
{
    for at in 0..seats.len() {
        let seat = &seats[at];
        if is_peer(seat, down, r, at as u64) {
            match ask_peer(alloc, seat, &mut desks[at], cid, wait) {
                Ok(Some(bytes)) => return Ok(Some(bytes)),
                Ok(None) => (),
                Err(error) => return Err(error),
            }
        }
    }
    Ok(None)
}

/// Whether r fetches from the replica with this number, which is in this seat.
pub fn is_peer<K: Keeper>(seat: &Seat<K>, down: &[Link], r: u64, number: u64) -> bool
    ensures { result ≡ is_peer_at down.now r number (place K.Keeper seat.now) }
{
    is_linked(down, r, number) && runs(seat)
}

// Whether the replica in a seat runs.
pub(crate) fn runs<K: Keeper>(seat: &Seat<K>) -> bool
    ensures { result ≡ is_up (place K.Keeper seat.now).run }
{
    match &seat.held {
        Held::Up(replica) => match replica.report() {
            Ok(_) => true,
            Err(_) => false,
        },
        Held::Down(_) => false,
    }
}

/// The keeper of the replica in a seat.
pub fn keeper_in<K: Keeper>(seat: &Seat<K>) -> &K
    ensures { result.now ≡ keeper_of seat.now }
{
    match &seat.held {
        Held::Up(replica) => replica.keeper(),
        Held::Down(idle) => &idle.keeper,
    }
}

// What the replica in a seat offers for a block that has its digest: what is planted there, or else what is read
// through the first of its desks.
fn ask_peer<K: Keeper, W: Wait>(
    alloc: Global,
    seat: &Seat<K>,
    desks: &mut List<K::Desk>,
    cid: &Cid,
    wait: &W,
) -> Result<Option<Bytes>, FetchError>
    requires full { is_full_list desks.old ≡ true }
    ensures offer { IfOk result (IsOfferedAt K.Keeper (keeper_of seat.now) seat.now.planted cid.now) }
    ensures digest { IfOk result (λ found. IfSome found (HasDigest cid.now)) }
    ensures desks { DesksAsk K.Keeper K.Desk.faults (K.quiet (keeper_of seat.now)) (is_peer_fault result)
        desks.old desks.new }
{
    match planted_match(alloc, &seat.planted, cid) {
        Ok(Some(bytes)) => Ok(Some(bytes)),
        Ok(None) => ask_desk(alloc, seat, desks, cid, wait),
        Err(AllocError) => Err(FetchError::Memory),
    }
}

// The bytes that are planted for a block, where they have its digest.
fn planted_match(alloc: Global, planted: &Plants, cid: &Cid) -> Result<Option<Bytes>, AllocError>
    ensures same { IfOk result (λ found. found ≡ matching cid.now (planted_at planted.now cid.now)) }
    ensures digest { IfOk result (λ found. IfSome found (HasDigest cid.now)) }
{
    let Some(bytes) = planted.get(cid) else {
        return Ok(None);
    };
    if Cid::of(bytes) == *cid {
        return Ok(Some(Bytes::from_slice(alloc, bytes)?));
    }
    Ok(None)
}

// What the replica in a seat offers for a block that has its digest, read through the first of its desks.
fn ask_desk<K: Keeper, W: Wait>(
    alloc: Global,
    seat: &Seat<K>,
    desks: &mut List<K::Desk>,
    cid: &Cid,
    wait: &W,
) -> Result<Option<Bytes>, FetchError>
    requires full { is_full_list desks.old ≡ true }
    ensures offer { IfOk result (IsToldAt K.Keeper (keeper_of seat.now) seat.now.planted cid.now) }
    ensures digest { IfOk result (λ found. IfSome found (HasDigest cid.now)) }
    ensures desks { DesksAsk K.Keeper K.Desk.faults (K.quiet (keeper_of seat.now)) (is_peer_fault result)
        desks.old desks.new }
{
    let Ok(mut views) = Vec::with_capacity(alloc, 1) else {
        return Err(FetchError::Memory);
    };
    let (desk, others) = take_first(alloc, desks);
    views.push_reserved(view_of(seat, desk));
    let mut fetch = PeerFetch::new(List::from_vec(views));
    let found = first_match(alloc, &mut fetch, cid, wait);
    put_first(desks, desk_of(fetch.end()), others);
    found
}

// How the replica in a seat is read through a desk.
fn view_of<'a, K: Keeper>(seat: &'a Seat<K>, desk: K::Desk) -> PeerView<'a, K>
    ensures keeper { result.keeper.now ≡ keeper_of seat.now }
    ensures desk { result.desk ≡ desk }
    ensures planted { result.planted.now ≡ seat.now.planted }
{
    PeerView {
        keeper: keeper_in(seat),
        desk,
        planted: &seat.planted,
    }
}

// The desk of the only view.
fn desk_of<'a, K: Keeper>(views: List<PeerView<'a, K>>) -> K::Desk
    requires one { length views ≡ 1 }
    ensures { desks_in_views views.entry ≡ result ∷ [] }
{
    let mut views = views.into_vec();
    let view = take_at(&mut views, 0);
    views.destroy_empty();
    let PeerView {
        keeper: _,
        desk,
        planted: _,
    } = view;
    desk
}

// Takes the first of some things out, and all others, which leaves none.
fn take_first<T>(alloc: Global, things: &mut List<T>) -> (T, Vec<T>)
    requires some { 0 < length things.old }
    ensures taken { things.old ≡ result.0 ∷ result.1.items }
    ensures left { things.new ≡ [] }
    ensures room { vec_len result.1 < vec_capacity result.1 }
{
    let mut others = replace(things, List::new(alloc)).into_vec();
    let first = take_at(&mut others, 0);
    (first, others)
}

// Puts them back. Takes no memory.
fn put_first<T>(things: &mut List<T>, first: T, others: Vec<T>)
    requires left { things.old ≡ [] }
    requires room { vec_len others < vec_capacity others }
    ensures { things.new ≡ first ∷ others.items }
{
    let mut others = others;
    put_at(&mut others, 0, first);
    replace(things, List::from_vec(others))
        .into_vec()
        .destroy_empty();
}
