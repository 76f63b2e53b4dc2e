// The other replicas, as places that blocks are fetched from.
ghost use Rattle.std.specs.Prelude.{◌≡◌, cond, false, fold, IfOk, IfSome};
ghost use Rattle.mc_fetch.specs.Causes.{is_peer_fault};
ghost use Rattle.mc_fetch.specs.Peers.{PlaceIs, ViewAsks, told_at, capped_with};
ghost use Rattle.mc_fetch.specs.Plants.{planted_at};

use crate::plants::Plants;
use crate::{Fetch, FetchError};
use mc_base::{Bytes, Cid, Counted, List};
use mc_keep::Keeper;
use std::alloc::{AllocError, Global};
use std::marker::PhantomData;
use std::sync::Wait;

/// How another replica is read: by its keeper, through a desk of that keeper, and by the offers that are planted there.
#[derive(Drop)]
pub struct PeerView<'a, K: Keeper> {
    /// The replica's keeper.
    pub keeper: &'a K,
    /// A desk of it, through which its stored blocks are read.
    pub desk: K::Desk,
    /// What is planted at the replica.
    pub planted: &'a Plants,
}

/// Other replicas, in a fixed order, as places that blocks are fetched from: two for each of them, the offer that is
/// planted there and then the block that it has stored. Its count of faults is the sum of those of the desks, at most
/// `u64::MAX`. It tells where all keepers tell, and is quiet where all keepers and desks are. Its leading places are those
/// up to what is planted at the first peer whose keeper is silent.
#[derive(Drop)]
pub struct PeerFetch<'a, K: Keeper> {
    views: Vec<PeerView<'a, K>>,
    of: PhantomData<&'a K>,
}

impl<'a, K: Keeper> PeerFetch<'a, K> {
    ghost use Rattle.mc_fetch.specs.Views.{views_of};

    /// Fetches from these replicas, in this order. Takes no memory.
    pub fn new(peers: List<PeerView<'a, K>>) -> PeerFetch<'a, K>
        ensures { views_of result ≡ peers.entry }
    {
        PeerFetch {
            views: peers.into_vec(),
            of: PhantomData,
        }
    }

    /// Hands the views back, in their order. It takes no memory, and does not fail.
    pub fn end(self) -> List<PeerView<'a, K>>
        ensures { result ≡ views_of self.entry }
    {
        let PeerFetch { views, of: _ } = self;
        List::from_vec(views)
    }
}

impl<'a, K: Keeper> Counted for PeerFetch<'a, K> {
    ghost use Rattle.mc_fetch.specs.Peers.{faults_of};
    ghost use Rattle.mc_fetch.specs.Views.{views_of};

    ghost faults = { λ fetch. faults_of K.Desk.faults (views_of fetch) };

    fn faults(&self) -> u64 {
        sum_faults(self.views.as_slice())
    }
}

// The counts of the desks one after the other, at most `u64::MAX`.
fn sum_faults<'a, K: Keeper>(views: &[PeerView<'a, K>]) -> u64
    ensures { result ≡ fold (capped_with K.Desk.faults) 0 views.now }
{
    let mut count = 0;
    for view in views {
        count = add_faults(count, view);
    }
    count
}

fn add_faults<'a, K: Keeper>(count: u64, view: &PeerView<'a, K>) -> u64
    ensures { result ≡ capped_with K.Desk.faults count view.now }
{
    count.saturating_add(view.desk.faults())
}

impl<'a, K: Keeper> Fetch for PeerFetch<'a, K> {
    ghost use Rattle.std.specs.Prelude.{◌*◌, length};
    ghost use Rattle.std.specs.List.{AllZip};
    ghost use Rattle.mc_fetch.specs.Peers.{leading_told, offers_told, are_quiet, ViewGoes};
    ghost use Rattle.mc_fetch.specs.PeerLaws.{all_led, all_placed, few_led, views_stay, views_go_on};
    ghost use Rattle.mc_fetch.specs.Views.{views_of};

    ghost offers = { λ fetch. offers_told K.told (views_of fetch) };

    ghost leading = { λ fetch cid. leading_told K.told cid (views_of fetch) };

    ghost places = { λ fetch. 2 * length (views_of fetch) };

    ghost quiet = { λ fetch. are_quiet K.quiet K.quiet_desk (views_of fetch) };

    ghost follows = { λ old new. AllZip
        (ViewGoes K.quiet K.quiet_desk K.Desk.faults K.desk_schedule) (views_of old) (views_of new) };

    ghost placed = { λ fetch. all_placed K.told fetch.views.items };

    ghost whole = { λ fetch. all_led K.told fetch.views.items };

    ghost few = { λ fetch cid. few_led K.told cid fetch.views.items };

    ghost follows_itself = { λ fetch. views_stay
        K.quiet K.quiet_desk K.Desk.faults K.desk_schedule fetch.views.items };

    ghost follows_on = { λ first second third. views_go_on
        K.quiet K.quiet_desk K.Desk.faults K.desk_schedule
        first.views.items second.views.items third.views.items };

    fn places(&self) -> u64 {
        2 * self.views.as_slice().len() as u64
    }

    fn offer<W: Wait>(
        &mut self,
        alloc: Global,
        cid: &Cid,
        place: u64,
        wait: &W,
    ) -> Result<Option<Bytes>, FetchError> {
        let view = &mut self.views[(place / 2) as usize];
        ask_peer(alloc, view, cid, place % 2 == 0, wait)
    }
}

// What a peer offers for a block: what is planted there, or what it has stored.
fn ask_peer<'a, K: Keeper, W: Wait>(
    alloc: Global,
    view: &mut PeerView<'a, K>,
    cid: &Cid,
    planted: bool,
    wait: &W,
) -> Result<Option<Bytes>, FetchError>
    ensures offer { IfSome (told_at K.told view.old) (λ peer. IfOk result (λ bytes.
        bytes ≡ cond planted (peer cid.now).planted (peer cid.now).stored)) }
    ensures place { IfOk result (PlaceIs K.told planted view.old cid.now) }
    ensures asks { ViewAsks K.quiet K.quiet_desk K.Desk.faults K.desk_schedule
        (is_peer_fault result) view.old view.new }
{
    if planted {
        return Ok(copy_planted(alloc, view.planted, cid)?);
    }
    ask_stored(alloc, view, cid, wait)
}

// A copy of the bytes that are planted for a block.
fn copy_planted(alloc: Global, planted: &Plants, cid: &Cid) -> Result<Option<Bytes>, AllocError>
    ensures { IfOk result (λ bytes. bytes ≡ planted_at planted.now cid.now) }
{
    match planted.get(cid) {
        Some(bytes) => Ok(Some(Bytes::from_slice(alloc, bytes)?)),
        None => Ok(None),
    }
}

// The block that a peer has stored, read through the desk.
fn ask_stored<'a, K: Keeper, W: Wait>(
    alloc: Global,
    view: &mut PeerView<'a, K>,
    cid: &Cid,
    wait: &W,
) -> Result<Option<Bytes>, FetchError>
    ensures offer { IfSome (told_at K.told view.old) (λ peer. IfOk result (λ bytes.
        bytes ≡ (peer cid.now).stored)) }
    ensures place { IfOk result (PlaceIs K.told false view.old cid.now) }
    ensures asks { ViewAsks K.quiet K.quiet_desk K.Desk.faults K.desk_schedule
        (is_peer_fault result) view.old view.new }
{
    match view.keeper.peer_block(alloc, &mut view.desk, cid, wait) {
        Ok(bytes) => Ok(bytes),
        Err(error) => Err(FetchError::from(error)),
    }
}
