// A worker delivers what it found.
ghost use Rattle.std.specs.Prelude.{◌≡◌, true, Some};
ghost use Rattle.mc_base.specs.Cid.{digest_of};
ghost use Rattle.mc_turn.specs.Lists.{Begins};
ghost use Rattle.mc_turn.specs.Seats.{IsSeatOf};
ghost use Rattle.mc_fetch.specs.Fits.{IsOffered};
ghost use Rattle.mc_fetch.specs.declared.job.Found.{Found as FoundOf};
ghost use Rattle.mc_fetch.specs.declared.job.Found.TheVariants as found;
ghost use Rattle.mc_core.specs.Jobs.{found_in};
ghost use Rattle.mc_relay.specs.Ends.{giver_knows};
ghost use Rattle.mc_relay.specs.Items.{IsRight};
ghost use Rattle.mc_worker.specs.Lookups.{FoundFits};
ghost use Rattle.mc_node.specs.Entries.{is_sealed_log, items};
ghost use Rattle.mc_node.specs.Handovers.{HandDoes, HandsOver, HasCommitted, HasTriedOnce, IfCommitted, IfQueued};
ghost use Rattle.mc_node.specs.Handovers.{IsBlock, OnTaken, QueuedBy, UnlessQueued, committed_of, giver_view, is_of_fetched};
ghost use Rattle.mc_node.specs.Seats.{knows};
ghost use Rattle.mc_node.specs.Serves.{DeliverDoes};
ghost use Rattle.mc_node.specs.Views.{Turned};
ghost use Rattle.mc_node.specs.Works.{IsUnder};

use super::{Node, NodeSeat};
use crate::stored::Stored;
use mc_base::{Bytes, Cid};
use mc_block::{BlockError, Verified, VerifyRefused, verify_found};
use mc_fetch::{Found, Job, Naming};
use mc_keep::Keeper;
use mc_relay::GiverEnd;
use mc_worker::{Handover, ShopError};
use std::alloc::Global;
use std::sync::Wait;

impl<K: Keeper, J: Naming> Node<Stored<K, J>> {
    /// Takes in what workers pushed and nobody has taken in, as far as the limit goes, and gives the rest up, each
    /// block of which waits again where it is in flight. No clause says how much that is: a seat shows neither relay
    /// nor inbox. Without a relay nothing changes.
    ///
    /// Condition: no worker pushes any more. Conditions as of a shop's calls: the node is sealed, and the limit is at
    /// most `J.most`.
    pub fn settle<W: Wait>(
        &self,
        alloc: Global,
        seat: &mut NodeSeat<Stored<K, J>, K>,
        limit: u64,
        wait: &W,
    )
        requires own { IsSeatOf self.now.turn seat.old.seat }
        requires sealed { is_sealed_log (knows seat.old).seen ≡ true }
        requires limit { IsUnder J.most limit }
        ensures own { IsSeatOf self.now.turn seat.new.seat }
        ensures seen { Begins (knows seat.old).seen (knows seat.new).seen }
        ensures sealed { is_sealed_log (knows seat.new).seen ≡ true }
    {
        let mut held = self.turn.take(&mut seat.seat, wait);
        held.value.settle(alloc, limit, wait);
        self.turn.give(&mut seat.seat, held);
    }

    /// What was found for a job is delivered, with a giver or without one, as a shop's `deliver` tells, on a seat that
    /// has no limit of its own and any number of jobs out.
    ///
    /// Conditions: the node is sealed, and the limit is at most `J.most`; bytes that were found have the digest which
    /// names the block, and where `J.found` is a map, what was found is what it has for the block.
    pub fn end_job<W: Wait>(
        &self,
        alloc: Global,
        seat: &mut NodeSeat<Stored<K, J>, K>,
        giver: &mut Option<GiverEnd<J>>,
        limit: u64,
        job: Job,
        bytes: Found,
        wait: &W,
    ) -> Result<Handover, ShopError>
        requires own { IsSeatOf self.now.turn seat.old.seat }
        requires sealed { is_sealed_log (knows seat.old).seen ≡ true }
        requires limit { IsUnder J.most limit }
        requires fits { FoundFits J.found job.cid bytes }
        ensures own { IsSeatOf self.now.turn seat.new.seat }
        ensures sealed { is_sealed_log (knows seat.new).seen ≡ true }
        ensures does { HandsOver limit job.cid bytes result (giver_view giver.old) (giver_view giver.new)
            (knows seat.old) (knows seat.new) is_of_fetched (items K.Keeper) }
    {
        match bytes {
            Found::Missing => self.end_plain(alloc, seat, limit, job, Found::Missing, wait),
            Found::Bytes(bytes) => match giver.take() {
                None => self.end_plain(alloc, seat, limit, job, Found::Bytes(bytes), wait),
                Some(end) => {
                    let mut end = end;
                    let result = self.end_found(alloc, seat, &mut end, limit, job, bytes, wait);
                    *giver = Some(end);
                    result
                }
            },
        }
    }

    // Found bytes are looked at outside the turn, and a block is handed in.
    fn end_found<W: Wait>(
        &self,
        alloc: Global,
        seat: &mut NodeSeat<Stored<K, J>, K>,
        giver: &mut GiverEnd<J>,
        limit: u64,
        job: Job,
        bytes: Bytes,
        wait: &W,
    ) -> Result<Handover, ShopError>
        requires own { IsSeatOf self.now.turn seat.old.seat }
        requires sealed { is_sealed_log (knows seat.old).seen ≡ true }
        requires limit { IsUnder J.most limit }
        requires digest { digest_of bytes ≡ job.cid.0 }
        requires offered { IsOffered J.found job.cid bytes }
        ensures own { IsSeatOf self.now.turn seat.new.seat }
        ensures sealed { is_sealed_log (knows seat.new).seen ≡ true }
        ensures does { HandsOver limit job.cid (found.Bytes bytes) result (Some (giver_knows giver.old.giver))
            (Some (giver_knows giver.new.giver)) (knows seat.old) (knows seat.new) is_of_fetched (items K.Keeper) }
    {
        match verify_found(alloc, &job.cid, bytes) {
            Ok(item) => self.hand_in(alloc, seat, giver, limit, item, wait),
            Err(refused) => {
                let VerifyRefused { cause, bytes } = refused;
                match cause {
                    BlockError::Damaged(_) => {
                        self.end_plain(alloc, seat, limit, job, Found::Bytes(bytes), wait)
                    }
                    BlockError::Memory => self.end_short(seat, limit, job, wait),
                }
            }
        }
    }

    // A block is pushed, where the relay isn't full, and then one exchange is made for the turn; else it is waited for.
    fn hand_in<W: Wait>(
        &self,
        alloc: Global,
        seat: &mut NodeSeat<Stored<K, J>, K>,
        giver: &mut GiverEnd<J>,
        limit: u64,
        item: Verified,
        wait: &W,
    ) -> Result<Handover, ShopError>
        requires own { IsSeatOf self.now.turn seat.old.seat }
        requires sealed { is_sealed_log (knows seat.old).seen ≡ true }
        requires limit { IsUnder J.most limit }
        requires right { IsRight J.found item }
        ensures own { IsSeatOf self.now.turn seat.new.seat }
        ensures sealed { is_sealed_log (knows seat.new).seen ≡ true }
        ensures does { HandsOver limit item.cid (found.Bytes item.bytes) result (Some (giver_knows giver.old.giver))
            (Some (giver_knows giver.new.giver)) (knows seat.old) (knows seat.new) is_of_fetched (items K.Keeper) }
    {
        let cid = item.cid;
        match giver.push(item, wait) {
            Ok(()) => self.take_or_leave(alloc, seat, limit, cid, wait),
            Err(item) => self.take_waiting(alloc, seat, limit, item, wait),
        }
    }

    // What was pushed is taken in where the turn is free, by one exchange.
    fn take_or_leave<W: Wait>(
        &self,
        alloc: Global,
        seat: &mut NodeSeat<Stored<K, J>, K>,
        limit: u64,
        cid: Cid,
        wait: &W,
    ) -> Result<Handover, ShopError>
        requires own { IsSeatOf self.now.turn seat.old.seat }
        requires sealed { is_sealed_log (knows seat.old).seen ≡ true }
        requires limit { IsUnder J.most limit }
        ensures own { IsSeatOf self.now.turn seat.new.seat }
        ensures sealed { is_sealed_log (knows seat.new).seen ≡ true }
        ensures tried { HasTriedOnce (knows seat.old) (knows seat.new) }
        ensures queued { IfQueued result (QueuedBy (knows seat.old) (knows seat.new)) }
        ensures committed { IfCommitted result (HasCommitted is_of_fetched (knows seat.old) (knows seat.new)) }
        ensures turned { (bytes : FoundOf) → UnlessQueued result (Turned (knows seat.old) (knows seat.new) (λ old new.
            HandDoes limit cid bytes result (items K.Keeper old) (items K.Keeper new))) }
    {
        match self.turn.try_take(&mut seat.seat) {
            Ok(held) => {
                let mut held = held;
                let result = held.value.take_pushed(alloc, limit, cid, wait);
                self.turn.give(&mut seat.seat, held);
                committed(result)
            }
            Err(busy) => Ok(Handover::Queued { word: busy.word }),
        }
    }

    // The turn is waited for, and this block is taken in with what was pushed.
    fn take_waiting<W: Wait>(
        &self,
        alloc: Global,
        seat: &mut NodeSeat<Stored<K, J>, K>,
        limit: u64,
        item: Verified,
        wait: &W,
    ) -> Result<Handover, ShopError>
        requires own { IsSeatOf self.now.turn seat.old.seat }
        requires sealed { is_sealed_log (knows seat.old).seen ≡ true }
        requires limit { IsUnder J.most limit }
        requires right { IsRight J.found item }
        ensures own { IsSeatOf self.now.turn seat.new.seat }
        ensures sealed { is_sealed_log (knows seat.new).seen ≡ true }
        ensures queued { IfQueued result (λ word. ⊥) }
        ensures committed { IfCommitted result (HasCommitted is_of_fetched (knows seat.old) (knows seat.new)) }
        ensures turned { (bytes : FoundOf) → UnlessQueued result (Turned (knows seat.old) (knows seat.new) (λ old new.
            HandDoes limit item.cid bytes result (items K.Keeper old) (items K.Keeper new))) }
    {
        let mut held = self.turn.take(&mut seat.seat, wait);
        let result = held.value.take_with(alloc, limit, item, wait);
        self.turn.give(&mut seat.seat, held);
        committed(result)
    }

    // What was found is delivered under the turn, which is waited for.
    fn end_plain<W: Wait>(
        &self,
        alloc: Global,
        seat: &mut NodeSeat<Stored<K, J>, K>,
        limit: u64,
        job: Job,
        found: Found,
        wait: &W,
    ) -> Result<Handover, ShopError>
        requires own { IsSeatOf self.now.turn seat.old.seat }
        requires sealed { is_sealed_log (knows seat.old).seen ≡ true }
        requires limit { IsUnder J.most limit }
        requires fits { FoundFits J.found job.cid found }
        ensures own { IsSeatOf self.now.turn seat.new.seat }
        ensures seen { Begins (knows seat.old).seen (knows seat.new).seen }
        ensures sealed { is_sealed_log (knows seat.new).seen ≡ true }
        ensures turned { Turned (knows seat.old) (knows seat.new) (λ old new.
            DeliverDoes limit job.cid found result (items K.Keeper old) (items K.Keeper new)) }
        ensures committed { IfCommitted result (HasCommitted is_of_fetched (knows seat.old) (knows seat.new)) }
        ensures queued { IfQueued result (λ word. ⊥) }
        ensures block { IfCommitted result (λ count. IsBlock job.cid (found_in found)) }
    {
        let mut held = self.turn.take(&mut seat.seat, wait);
        let result = held.value.deliver(alloc, limit, job, found);
        self.turn.give(&mut seat.seat, held);
        result
    }

    // A job for whose block memory was wanted is given back.
    fn end_short<W: Wait>(
        &self,
        seat: &mut NodeSeat<Stored<K, J>, K>,
        limit: u64,
        job: Job,
        wait: &W,
    ) -> Result<Handover, ShopError>
        requires own { IsSeatOf self.now.turn seat.old.seat }
        requires sealed { is_sealed_log (knows seat.old).seen ≡ true }
        ensures own { IsSeatOf self.now.turn seat.new.seat }
        ensures sealed { is_sealed_log (knows seat.new).seen ≡ true }
        ensures turned { (bytes : FoundOf) → Turned (knows seat.old) (knows seat.new) (λ old new.
            DeliverDoes limit job.cid bytes result (items K.Keeper old) (items K.Keeper new)) }
        ensures fails { OnTaken result ⊥ }
    {
        let mut held = self.turn.take(&mut seat.seat, wait);
        let error = held.value.deliver_short(limit, job);
        self.turn.give(&mut seat.seat, held);
        Err(error)
    }
}

// What is answered to a commit.
fn committed(answer: Result<u64, ShopError>) -> Result<Handover, ShopError>
    ensures { result ≡ committed_of answer }
{
    match answer {
        Ok(processed) => Ok(Handover::Committed { processed }),
        Err(error) => Err(error),
    }
}
