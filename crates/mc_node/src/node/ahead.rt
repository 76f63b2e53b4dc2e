// Jobs that a worker has ahead of those that it was asked for.
ghost use Rattle.std.specs.Prelude.{◌≡◌, All, [], None, Ok, true, IfOk};
ghost use Rattle.mc_turn.specs.Lists.{Begins};
ghost use Rattle.mc_turn.specs.Seats.{IsSeatOf};
ghost use Rattle.mc_fetch.specs.Fits.{JobFits, NextFits};
ghost use Rattle.mc_node.specs.Ahead.{AsksFor, BeginsJobs, GivesOut};
ghost use Rattle.mc_node.specs.Entries.{is_sealed_log, items};
ghost use Rattle.mc_node.specs.Seats.{knows};
ghost use Rattle.mc_node.specs.Views.{Turned};
ghost use Rattle.mc_node.specs.Works.{IsUnder};

use super::{Node, NodeSeat};
use crate::hired::Hired;
use crate::stored::Stored;
use mc_fetch::{Job, Naming};
use mc_keep::Keeper;
use mc_worker::ShopError;
use std::alloc::Global;
use std::sync::Wait;
use std::thread;

// How often a job is asked for while nothing waits and blocks are in flight elsewhere.
const LOOKS: u64 = 20;

impl<K: Keeper, J: Naming> Node<Stored<K, J>> {
    // A job comes out of those ahead, or is asked for.
    pub(crate) fn give_out<W: Wait>(
        &self,
        alloc: Global,
        hired: &mut Hired<Stored<K, J>, K, J>,
        wait: &W,
    ) -> Result<Option<Job>, ShopError>
        requires own { IsSeatOf self.now.turn hired.old.seat.seat }
        requires sealed { is_sealed_log (knows hired.old.seat).seen ≡ true }
        requires limit { IsUnder J.most hired.old.limit }
        ensures own { IsSeatOf self.now.turn hired.new.seat.seat }
        ensures sealed { is_sealed_log (knows hired.new.seat).seen ≡ true }
        ensures limit { hired.new.limit ≡ hired.old.limit }
        ensures job { IfOk result (NextFits J.found J.kept) }
        ensures does { GivesOut (items K.Keeper) hired.old.limit result hired.old.ahead.items hired.new.ahead.items
            (knows hired.old.seat) (knows hired.new.seat) }
    {
        if let Some(job) = hired.ahead.pop() {
            return Ok(Some(job));
        }
        let limit = hired.limit;
        self.ask_jobs(alloc, &mut hired.seat, limit, &mut hired.ahead, wait)
    }

    // A job is asked for, and once more while nothing waits and blocks are in flight elsewhere, whose links may wait then: so
    // many times at most, with ever longer rests between.
    pub(crate) fn ask_jobs<W: Wait>(
        &self,
        alloc: Global,
        seat: &mut NodeSeat<Stored<K, J>, K>,
        limit: u64,
        ahead: &mut Vec<Job>,
        wait: &W,
    ) -> Result<Option<Job>, ShopError>
        requires own { IsSeatOf self.now.turn seat.old.seat }
        requires sealed { is_sealed_log (knows seat.old).seen ≡ true }
        requires limit { IsUnder J.most limit }
        requires none { ahead.old.items ≡ [] }
        ensures own { IsSeatOf self.now.turn seat.new.seat }
        ensures sealed { is_sealed_log (knows seat.new).seen ≡ true }
        ensures job { IfOk result (NextFits J.found J.kept) }
        ensures fits { All (JobFits J.found J.kept) ahead.new.items }
        ensures does { AsksFor (items K.Keeper) limit result ahead.new.items (knows seat.old) (knows seat.new) }
    {
        for look in 0..LOOKS {
            let (result, busy) = self.take_jobs(alloc, seat, limit, ahead, wait);
            if !busy {
                return result;
            }
            rest(look);
        }
        let (result, _) = self.take_jobs(alloc, seat, limit, ahead, wait);
        result
    }

    // A job begins, and others ahead; or none does, and whether blocks are in flight elsewhere then.
    fn take_jobs<W: Wait>(
        &self,
        alloc: Global,
        seat: &mut NodeSeat<Stored<K, J>, K>,
        limit: u64,
        ahead: &mut Vec<Job>,
        wait: &W,
    ) -> (Result<Option<Job>, ShopError>, bool)
        requires own { IsSeatOf self.now.turn seat.old.seat }
        requires sealed { is_sealed_log (knows seat.old).seen ≡ true }
        requires limit { IsUnder J.most limit }
        requires none { ahead.old.items ≡ [] }
        ensures own { IsSeatOf self.now.turn seat.new.seat }
        ensures sealed { is_sealed_log (knows seat.new).seen ≡ true }
        ensures job { IfOk result.0 (NextFits J.found J.kept) }
        ensures fits { All (JobFits J.found J.kept) ahead.new.items }
        ensures turned { Turned (knows seat.old) (knows seat.new) (λ old new.
            BeginsJobs limit result.0 ahead.new.items (items K.Keeper old) (items K.Keeper new)) }
        ensures busy { result.1 ≡ true → (result.0 ≡ Ok None) × (ahead.new.items ≡ []) }
    {
        let mut held = self.turn.take(&mut seat.seat, wait);
        let result = held.value.next_jobs(alloc, limit, ahead, wait);
        let busy = held.value.is_busy(&result);
        self.turn.give(&mut seat.seat, held);
        (result, busy)
    }
}

// Rests after so many looks: lets others run once, twice, four times and so on.
pub(crate) fn rest(looks: u64) {
    for _ in 0..1u64 << looks.min(10) {
        thread::yield_now();
    }
}
