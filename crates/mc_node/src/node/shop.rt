// A sealed node is a shop for workers.
ghost use Rattle.std.specs.Prelude.{◌≡◌, true, IfOk};
ghost use Rattle.mc_turn.specs.Lists.{Begins};
ghost use Rattle.mc_turn.specs.Seats.{IsSeatOf};
ghost use Rattle.mc_fetch.specs.Fits.{NextFits};
ghost use Rattle.mc_worker.specs.Ends.{deliver_ends, job_out, next_ends};
ghost use Rattle.mc_worker.specs.Lookups.{FoundFits};
ghost use Rattle.mc_node.specs.Entries.{is_sealed_log, items};
ghost use Rattle.mc_node.specs.Handovers.{HandsOver, giver_view, is_of_fetched};
ghost use Rattle.mc_node.specs.Seats.{knows};
ghost use Rattle.mc_node.specs.Pieces.{NextDoes};
ghost use Rattle.mc_node.specs.Serves.{BackDoes};
ghost use Rattle.mc_node.specs.Views.{Turned};
ghost use Rattle.mc_node.specs.Works.{IsUnder};

use super::ahead::rest;
use super::{Node, NodeSeat};
use crate::hired::Hired;
use crate::stored::Stored;
use mc_base::Cid;
use mc_fetch::{Found, Job, Naming};
use mc_keep::Keeper;
use mc_worker::{HandEnd, Handover, Shop, ShopError, end_of};
use std::alloc::Global;
use std::sync::Wait;

// A large group, after how many commits more a worker rests, and by which number of looks.
const LARGE: u64 = 32;

const RESTS: u64 = 128;

const REST: u64 = 1;

/// A sealed node is a shop: a worker's seat is one of the node's, with a limit of at most `J.most`. Each call takes
/// the turn and gives it back; what the seat has seen then begins with the log that it took. A call that asks for a
/// job where none waits first takes in what was pushed, which is no clause.
///
/// A delivery with a giver is another matter: a found block is pushed outside the turn, and then one exchange is made
/// for the turn. Where it is free, what was pushed is taken in, and else the answer is `Queued`: whoever has the turn
/// next takes the block in. The turn is waited for only where the relay is full, and where no block was found
/// or memory was wanted for it.
///
/// `Stopped` comes exactly where the log says that the keeper has failed, and `KeeperFault` where this call noted
/// that. Then comes `Spent`, where the keeper tells exactly where the replica has at least as many processed blocks
/// as the seat's limit. The job of a delivery that is `Spent`, or wants memory, waits again, behind all that wait,
/// where it is in flight.
impl<K: Keeper, J: Naming> Shop for Node<Stored<K, J>> {
    ghost use Rattle.std.specs.Prelude.{◌≡◌, true};
    ghost use Rattle.mc_turn.specs.Seats.{IsSeatOf};
    ghost use Rattle.mc_node.specs.Entries.{is_sealed_log, items};
    ghost use Rattle.mc_node.specs.Handovers.{HandsOver, giver_view, is_of_fetched};
    ghost use Rattle.mc_node.specs.Seats.{knows};
    ghost use Rattle.mc_node.specs.Ahead.{GivesOut};
    ghost use Rattle.mc_node.specs.Serves.{BackDoes};
    ghost use Rattle.mc_node.specs.Views.{Turned};
    ghost use Rattle.mc_node.specs.Works.{IsUnder};

    type Seat = Hired<Stored<K, J>, K, J>;

    ghost owns = { λ node hired. IsSeatOf node.turn hired.seat.seat × IsUnder J.most hired.limit
        × (is_sealed_log (knows hired.seat).seen ≡ true) };

    ghost ended = { λ hired. hired.last };

    ghost out = { λ hired. hired.out };

    ghost found = { J.found };

    ghost kept = { J.kept };

    ghost nexts = { λ result before after. (after.limit ≡ before.limit)
        × GivesOut (items K.Keeper) before.limit result before.ahead.items after.ahead.items (knows before.seat)
        (knows after.seat) };

    ghost delivers = { λ cid found result before after. (after.limit ≡ before.limit)
        × HandsOver before.limit cid found result (giver_view before.giver) (giver_view after.giver)
        (knows before.seat) (knows after.seat) is_of_fetched (items K.Keeper) };

    ghost returns = { λ cid before after. (after.limit ≡ before.limit)
        × Turned (knows before.seat) (knows after.seat) (λ old new.
        BackDoes cid (items K.Keeper old) (items K.Keeper new)) };

    fn last(seat: &Hired<Stored<K, J>, K, J>) -> Option<HandEnd> {
        seat.last
    }

    fn next_job<W: Wait>(
        &self,
        alloc: Global,
        seat: &mut Hired<Stored<K, J>, K, J>,
        wait: &W,
    ) -> Result<Option<Job>, ShopError> {
        let result = self.give_out(alloc, seat, wait);
        seat.last = next_end(&result);
        seat.out = next_out(&result);
        result
    }

    fn deliver<W: Wait>(
        &self,
        alloc: Global,
        seat: &mut Hired<Stored<K, J>, K, J>,
        job: Job,
        bytes: Found,
        wait: &W,
    ) -> Result<Handover, ShopError> {
        let limit = seat.limit;
        let result = self.end_job(
            alloc,
            &mut seat.seat,
            &mut seat.giver,
            limit,
            job,
            bytes,
            wait,
        );
        seat.last = deliver_end(&result);
        seat.out = None;
        seat.rests = rests_after(seat.rests, &result);
        result
    }

    fn give_back<W: Wait>(&self, seat: &mut Hired<Stored<K, J>, K, J>, job: Job, wait: &W) {
        self.leave_job(&mut seat.seat, job, wait);
        seat.out = None;
    }
}

impl<K: Keeper, J: Naming> Node<Stored<K, J>> {
    /// A job begins, as a shop's `next_job` tells, on a seat that has no limit of its own and any number of jobs out.
    ///
    /// Conditions: the node is sealed, and the limit is at most `J.most`.
    pub fn take_job<W: Wait>(
        &self,
        alloc: Global,
        seat: &mut NodeSeat<Stored<K, J>, K>,
        limit: u64,
        wait: &W,
    ) -> Result<Option<Job>, ShopError>
        requires own { IsSeatOf self.now.turn seat.old.seat }
        requires sealed { is_sealed_log (knows seat.old).seen ≡ true }
        requires limit { IsUnder J.most limit }
        ensures own { IsSeatOf self.now.turn seat.new.seat }
        ensures seen { Begins (knows seat.old).seen (knows seat.new).seen }
        ensures sealed { is_sealed_log (knows seat.new).seen ≡ true }
        ensures job { IfOk result (NextFits J.found J.kept) }
        ensures turned { Turned (knows seat.old) (knows seat.new) (λ old new.
            NextDoes limit result (items K.Keeper old) (items K.Keeper new)) }
    {
        let mut held = self.turn.take(&mut seat.seat, wait);
        let result = held.value.next_job(alloc, limit, wait);
        self.turn.give(&mut seat.seat, held);
        result
    }

    // A job is given back.
    fn leave_job<W: Wait>(&self, seat: &mut NodeSeat<Stored<K, J>, K>, job: Job, wait: &W)
        requires own { IsSeatOf self.now.turn seat.old.seat }
        requires sealed { is_sealed_log (knows seat.old).seen ≡ true }
        ensures own { IsSeatOf self.now.turn seat.new.seat }
        ensures seen { Begins (knows seat.old).seen (knows seat.new).seen }
        ensures sealed { is_sealed_log (knows seat.new).seen ≡ true }
        ensures turned { Turned (knows seat.old) (knows seat.new) (λ old new.
            BackDoes job.cid (items K.Keeper old) (items K.Keeper new)) }
    {
        let mut held = self.turn.take(&mut seat.seat, wait);
        held.value.give_back(job);
        self.turn.give(&mut seat.seat, held);
    }
}

// Rests after a commit, where one of the last was of a large group. How many more commits it rests after. Others wait for
// the turn then; a worker that goes on at once would find it free again and commit its next block alone.
fn rests_after(rests: u64, answer: &Result<Handover, ShopError>) -> u64 {
    let Ok(Handover::Committed { processed }) = answer else {
        return rests;
    };
    if *processed < LARGE && rests == 0 {
        return 0;
    }
    rest(REST);
    if *processed >= LARGE {
        return RESTS;
    }
    rests - 1
}

// How a call that asked for a job ended.
fn next_end(answer: &Result<Option<Job>, ShopError>) -> Option<HandEnd>
    ensures { result ≡ next_ends answer.now }
{
    match answer {
        Ok(Some(_)) => None,
        Ok(None) => Some(HandEnd::Idle),
        Err(error) => Some(end_of(*error)),
    }
}

// The block of the job that it took.
fn next_out(answer: &Result<Option<Job>, ShopError>) -> Option<Cid>
    ensures { result ≡ job_out answer.now }
{
    match answer {
        Ok(Some(job)) => Some(job.cid),
        Ok(None) => None,
        Err(_) => None,
    }
}

// How a delivery ended.
fn deliver_end(answer: &Result<Handover, ShopError>) -> Option<HandEnd>
    ensures { result ≡ deliver_ends answer.now }
{
    match answer {
        Ok(_) => None,
        Err(error) => Some(end_of(*error)),
    }
}
