// The turns of one worker.
ghost use Rattle.std.specs.Prelude.{◌≡◌, None, Some, IfSome};
ghost use Rattle.mc_fetch.specs.Calls.{Asks};
ghost use Rattle.mc_fetch.specs.Fits.{FetchFits, JobFits};
ghost use Rattle.mc_fetch.specs.Offers.{found_by};
ghost use Rattle.mc_worker.specs.Ends.{HasEnded, end_by, failed_in, is_peer};

use crate::ends::end_of;
use crate::lookup::look_up;
use crate::{Gate, HandEnd, Shop};
use mc_fetch::{Fetch, FetchError, Job};
use std::alloc::Global;
use std::sync::Wait;

// A worker, to its end.
pub(crate) fn work<S: Shop, F: Fetch, G: Gate, W: Wait>(
    alloc: Global,
    shop: &S,
    seat: &mut S::Seat,
    fetch: &mut F,
    gate: &G,
    worker: u64,
    wait: &W,
) -> HandEnd
    requires own { S.owns shop.now seat.old }
    requires idle { S.out seat.old ≡ None }
    requires fits { FetchFits S.found S.kept (found_by (F.offers fetch.old)) }
    ensures own { S.owns shop.now seat.new }
    ensures idle { S.out seat.new ≡ None }
    ensures end { HasEnded (S.ended seat.new) result }
    ensures asks { Asks F.Fetch (is_peer result) fetch.old fetch.new }
{
    let mut turn = 0u64;
    for _ in wait.forever() {
        let place = (worker, turn);
        if let Some(end) = take_turn(alloc, shop, seat, fetch, gate, place, wait) {
            return end;
        }
        turn = turn.saturating_add(1);
    }
    unreachable!()
}

// One turn of a worker: a job is taken and done. The worker's end, where it is at its end.
fn take_turn<S: Shop, F: Fetch, G: Gate, W: Wait>(
    alloc: Global,
    shop: &S,
    seat: &mut S::Seat,
    fetch: &mut F,
    gate: &G,
    place: (u64, u64),
    wait: &W,
) -> Option<HandEnd>
    requires own { S.owns shop.now seat.old }
    requires idle { S.out seat.old ≡ None }
    requires fits { FetchFits S.found S.kept (found_by (F.offers fetch.old)) }
    ensures own { S.owns shop.now seat.new }
    ensures idle { S.out seat.new ≡ None }
    ensures end { IfSome result (HasEnded (S.ended seat.new)) }
    ensures asks { Asks F.Fetch (failed_in result) fetch.old fetch.new }
{
    match shop.next_job(alloc, seat, wait) {
        Ok(Some(job)) => {
            gate.pass(place.0, place.1, wait);
            do_job(alloc, shop, seat, fetch, job, wait)
        }
        Ok(None) => Some(HandEnd::Idle),
        Err(error) => Some(end_of(error)),
    }
}

// A job: what is found for it is delivered, or it is given back where the fetch gives no answer.
fn do_job<S: Shop, F: Fetch, W: Wait>(
    alloc: Global,
    shop: &S,
    seat: &mut S::Seat,
    fetch: &mut F,
    job: Job,
    wait: &W,
) -> Option<HandEnd>
    requires own { S.owns shop.now seat.old }
    requires taken { S.out seat.old ≡ Some job.cid }
    requires last { S.ended seat.old ≡ None }
    requires job { JobFits S.found S.kept job }
    requires fits { FetchFits S.found S.kept (found_by (F.offers fetch.old)) }
    ensures own { S.owns shop.now seat.new }
    ensures idle { S.out seat.new ≡ None }
    ensures end { IfSome result (HasEnded (S.ended seat.new)) }
    ensures asks { Asks F.Fetch (failed_in result) fetch.old fetch.new }
{
    let mut job = job;
    match look_up(alloc, fetch, &mut job, wait) {
        Ok(found) => match shop.deliver(alloc, seat, job, found, wait) {
            Ok(_) => None,
            Err(error) => Some(end_of(error)),
        },
        Err(error) => {
            shop.give_back(seat, job, wait);
            Some(end_by(error))
        }
    }
}

// Why a worker ends whose fetch gave no answer.
fn end_by(error: FetchError) -> HandEnd
    ensures { result ≡ end_by error }
{
    match error {
        FetchError::Failed => HandEnd::PeerFault,
        FetchError::Memory => HandEnd::Memory,
    }
}
