// Where jobs come from.
ghost use Rattle.std.specs.Prelude.{◌≡◌, List, Option, None, Some, Result, IfOk};
ghost use Rattle.mc_base.specs.declared.cid.Cid.{Cid as CidOf};
ghost use Rattle.mc_fetch.specs.Fits.{Map, NextFits};
ghost use Rattle.mc_worker.specs.Ends.{deliver_ends, job_out, next_ends};
ghost use Rattle.mc_worker.specs.Lookups.{FoundFits};

use crate::{HandEnd, Handover, ShopError};
use mc_fetch::{Found, Job};
use std::alloc::Global;
use std::sync::Wait;

/// Where jobs come from, and where what was found for them goes. Many workers may call one shop at a time, each with a
/// seat of its own.
///
/// A seat has at most one job out: `next_job` is called where it has none, and what is delivered or given back is the
/// one that it has. So a worker that keeps to these conditions loses no job.
pub trait Shop {
    ghost use Rattle.mc_fetch.specs.declared.job.Found.{Found as FoundOf};
    ghost use Rattle.mc_fetch.specs.declared.job.Job.{Job as JobOf};
    ghost use Rattle.mc_worker.specs.declared.ends.HandEnd.{HandEnd as End};
    ghost use Rattle.mc_worker.specs.declared.ends.ShopError.{ShopError as Error};
    ghost use Rattle.mc_worker.specs.declared.handover.Handover.{Handover as Answer};

    /// What one worker calls the shop with.
    type Seat;

    /// Whether the seat is one of this shop's.
    ghost owns: { Self → Self.Seat → Type 0 };

    /// How the latest `next_job` or `deliver` of the seat ended.
    ghost ended: { Self.Seat → Option End };

    /// The block of the job that the seat has taken, and neither delivered nor given back.
    ghost out: { Self.Seat → Option CidOf };

    /// What is found for each block, where the offers are told.
    ghost found: { Option Map };

    /// The blocks whose bytes the shop has itself.
    ghost kept: { List CidOf };

    /// What a call that asks for a job does, by its answer: over the seat before and after it.
    ghost nexts: { Result (Option JobOf) Error → Self.Seat → Self.Seat → Type 0 };

    /// What a delivery of this for a block does, by its answer.
    ghost delivers: { CidOf → FoundOf → Result Answer Error → Self.Seat → Self.Seat → Type 0 };

    /// What a call does that gives the job of a block back.
    ghost returns: { CidOf → Self.Seat → Self.Seat → Type 0 };

    /// How the latest `next_job` or `deliver` of the seat ended: `Idle` where there was no job, the end of the same
    /// name where it gave no answer, and none after every other answer and before the first call.
    fn last(seat: &Self::Seat) -> Option<HandEnd>
        ensures { result ≡ ended seat.now };

    /// The next job, or none. What each answer says is `nexts`.
    fn next_job<W: Wait>(
        &self,
        alloc: Global,
        seat: &mut Self::Seat,
        wait: &W,
    ) -> Result<Option<Job>, ShopError>
        requires own { owns self.now seat.old }
        requires idle { out seat.old ≡ None }
        ensures own { owns self.now seat.new }
        ensures ended { ended seat.new ≡ next_ends result }
        ensures out { out seat.new ≡ job_out result }
        ensures job { IfOk result (NextFits found kept) }
        ensures does { nexts result seat.old seat.new };

    /// Takes what was found for the seat's job: bytes that have the digest which names the block, and what is missing
    /// only where nothing is found for the block. What each answer says is `delivers`.
    fn deliver<W: Wait>(
        &self,
        alloc: Global,
        seat: &mut Self::Seat,
        job: Job,
        bytes: Found,
        wait: &W,
    ) -> Result<Handover, ShopError>
        requires own { owns self.now seat.old }
        requires taken { out seat.old ≡ Some job.cid }
        requires fits { FoundFits found job.cid bytes }
        ensures own { owns self.now seat.new }
        ensures ended { ended seat.new ≡ deliver_ends result }
        ensures out { out seat.new ≡ None }
        ensures does { delivers job.cid bytes result seat.old seat.new };

    /// Takes the seat's job back, for whoever asks next. It takes no memory, and does not fail.
    fn give_back<W: Wait>(&self, seat: &mut Self::Seat, job: Job, wait: &W)
        requires own { owns self.now seat.old }
        requires taken { out seat.old ≡ Some job.cid }
        ensures own { owns self.now seat.new }
        ensures ended { ended seat.new ≡ ended seat.old }
        ensures out { out seat.new ≡ None }
        ensures does { returns job.cid seat.old seat.new };
}
