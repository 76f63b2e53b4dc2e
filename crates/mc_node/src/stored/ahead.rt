// Jobs that begin ahead of those that a worker asks for, under the same turn.
ghost use Rattle.std.specs.Prelude.{◌≡◌, ◌≤◌, ◌<◌, ◌+◌, All, [], None, Ok, false, true, length, vec_len, vec_capacity, IfOk};
ghost use Rattle.mc_turn.specs.Lists.{Begins};
ghost use Rattle.mc_fetch.specs.Fits.{JobFits, NextFits};
ghost use Rattle.mc_queue.specs.Views.{shown as wanted};
ghost use Rattle.mc_node.specs.Ahead.{BeginsMore, NextsAhead, is_keeper};
ghost use Rattle.mc_node.specs.Entries.{is_sealed_log, items, shown};
ghost use Rattle.mc_node.specs.Works.{IsUnder};

use super::Stored;
use mc_fetch::{Job, Naming};
use mc_keep::Keeper;
use mc_worker::ShopError;
use std::alloc::Global;
use std::sync::Wait;

// The most jobs that begin ahead for one worker, and the part of those that wait: one in so many.
const AHEAD: u64 = 127;

const PART: u64 = 4;

impl<K: Keeper, J: Naming> Stored<K, J> {
    // A job begins as `next_job` says, and where there is a relay others come to `ahead`: a part of those that wait, as many
    // as there is memory for.
    pub(crate) fn next_jobs<W: Wait>(
        &mut self,
        alloc: Global,
        limit: u64,
        ahead: &mut Vec<Job>,
        wait: &W,
    ) -> Result<Option<Job>, ShopError>
        requires sealed { is_sealed_log self.old.log.items ≡ true }
        requires limit { IsUnder J.most limit }
        requires none { ahead.old.items ≡ [] }
        ensures extends { Begins self.old.log.items self.new.log.items }
        ensures job { IfOk result (NextFits J.found J.kept) }
        ensures fits { All (JobFits J.found J.kept) ahead.new.items }
        ensures alone { result ≡ Ok None → ahead.new.items ≡ [] }
        ensures does { NextsAhead limit result ahead.new.items (items K.Keeper self.old.log.items)
            (shown K.Keeper self.old.replica.value) (items K.Keeper self.new.log.items)
            (shown K.Keeper self.new.replica.value) }
    {
        match self.next_job(alloc, limit, wait) {
            Ok(Some(job)) => {
                if self.begin_more(alloc, limit, ahead) {
                    return Err(ShopError::KeeperFault);
                }
                Ok(Some(job))
            }
            Ok(None) => Ok(None),
            Err(error) => Err(error),
        }
    }

    // Jobs begin ahead, while some wait. Whether the keeper failed.
    fn begin_more(&mut self, alloc: Global, limit: u64, ahead: &mut Vec<Job>) -> bool
        requires sealed { is_sealed_log self.old.log.items ≡ true }
        requires none { ahead.old.items ≡ [] }
        ensures extends { Begins self.old.log.items self.new.log.items }
        ensures fits { All (JobFits J.found J.kept) ahead.new.items }
        ensures does { BeginsMore limit result ahead.new.items (items K.Keeper self.old.log.items)
            (shown K.Keeper self.old.replica.value) (items K.Keeper self.new.log.items)
            (shown K.Keeper self.new.replica.value) }
    {
        let count = self.share(ahead);
        for _ in 0..count {
            match self.first_job(alloc, limit) {
                Ok(Some(job)) => ahead.push_reserved(job),
                Ok(None) => return false,
                Err(error) => return fails(error),
            }
        }
        false
    }

    // Whether there was no job, and blocks are in flight elsewhere.
    pub(crate) fn is_busy(&self, asked: &Result<Option<Job>, ShopError>) -> bool
        ensures busy { result ≡ true → (asked.now ≡ Ok None) × (self.now.replica.value.stopped ≡ false)
            × (0 < length (wanted self.now.replica.value.queue).flight) }
        ensures idle { result ≡ false → asked.now ≡ Ok None → self.now.replica.value.stopped ≡ false →
            length (wanted self.now.replica.value.queue).flight ≡ 0 }
    {
        match asked {
            Ok(None) => match self.replica.report() {
                Ok(report) => report.counts.flight > 0,
                Err(_) => false,
            },
            Ok(Some(_)) => false,
            Err(_) => false,
        }
    }

    // How many jobs may begin ahead: a part of those that wait, and as many as there is room for.
    fn share(&self, ahead: &mut Vec<Job>) -> u64
        ensures same { ahead.new.items ≡ ahead.old.items }
        ensures room { vec_len ahead.new + result ≤ vec_capacity ahead.new }
    {
        if !self.has_relay() {
            return 0;
        }
        let Ok(report) = self.replica.report() else {
            return 0;
        };
        match ahead.reserve(AHEAD as usize) {
            Ok(()) => (report.counts.waiting / PART).min(AHEAD),
            Err(_) => 0,
        }
    }
}

// Whether the keeper failed.
fn fails(error: ShopError) -> bool
    ensures { result ≡ is_keeper error }
{
    match error {
        ShopError::KeeperFault => true,
        ShopError::Stopped => false,
        ShopError::Spent => false,
        ShopError::Memory => false,
    }
}
