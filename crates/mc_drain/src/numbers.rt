// Numbers of a replica that runs.
ghost use Rattle.std.specs.Prelude.{◌≡◌, false, length, IfSome};
ghost use Rattle.mc_queue.specs.Views.{shown};
ghost use Rattle.mc_core.specs.Counted.{capped};
ghost use Rattle.mc_core.specs.Replica.{replica_state};
ghost use Rattle.mc_drain.specs.Leads.{count};

use mc_core::Replica;
use mc_keep::Keeper;

// How many blocks are processed, at most `u64::MAX`.
pub(crate) fn processed<K: Keeper>(replica: &Replica<K>) -> u64
    requires runs { replica.now.stopped ≡ false }
    ensures { IfSome (replica_state K.told K.fuse replica.now) (λ s. result ≡ capped (count s)) }
{
    match replica.report() {
        Ok(report) => report.processed,
        Err(_) => unreachable!(),
    }
}

// How many blocks wait.
pub(crate) fn waiting<K: Keeper>(replica: &Replica<K>) -> u64
    requires runs { replica.now.stopped ≡ false }
    ensures { result ≡ length (shown replica.now.queue).waiting }
{
    match replica.report() {
        Ok(report) => report.counts.waiting,
        Err(_) => unreachable!(),
    }
}

// How many blocks are missing, and how many are bad.
pub(crate) fn missing<K: Keeper>(replica: &Replica<K>) -> u64
    requires runs { replica.now.stopped ≡ false }
    ensures { result ≡ length (shown replica.now.queue).missing }
{
    match replica.report() {
        Ok(report) => report.counts.missing,
        Err(_) => unreachable!(),
    }
}

pub(crate) fn bad<K: Keeper>(replica: &Replica<K>) -> u64
    requires runs { replica.now.stopped ≡ false }
    ensures { result ≡ length (shown replica.now.queue).bad }
{
    match replica.report() {
        Ok(report) => report.counts.bad,
        Err(_) => unreachable!(),
    }
}
