// Calls of a replica that get no memory, and what it reports then. Here no request is refused: `bench/refused_memory/calls`
// runs this again and again, with another one refused in each run.
ghost use Rattle.std.specs.Prelude.{IfSome};
ghost use Rattle.mc_model.specs.State.{HasSoundMark};

use crate::inboxes::{adds, begin_all};
use crate::running::{found_for, hears, opened};
use mc_base::{Bytes, Cid};
use mc_core::{CoreError, Grouped, Replica, Report};
use mc_fetch::{Delivered, Job};
use mc_keep::{Fused, Keeper};
use mc_keep_tests::{Trial, element, passes};
use std::alloc::Global;
use std::sync::Wait;
use std::test::Fail;

// A call that changes nothing where it gets no memory.
#[derive(Clone, Copy)]
enum Call {
    Put,
    Commit,
    Hear,
    TakeIn,
}

// Makes ready what a call needs.
fn prepare<K: Keeper>(
    replica: &mut Replica<K>,
    alloc: Global,
    call: Call,
) -> Result<bool, CoreError> {
    match call {
        Call::Put | Call::Hear => Ok(true),
        Call::Commit => {
            replica.batch_begin(alloc)?;
            replica.batch_put("/a", &[1])?;
            Ok(true)
        }
        Call::TakeIn => Ok(begin_all(replica, alloc, 2)? && adds(replica, alloc, 2)? == 2),
    }
}

// Makes the call, and tells whether its answer is right.
fn make<K: Keeper>(replica: &mut Replica<K>, alloc: Global, call: Call) -> Result<bool, CoreError> {
    match call {
        Call::Put => Ok(replica.put(alloc, "/a", &[1])?.position == 0),
        Call::Commit => Ok(replica.batch_commit(alloc)?.is_some()),
        Call::Hear => Ok(hears(replica, alloc, Cid::of(b""))? == 1),
        Call::TakeIn => {
            let both = Grouped {
                processed: 2,
                known: 0,
            };
            Ok(replica.inbox_commit(alloc, 64)? == both)
        }
    }
}

// What a replica has after a call, if it goes well.
fn has_done<K: Keeper>(
    replica: &Replica<K>,
    before: Report,
    call: Call,
) -> Result<bool, CoreError> {
    let mut wanted = before;
    match call {
        Call::Put | Call::Commit => {
            wanted.processed = 1;
            wanted.stored = 1;
        }
        Call::Hear => wanted.counts.waiting = 1,
        Call::TakeIn => {
            wanted.processed = 2;
            wanted.stored = 2;
            wanted.counts.flight = 0;
        }
    }
    Ok(replica.report()? == wanted && replica.inbox_len() == 0)
}

// Whether a call that gets no memory leaves the report and the inbox as they were, and does all the next time.
fn is_all_or_nothing<K: Keeper>(
    replica: &mut Replica<K>,
    alloc: Global,
    call: Call,
) -> Result<bool, CoreError> {
    let ready = prepare(replica, alloc, call)?;
    let before = replica.report()?;
    let held = replica.inbox_len();
    let first = make(replica, alloc, call);
    if first == Err(CoreError::Memory) {
        let same = replica.report()? == before && replica.inbox_len() == held;
        let again = make(replica, alloc, call)?;
        return Ok(ready && same && again && has_done(replica, before, call)?);
    }
    Ok(ready && first? && has_done(replica, before, call)?)
}

// Stores the block of a put, whose second commit fails.
fn stores_alone<K: Keeper>(
    replica: &mut Replica<Fused<K>>,
    alloc: Global,
) -> Result<bool, CoreError> {
    replica.arm(2, false);
    match replica.put(alloc, "/k", &[1]) {
        Err(CoreError::Memory) => Err(CoreError::Memory),
        put => Ok(put == Err(CoreError::KeeperFault)),
    }
}

// Whether a job is that of a block, and has the bytes that are stored where they should be.
fn is_of(job: Option<Job>, cid: &Cid, is_stored: bool) -> bool {
    match job {
        Some(job) => job.cid == *cid && job.own.is_some() == is_stored,
        None => false,
    }
}

// Of two blocks that wait the first one, which is stored, gets a job, or the second where there was no memory: the first
// waits behind it then.
fn begins_in_turn<K: Keeper>(replica: &mut Replica<K>, alloc: Global) -> Result<bool, CoreError> {
    let first = Cid::of(element(alloc, 1)?.as_slice());
    let second = Cid::of(b"2");
    hears(replica, alloc, first)?;
    hears(replica, alloc, second)?;
    let before = replica.report()?;
    match replica.next_job(alloc) {
        Ok(job) => Ok(is_of(job, &first, true)),
        Err(CoreError::Memory) => {
            let same = replica.report()? == before;
            let job = replica.next_job(alloc)?;
            let last = replica.next_job(alloc)?;
            Ok(same && is_of(job, &second, false) && is_of(last, &first, true))
        }
        Err(error) => Err(error),
    }
}

// The same from a keeper on that has a stored block.
fn opens_and_begins<K: Keeper + Drop>(keeper: K, alloc: Global) -> Result<bool, CoreError>
    requires { IfSome (K.told keeper) HasSoundMark }
{
    let mut replica = opened(alloc, keeper)?;
    begins_in_turn(&mut replica, alloc)
}

// The same from an empty keeper on.
fn stores_and_begins<K: Keeper + Drop>(keeper: K, alloc: Global) -> Result<bool, CoreError>
    requires { IfSome (K.told keeper) HasSoundMark }
{
    let mut replica = opened(alloc, Fused::wrap(keeper))?;
    let stored = stores_alone(&mut replica, alloc);
    let begun = opens_and_begins(replica.stop(), alloc);
    Ok(stored? && begun?)
}

// A job for the only block that waits, and these bytes for it.
fn delivers<K: Keeper>(
    replica: &mut Replica<K>,
    alloc: Global,
    bytes: Bytes,
) -> Result<Option<Delivered>, CoreError> {
    let Some(job) = replica.next_job(alloc)? else {
        return Ok(None);
    };
    let found = found_for(&job.cid, bytes);
    Ok(Some(replica.deliver(alloc, job, found)?))
}

// A block that is delivered without memory waits again, and comes in the next time.
fn comes_in<K: Keeper>(replica: &mut Replica<K>, alloc: Global) -> Result<bool, CoreError> {
    let block = element(alloc, 1)?;
    let same = element(alloc, 1)?;
    hears(replica, alloc, Cid::of(block.as_slice()))?;
    let waits = replica.report()?;
    let wanted = Ok(Some(Delivered::Processed { position: 0 }));
    let first = delivers(replica, alloc, block);
    if first == Err(CoreError::Memory) {
        let again = replica.report()? == waits;
        return Ok(again && delivers(replica, alloc, same) == wanted);
    }
    Ok(first == wanted && replica.report()?.counts.waiting == 0)
}

// What is tried here.
#[derive(Clone, Copy)]
enum Refusals {
    Call { call: Call },
    Begin,
    Deliver,
}

fn is_kept<K: Keeper + Drop>(keeper: K, alloc: Global, call: Call) -> Result<bool, CoreError>
    requires { IfSome (K.told keeper) HasSoundMark }
{
    let mut replica = opened(alloc, keeper)?;
    is_all_or_nothing(&mut replica, alloc, call)
}

fn is_delivered<K: Keeper + Drop>(keeper: K, alloc: Global) -> Result<bool, CoreError>
    requires { IfSome (K.told keeper) HasSoundMark }
{
    let mut replica = opened(alloc, keeper)?;
    comes_in(&mut replica, alloc)
}

impl Trial for Refusals {
    fn passes<K: Keeper + Drop, W: Wait>(
        self,
        alloc: Global,
        keeper: K,
        _wait: &W,
    ) -> Result<bool, Fail>
    where
        K::Desk: Drop,
    {
        let answer = match self {
            Refusals::Call { call } => is_kept(keeper, alloc, call),
            Refusals::Begin => stores_and_begins(keeper, alloc),
            Refusals::Deliver => is_delivered(keeper, alloc),
        };
        Ok(answer?)
    }
}

#[test]
fn a_call_without_memory_leaves_what_is_reported(rt: HostRuntime) -> Result<(), Fail> {
    let trials = [
        Refusals::Call { call: Call::Put },
        Refusals::Call { call: Call::Commit },
        Refusals::Call { call: Call::Hear },
        Refusals::Call { call: Call::TakeIn },
        Refusals::Begin,
        Refusals::Deliver,
    ];
    for (number, trial) in trials.iter().enumerate() {
        assert!(rt; passes(*trial, rt.alloc(), &rt)?, "{number}");
    }
    Ok(())
}
