// What a broadcast says of the heads, and what is heard of one.
ghost use Rattle.std.specs.Prelude.{◌≡◌, ◌≤◌, [], None, IfOk, IfErr, OnOk, OnErr, length};
ghost use Rattle.mc_keep.specs.Calls.{Reads};
ghost use Rattle.mc_keep.specs.Causes.{IfTold};
ghost use Rattle.mc_keep.specs.Plan.{is_fault as keeper_failed};
ghost use Rattle.mc_cast.specs.Reads.{IsCast};
ghost use Rattle.mc_cast.specs.Steps.{digests_of};
ghost use Rattle.mc_model.specs.Wanted.{hear_all};
ghost use Rattle.mc_queue.specs.Views.{shown, spare};
ghost use Rattle.mc_plan.specs.Exact.{front_of};
ghost use Rattle.mc_plan.specs.Hears.{IsQueued, IsRefusalOf, NamesNew, NamesSome};
ghost use Rattle.mc_plan.specs.Hears.{cast_refusal, unless_short, written_cast};
ghost use Rattle.mc_plan.specs.Refusals.{Is, IsDue, is_fault};

use crate::CoreError;
use crate::made::cids_of;
use crate::wanting::unprocessed;
use mc_base::{Bytes, Cid, List};
use mc_cast::{CastError, read_cast, write_cast};
use mc_keep::{KeepError, Keeper};
use mc_queue::Queue;
use std::alloc::{AllocError, Global};

/// What was heard of a message.
#[derive(Clone, Copy, Debug, PartialEq, Eq)]
pub struct Heard {
    /// How many blocks came to waiting. One that the message names twice counts once.
    pub queued: u64,
}

/// The broadcast of the heads.
pub fn cast_heads<K: Keeper>(keeper: &mut K, alloc: Global) -> Result<Bytes, KeepError>
    ensures bytes { IfTold (K.told keeper.old) result (λ kept bytes. bytes ≡ written_cast kept) }
    ensures reads { Reads K.Keeper (keeper_failed result) keeper.old keeper.new }
{
    let heads = keeper.heads(alloc)?;
    let cids = cids_of(alloc, heads.as_slice())?;
    let bytes = write_cast(alloc, cids.as_slice())?;
    Ok(bytes)
}

// The blocks that a message names, or why it names none.
fn read_message(alloc: Global, message: &[u8]) -> Result<List<Cid>, CastError>
    ensures named { IfOk result (λ cids. IsCast message.now (digests_of cids)) }
    ensures allowed { OnOk result (cast_refusal message.now ≡ None) }
    ensures refused { IfErr result (IsRefusalOf message.now) }
{
    read_cast(alloc, message)
}

/// The blocks that a message names and that are not processed.
pub fn read_new<K: Keeper>(
    keeper: &mut K,
    alloc: Global,
    message: &[u8],
) -> Result<List<Cid>, CoreError>
    ensures new { IfTold (K.told keeper.old) result (λ kept new. NamesNew message.now kept.order new) }
    ensures some { IfOk result (NamesSome message.now) }
    ensures allowed { OnOk result (cast_refusal message.now ≡ None) }
    ensures front { front_of result ≡ unless_short result (cast_refusal message.now) }
    ensures refused { IfErr result (IsDue (Is (cast_refusal message.now))) }
    ensures reads { Reads K.Keeper (is_fault result) keeper.old keeper.new }
{
    match read_message(alloc, message) {
        Ok(cids) => match unprocessed(keeper, alloc, cids.as_slice()) {
            Ok(new) => Ok(new),
            Err(error) => Err(CoreError::from(error)),
        },
        Err(CastError::Fault(fault)) => Err(CoreError::BadCast { fault }),
        Err(CastError::Memory) => Err(CoreError::Memory),
    }
}

/// These blocks are heard, with all memory taken before.
pub fn hear_new(queue: &mut Queue, new: &[Cid]) -> Result<Heard, AllocError>
    ensures queue { OnOk result (shown queue.new ≡ hear_all [] (shown queue.old) new.now) }
    ensures queued { IfOk result (λ heard. IsQueued (shown queue.old) (shown queue.new) heard.queued) }
    ensures short { OnErr result (shown queue.new ≡ shown queue.old) }
{
    queue.reserve(new.len() as u64)?;
    let before = queue.counts().waiting;
    want_again(queue, new);
    Ok(Heard {
        queued: queue.counts().waiting - before,
    })
}

// These blocks come to waiting, each unless it waits or is in flight. Takes no memory.
fn want_again(queue: &mut Queue, cids: &[Cid])
    requires room { length cids.now ≤ spare queue.old }
    ensures queue { shown queue.new ≡ hear_all [] (shown queue.old) cids.now }
    ensures more { length (shown queue.old).waiting ≤ length (shown queue.new).waiting }
{
    for cid in cids {
        let _came = queue.want(*cid, true);
    }
}
