// What each command does at its replica.
ghost use Rattle.std.specs.Prelude.{◌≡◌, false, true, IfOk, map};
ghost use Rattle.mc_keep.specs.Changes.{heads_in_rows};
ghost use Rattle.mc_query.specs.Places.{pair_of};
ghost use Rattle.mc_core.specs.Exact.{front_of, stop_front};
ghost use Rattle.mc_core.specs.Refusals.{is_fault};
ghost use Rattle.mc_core.specs.Words.{Acts, Continues};
ghost use Rattle.mc_past.specs.Pasts.{PastFits};
ghost use Rattle.mc_seats.specs.declared.error.ActError.{ActError};
ghost use Rattle.mc_seats.specs.Calls.{is_call, is_read, CallLeaves, CallMakes, RefusesAlone};
ghost use Rattle.mc_seats.specs.Doing.{below_reply, change_of};
ghost use Rattle.mc_seats.specs.Effects.{CallRefusal, Leaves, EventsOf, answer_of, batch_priority, call_front};
ghost use Rattle.mc_seats.specs.Step.{answers_fault};
ghost use Rattle.mc_seats.specs.Words.{can_fail};
ghost use Rattle.mc_seats.specs.Worlds.{WorldState};

use crate::ActError;
use mc_base::{Bytes, Cid, List, Text};
use mc_core::{CoreError, Replica, Written};
use mc_feed::Event;
use mc_keep::{HeadRow, Keeper};
use mc_past::{Past, changes, value_below};
use mc_query::Pair;
use mc_script::{Command, Reply};
use std::alloc::{AllocError, Global};

// Calls the replica for a command, and gives the reply to what it did. What was read of its past is kept in `past`.
pub(crate) fn call<K: Keeper>(
    replica: &mut Replica<K>,
    past: &mut Past,
    alloc: Global,
    command: &Command,
) -> Result<Reply, CoreError>
    requires single { is_call command.now ≡ true }
    requires fits { PastFits (K.told replica.old.keeper) past.old }
    ensures call { (w : WorldState) → Acts K.Keeper (λ s. CallRefusal w s command.now) (λ s. EventsOf w s command.now)
        (Leaves command.now) result replica.old replica.new }
    ensures keeps { Continues K.Keeper (is_fault result) replica.old replica.new }
    ensures front { (w : WorldState) →
        front_of result ≡ stop_front replica.old.stopped (call_front w replica.old.batch command.now) }
    ensures alone { RefusesAlone command.now result }
    ensures value { answers_fault result ≡ false }
    ensures may { can_fail command.now ≡ false → is_fault result ≡ false }
    ensures leaves { CallLeaves K.Keeper command.now result replica.old replica.new }
    ensures makes { IfOk result (CallMakes K.Keeper command.now replica.old replica.new) }
    ensures fits { PastFits (K.told replica.old.keeper) past.new }
{
    match command {
        Command::Put { key, bytes, .. } => Ok(Reply::Priority {
            priority: replica.put(alloc, key.as_str(), bytes.as_slice())?.priority,
        }),
        Command::Del { key, .. } => Ok(Reply::Deleted {
            blocks: replica.delete(alloc, key.as_str())?.blocks,
        }),
        Command::Begin { .. } => {
            replica.batch_begin(alloc)?;
            Ok(Reply::Done)
        }
        Command::BatchPut { key, bytes, .. } => {
            replica.batch_put(key.as_str(), bytes.as_slice())?;
            Ok(Reply::Done)
        }
        Command::BatchDel { key, .. } => {
            replica.batch_delete(key.as_str())?;
            Ok(Reply::Done)
        }
        Command::Commit { .. } => Ok(Reply::Priority {
            priority: batch_priority(replica.batch_commit(alloc)?),
        }),
        _ => read(replica, past, alloc, command),
    }
}

// The same for a command that only reads.
fn read<K: Keeper>(
    replica: &mut Replica<K>,
    past: &mut Past,
    alloc: Global,
    command: &Command,
) -> Result<Reply, CoreError>
    requires read { is_read command.now ≡ true }
    requires fits { PastFits (K.told replica.old.keeper) past.old }
    ensures call { (w : WorldState) → Acts K.Keeper (λ s. CallRefusal w s command.now) (λ s. EventsOf w s command.now)
        (Leaves command.now) result replica.old replica.new }
    ensures keeps { Continues K.Keeper (is_fault result) replica.old replica.new }
    ensures front { (w : WorldState) →
        front_of result ≡ stop_front replica.old.stopped (call_front w replica.old.batch command.now) }
    ensures alone { RefusesAlone command.now result }
    ensures value { answers_fault result ≡ false }
    ensures may { can_fail command.now ≡ false → is_fault result ≡ false }
    ensures leaves { CallLeaves K.Keeper command.now result replica.old replica.new }
    ensures makes { IfOk result (CallMakes K.Keeper command.now replica.old replica.new) }
    ensures fits { PastFits (K.told replica.old.keeper) past.new }
{
    match command {
        Command::Get { key, .. } => Ok(Reply::Value {
            value: replica.get(alloc, key.as_str())?,
        }),
        Command::Has { key, .. } => Ok(Reply::Has {
            yes: replica.has(key.as_str())?,
        }),
        Command::Query {
            prefix,
            skip,
            take,
            ..
        } => Ok(Reply::Rows {
            rows: rows_of(alloc, replica.query(alloc, prefix.as_str(), *skip, *take)?)?,
        }),
        Command::Heads { .. } => Ok(Reply::Heads {
            heads: heads_of(alloc, replica.heads(alloc)?.as_slice())?,
        }),
        Command::Feed { from, count, .. } => Ok(Reply::Events {
            events: changes_of(alloc, changes(replica, past, alloc, *from, *count)?)?,
        }),
        Command::GetAt { cid, key, .. } => {
            Ok(below_reply(value_below(replica, past, alloc, cid, key.as_str())?))
        }
        _ => unreachable!(),
    }
}

// The reply to a call that did nothing, or not all.
pub(crate) fn answer(error: CoreError) -> Result<Reply, ActError>
    ensures { result ≡ answer_of error }
{
    match error {
        CoreError::BadKey { fault } => Ok(Reply::RefusedKey {
            number: fault.number(),
        }),
        CoreError::ValueTooLong => Ok(Reply::RefusedValue),
        CoreError::BlockTooLarge { len } => Ok(Reply::RefusedSize { len }),
        CoreError::PriorityFull => Ok(Reply::RefusedPriority),
        CoreError::Clash { cid } => Ok(Reply::RefusedClash { cid }),
        CoreError::KeeperFault => Ok(Reply::FaultKeeper),
        CoreError::Stopped => Ok(Reply::Stopped),
        CoreError::BadCast { .. } => Ok(Reply::RefusedCast),
        CoreError::NoBatch => Ok(Reply::RefusedBatch),
        CoreError::BatchOpen => Ok(Reply::RefusedBatch),
        CoreError::Memory => Err(ActError::Memory),
    }
}

// The priority of a batch's block, or 0 where it made none.
fn batch_priority(written: Option<Written>) -> u64
    ensures { result ≡ batch_priority written }
{
    match written {
        Some(written) => written.priority,
        None => 0,
    }
}

// The keys of a query, each with its value.
fn rows_of(alloc: Global, pairs: List<Pair>) -> Result<List<(Text, Bytes)>, AllocError>
    ensures { IfOk result (λ rows. rows ≡ map pair_of pairs) }
{
    let mut rows = List::with_capacity(alloc, pairs.len())?;
    for pair in pairs.into_vec() {
        rows.push((pair.key, pair.value))?;
    }
    Ok(rows)
}

// The heads, each with its height.
fn heads_of(alloc: Global, rows: &[HeadRow]) -> Result<List<(Cid, u64)>, AllocError>
    ensures { IfOk result (λ heads. heads ≡ heads_in_rows rows.now) }
{
    let mut heads = List::with_capacity(alloc, rows.len())?;
    for row in rows {
        heads.push((row.cid, row.height))?;
    }
    Ok(heads)
}

// The changes of a feed, each with its position, its key and its value.
fn changes_of(
    alloc: Global,
    events: List<Event>,
) -> Result<List<(u64, Text, Option<Bytes>)>, AllocError>
    ensures { IfOk result (λ changes. changes ≡ map change_of events) }
{
    let mut changes = List::with_capacity(alloc, events.len())?;
    for event in events.into_vec() {
        changes.push((event.position, event.key, event.value))?;
    }
    Ok(changes)
}

// The reply to a value below a block, or to none, where the block isn't processed.
fn below_reply(found: Option<Option<Bytes>>) -> Reply
    ensures { result ≡ below_reply found }
{
    match found {
        Some(value) => Reply::Value { value },
        None => Reply::RefusedView,
    }
}
