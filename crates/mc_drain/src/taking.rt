// Blocks of an inbox come in together.
ghost use Rattle.std.specs.Prelude.{◌≡◌, ◌≤◌, ◌+◌, [], false, take, IfErr, IfOk};
ghost use Rattle.mc_inbox.specs.Groups.{AreOffered};
ghost use Rattle.mc_group.specs.Inboxes.{CountsGroup, GroupEvents, given_back_queue};
ghost use Rattle.mc_queue.specs.Views.{shown};
ghost use Rattle.mc_core.specs.Calls.{Stays};
ghost use Rattle.mc_core.specs.Exact.{RunSame};
ghost use Rattle.mc_core.specs.Words.{Becomes, Continues};
ghost use Rattle.mc_drain.specs.Groups.{InboxTaken, OfferedFor, TakenWants};
ghost use Rattle.mc_drain.specs.JobCalls.{JobCall};
ghost use Rattle.mc_drain.specs.Leads.{Always, Leads, count};
ghost use Rattle.mc_drain.specs.Words.{IsBroken, begin_failed};

use crate::DrainEnd;
use crate::end::is_fault;
use mc_core::Replica;
use mc_group::Grouped;
use mc_inbox::groups_are_drains;
use mc_keep::Keeper;
use mc_model::{found_drains_go_on, order_and_store_grow, parts_stay_right, recall_gives_back};
use std::alloc::Global;

/// Takes the first blocks of a replica's inbox in, as many as the limit says, or all. What it does is what
/// `Replica::inbox_commit` does: after `Memory` replica and inbox are as before.
pub fn take_in<K: Keeper>(
    alloc: Global,
    replica: &mut Replica<K>,
    limit: u64,
) -> Result<Grouped, DrainEnd>
    requires runs { replica.old.stopped ≡ false }
    requires limit { (1 ≤ limit) × (limit ≤ 64) }
    ensures call { Becomes K.Keeper (λ rose. JobCall (λ s. GroupEvents s (take limit replica.old.inbox.items)) Stays rose
        result) replica.old replica.new }
    ensures leads { Becomes K.Keeper (λ rose s new. Leads (begin_failed result) (count s + limit)
        (OfferedFor (take limit replica.old.inbox.items)) s new) replica.old replica.new }
    ensures keeps { Continues K.Keeper (begin_failed result) replica.old replica.new }
    ensures rest { RunSame replica.old replica.new }
    ensures broken { IfErr result IsBroken }
    ensures counts { IfOk result (CountsGroup (shown replica.old.queue) (take limit replica.old.inbox.items)) }
    ensures items { InboxTaken result limit replica.old.inbox.items replica.new.inbox.items }
    ensures room { replica.new.inbox.room ≡ replica.old.inbox.room }
    ensures wants { TakenWants result (take limit replica.old.inbox.items) (shown replica.old.queue)
        (shown replica.new.queue) }
{
    found_drains_go_on();
    order_and_store_grow();
    parts_stay_right();
    groups_are_drains();
    replica.is_sound();
    match replica.inbox_commit(alloc, limit) {
        Ok(grouped) => Ok(grouped),
        Err(error) => {
            if is_fault(error) {
                return Err(DrainEnd::KeeperFault);
            }
            Err(DrainEnd::Memory)
        }
    }
}

/// Gives the blocks of a replica's inbox up: each that is in flight comes to the back of what waits, in their order. It
/// takes no memory and can't fail.
pub fn give_up_inbox<K: Keeper>(replica: &mut Replica<K>)
    ensures leads { Becomes K.Keeper (λ rose s new. Leads false (count s) Always s new) replica.old replica.new }
    ensures keeps { Continues K.Keeper false replica.old replica.new }
    ensures rest { RunSame replica.old replica.new }
    ensures empty { replica.new.inbox.items ≡ [] }
    ensures wants { shown replica.new.queue ≡ given_back_queue (shown replica.old.queue) replica.old.inbox.items }
{
    found_drains_go_on();
    order_and_store_grow();
    parts_stay_right();
    recall_gives_back();
    replica.is_sound();
    replica.inbox_give_back();
}
