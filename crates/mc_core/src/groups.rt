// Blocks that were taken out of a replica's inbox together.
ghost use Rattle.std.specs.Prelude.{◌≡◌, ◌≢◌, ◌≤◌, ◌+◌, ◌++◌, [], true, false, None, map, take, length, vec_capacity};
ghost use Rattle.std.specs.Prelude.{IfErr, IfOk, IfSome};
ghost use Rattle.std.specs.List.{list_all};
ghost use Rattle.mc_keep.specs.Changes.{row_count};
ghost use Rattle.mc_keep.specs.Plan.{is_fault as keeper_failed};
ghost use Rattle.mc_model.specs.Front.{gaps};
ghost use Rattle.mc_model.specs.Kept.{processed};
ghost use Rattle.mc_model.specs.Offer.{is_good};
ghost use Rattle.mc_model.specs.declared.block.Block.{Block};
ghost use Rattle.mc_model.specs.declared.block.Stored.{Stored};
ghost use Rattle.mc_group.specs.Gathering.{IsGroup, IsGroupOver, items_of};
ghost use Rattle.mc_group.specs.Inboxes.{CountsGroup, GroupEvents, GroupWants, InboxAfter};
ghost use Rattle.mc_group.specs.Planning.{open_links};
ghost use Rattle.mc_queue.specs.Views.{shown, spare};
ghost use Rattle.mc_plan.specs.Calls.{Stays};
ghost use Rattle.mc_plan.specs.Reads.{read_refusal};
ghost use Rattle.mc_plan.specs.Refusals.{Is, is_fault};
ghost use Rattle.mc_plan.specs.Uptakes.{Processes};
ghost use Rattle.mc_core.specs.Exact.{DecidesAlone, RunSame, front_of};
ghost use Rattle.mc_core.specs.Groups.{TakesIn};
ghost use Rattle.mc_core.specs.Words.{Acts, Continues};

use crate::Replica;
use mc_base::Failed;
use mc_group::{Group, GroupPlan, Grouped, gather, plan_group, put_back, stores_of};
use mc_keep::{KeepError, Keeper, changes_fit, commits_are_events};
use mc_model::{kept_changes_are_events, kept_is_durable};
use mc_plan::{CoreError, is_sound};
use std::alloc::Global;

impl<K: Keeper> Replica<K> {
    // Takes the first blocks of the inbox into an empty group with room for them, and takes them up.
    pub(crate) fn take_in(
        &mut self,
        alloc: Global,
        limit: u64,
        group: Group,
    ) -> Result<Grouped, CoreError>
        requires up { self.old.stopped ≡ false }
        requires none { (group.slots.items ≡ []) × (group.blocks.items ≡ []) × (group.cids.items ≡ []) }
        requires slots { limit ≤ vec_capacity group.slots }
        requires blocks { limit ≤ vec_capacity group.blocks }
        requires cids { limit ≤ vec_capacity group.cids }
        ensures call { Acts K.Keeper (λ s. Is (read_refusal s))
            (λ s. GroupEvents s (take limit self.old.inbox.items)) Stays result self.old self.new }
        ensures keeps { Continues K.Keeper (is_fault result) self.old self.new }
        ensures only { front_of result ≡ None }
        ensures seen { IfErr result DecidesAlone }
        ensures rest { RunSame self.old self.new }
        ensures counts { IfOk result (CountsGroup (shown self.old.queue) (take limit self.old.inbox.items)) }
        ensures items { InboxAfter result limit self.old.inbox.items self.new.inbox.items }
        ensures room { self.new.inbox.room ≡ self.old.inbox.room }
        ensures wants { GroupWants result (take limit self.old.inbox.items) (shown self.old.queue)
            (shown self.new.queue) }
    {
        kept_is_durable();
        self.inbox.is_good();
        let mut group = group;
        match gather(
            &mut self.keeper,
            alloc,
            &self.queue,
            &mut self.inbox,
            limit,
            &mut group,
        ) {
            Ok(()) => self.take_up_group(alloc, group),
            Err(KeepError::Failed) => {
                put_back(&mut self.inbox, group.slots, group.blocks);
                self.stopped = true;
                Err(CoreError::KeeperFault)
            }
            Err(KeepError::Memory) => {
                put_back(&mut self.inbox, group.slots, group.blocks);
                Err(CoreError::Memory)
            }
        }
    }

    // Takes a group up.
    fn take_up_group(&mut self, alloc: Global, group: Group) -> Result<Grouped, CoreError>
        requires up { self.old.stopped ≡ false }
        requires group { IsGroup (shown self.old.queue).flight group.slots.items group.blocks.items group.cids.items }
        requires over { IfSome (K.told self.old.keeper) (λ kept.
            IsGroupOver kept group.slots.items group.blocks.items) }
        requires good { list_all (λ (item : Stored). is_good item.cid item.bytes) (items_of group.slots.items) ≡ true }
        requires few { length group.slots.items + length self.old.inbox.items ≤ 64 }
        requires room { length group.slots.items + length self.old.inbox.items ≤ self.old.inbox.room }
        ensures call { Acts K.Keeper (λ s. Is (read_refusal s)) (λ s. GroupEvents s (items_of group.slots.items))
            Stays result self.old self.new }
        ensures keeps { Continues K.Keeper (is_fault result) self.old self.new }
        ensures only { front_of result ≡ None }
        ensures seen { IfErr result DecidesAlone }
        ensures takes { TakesIn result (items_of group.slots.items) self.old self.new }
    {
        kept_is_durable();
        if group.cids.as_slice().is_empty() {
            let known = group.slots.as_slice().len() as u64;
            return Ok(Grouped {
                processed: 0,
                known,
            });
        }
        match plan_group(&mut self.keeper, alloc, &group, self.whole) {
            Ok(plan) => self.reserve_links(alloc, group, plan),
            Err(KeepError::Failed) => {
                put_back(&mut self.inbox, group.slots, group.blocks);
                self.stopped = true;
                Err(CoreError::KeeperFault)
            }
            Err(KeepError::Memory) => {
                put_back(&mut self.inbox, group.slots, group.blocks);
                Err(CoreError::Memory)
            }
        }
    }

    // Takes a planned group up.
    fn reserve_links(
        &mut self,
        alloc: Global,
        group: Group,
        plan: GroupPlan,
    ) -> Result<Grouped, CoreError>
        requires up { self.old.stopped ≡ false }
        requires group { IsGroup (shown self.old.queue).flight group.slots.items group.blocks.items group.cids.items }
        requires over { IfSome (K.told self.old.keeper) (λ kept.
            IsGroupOver kept group.slots.items group.blocks.items) }
        requires good { list_all (λ (item : Stored). is_good item.cid item.bytes) (items_of group.slots.items) ≡ true }
        requires few { length group.slots.items + length self.old.inbox.items ≤ 64 }
        requires room { length group.slots.items + length self.old.inbox.items ≤ self.old.inbox.room }
        requires some { group.cids.items ≢ [] }
        requires process { IfSome (K.told self.old.keeper) (λ kept.
            Processes kept self.old.whole group.blocks.items
            (map (λ (block : Block). block.cid) group.blocks.items) plan.process) }
        requires gaps { IfSome (K.told self.old.keeper) (λ kept.
            plan.gaps ≡ length (gaps (processed kept ++ group.blocks.items))) }
        requires links { IfSome (K.told self.old.keeper) (λ kept.
            plan.links ≡ open_links kept group.cids.items group.blocks.items) }
        requires only { (plan.process.store ≡ [])
            × (plan.process.marks ≡ map (λ (block : Block). block.cid) group.blocks.items) }
        requires stores { (plan.stores.items ≡ []) × (length group.slots.items ≤ vec_capacity plan.stores) }
        requires rows { row_count plan.process + length group.slots.items ≤ K.spare self.old.keeper }
        ensures call { Acts K.Keeper (λ s. Is (read_refusal s)) (λ s. GroupEvents s (items_of group.slots.items))
            Stays result self.old self.new }
        ensures keeps { Continues K.Keeper (is_fault result) self.old self.new }
        ensures only { front_of result ≡ None }
        ensures seen { IfErr result DecidesAlone }
        ensures takes { TakesIn result (items_of group.slots.items) self.old self.new }
    {
        kept_is_durable();
        match self.queue.reserve(plan.links.len() as u64) {
            Ok(()) => self.commit_group(alloc, group, plan),
            Err(_error) => {
                put_back(&mut self.inbox, group.slots, group.blocks);
                Err(CoreError::Memory)
            }
        }
    }

    // The commits of a planned group.
    fn commit_group(
        &mut self,
        alloc: Global,
        group: Group,
        plan: GroupPlan,
    ) -> Result<Grouped, CoreError>
        requires up { self.old.stopped ≡ false }
        requires group { IsGroup (shown self.old.queue).flight group.slots.items group.blocks.items group.cids.items }
        requires over { IfSome (K.told self.old.keeper) (λ kept.
            IsGroupOver kept group.slots.items group.blocks.items) }
        requires good { list_all (λ (item : Stored). is_good item.cid item.bytes) (items_of group.slots.items) ≡ true }
        requires some { group.cids.items ≢ [] }
        requires process { IfSome (K.told self.old.keeper) (λ kept.
            Processes kept self.old.whole group.blocks.items
            (map (λ (block : Block). block.cid) group.blocks.items) plan.process) }
        requires gaps { IfSome (K.told self.old.keeper) (λ kept.
            plan.gaps ≡ length (gaps (processed kept ++ group.blocks.items))) }
        requires links { IfSome (K.told self.old.keeper) (λ kept.
            plan.links ≡ open_links kept group.cids.items group.blocks.items) }
        requires only { (plan.process.store ≡ [])
            × (plan.process.marks ≡ map (λ (block : Block). block.cid) group.blocks.items) }
        requires stores { (plan.stores.items ≡ []) × (length group.slots.items ≤ vec_capacity plan.stores) }
        requires rows { row_count plan.process + length group.slots.items ≤ K.spare self.old.keeper }
        requires wanted { length plan.links ≤ spare self.old.queue }
        ensures call { Acts K.Keeper (λ s. Is (read_refusal s)) (λ s. GroupEvents s (items_of group.slots.items))
            Stays result self.old self.new }
        ensures keeps { Continues K.Keeper (is_fault result) self.old self.new }
        ensures only { front_of result ≡ None }
        ensures seen { IfErr result DecidesAlone }
        ensures takes { TakesIn result (items_of group.slots.items) self.old self.new }
    {
        commits_are_events();
        changes_fit();
        kept_is_durable();
        kept_changes_are_events();
        is_sound(&self.keeper);
        let Group {
            slots,
            blocks: _,
            cids,
        } = group;
        let GroupPlan {
            process,
            links,
            gaps,
            stores,
        } = plan;
        let processed = cids.as_slice().len() as u64;
        let known = slots.as_slice().len() as u64 - processed;
        let stores = stores_of(slots, stores);
        match self.carry_group(
            alloc,
            stores,
            process,
            cids.as_slice(),
            links.as_slice(),
            gaps,
        ) {
            Ok(()) => Ok(Grouped { processed, known }),
            Err(Failed) => Err(CoreError::KeeperFault),
        }
    }
}
