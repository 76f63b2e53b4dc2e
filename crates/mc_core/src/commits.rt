// The commits of a replica: each is one event, or it breaks and the replica stops.
ghost use Rattle.std.specs.Prelude.{◌≡◌, ◌≢◌, ◌≤◌, ◌+◌, ◌++◌, false, [], ◌∷◌, None, length, IfSome, OnOk};
ghost use Rattle.std.specs.Result.{is_err};
ghost use Rattle.mc_base.specs.Told.{Told};
ghost use Rattle.mc_model.specs.Events.{Store, Process};
ghost use Rattle.mc_model.specs.State.{vertices};
ghost use Rattle.mc_keep.specs.Changes.{changed, row_count};
ghost use Rattle.mc_keep.specs.Tables.{ChangesFit};
ghost use Rattle.mc_plan.specs.Events.{Part};
ghost use Rattle.mc_model.specs.Wanted.{without};
ghost use Rattle.mc_queue.specs.Views.{shown, spare};
ghost use Rattle.mc_plan.specs.Uptakes.{IsReady, IsShaped, IsSomeUptake, uptake_rows, uptake_events, wants};
ghost use Rattle.mc_inbox.specs.Groups.{store_events};
ghost use Rattle.mc_group.specs.Planning.{AreReady, storing};
ghost use Rattle.mc_core.specs.Words.{Becomes, CommitKeeps};

use crate::Replica;
use mc_base::{Cid, Failed, List};
use mc_group::done_all;
use mc_keep::{Changes, Keeper, changes_fit, commits_are_events};
use mc_model::{Stored, kept_changes_are_events, kept_is_durable};
use mc_plan::{After, ProcessChanges, Uptake, is_sound, numbers_after, want_links};
use std::alloc::Global;

impl<K: Keeper> Replica<K> {
    // Stores blocks.
    pub(crate) fn commit_store(&mut self, store: Changes) -> Result<(), Failed>
        requires up { self.old.stopped ≡ false }
        requires room { row_count store ≤ K.spare self.old.keeper }
        requires only { (store.marks ≡ []) × (store.mark ≡ None) }
        requires fits { IfSome (K.told self.old.keeper) (λ kept. ChangesFit kept store) }
        ensures part { Becomes K.Keeper (λ rose.
            Part (Store (vertices store.store) ∷ []) rose result) self.old self.new }
        ensures told { OnOk result (Told (K.told self.old.keeper) (K.told self.new.keeper) (λ kept new.
            new ≡ changed kept store)) }
        ensures up { OnOk result (self.new.stopped ≡ false) }
        ensures keeps { CommitKeeps K.Keeper (is_err result) self.old self.new }
        ensures spare { K.spare self.old.keeper ≤ K.spare self.new.keeper + row_count store }
        ensures queue_same { self.new.queue ≡ self.old.queue }
    {
        commits_are_events();
        changes_fit();
        is_sound(&self.keeper);
        let numbers = numbers_after(self.numbers, &store, self.numbers.gaps);
        match self.keeper.commit(store) {
            Ok(()) => {
                self.numbers = numbers;
                Ok(())
            }
            Err(Failed) => {
                self.stopped = true;
                Err(Failed)
            }
        }
    }

    // Processes a stored block.
    pub(crate) fn commit_process(
        &mut self,
        process: ProcessChanges,
        after: After,
    ) -> Result<(), Failed>
        requires up { self.old.stopped ≡ false }
        requires room { row_count process ≤ K.spare self.old.keeper }
        requires links { length after.links ≤ spare self.old.queue }
        requires only { (process.store ≡ []) × (process.marks ≡ after.cid ∷ []) }
        requires ready { IfSome (K.told self.old.keeper) (λ kept. IsReady kept self.old.whole process after) }
        ensures part { Becomes K.Keeper (λ rose. Part (Process process.marks ∷ []) rose result) self.old self.new }
        ensures queue { OnOk result (shown self.new.queue
            ≡ wants (without (shown self.old.queue) (after.cid ∷ [])) after.links) }
        ensures up { OnOk result (self.new.stopped ≡ false) }
        ensures keeps { CommitKeeps K.Keeper (is_err result) self.old self.new }
    {
        commits_are_events();
        is_sound(&self.keeper);
        let process = process.into_changes();
        let numbers = numbers_after(self.numbers, &process, after.gaps);
        match self.keeper.commit(process) {
            Ok(()) => {
                self.numbers = numbers;
                self.queue.done(&after.cid);
                want_links(&mut self.queue, after.links.as_slice());
                Ok(())
            }
            Err(Failed) => {
                self.stopped = true;
                Err(Failed)
            }
        }
    }

    // Stores blocks, and then processes one.
    fn commit_both(
        &mut self,
        store: Changes,
        process: ProcessChanges,
        after: After,
    ) -> Result<(), Failed>
        requires up { self.old.stopped ≡ false }
        requires room { row_count store + row_count process ≤ K.spare self.old.keeper }
        requires only_store { (store.marks ≡ []) × (store.mark ≡ None) }
        requires links { length after.links ≤ spare self.old.queue }
        requires only_process { (process.store ≡ []) × (process.marks ≡ after.cid ∷ []) }
        requires fits { IfSome (K.told self.old.keeper) (λ kept. ChangesFit kept store) }
        requires ready { IfSome (K.told self.old.keeper) (λ kept.
            IsReady (changed kept store) self.old.whole process after) }
        ensures part { Becomes K.Keeper (λ rose.
            Part (Store (vertices store.store) ∷ Process process.marks ∷ []) rose result) self.old self.new }
        ensures queue { OnOk result (shown self.new.queue
            ≡ wants (without (shown self.old.queue) (after.cid ∷ [])) after.links) }
        ensures up { OnOk result (self.new.stopped ≡ false) }
        ensures keeps { CommitKeeps K.Keeper (is_err result) self.old self.new }
    {
        match self.commit_store(store) {
            Ok(()) => self.commit_process(process, after),
            Err(Failed) => Err(Failed),
        }
    }

    // The commits of an uptake. They take no memory.
    pub(crate) fn carry_out(&mut self, uptake: Uptake) -> Result<(), Failed>
        requires up { self.old.stopped ≡ false }
        requires room { uptake_rows uptake ≤ K.spare self.old.keeper }
        requires links { length uptake.after.links ≤ spare self.old.queue }
        requires shape { IsShaped uptake }
        requires uptake { IfSome (K.told self.old.keeper) (λ kept. IsSomeUptake kept self.old.whole uptake) }
        ensures part { Becomes K.Keeper (λ rose. Part (uptake_events uptake) rose result) self.old self.new }
        ensures queue { OnOk result (shown self.new.queue
            ≡ wants (without (shown self.old.queue) (uptake.after.cid ∷ [])) uptake.after.links) }
        ensures up { OnOk result (self.new.stopped ≡ false) }
        ensures keeps { CommitKeeps K.Keeper (is_err result) self.old self.new }
    {
        commits_are_events();
        changes_fit();
        kept_is_durable();
        kept_changes_are_events();
        is_sound(&self.keeper);
        let Uptake {
            store,
            process,
            after,
        } = uptake;
        match store.into_changes() {
            Some(store) => self.commit_both(store, process, after),
            None => self.commit_process(process, after),
        }
    }

    // Processes a group of stored blocks. Then they are wanted no more, these of their links are, and so many gaps are
    // left.
    fn process_group(
        &mut self,
        process: Changes,
        cids: &[Cid],
        links: &[Cid],
        gaps: u64,
    ) -> Result<(), Failed>
        requires up { self.old.stopped ≡ false }
        requires room { row_count process ≤ K.spare self.old.keeper }
        requires links { length links.now ≤ spare self.old.queue }
        requires only { (process.store ≡ []) × (process.marks ≡ cids.now) }
        requires some { cids.now ≢ [] }
        requires ready { IfSome (K.told self.old.keeper) (λ kept.
            AreReady kept self.old.whole process links.now gaps) }
        ensures part { Becomes K.Keeper (λ rose. Part (Process process.marks ∷ []) rose result) self.old self.new }
        ensures queue { OnOk result (shown self.new.queue
            ≡ wants (without (shown self.old.queue) cids.now) links.now) }
        ensures up { OnOk result (self.new.stopped ≡ false) }
        ensures keeps { CommitKeeps K.Keeper (is_err result) self.old self.new }
    {
        commits_are_events();
        is_sound(&self.keeper);
        let numbers = numbers_after(self.numbers, &process, gaps);
        match self.keeper.commit(process) {
            Ok(()) => {
                self.numbers = numbers;
                done_all(&mut self.queue, cids);
                want_links(&mut self.queue, links);
                Ok(())
            }
            Err(Failed) => {
                self.stopped = true;
                Err(Failed)
            }
        }
    }

    // Stores blocks of a group, and then processes it.
    fn store_and_process(
        &mut self,
        store: Changes,
        process: Changes,
        cids: &[Cid],
        links: &[Cid],
        gaps: u64,
    ) -> Result<(), Failed>
        requires up { self.old.stopped ≡ false }
        requires room { row_count store + row_count process ≤ K.spare self.old.keeper }
        requires only_store { (store.marks ≡ []) × (store.mark ≡ None) }
        requires links { length links.now ≤ spare self.old.queue }
        requires only_process { (process.store ≡ []) × (process.marks ≡ cids.now) }
        requires some { cids.now ≢ [] }
        requires fits { IfSome (K.told self.old.keeper) (λ kept. ChangesFit kept store) }
        requires ready { IfSome (K.told self.old.keeper) (λ kept.
            AreReady (changed kept store) self.old.whole process links.now gaps) }
        ensures part { Becomes K.Keeper (λ rose.
            Part (Store (vertices store.store) ∷ Process process.marks ∷ []) rose result) self.old self.new }
        ensures queue { OnOk result (shown self.new.queue
            ≡ wants (without (shown self.old.queue) cids.now) links.now) }
        ensures up { OnOk result (self.new.stopped ≡ false) }
        ensures keeps { CommitKeeps K.Keeper (is_err result) self.old self.new }
    {
        match self.commit_store(store) {
            Ok(()) => self.process_group(process, cids, links, gaps),
            Err(Failed) => Err(Failed),
        }
    }

    // The commits of a group, of which these blocks are stored. They take no memory.
    pub(crate) fn carry_group(
        &mut self,
        alloc: Global,
        stores: List<Stored>,
        process: Changes,
        cids: &[Cid],
        links: &[Cid],
        gaps: u64,
    ) -> Result<(), Failed>
        requires up { self.old.stopped ≡ false }
        requires room { row_count process + length stores ≤ K.spare self.old.keeper }
        requires links { length links.now ≤ spare self.old.queue }
        requires only { (process.store ≡ []) × (process.marks ≡ cids.now) }
        requires some { cids.now ≢ [] }
        requires ready { IfSome (K.told self.old.keeper) (λ kept. ChangesFit kept (storing stores)
            × AreReady (changed kept (storing stores)) self.old.whole process links.now gaps) }
        ensures part { Becomes K.Keeper (λ rose.
            Part (store_events stores ++ Process process.marks ∷ []) rose result) self.old self.new }
        ensures queue { OnOk result (shown self.new.queue
            ≡ wants (without (shown self.old.queue) cids.now) links.now) }
        ensures up { OnOk result (self.new.stopped ≡ false) }
        ensures keeps { CommitKeeps K.Keeper (is_err result) self.old self.new }
    {
        if stores.as_slice().is_empty() {
            return self.process_group(process, cids, links, gaps);
        }
        self.store_and_process(store_changes(alloc, stores), process, cids, links, gaps)
    }
}

fn store_changes(alloc: Global, stores: List<Stored>) -> Changes
    ensures { result ≡ storing stores }
{
    let mut changes = Changes::new(alloc);
    changes.store = stores;
    changes
}
