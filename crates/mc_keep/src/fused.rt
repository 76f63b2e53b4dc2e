// A keeper whose k-th commit fails.
ghost use Rattle.std.specs.Prelude.{◌≡◌, ◌≤◌, Bool, true, false, None, Some, IfSome, OnOk, OnErr};
ghost use Rattle.std.specs.Result.{is_err};
ghost use Rattle.std.specs.Option.{option_map};
ghost use Rattle.mc_keep.specs.Causes.{burnt, fires};

use crate::{
    Changes, ElementRow, Fuse, HeadRow, KeepError, Keeper, RankedValue, Summary, ValueRow,
};
use mc_base::{Bytes, Cid, Counted, Failed, List, Text};
use mc_model::Layout;
use std::alloc::{AllocError, Global};
use std::sync::Wait;

/// A keeper over another one, of which one commit can be made to fail: the k-th from the moment on in which its fuse is
/// armed, before its effect or after it. Then the fuse is spent. Everything else is as the keeper inside does it, and
/// what that one fails by itself, by a fuse of its own too, is of the own count. The count is that of the keeper
/// inside, and one more for each time that the fuse has fired.
#[derive(Drop)]
pub struct Fused<K> {
    keeper: K,
    fuse: Option<Fuse>,
    fired: u64,
}

impl<K: Keeper> Fused<K> {
    ghost use Rattle.mc_keep.specs.Fused.{fired_after};

    /// A keeper over this one, with no fuse armed. What is told, the room and the counts are those of the keeper.
    pub fn wrap(keeper: K) -> Fused<K>
        ensures unarmed { result ≡ record { keeper = keeper; fuse = None; fired = 0 } }
        ensures told { ⟦<Fused<K> as Keeper>⟧.told result ≡ K.told keeper }
        ensures layout { ⟦<Fused<K> as Keeper>⟧.layout result ≡ K.layout keeper }
        ensures spare { ⟦<Fused<K> as Keeper>⟧.spare result ≡ K.spare keeper }
        ensures own { ⟦<Fused<K> as Keeper>⟧.own result ≡ K.faults keeper }
        ensures count { ⟦<Fused<K> as Counted>⟧.faults result ≡ K.faults keeper }
        ensures quiet { K.fuse keeper ≡ None → ⟦<Fused<K> as Keeper>⟧.quiet result ≡ K.quiet keeper }
        ensures schedule { K.fuse keeper ≡ None → ⟦<Fused<K> as Keeper>⟧.schedule result ≡ K.schedule keeper }
    {
        Fused {
            keeper,
            fuse: None,
            fired: 0,
        }
    }

    /// Lets the k-th commit from now on fail, k at least 1, without its effect, or after it where `after`. This takes
    /// the place of a fuse that was armed before; nothing else changes.
    pub fn arm(&mut self, k: u64, after: bool)
        requires { 1 ≤ k }
        ensures { self.new ≡ record self.old { fuse = Some (record { commit = k; after = after }) } }
    {
        self.fuse = Some(Fuse { commit: k, after });
    }

    /// The keeper inside.
    pub fn inside(&self) -> &K
        ensures { result.now ≡ self.now.keeper }
    {
        &self.keeper
    }

    /// Takes the keeper inside out, as it is.
    pub fn end(self) -> K
        ensures { result ≡ self.keeper }
    {
        self.keeper
    }

    // Burns the fuse by one commit: whether it fires at this one, and then whether after its effect.
    fn burn(&mut self) -> Option<bool>
        ensures fires { result ≡ fires self.old.fuse }
        ensures burns { self.new ≡ record self.old {
          fuse = burnt self.old.fuse;
          fired = fired_after self.old.fuse self.old.fired;
        } }
    {
        let fuse = self.fuse?;
        if fuse.commit > 1 {
            self.fuse = Some(Fuse {
                commit: fuse.commit - 1,
                after: fuse.after,
            });
            return None;
        }
        self.fuse = None;
        self.fired = self.fired.saturating_add(1);
        Some(fuse.after)
    }
}

impl<K: Keeper> Counted for Fused<K> {
    ghost use Rattle.mc_keep.specs.Fused.{faults_in};

    ghost faults = { faults_in K.faults };

    fn faults(&self) -> u64 {
        self.keeper.faults().saturating_add(self.fired)
    }
}

impl<K: Keeper> Keeper for Fused<K> {
    ghost use Rattle.mc_base.specs.Causes.{Rose};
    ghost use Rattle.mc_base.specs.Told.{Told};
    ghost use Rattle.mc_keep.specs.Calls.{Commits};
    ghost use Rattle.mc_keep.specs.Causes.{CommitFails};
    ghost use Rattle.mc_keep.specs.Changes.{row_count, changed, laid};
    ghost use Rattle.mc_keep.specs.Fused.{fired_after, quiet_in, schedule_in, CommitsOnce};
    ghost use Rattle.mc_keep.specs.Plan.{CommitsAsPlanned};
    ghost use Rattle.mc_keep.specs.Tables.{Meets};

    type Desk = K::Desk;

    ghost told = { λ fused. K.told fused.keeper };

    ghost layout = { λ fused. K.layout fused.keeper };

    ghost spare = { λ fused. K.spare fused.keeper };

    ghost fuse = { λ fused. fused.fuse };

    ghost own = { λ fused. K.faults fused.keeper };

    ghost quiet = { quiet_in K.fuse K.quiet };

    ghost quiet_desk = { K.quiet_desk };

    ghost schedule = { schedule_in K.fuse K.schedule };

    ghost desk_schedule = { K.desk_schedule };

    ghost sound = { λ fused. K.sound fused.keeper };

    fn own_faults(&self) -> u64 {
        self.keeper.faults()
    }

    fn desk(&mut self, alloc: Global) -> Result<K::Desk, KeepError> {
        self.keeper.desk(alloc)
    }

    fn peer_block<W: Wait>(
        &self,
        alloc: Global,
        desk: &mut K::Desk,
        cid: &Cid,
        wait: &W,
    ) -> Result<Option<Bytes>, KeepError> {
        self.keeper.peer_block(alloc, desk, cid, wait)
    }

    fn summary(&mut self) -> Result<Summary, Failed> {
        self.keeper.summary()
    }

    fn block(&mut self, alloc: Global, cid: &Cid) -> Result<Option<Bytes>, KeepError> {
        self.keeper.block(alloc, cid)
    }

    fn stored(&mut self, cid: &Cid) -> Result<bool, Failed> {
        self.keeper.stored(cid)
    }

    fn position(&mut self, cid: &Cid) -> Result<Option<u64>, Failed> {
        self.keeper.position(cid)
    }

    fn at(&mut self, position: u64) -> Result<Option<Cid>, Failed> {
        self.keeper.at(position)
    }

    fn linked(&mut self, cid: &Cid) -> Result<bool, Failed> {
        self.keeper.linked(cid)
    }

    fn heads(&mut self, alloc: Global) -> Result<List<HeadRow>, KeepError> {
        self.keeper.heads(alloc)
    }

    fn live_elements(&mut self, alloc: Global, key: &str) -> Result<List<ElementRow>, KeepError> {
        self.keeper.live_elements(alloc, key)
    }

    fn hidden(&mut self, key: &str, id: &str) -> Result<bool, Failed> {
        self.keeper.hidden(key, id)
    }

    fn hides(&mut self, alloc: Global, key: &str, cid: &Cid) -> Result<bool, KeepError> {
        self.keeper.hides(alloc, key, cid)
    }

    fn value(&mut self, alloc: Global, key: &str) -> Result<Option<RankedValue>, KeepError> {
        self.keeper.value(alloc, key)
    }

    fn layout(&mut self, alloc: Global) -> Result<Layout, KeepError> {
        self.keeper.layout(alloc)
    }

    fn winner(&mut self, key: &str) -> Result<Option<Cid>, Failed> {
        self.keeper.winner(key)
    }

    fn has(&mut self, key: &str) -> Result<bool, Failed> {
        self.keeper.has(key)
    }

    fn values_from(
        &mut self,
        alloc: Global,
        bound: &str,
        inclusive: bool,
        most: u64,
    ) -> Result<List<ValueRow>, KeepError> {
        self.keeper.values_from(alloc, bound, inclusive, most)
    }

    fn key_from(
        &mut self,
        alloc: Global,
        bound: &str,
        inclusive: bool,
        place: u64,
    ) -> Result<Option<Text>, KeepError> {
        self.keeper.key_from(alloc, bound, inclusive, place)
    }

    fn reserve(&mut self, rows: u64) -> Result<(), AllocError> {
        self.keeper.reserve(rows)
    }

    /// Besides what the trait says: where the fuse fires before the effect the keeper inside is not asked; else it
    /// makes one commit, and where no fuse fires the answer is that commit's. The fuse counts each time that it fires.
    fn commit(&mut self, changes: Changes) -> Result<(), Failed>
        requires room { row_count changes ≤ K.spare self.old.keeper }
        requires fits { IfSome (K.told self.old.keeper) (λ kept. Meets (K.layout self.old.keeper) kept changes) }
        ensures done { OnOk result (Told (K.told self.old.keeper) (K.told self.new.keeper)
            (λ kept new. new ≡ changed kept changes)) }
        ensures laid { OnOk result (K.layout self.new.keeper ≡ laid (K.layout self.old.keeper) changes) }
        ensures laid_or_not { OnErr result (CommitFails (fires self.old.fuse)
            (Rose (K.faults self.old.keeper) (K.faults self.new.keeper))
            (K.layout self.old.keeper) (laid (K.layout self.old.keeper) changes) (K.layout self.new.keeper)) }
        ensures lasts { OnOk result (fires self.old.fuse ≡ None) }
        ensures failed { OnErr result (Told (K.told self.old.keeper) (K.told self.new.keeper) (λ kept new.
            CommitFails (fires self.old.fuse) (Rose (K.faults self.old.keeper) (K.faults self.new.keeper))
            kept (changed kept changes) new)) }
        ensures commits { Commits ⟦<Fused<K> as Keeper>⟧ (row_count changes) (is_err result) self.old self.new }
        ensures planned { fires self.old.fuse ≡ None →
            CommitsAsPlanned (schedule_in K.fuse K.schedule self.old) (schedule_in K.fuse K.schedule self.new)
            (is_err result) (K.told self.old.keeper) (K.told self.new.keeper)
            (option_map (λ kept. changed kept changes) (K.told self.old.keeper)) }
        ensures before { fires self.old.fuse ≡ Some false → self.new.keeper ≡ self.old.keeper }
        ensures after { fires self.old.fuse ≡ Some true → (own_failed : Bool) ×
            CommitsOnce K.Keeper (row_count changes) (option_map (λ kept. changed kept changes)
            (K.told self.old.keeper)) own_failed self.old.keeper self.new.keeper }
        ensures unfired { fires self.old.fuse ≡ None →
            CommitsOnce K.Keeper (row_count changes) (option_map (λ kept. changed kept changes)
            (K.told self.old.keeper)) (is_err result) self.old.keeper self.new.keeper }
        ensures fired { self.new.fired ≡ fired_after self.old.fuse self.old.fired }
    {
        match self.burn() {
            None => self.keeper.commit(changes),
            Some(false) => Err(Failed),
            Some(true) => {
                self.keeper.commit(changes)?;
                Err(Failed)
            }
        }
    }
}
