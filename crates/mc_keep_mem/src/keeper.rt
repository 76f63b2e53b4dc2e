// The keeper in memory.
ghost use Rattle.std.specs.Prelude.{◌≡◌, true, false, [], Some, None, IfOk};
ghost use Rattle.mc_model.specs.Kept.{nothing_kept};
ghost use Rattle.mc_model.specs.declared.layout.Layout.TheVariants.{One, Two};
ghost use Rattle.mc_tables.specs.Fits.{kept_in};
ghost use Rattle.mc_keep_mem.specs.Plan.{plans_nothing, is_nothing, planned, desk_schedule_of};
ghost use Rattle.mc_keep_mem.specs.Faults.{fails_never, schedule_of};

use crate::plan::{FaultPlan, Faults, MemDesk};
use mc_base::{Bytes, Cid, Counted, Failed, List, Text};
use mc_keep::{
    Changes, ElementRow, HeadRow, KeepError, Keeper, Layout, RankedValue, Summary, ValueRow,
};
use mc_tables::Store;
use std::alloc::{AllocError, Global};
use std::hash::{BuildHasher, BuildHasherDefault, FoldHasher};
use std::sync::Wait;

/// A keeper in memory: nothing outlives it. It fails exactly at the calls that its plan numbers. Its tables of texts
/// use the hasher `S`: the keys and ids of foreign blocks are chosen by strangers, and a seeded hasher wards off floods
/// of colliding ones, which the default does not.
#[derive(Drop)]
pub struct MemKeeper<S: BuildHasher + Drop = BuildHasherDefault<FoldHasher>> {
    store: Store<S>,
    faults: Faults,
}

impl MemKeeper {
    /// An empty keeper with the mark clear, and the default hasher.
    pub fn new(alloc: Global, plan: FaultPlan) -> Result<MemKeeper, AllocError>
        ensures told { IfOk result (λ keeper. kept_in keeper.store.tables ≡ nothing_kept) }
        ensures layout { IfOk result (λ keeper. keeper.store.tables.layout ≡ Two) }
        ensures count { IfOk result (λ keeper. keeper.faults.faults ≡ 0) }
        ensures quiet { plans_nothing plan ≡ true → IfOk result (λ keeper. fails_never keeper.faults ≡ true) }
        ensures schedule { IfOk result (λ keeper. schedule_of keeper.faults ≡ planned plan) }
    {
        Ok(MemKeeper::with_hasher(alloc, plan, BuildHasherDefault::new()))
    }
}

impl<S: BuildHasher + Copy + Drop> MemKeeper<S> {
    /// An empty keeper with the mark clear, and this hasher for its tables of texts. Takes no memory.
    pub fn with_hasher(alloc: Global, plan: FaultPlan, hasher: S) -> MemKeeper<S>
        ensures told { kept_in result.store.tables ≡ nothing_kept }
        ensures layout { result.store.tables.layout ≡ Two }
        ensures count { result.faults.faults ≡ 0 }
        ensures quiet { plans_nothing plan ≡ true → fails_never result.faults ≡ true }
        ensures schedule { schedule_of result.faults ≡ planned plan }
    {
        MemKeeper {
            store: Store::new(alloc, hasher),
            faults: Faults::new(plan),
        }
    }
}

impl<S: BuildHasher + Drop> MemKeeper<S> {
    /// The same keeper without winner rows, as one of layout 1 has none. Takes no memory.
    pub fn downgrade(self) -> MemKeeper<S>
        ensures told { kept_in result.store.tables ≡ kept_in self.store.tables }
        ensures layout { result.store.tables.layout ≡ One None }
        ensures room { result.store.room ≡ self.store.room }
        ensures faults { result.faults ≡ self.faults }
    {
        let mut keeper = self;
        keeper.store.downgrade();
        keeper
    }
}

impl<S: BuildHasher + Drop> Counted for MemKeeper<S> {
    ghost faults = { λ keeper. keeper.faults.faults };

    fn faults(&self) -> u64 {
        self.faults.count()
    }
}

impl<S: BuildHasher + Drop> Keeper for MemKeeper<S> {
    type Desk = MemDesk;

    ghost told = { λ keeper. Some (kept_in keeper.store.tables) };

    ghost layout = { λ keeper. keeper.store.tables.layout };

    ghost spare = { λ keeper. keeper.store.room };

    ghost fuse = { λ keeper. None };

    ghost own = { λ keeper. keeper.faults.faults };

    ghost quiet = { λ keeper. fails_never keeper.faults };

    ghost quiet_desk = { λ desk. is_nothing desk.failing };

    ghost schedule = { λ keeper. Some (schedule_of keeper.faults) };

    ghost desk_schedule = { λ desk. Some (desk_schedule_of desk) };

    ghost sound = { λ keeper. keeper.store.fits.kept };

    fn own_faults(&self) -> u64 {
        self.faults.count()
    }

    fn desk(&mut self, alloc: Global) -> Result<MemDesk, KeepError> {
        match self.faults.desk(alloc) {
            Ok(desk) => Ok(desk),
            Err(Failed) => Err(KeepError::Failed),
        }
    }

    fn peer_block<W: Wait>(
        &self,
        alloc: Global,
        desk: &mut MemDesk,
        cid: &Cid,
        _wait: &W,
    ) -> Result<Option<Bytes>, KeepError> {
        if desk.read_fails() {
            return Err(KeepError::Failed);
        }
        Ok(self.store.block(alloc, cid)?)
    }

    fn summary(&mut self) -> Result<Summary, Failed> {
        if self.faults.read_fails() {
            return Err(Failed);
        }
        Ok(self.store.summary())
    }

    fn block(&mut self, alloc: Global, cid: &Cid) -> Result<Option<Bytes>, KeepError> {
        if self.faults.read_fails() {
            return Err(KeepError::Failed);
        }
        Ok(self.store.block(alloc, cid)?)
    }

    fn stored(&mut self, cid: &Cid) -> Result<bool, Failed> {
        if self.faults.read_fails() {
            return Err(Failed);
        }
        Ok(self.store.stored(cid))
    }

    fn position(&mut self, cid: &Cid) -> Result<Option<u64>, Failed> {
        if self.faults.read_fails() {
            return Err(Failed);
        }
        Ok(self.store.position(cid))
    }

    fn at(&mut self, position: u64) -> Result<Option<Cid>, Failed> {
        if self.faults.read_fails() {
            return Err(Failed);
        }
        Ok(self.store.at(position))
    }

    fn linked(&mut self, cid: &Cid) -> Result<bool, Failed> {
        if self.faults.read_fails() {
            return Err(Failed);
        }
        Ok(self.store.linked(cid))
    }

    fn heads(&mut self, alloc: Global) -> Result<List<HeadRow>, KeepError> {
        if self.faults.read_fails() {
            return Err(KeepError::Failed);
        }
        Ok(self.store.heads(alloc)?)
    }

    fn live_elements(&mut self, alloc: Global, key: &str) -> Result<List<ElementRow>, KeepError> {
        if self.faults.read_fails() {
            return Err(KeepError::Failed);
        }
        Ok(self.store.live_elements(alloc, key)?)
    }

    fn hidden(&mut self, key: &str, id: &str) -> Result<bool, Failed> {
        if self.faults.read_fails() {
            return Err(Failed);
        }
        Ok(self.store.hidden(key, id))
    }

    fn hides(&mut self, alloc: Global, key: &str, cid: &Cid) -> Result<bool, KeepError> {
        if self.faults.read_fails() {
            return Err(KeepError::Failed);
        }
        Ok(self.store.hides(alloc, key, cid)?)
    }

    fn value(&mut self, alloc: Global, key: &str) -> Result<Option<RankedValue>, KeepError> {
        if self.faults.read_fails() {
            return Err(KeepError::Failed);
        }
        Ok(self.store.value(alloc, key)?)
    }

    fn layout(&mut self, alloc: Global) -> Result<Layout, KeepError> {
        if self.faults.read_fails() {
            return Err(KeepError::Failed);
        }
        Ok(self.store.layout(alloc)?)
    }

    fn winner(&mut self, key: &str) -> Result<Option<Cid>, Failed> {
        if self.faults.read_fails() {
            return Err(Failed);
        }
        Ok(self.store.winner(key))
    }

    fn has(&mut self, key: &str) -> Result<bool, Failed> {
        if self.faults.read_fails() {
            return Err(Failed);
        }
        Ok(self.store.has(key))
    }

    fn values_from(
        &mut self,
        alloc: Global,
        bound: &str,
        inclusive: bool,
        most: u64,
    ) -> Result<List<ValueRow>, KeepError> {
        if self.faults.read_fails() {
            return Err(KeepError::Failed);
        }
        Ok(self.store.values_from(alloc, bound, inclusive, most)?)
    }

    fn key_from(
        &mut self,
        alloc: Global,
        bound: &str,
        inclusive: bool,
        place: u64,
    ) -> Result<Option<Text>, KeepError> {
        if self.faults.read_fails() {
            return Err(KeepError::Failed);
        }
        Ok(self.store.key_from(alloc, bound, inclusive, place)?)
    }

    fn reserve(&mut self, rows: u64) -> Result<(), AllocError> {
        self.store.reserve(rows)
    }

    fn commit(&mut self, changes: Changes) -> Result<(), Failed> {
        match self.faults.commit() {
            None => {
                self.store.commit(changes);
                Ok(())
            }
            Some(false) => Err(Failed),
            Some(true) => {
                self.store.commit(changes);
                Err(Failed)
            }
        }
    }
}
