// Who makes the keepers in memory, and takes them back.
ghost use Rattle.std.specs.Prelude.{◌≡◌, refl, ℕ, ◌+◌, ◌-◌, ◌^◌, true, false, Some, min, fold, map, IfOk, if◌then◌else◌};
ghost use Rattle.std.specs.List.{list_all, sum_by};
ghost use Rattle.mc_model.specs.Kept.{nothing_kept};
ghost use Rattle.mc_keepers.specs.declared.keepers.KeeperPlan.{KeeperPlan};
ghost use Rattle.mc_keep.specs.Plan.{is_fault, next_number};
ghost use Rattle.mc_keepers.specs.Making.{keeper_plan};
ghost use Rattle.mc_keep_mem.specs.declared.plan.MemDesk.{MemDesk};
ghost use Rattle.mc_tables.specs.Fits.{kept_in};
ghost use Rattle.mc_keep_mem.specs.Desks.{counted_with};
ghost use Rattle.mc_keep_mem.specs.Faults.{fails_never, schedule_of};
ghost use Rattle.mc_keep_mem.specs.Layouts.{first_layout};
ghost use Rattle.mc_keep_mem.specs.Plan.{plans_nothing, planned, makes_of};

use crate::keeper::MemKeeper;
use crate::plan::{FaultPlan, MemDesk, is_due, next_of};
use mc_base::{Counted, Failed, List};
use mc_keep::{KeepError, Keeper};
use mc_keepers::{KeeperPlan, Keepers};
use std::alloc::{AllocError, Global};
use std::hash::{BuildHasher, BuildHasherDefault, FoldHasher};

/// Makes keepers in memory, whatever the plan of the keeper, and takes them back. The keeper with the index i takes a
/// copy of the fault plan at place i, and one by which nothing fails where there is none. They have all winner rows, or
/// none where they are `downgraded`.
#[derive(Drop)]
pub struct MemKeepers<S: BuildHasher + Copy + Drop = BuildHasherDefault<FoldHasher>> {
    plans: List<FaultPlan>,
    failing: List<u64>,
    hasher: S,
    downgrades: bool,
    made: u64,
    faults: u64,
    lost: u64,
}

impl MemKeepers {
    /// Keepers with these fault plans and the default hasher. The calls of `make` with these numbers, counted from 1,
    /// fail. Takes no memory.
    pub fn new(plans: List<FaultPlan>, makes: List<u64>) -> MemKeepers
        ensures plans { result.plans ≡ plans }
        ensures schedule { makes_of result.failing result.made result.plans
            ≡ record { makes = makes; makes_made = 0; keepers = map planned plans } }
        ensures count { (result.faults ≡ 0) × (result.lost ≡ 0) }
        ensures layout { result.downgrades ≡ false }
    {
        MemKeepers::with_hasher(plans, makes, BuildHasherDefault::new())
    }
}

impl<S: BuildHasher + Copy + Drop> MemKeepers<S> {
    /// Keepers with these fault plans, whose tables of texts have this hasher. The calls of `make` with these numbers,
    /// counted from 1, fail. Takes no memory.
    pub fn with_hasher(plans: List<FaultPlan>, makes: List<u64>, hasher: S) -> MemKeepers<S>
        ensures plans { result.plans ≡ plans }
        ensures schedule { makes_of result.failing result.made result.plans
            ≡ record { makes = makes; makes_made = 0; keepers = map planned plans } }
        ensures count { (result.faults ≡ 0) × (result.lost ≡ 0) }
        ensures layout { result.downgrades ≡ false }
    {
        MemKeepers {
            plans,
            failing: makes,
            hasher,
            downgrades: false,
            made: 0,
            faults: 0,
            lost: 0,
        }
    }

    /// The same, but that the keepers which are made from now on have layout 1, without winner rows. Takes no memory.
    pub fn downgraded(self) -> MemKeepers<S>
        ensures { result ≡ record self { downgrades = true } }
    {
        let mut keepers = self;
        keepers.downgrades = true;
        keepers
    }
}

// A keeper in memory, without winner rows where it is `downgraded`.
fn keeper_of<S: BuildHasher + Copy + Drop>(
    alloc: Global,
    plan: FaultPlan,
    hasher: S,
    downgraded: bool,
) -> MemKeeper<S>
    ensures told { kept_in result.store.tables ≡ nothing_kept }
    ensures layout { result.store.tables.layout ≡ first_layout downgraded }
    ensures count { result.faults.faults ≡ 0 }
    ensures quiet { plans_nothing plan ≡ true → fails_never result.faults ≡ true }
    ensures schedule { schedule_of result.faults ≡ planned plan }
{
    let keeper = MemKeeper::with_hasher(alloc, plan, hasher);
    if downgraded {
        return keeper.downgrade();
    }
    keeper
}

// A copy of the plan at a place, or one by which nothing fails.
fn plan_at(alloc: Global, plans: &[FaultPlan], place: usize) -> Result<FaultPlan, AllocError>
    ensures schedule { IfOk result (λ plan. planned plan ≡ keeper_plan (map planned plans.now) place) }
    ensures quiet { list_all plans_nothing plans.now ≡ true → IfOk result (λ plan. plans_nothing plan ≡ true) }
{
    match plans.get(place) {
        Some(plan) => plan.try_clone(alloc),
        None => Ok(FaultPlan::nothing(alloc)),
    }
}

impl<S: BuildHasher + Copy + Drop> Counted for MemKeepers<S> {
    ghost faults = { λ keepers. keepers.faults };

    fn faults(&self) -> u64 {
        self.faults
    }
}

impl<S: BuildHasher + Copy + Drop> Keepers for MemKeepers<S> {
    type K = MemKeeper<S>;

    ghost starts = { λ keepers plan index. Some nothing_kept };

    ghost quiet = { λ keepers plan. list_all plans_nothing keepers.plans };

    ghost schedule = { λ keepers. Some (makes_of keepers.failing keepers.made keepers.plans) };

    ghost lost = { λ keepers. keepers.lost };

    ghost makes = { λ old plan index result new. (new ≡ record old {
      made = next_number old.made;
      faults = if is_fault result then min (old.faults + 1) (2 ^ 64 - 1) else old.faults;
    }) × IfOk result (λ keeper. (kept_in keeper.store.tables ≡ nothing_kept)
        × (keeper.store.tables.layout ≡ first_layout old.downgrades) × (keeper.faults.faults ≡ 0)
        × (schedule_of keeper.faults ≡ keeper_plan (map planned old.plans) index)) };

    ghost takes = { λ old keeper desks new. new ≡ record old {
      lost = min (old.lost + keeper.faults.faults + sum_by (λ (desk : MemDesk). desk.faults) desks) (2 ^ 64 - 1);
    } };

    fn make(
        &mut self,
        alloc: Global,
        _plan: &KeeperPlan,
        index: u64,
    ) -> Result<MemKeeper<S>, KeepError> {
        self.made = next_of(self.made);
        if is_due(self.failing.as_slice(), self.made) {
            self.faults = self.faults.saturating_add(1);
            return Err(KeepError::Failed);
        }
        let plan = plan_at(alloc, self.plans.as_slice(), index as usize)?;
        Ok(keeper_of(alloc, plan, self.hasher, self.downgrades))
    }

    fn end(&mut self, keeper: MemKeeper<S>, desks: List<MemDesk>)
        ensures taken { self.new ≡ record self.old {
          lost = min (self.old.lost + keeper.faults.faults + sum_by (λ (desk : MemDesk). desk.faults) desks)
              (2 ^ 64 - 1);
        } }
        ensures lost { self.new.lost
            ≡ min (self.old.lost + keeper.faults.faults + sum_by (λ (desk : MemDesk). desk.faults) desks) (2 ^ 64 - 1) }
        ensures starts_same { (plan : KeeperPlan) (index : ℕ) → Some nothing_kept ≡ Some nothing_kept }
        ensures quiet_same { (plan : KeeperPlan) →
            list_all plans_nothing self.new.plans ≡ list_all plans_nothing self.old.plans }
        ensures planned { Some (makes_of self.new.failing self.new.made self.new.plans)
            ≡ Some (makes_of self.old.failing self.old.made self.old.plans) }
        ensures count { self.new.faults ≡ self.old.faults }
    {
        let lost = self.lost.saturating_add(keeper.faults());
        self.lost = add_faults(lost, desks.as_slice());
    }

    fn lost(&self) -> u64 {
        self.lost
    }

    ghost marked = { λ keepers plan index clear. refl };
}

// A count with those of the desks.
fn add_faults(count: u64, desks: &[MemDesk]) -> u64
    ensures { result ≡ fold counted_with count desks.now }
{
    let mut count = count;
    for desk in desks {
        count = add_fault(count, desk);
    }
    count
}

fn add_fault(count: u64, desk: &MemDesk) -> u64
    ensures { result ≡ counted_with count desk.now }
{
    count.saturating_add(desk.faults())
}
