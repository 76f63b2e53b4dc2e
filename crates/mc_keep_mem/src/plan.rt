// Planned faults.
ghost use Rattle.std.specs.Prelude.{◌≡◌, ◌≤◌, true, false, Some, None, min, ◌+◌, ◌-◌, ◌^◌, ◌++◌, ◌∷◌, IfOk, OnOk, is_some, length, drop, [], List};
ghost use Rattle.std.specs.Result.{is_ok, is_err};
ghost use Rattle.std.specs.List.{list_all};
ghost use Rattle.mc_keep.specs.Causes.{CountGoes, StaysQuiet};
ghost use Rattle.mc_keep.specs.Plan.{is_planned, next_number, first_plan, with_desk, ReadsAsPlanned, ReadsGo, DeskReadsAsPlanned, CommitsAsPlanned, without_desks};
ghost use Rattle.mc_keep_mem.specs.Plan.{plans_nothing, is_nothing, nothing_planned, planned, desk_schedule_of};
ghost use Rattle.mc_keep_mem.specs.Faults.{fails_never, schedule_of};

use mc_base::{Counted, Failed, List};
use std::alloc::{AllocError, Global};

/// The numbers of the calls that are to fail, counted from 1. A commit fails before its effect or after it; `reads`
/// number every other call of a keeper that can fail; the n-th desk that is made takes the n-th list of `desks`.
#[derive(Debug, Drop)]
pub struct FaultPlan {
    /// The commits that fail without their effect.
    pub commits_before: List<u64>,
    /// The commits that fail after their effect.
    pub commits_after: List<u64>,
    /// The reads that fail.
    pub reads: List<u64>,
    /// The reads of each desk that fail.
    pub desks: List<List<u64>>,
}

impl FaultPlan {
    /// A plan by which nothing fails. Takes no memory.
    pub fn nothing(alloc: Global) -> FaultPlan
        ensures quiet { plans_nothing result ≡ true }
        ensures nothing { result ≡ nothing_planned }
    {
        FaultPlan {
            commits_before: List::new(alloc),
            commits_after: List::new(alloc),
            reads: List::new(alloc),
            desks: List::new(alloc),
        }
    }
}

impl FaultPlan {
    /// A copy.
    pub fn try_clone(&self, alloc: Global) -> Result<FaultPlan, AllocError>
        ensures { IfOk result (λ copy. copy ≡ self.now) }
    {
        Ok(FaultPlan {
            commits_before: copy_of(alloc, self.commits_before.as_slice())?,
            commits_after: copy_of(alloc, self.commits_after.as_slice())?,
            reads: copy_of(alloc, self.reads.as_slice())?,
            desks: copies_of(alloc, self.desks.as_slice())?,
        })
    }
}

fn copy_of(alloc: Global, numbers: &[u64]) -> Result<List<u64>, AllocError>
    ensures { IfOk result (λ copy. copy ≡ numbers.now) }
{
    Ok(List::from_vec(numbers.to_vec(alloc)?))
}

fn copies_of(alloc: Global, plans: &[List<u64>]) -> Result<List<List<u64>>, AllocError>
    ensures { IfOk result (λ copies. copies ≡ plans.now) }
{
    let mut copies = List::with_capacity(alloc, plans.len())?;
    for plan in plans {
        push_plan(&mut copies, copy_of(alloc, plan.as_slice())?)?;
    }
    Ok(copies)
}

fn push_plan(copies: &mut List<List<u64>>, plan: List<u64>) -> Result<(), AllocError>
    ensures { OnOk result (copies.new ≡ copies.old ++ plan ∷ []) }
{
    copies.push(plan)?;
    Ok(())
}

// The number after this one.
pub(crate) fn next_of(number: u64) -> u64
    ensures { result ≡ next_number number }
{
    number.saturating_add(1)
}

pub(crate) fn is_due(numbers: &[u64], number: u64) -> bool
    ensures { result ≡ is_planned numbers.now number }
{
    numbers.contains(&number)
}

/// A place from which another thread reads blocks of a keeper in memory. It fails as planned.
#[derive(Debug, Drop)]
pub struct MemDesk {
    failing: List<u64>,
    calls: u64,
    faults: u64,
}

impl MemDesk {
    // A desk that fails at these calls.
    pub(crate) fn new(failing: List<u64>) -> MemDesk
        ensures count { result.faults ≡ 0 }
        ensures plan { result.failing ≡ failing }
        ensures schedule { desk_schedule_of result ≡ record { reads = failing; reads_made = 0 } }
    {
        MemDesk {
            failing,
            calls: 0,
            faults: 0,
        }
    }

    // Counts a read, and tells whether it fails: exactly where that is planned.
    pub(crate) fn read_fails(&mut self) -> bool
        ensures count { CountGoes result self.old.faults self.new.faults }
        ensures plan { self.new.failing ≡ self.old.failing }
        ensures planned { DeskReadsAsPlanned (Some (desk_schedule_of self.old))
            (Some (desk_schedule_of self.new)) result }
        ensures calm { is_nothing self.old.failing ≡ true → result ≡ false }
    {
        self.calls = next_of(self.calls);
        if is_due(self.failing.as_slice(), self.calls) {
            self.faults = self.faults.saturating_add(1);
            return true;
        }
        false
    }
}

impl Counted for MemDesk {
    ghost faults = { λ desk. desk.faults };

    fn faults(&self) -> u64 {
        self.faults
    }
}

impl FaultPlan {
    // Whether no call is planned to fail.
    pub(crate) fn is_nothing(&self) -> bool
        ensures { result ≡ plans_nothing self.now }
    {
        self.commits_before.as_slice().is_empty()
            && self.commits_after.as_slice().is_empty()
            && self.reads.as_slice().is_empty()
            && are_nothing(self.desks.as_slice())
    }
}

fn are_nothing(desks: &[List<u64>]) -> bool
    ensures { result ≡ list_all is_nothing desks.now }
{
    desks.iter().all(|desk| desk.as_slice().is_empty())
}

// Which calls of a keeper fail, and how many of each kind there have been.
#[derive(Drop)]
pub(crate) struct Faults {
    before: List<u64>,
    after: List<u64>,
    failing: List<u64>,
    desks: Vec<List<u64>>,
    reads: u64,
    commits: u64,
    faults: u64,
}

impl Faults {
    pub(crate) fn new(plan: FaultPlan) -> Faults
        ensures quiet { plans_nothing plan ≡ true → fails_never result ≡ true }
        ensures schedule { schedule_of result ≡ planned plan }
        ensures none { result.faults ≡ 0 }
    {
        let FaultPlan {
            commits_before,
            commits_after,
            reads,
            desks,
        } = plan;
        Faults {
            before: commits_before,
            after: commits_after,
            failing: reads,
            desks: desks.into_vec(),
            reads: 0,
            commits: 0,
            faults: 0,
        }
    }

    // Counts a read, and tells whether it fails: exactly where that is planned.
    pub(crate) fn read_fails(&mut self) -> bool
        ensures count { CountGoes result self.old.faults self.new.faults }
        ensures quiet { fails_never self.old ≡ true → fails_never self.new ≡ true }
        ensures calm { fails_never self.old ≡ true → result ≡ false }
        ensures planned { ReadsAsPlanned (Some (schedule_of self.old)) (Some (schedule_of self.new)) result }
        ensures goes { ReadsGo (Some (schedule_of self.old)) (Some (schedule_of self.new)) result }
    {
        self.reads = next_of(self.reads);
        if is_due(self.failing.as_slice(), self.reads) {
            self.faults = self.faults.saturating_add(1);
            return true;
        }
        false
    }

    // Counts a commit, and tells whether it fails, and then whether after its effect.
    pub(crate) fn commit(&mut self) -> Option<bool>
        ensures count { CountGoes (is_some result) self.old.faults self.new.faults }
        ensures quiet { StaysQuiet (fails_never self.old) (fails_never self.new) self.old.faults self.new.faults }
        ensures calm { fails_never self.old ≡ true → result ≡ None }
        ensures planned { CommitsAsPlanned (Some (schedule_of self.old)) (Some (schedule_of self.new)) (is_some result) None None None }
        ensures before { is_planned self.old.before (next_number self.old.commits) ≡ true → result ≡ Some false }
        ensures after { is_planned self.old.before (next_number self.old.commits) ≡ false →
            is_planned self.old.after (next_number self.old.commits) ≡ true → result ≡ Some true }
    {
        self.commits = next_of(self.commits);
        if is_due(self.before.as_slice(), self.commits) {
            self.faults = self.faults.saturating_add(1);
            return Some(false);
        }
        if is_due(self.after.as_slice(), self.commits) {
            self.faults = self.faults.saturating_add(1);
            return Some(true);
        }
        None
    }

    // Counts a read, and takes the plan of the next desk.
    pub(crate) fn desk(&mut self, alloc: Global) -> Result<MemDesk, Failed>
        ensures count { CountGoes (is_err result) self.old.faults self.new.faults }
        ensures fresh { IfOk result (λ desk. desk.faults ≡ 0) }
        ensures quiet { fails_never self.old ≡ true → fails_never self.new ≡ true }
        ensures calm { fails_never self.old ≡ true → is_err result ≡ false }
        ensures quiet_desk { fails_never self.old ≡ true → IfOk result (λ desk. is_nothing desk.failing ≡ true) }
        ensures schedule { schedule_of self.new ≡ with_desk (is_ok result) (schedule_of self.old) }
        ensures failed { is_err result ≡ is_planned self.old.failing (next_number self.old.reads) }
        ensures takes { IfOk result (λ desk. desk_schedule_of desk
            ≡ record { reads = first_plan self.old.desks.items; reads_made = 0 }) }
        ensures goes { ReadsGo (without_desks (Some (schedule_of self.old)))
            (without_desks (Some (schedule_of self.new))) (is_err result) }
    {
        if self.read_fails() {
            return Err(Failed);
        }
        Ok(MemDesk::new(next_desk(&mut self.desks, alloc)))
    }

    pub(crate) fn count(&self) -> u64
        ensures { result ≡ self.now.faults }
    {
        self.faults
    }
}

// Takes the first plan out, or one by which nothing fails where there is none.
fn next_desk(desks: &mut Vec<List<u64>>, alloc: Global) -> List<u64>
    ensures quiet { list_all is_nothing desks.old.items ≡ true → (is_nothing result ≡ true)
        × (list_all is_nothing desks.new.items ≡ true) }
    ensures first { result ≡ first_plan desks.old.items }
    ensures rest { desks.new.items ≡ drop 1 desks.old.items }
{
    if desks.is_empty() {
        return List::new(alloc);
    }
    desks.remove(0)
}
