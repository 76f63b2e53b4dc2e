// The keepers of a run: how they are made, and given back.
ghost use Rattle.std.specs.Prelude.{◌≡◌, ◌≤◌, ◌<◌, ◌+◌, ◌-◌, ◌^◌, ◌∷◌, min, ℕ, true, vec_len, vec_capacity, IfOk};
ghost use Rattle.std.specs.Prelude.{IsErrOf, OnErr, Ok, Err};
ghost use Rattle.mc_base.specs.Causes.{Rose};
ghost use Rattle.mc_keep.specs.Causes.{CountGoes};
ghost use Rattle.mc_keep.specs.Plan.{is_fault};
ghost use Rattle.mc_keep.specs.declared.error.KeepError.{KeepError as MakeError};
ghost use Rattle.mc_keepers.specs.declared.keepers.KeeperPlan.{KeeperPlan as MadeBy};
ghost use Rattle.mc_seats.specs.Keepers.{is_calm_keeper};
ghost use Rattle.mc_seats.specs.Openings.{AreFresh, IsFresh, are_calm, counted_of, owns_of, starts_of};
ghost use Rattle.mc_app.specs.Outcome.{AreOwnDesks, MadeFrom, TakesSome, starts_from};
ghost use Rattle.mc_app.specs.Keeping.{ArePlain, TakesParts, made_of};

use mc_base::List;
use mc_core::OpenCause;
use mc_keep::{Fused, KeepError, Keeper};
use mc_keepers::{KeeperPlan, Keepers};
use mc_world::Part;
use std::alloc::Global;

// Makes so many keepers of a plan, in order of their replicas. Where one is not made, those that were made are given
// back.
pub(crate) fn make_parts<K: Keepers>(
    alloc: Global,
    keepers: &mut K,
    plan: &KeeperPlan,
    count: u64,
) -> Result<List<Part<Fused<K::K>>>, OpenCause>
    ensures starts { IfOk result (λ parts. starts_of ⟦<Fused<K::K> as Keeper>⟧.told parts
        ≡ starts_from (K.starts keepers.old plan.now) 0 count) }
    ensures fresh { IfOk result (λ parts.
        AreFresh ⟦<Fused<K::K> as Keeper>⟧.told ⟦<Fused<K::K> as Keeper>⟧.fuse parts) }
    ensures counted { IfOk result (λ parts. owns_of ⟦<Fused<K::K> as Keeper>⟧ parts ≡ 0) }
    ensures calm { K.quiet keepers.old plan.now ≡ true →
        IfOk result (λ parts. are_calm ⟦<Fused<K::K> as Keeper>⟧ parts ≡ true) }
    ensures lost_same { IfOk result (λ _. K.lost keepers.new ≡ K.lost keepers.old) }
    ensures made { IfOk result (λ parts.
        MadeFrom K.makes plan.now 0 keepers.old (made_of parts) keepers.new) }
    ensures plain { IfOk result (ArePlain ⟦<Fused<K::K> as Keeper>⟧.schedule K.K.schedule) }
    ensures taken { OnErr result (TakesSome K.makes K.takes K.K.told (AreOwnDesks K.K.schedule K.K.desk_schedule)
        plan.now keepers.old (starts_from (K.starts keepers.old plan.now) 0 count) keepers.new) }
    ensures lost { OnErr result (min (K.lost keepers.old) (2 ^ 64 - 1) ≤ K.lost keepers.new) }
    ensures fault { IsErrOf result OpenCause.KeeperFault → Rose (K.faults keepers.old) (K.faults keepers.new) }
    ensures later { K.faults keepers.old ≤ K.faults keepers.new }
{
    let Ok(mut parts) = Vec::with_capacity(alloc, count as usize) else {
        return Err(OpenCause::Memory);
    };
    for index in 0..count {
        match make_part(alloc, keepers, plan, index) {
            Ok(part) => parts.push_reserved(part),
            Err(cause) => {
                give_back(keepers, List::from_vec(parts));
                return Err(cause);
            }
        }
    }
    Ok(List::from_vec(parts))
}

// Makes the keeper of a replica, and wraps it.
fn make_part<K: Keepers>(
    alloc: Global,
    keepers: &mut K,
    plan: &KeeperPlan,
    index: u64,
) -> Result<Part<Fused<K::K>>, OpenCause>
    ensures told { IfOk result (λ part.
        ⟦<Fused<K::K> as Keeper>⟧.told part.keeper ≡ K.starts keepers.old plan.now index) }
    ensures fresh { IfOk result (λ part.
        IsFresh ⟦<Fused<K::K> as Keeper>⟧.told ⟦<Fused<K::K> as Keeper>⟧.fuse part) }
    ensures counted { IfOk result (λ part. ⟦<Fused<K::K> as Keeper>⟧.own part.keeper ≡ 0) }
    ensures calm { K.quiet keepers.old plan.now ≡ true →
        IfOk result (λ part. is_calm_keeper ⟦<Fused<K::K> as Keeper>⟧ part.keeper ≡ true) }
    ensures made { IfOk result (λ part.
        K.makes keepers.old plan.now index (Ok part.keeper.keeper) keepers.new) }
    ensures plain { IfOk result (λ part.
        ⟦<Fused<K::K> as Keeper>⟧.schedule part.keeper ≡ K.K.schedule part.keeper.keeper) }
    ensures unmade { OnErr result ((error : MakeError) ×
        K.makes keepers.old plan.now index (Err error) keepers.new) }
    ensures starts_same { (plan : MadeBy) (index : ℕ) →
        K.starts keepers.new plan index ≡ K.starts keepers.old plan index }
    ensures quiet_same { (plan : MadeBy) → K.quiet keepers.new plan ≡ K.quiet keepers.old plan }
    ensures lost { K.lost keepers.new ≡ K.lost keepers.old }
    ensures fault { IsErrOf result OpenCause.KeeperFault → Rose (K.faults keepers.old) (K.faults keepers.new) }
    ensures later { K.faults keepers.old ≤ K.faults keepers.new }
{
    match keepers.make(alloc, plan, index) {
        Ok(keeper) => {
            let keeper = Fused::wrap(keeper);
            let desks = List::new(alloc);
            Ok(Part { keeper, desks })
        }
        Err(KeepError::Failed) => Err(OpenCause::KeeperFault),
        Err(KeepError::Memory) => Err(OpenCause::Memory),
    }
}

// Gives keepers back, in order, each with its desks.
pub(crate) fn give_back<K: Keepers>(keepers: &mut K, parts: List<Part<Fused<K::K>>>)
    ensures taken { TakesParts K.takes keepers.old parts keepers.new }
    ensures lost { min (K.lost keepers.old + counted_of ⟦<Fused<K::K> as Keeper>⟧ K.K.Desk.faults parts) (2 ^ 64 - 1)
        ≤ K.lost keepers.new }
    ensures count { K.faults keepers.new ≡ K.faults keepers.old }
{
    let mut parts = parts.into_vec();
    while parts.len() > 0 {
        let Part { keeper, desks } = take_first(&mut parts);
        keepers.end(keeper.end(), desks);
    }
    parts.destroy_empty();
}

// Takes the first thing out.
fn take_first<T>(things: &mut Vec<T>) -> T
    requires { 0 < vec_len things.old }
    ensures items { things.old.items ≡ result ∷ things.new.items }
    ensures len { vec_len things.new + 1 ≡ vec_len things.old }
    ensures capacity { vec_capacity things.new ≡ vec_capacity things.old }
{
    things.remove(0)
}
