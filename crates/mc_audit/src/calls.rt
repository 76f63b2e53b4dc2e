// An audit and a sweep of a keeper, in the keeper's words.
ghost use Rattle.std.specs.Prelude.{◌≡◌, [], IfOk, IfSome};
ghost use Rattle.std.specs.Option.{option_map};
ghost use Rattle.mc_keep.specs.Causes.{IfTold};
ghost use Rattle.mc_keep.specs.Plan.{is_fault};
ghost use Rattle.mc_raw.specs.Drops.{DropsAt};
ghost use Rattle.mc_raw.specs.RowTables.{tables_of};
ghost use Rattle.mc_audit.specs.Sound.{verdict_of};
ghost use Rattle.mc_audit.specs.Sweep.{Sweeps};

use crate::{Verdict, audit, sweep};
use mc_keep::KeepError;
use mc_raw::RawKeeper;
use std::alloc::Global;

/// An audit of a keeper: where it tells, the verdict on the tables that it owes for this. Nothing changes, and `Failed`
/// comes exactly where the keeper's count rose.
pub fn audit_at<K: RawKeeper>(alloc: Global, keeper: &mut K) -> Result<Verdict, KeepError>
    ensures verdict { IfTold (K.told keeper.old) result (λ kept verdict.
        verdict ≡ verdict_of (tables_of (K.layout keeper.old) kept)) }
    ensures goes { DropsAt K.told K.layout K.fuse K.spare K.own K.faults K.quiet K.schedule
        [] (is_fault result) keeper.old keeper.new }
{
    audit(alloc, keeper)
}

/// A sweep of a keeper: where it tells, the blocks that go are those of its table 1 that are not in its table 2.
pub fn sweep_at<K: RawKeeper>(alloc: Global, keeper: &mut K) -> Result<u64, KeepError>
    ensures { Sweeps (λ cids failed. DropsAt K.told K.layout K.fuse K.spare K.own K.faults K.quiet K.schedule
        cids failed keeper.old keeper.new)
        (option_map (tables_of (K.layout keeper.old)) (K.told keeper.old)) result }
{
    sweep(alloc, keeper)
}
