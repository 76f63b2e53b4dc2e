// A keeper that also has its tables as plain rows.
ghost use Rattle.std.specs.Prelude.{◌≡◌, Bool, List};
ghost use Rattle.std.specs.Option.{option_map};
ghost use Rattle.mc_base.specs.declared.cid.Cid.{Cid};
ghost use Rattle.mc_raw.specs.Drops.{DropsAt};
ghost use Rattle.mc_raw.specs.RowTables.{tables_of};

use crate::RawTables;
use mc_keep::Keeper;

/// A keeper that also has its tables as plain rows: they are those of what it tells, and a removal takes a block out of
/// what it tells. It has no call of its own, and is a name for the two bounds with what ties them.
pub trait RawKeeper: Keeper + RawTables {
    /// The rows are those of what is told, by the layout.
    ghost rows_told: { (keeper : Self) →
        Self.raw keeper ≡ option_map (tables_of (Self.layout keeper)) (Self.told keeper) };

    /// What calls leave of the keeper.
    ghost goes_at: { (cids : List Cid) (failed : Bool) (old new : Self) → Self.goes cids failed old new →
        DropsAt Self.told Self.layout Self.fuse Self.spare Self.own Self.faults Self.quiet Self.schedule
        cids failed old new };
}
