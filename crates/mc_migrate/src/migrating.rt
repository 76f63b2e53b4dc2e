// A migration: commits of winner rows, until all are there.
ghost use Rattle.std.specs.Prelude.{◌≡◌, ◌≤◌, ◌⊎◌, ◌+◌, ◌-◌, ◌^◌, length, min, IfOk, IfErr, IfSome, OnOk};
ghost use Rattle.std.specs.Result.{is_err};
ghost use Rattle.mc_model.specs.Kept.{processed};
ghost use Rattle.mc_model.specs.Layouts.{migrated, next_keys};
ghost use Rattle.mc_model.specs.declared.layout.Layout.TheVariants.{One, Two};
ghost use Rattle.mc_keep.specs.declared.error.KeepError.{KeepError};
ghost use Rattle.mc_keep.specs.Burning.{burnt_by};
ghost use Rattle.mc_keep.specs.Calls.{Goes, Reads};
ghost use Rattle.mc_keep.specs.Causes.{IfTold, burnt};
ghost use Rattle.mc_keep.specs.Changes.{no_changes, row_count, laid};
ghost use Rattle.mc_keep.specs.Plan.{is_fault};
ghost use Rattle.mc_keep.specs.Tables.{MigrateFits};
ghost use Rattle.mc_migrate.specs.Migrations.{HasMigrated, MigratesOrNot, keys_by, migrated_by};

use crate::planning::{next_rows, plan};
use mc_base::{Failed, Text};
use mc_keep::{Changes, KeepError, Keeper, Layout, migrations_fit};
use mc_model::valued_keys_are_exact;
use std::alloc::Global;

/// How much a migration did.
#[derive(Clone, Copy, Debug, PartialEq, Eq)]
pub struct Migrated {
    /// The keys whose winner rows it wrote, at most `u64::MAX`.
    pub keys: u64,
    /// Its commits.
    pub commits: u64,
}

/// Writes the winner rows of all keys that have none: each commit those of the next 1,024 keys with a value, or of all
/// that are left. What is stored and processed, and the mark, stay as they were. Where all winner rows are there it
/// does nothing, and takes no memory. After `Failed` and after want of memory the commits before have happened.
pub fn migrate<K: Keeper>(keeper: &mut K, alloc: Global) -> Result<Migrated, KeepError>
    ensures two { IfOk result (λ done. K.layout keeper.new ≡ Two) }
    ensures same { K.told keeper.new ≡ K.told keeper.old }
    ensures commits { IfTold (K.told keeper.old) result (λ kept done.
        migrated_by done.commits (processed kept) (K.layout keeper.old) ≡ Two) }
    ensures keys { IfTold (K.told keeper.old) result (λ kept done.
        done.keys ≡ min (keys_by done.commits (processed kept) (K.layout keeper.old)) (2 ^ 64 - 1)) }
    ensures reached { IfSome (K.told keeper.old) (λ kept.
        HasMigrated kept (K.layout keeper.old) (K.layout keeper.new)) }
    ensures fuse { IfOk result (λ done. K.fuse keeper.new ≡ burnt_by done.commits (K.fuse keeper.old)) }
    ensures none { K.layout keeper.old ≡ Two → IfOk result (λ done. (done.keys ≡ 0) × (done.commits ≡ 0)) }
    ensures still { K.layout keeper.old ≡ Two → Reads K.Keeper (is_fault result) keeper.old keeper.new }
    ensures no_memory { K.layout keeper.old ≡ Two → IfErr result (λ error. error ≡ KeepError.Failed) }
    ensures goes { Goes K.Keeper (is_fault result) keeper.old keeper.new }
{
    let mut keys = 0;
    let mut commits = 0;
    let mut layout = keeper.layout(alloc)?;
    while let Layout::One { upto } = layout {
        if commits == u64::MAX {
            return Err(KeepError::Memory);
        }
        let taken = migrate_next(keeper, alloc, upto)?;
        keys = add(keys, taken);
        commits += 1;
        layout = keeper.layout(alloc)?;
    }
    Ok(Migrated { keys, commits })
}

fn add(keys: u64, taken: u64) -> u64
    ensures { result ≡ min (keys + taken) (2 ^ 64 - 1) }
{
    keys.saturating_add(taken)
}

// One commit of a migration: how many keys it took.
fn migrate_next<K: Keeper>(
    keeper: &mut K,
    alloc: Global,
    upto: Option<Text>,
) -> Result<u64, KeepError>
    requires one { K.layout keeper.old ≡ One upto }
    ensures same { K.told keeper.new ≡ K.told keeper.old }
    ensures laid { IfTold (K.told keeper.old) result (λ kept taken.
        K.layout keeper.new ≡ migrated (processed kept) (K.layout keeper.old)) }
    ensures taken { IfTold (K.told keeper.old) result (λ kept taken.
        taken ≡ length (next_keys (K.layout keeper.old) (processed kept))) }
    ensures or_not { IfSome (K.told keeper.old) (λ kept.
        MigratesOrNot kept (K.layout keeper.old) (K.layout keeper.new)) }
    ensures fuse { IfOk result (λ taken. K.fuse keeper.new ≡ burnt (K.fuse keeper.old)) }
    ensures goes { Goes K.Keeper (is_fault result) keeper.old keeper.new }
{
    valued_keys_are_exact();
    let rows = next_rows(keeper, alloc, &upto)?;
    let mut changes = Changes::new(alloc);
    plan(keeper, alloc, rows.as_slice(), &mut changes)?;
    match commit(keeper, changes) {
        Ok(()) => Ok(rows.len() as u64),
        Err(Failed) => Err(KeepError::Failed),
    }
}

// The commit of a migration's changes.
fn commit<K: Keeper>(keeper: &mut K, changes: Changes) -> Result<(), Failed>
    requires room { row_count changes ≤ K.spare keeper.old }
    requires fits { IfSome (K.told keeper.old) (λ kept. MigrateFits (K.layout keeper.old) kept changes) }
    ensures same { K.told keeper.new ≡ K.told keeper.old }
    ensures laid { OnOk result (K.layout keeper.new ≡ laid (K.layout keeper.old) changes) }
    ensures or_not { (K.layout keeper.new ≡ K.layout keeper.old)
        ⊎ (K.layout keeper.new ≡ laid (K.layout keeper.old) changes) }
    ensures fuse { OnOk result (K.fuse keeper.new ≡ burnt (K.fuse keeper.old)) }
    ensures goes { Goes K.Keeper (is_err result) keeper.old keeper.new }
{
    migrations_fit();
    match keeper.commit(changes) {
        Ok(()) => Ok(()),
        Err(Failed) => Err(Failed),
    }
}
