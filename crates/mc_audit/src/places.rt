// Table 2: the positions count up from 0, with distinct digests of table 1.
ghost use Rattle.std.specs.Prelude.{◌≡◌, ◌≢◌, [], ◌∷◌, ◌++◌, List, true, false, IfOk, OnOk, length};
ghost use Rattle.mc_raw.specs.declared.raw.Row.{Row as Line};
ghost use Rattle.mc_base.specs.declared.cid.Cid.{Cid as Identifier};
ghost use Rattle.mc_keep.specs.Plan.{is_fault};
ghost use Rattle.mc_raw.specs.Raw.{IfRaw};
ghost use Rattle.mc_model.specs.Front.{is_among};
ghost use Rattle.mc_audit.specs.Checks.{AreCids, IsPlaced};
ghost use Rattle.mc_audit.specs.Rows.{cid_in};
ghost use Rattle.mc_audit.specs.Sound.{is_place};

use crate::blocks::cid_of;
use indexmap::IndexSet;
use mc_base::Cid;
use mc_keep::KeepError;
use mc_raw::{RawTables, Row};
use std::alloc::{AllocError, Global};

// What a pass over table 2 finds: the first row that is wrong, or how many they are.
#[derive(Clone, Copy)]
pub(crate) enum Placed {
    Broken(u64),
    Whole(u64),
}

// The identifiers of table 2.
pub(crate) fn marked<T: RawTables>(
    alloc: Global,
    tables: &mut T,
) -> Result<IndexSet<Cid>, KeepError>
    ensures cids { IfRaw (T.raw tables.old) result (λ t marked. AreCids marked.keys (t 2)) }
    ensures goes { T.goes [] (is_fault result) tables.old tables.new }
{
    let mut marked = IndexSet::new(alloc);
    for index in 0..u64::MAX {
        let found = tables.raw_next(alloc, 2, index)?;
        let row = match found {
            Some(row) => row,
            None => return Ok(marked),
        };
        mark(&mut marked, &row)?;
    }
    Err(KeepError::Memory)
}

// Adds the identifier of a row, where it has one.
fn mark(marked: &mut IndexSet<Cid>, row: &Row) -> Result<(), AllocError>
    ensures { OnOk result ((rows : List Line) →
        AreCids marked.old.keys rows → AreCids marked.new.keys (rows ++ row.now ∷ [])) }
{
    if let Some(cid) = cid_of(row) {
        marked.insert(cid)?;
    }
    Ok(())
}

// Looks through table 2.
pub(crate) fn check_places<T: RawTables>(
    alloc: Global,
    tables: &mut T,
    stored: &IndexSet<Cid>,
) -> Result<Placed, KeepError>
    ensures placed { IfRaw (T.raw tables.old) result (λ t placed.
        ((cid : Identifier) → length cid.0 ≢ 32 → is_among stored.now.keys cid ≡ false) →
        IsPlaced (is_among stored.now.keys) (t 2) placed) }
    ensures goes { T.goes [] (is_fault result) tables.old tables.new }
{
    let mut seen = IndexSet::new(alloc);
    for index in 0..u64::MAX {
        let found = tables.raw_next(alloc, 2, index)?;
        let row = match found {
            Some(row) => row,
            None => return Ok(Placed::Whole(index)),
        };
        if !take_place(stored, &mut seen, &row, index)? {
            return Ok(Placed::Broken(index));
        }
    }
    Err(KeepError::Memory)
}

// Takes one more row, or says that it is wrong.
fn take_place(
    stored: &IndexSet<Cid>,
    seen: &mut IndexSet<Cid>,
    row: &Row,
    index: u64,
) -> Result<bool, AllocError>
    ensures test { IfOk result (λ right.
        ((cid : Identifier) → length cid.0 ≢ 32 → is_among stored.now.keys cid ≡ false) →
        right ≡ is_place (is_among stored.now.keys) index seen.old.keys row.now) }
    ensures seen { IfOk result (λ right. right ≡ true → seen.new.keys ≡ seen.old.keys ++ cid_in row.now ∷ []) }
{
    if row.n != index {
        return Ok(false);
    }
    let Some(cid) = cid_of(row) else {
        return Ok(false);
    };
    if !stored.contains(&cid) || seen.contains(&cid) {
        return Ok(false);
    }
    seen.insert(cid)?;
    Ok(true)
}
