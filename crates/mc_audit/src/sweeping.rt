// The sweep.
ghost use Rattle.std.specs.Prelude.{◌≡◌, ◌++◌, ◌∷◌, [], List, IfOk, OnOk, IfSome};
ghost use Rattle.mc_raw.specs.declared.raw.Row.{Row as Line};
ghost use Rattle.mc_keep.specs.Plan.{is_fault};
ghost use Rattle.mc_raw.specs.Raw.{IfRaw};
ghost use Rattle.mc_audit.specs.Checks.{AreCids};
ghost use Rattle.mc_audit.specs.Sweep.{free_cids, Sweeps, Drops};

use crate::blocks::cid_of;
use crate::places::marked;
use indexmap::IndexSet;
use mc_base::{Cid, Failed};
use mc_keep::KeepError;
use mc_raw::{RawTables, Row};
use std::alloc::{AllocError, Global};

/// Removes each block of table 1 that is not in table 2, and gives their number. A row whose digest hasn't 32 bytes
/// stays, and is not counted. After want of memory none is removed; after `Failed` some first ones are, and the next one
/// wholly or not at all. The tables need not be sound.
pub fn sweep<T: RawTables>(alloc: Global, tables: &mut T) -> Result<u64, KeepError>
    ensures { Sweeps (λ cids failed. T.goes cids failed tables.old tables.new) (T.raw tables.old) result }
{
    let marked = match marked(alloc, tables) {
        Ok(marked) => marked,
        Err(error) => return Err(error),
    };
    let cids = match free(alloc, tables, &marked) {
        Ok(cids) => cids,
        Err(error) => return Err(error),
    };
    match drop_all(tables, cids.as_slice()) {
        Ok(()) => Ok(cids.as_slice().len() as u64),
        Err(Failed) => Err(KeepError::Failed),
    }
}

// The blocks of table 1 that aren't marked.
fn free<T: RawTables>(
    alloc: Global,
    tables: &mut T,
    marked: &IndexSet<Cid>,
) -> Result<Vec<Cid>, KeepError>
    ensures cids { IfRaw (T.raw tables.old) result (λ t cids.
        AreCids marked.now.keys (t 2) → cids.items ≡ free_cids (t 2) (t 1)) }
    ensures goes { T.goes [] (is_fault result) tables.old tables.new }
{
    let mut cids = Vec::new(alloc);
    for index in 0..u64::MAX {
        let found = tables.raw_next(alloc, 1, index)?;
        let row = match found {
            Some(row) => row,
            None => return Ok(cids),
        };
        add_free(&mut cids, &row, marked)?;
    }
    Err(KeepError::Memory)
}

fn add_free(cids: &mut Vec<Cid>, row: &Row, marked: &IndexSet<Cid>) -> Result<(), AllocError>
    ensures { OnOk result ((marks : List Line) → AreCids marked.now.keys marks →
        cids.new.items ≡ cids.old.items ++ free_cids marks (row.now ∷ [])) }
{
    let cid = match cid_of(row) {
        Some(cid) => cid,
        None => return Ok(()),
    };
    if marked.contains(&cid) {
        return Ok(());
    }
    cids.push(cid)?;
    Ok(())
}

fn drop_all<T: RawTables>(tables: &mut T, cids: &[Cid]) -> Result<(), Failed>
    requires { IfSome (T.raw tables.old) (λ t. cids.now ≡ free_cids (t 2) (t 1)) }
    ensures { Drops (λ dropped failed. T.goes dropped failed tables.old tables.new) cids.now result }
{
    for cid in cids {
        tables.raw_drop(cid)?;
    }
    Ok(())
}
