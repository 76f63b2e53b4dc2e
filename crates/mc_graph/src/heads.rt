// The table of heads, with room for the next commits.
ghost use Rattle.std.specs.Prelude.{◌≡◌, ◌≤◌, ◌<◌, ◌+◌, IfOk, OnOk, is_some, length, fold};
ghost use Rattle.std.specs.List.{IsDistinct};
ghost use Rattle.indexmap.specs.IndexMap.{keys, spare, get};
ghost use Rattle.mc_base.specs.declared.cid.Cid.{Cid};
ghost use Rattle.mc_model.specs.Ascending.{Ascends};
ghost use Rattle.mc_model.specs.Front.{same_cid, head_cmp};
ghost use Rattle.mc_keep.specs.Changes.{head_with, head_without, heads_in_rows};

use indexmap::IndexMap;
use mc_base::{Cid, List};
use mc_keep::HeadRow;
use std::alloc::{AllocError, Global};

/// Takes heads out.
pub fn drop_heads(heads: &mut IndexMap<Cid, u64>, out: &[Cid])
    ensures heads { (cid : Cid) → get same_cid heads.new cid
        ≡ fold (head_without cid) (get same_cid heads.old cid) out.now }
    ensures spare { spare heads.old ≤ spare heads.new }
{
    for cid in out {
        drop_head(heads, cid);
    }
}

fn drop_head(heads: &mut IndexMap<Cid, u64>, out: &Cid)
    ensures heads { (cid : Cid) → get same_cid heads.new cid ≡ head_without cid (get same_cid heads.old cid) out.now }
    ensures spare { spare heads.old ≤ spare heads.new }
{
    let _height = heads.swap_remove(out);
}

/// Puts heads in. It takes no memory.
pub fn put_heads(heads: &mut IndexMap<Cid, u64>, rows: &[HeadRow])
    requires room { length rows.now ≤ spare heads.old }
    ensures heads { (cid : Cid) → get same_cid heads.new cid
        ≡ fold (head_with cid) (get same_cid heads.old cid) rows.now }
    ensures spare { spare heads.old ≤ spare heads.new + length rows.now }
{
    for row in rows {
        put_head(heads, *row);
    }
}

fn put_head(heads: &mut IndexMap<Cid, u64>, row: HeadRow)
    requires room { 0 < spare heads.old }
    ensures heads { (cid : Cid) → get same_cid heads.new cid ≡ head_with cid (get same_cid heads.old cid) row }
    ensures spare { spare heads.old ≤ spare heads.new + 1 }
{
    let _height = heads.insert(row.cid, row.height);
}

/// Whether a block is a head.
pub fn has_head(heads: &IndexMap<Cid, u64>, cid: &Cid) -> bool
    ensures { result ≡ is_some (get same_cid heads.now cid.now) }
{
    heads.contains_key(cid)
}

/// Makes room for so many heads.
pub fn reserve_heads(heads: &mut IndexMap<Cid, u64>, rows: usize) -> Result<(), AllocError>
    ensures ok { OnOk result (rows ≤ spare heads.new) }
    ensures entries { heads.new.entries ≡ heads.old.entries }
    ensures spare { spare heads.old ≤ spare heads.new }
{
    heads.reserve(rows)
}

/// The heads, ascending.
pub fn head_rows(alloc: Global, heads: &IndexMap<Cid, u64>) -> Result<List<HeadRow>, AllocError>
    ensures rows { IfOk result (λ rows. Ascends head_cmp (heads_in_rows rows) heads.now.entries) }
    ensures distinct { OnOk result (IsDistinct same_cid (keys heads.now)) }
{
    let mut rows = copy_heads(alloc, heads)?;
    rows.sort_unstable();
    rows.dedup();
    Ok(List::from_vec(rows))
}

fn copy_heads(alloc: Global, heads: &IndexMap<Cid, u64>) -> Result<Vec<HeadRow>, AllocError>
    ensures rows { IfOk result (λ rows. heads_in_rows rows.items ≡ heads.now.entries) }
    ensures distinct { OnOk result (IsDistinct same_cid (keys heads.now)) }
{
    let mut rows = Vec::with_capacity(alloc, heads.len())?;
    for (cid, height) in heads.iter() {
        rows.push(HeadRow {
            cid: *cid,
            height: *height,
        })?;
    }
    Ok(rows)
}
