// Table 1: each row is a block under its digest, and the digests ascend.
ghost use Rattle.std.specs.Prelude.{◌≡◌, ◌≢◌, ◌++◌, ◌∷◌, [], List, true, false, Some, None, length, IfOk, OnOk, IfSome};
ghost use Rattle.std.specs.Prelude.{if◌then◌else◌};
ghost use Rattle.indexmap.specs.IndexSet.{insert_key};
ghost use Rattle.mc_model.specs.Front.{same_cid, is_among};
ghost use Rattle.mc_model.specs.declared.block.Block.{Block as Processed};
ghost use Rattle.mc_audit.specs.Checks.{IsChecked, AreTaken};
ghost use Rattle.mc_audit.specs.Found.{Gathers};
ghost use Rattle.mc_raw.specs.declared.raw.Row.{Row as Line};
ghost use Rattle.mc_model.specs.Offer.{block_of};
ghost use Rattle.mc_keep.specs.Plan.{is_fault};
ghost use Rattle.mc_raw.specs.Raw.{IfRaw};
ghost use Rattle.mc_audit.specs.Rows.{cid_in};
ghost use Rattle.mc_audit.specs.Sound.{is_block, is_above};

use crate::found::Found;
use indexmap::IndexSet;
use mc_base::Cid;
use mc_block::{BlockError, read_block};
use mc_keep::KeepError;
use mc_model::Block;
use mc_raw::{RawTables, Row};
use std::alloc::{AllocError, Global};

// The rows of table 1 so far: the last digest, all of them, and what the processed blocks have.
#[derive(Drop)]
pub(crate) struct Blocks {
    pub(crate) last: Option<Cid>,
    pub(crate) stored: IndexSet<Cid>,
    pub(crate) found: Found,
}

// What a pass over table 1 finds: the first row that is wrong, or all of them and how many they are.
#[derive(Drop)]
pub(crate) enum Checked {
    Broken(u64),
    Whole(Blocks, u64),
}

// Looks through table 1, and gathers what the marked blocks have.
pub(crate) fn check_blocks<T: RawTables>(
    alloc: Global,
    tables: &mut T,
    marked: &IndexSet<Cid>,
) -> Result<Checked, KeepError>
    ensures checked { IfRaw (T.raw tables.old) result (λ t checked. IsChecked marked.now.keys (t 1) checked) }
    ensures goes { T.goes [] (is_fault result) tables.old tables.new }
{
    let mut blocks = Blocks {
        last: None,
        stored: IndexSet::new(alloc),
        found: Found::new(alloc),
    };
    for index in 0..u64::MAX {
        let found = tables.raw_next(alloc, 1, index)?;
        let row = match found {
            Some(row) => row,
            None => return Ok(Checked::Whole(blocks, index)),
        };
        if !take_row(alloc, &mut blocks, &row, marked)? {
            return Ok(Checked::Broken(index));
        }
    }
    Err(KeepError::Memory)
}

// Takes one more row, or says that it is wrong.
fn take_row(
    alloc: Global,
    blocks: &mut Blocks,
    row: &Row,
    marked: &IndexSet<Cid>,
) -> Result<bool, AllocError>
    ensures test { IfOk result (λ right. right ≡ is_block blocks.old.last row.now) }
    ensures last { IfOk result (λ right. right ≡ true → blocks.new.last ≡ Some (cid_in row.now)) }
    ensures taken { IfOk result (λ right. right ≡ true → (rows : List Line) →
        AreTaken marked.now.keys rows blocks.old → AreTaken marked.now.keys (rows ++ row.now ∷ []) blocks.new) }
{
    let Some(block) = block_of_row(alloc, blocks.last, row)? else {
        return Ok(false);
    };
    add_block(alloc, blocks, &block, marked)?;
    Ok(true)
}

// The block of a row, where it is above the last one.
fn block_of_row(alloc: Global, last: Option<Cid>, row: &Row) -> Result<Option<Block>, AllocError>
    ensures some { IfOk result (λ block. IfSome block (λ block.
        (is_block last row.now ≡ true) × (block ≡ block_of (cid_in row.now) row.now.b)
        × (block.cid ≡ cid_in row.now))) }
    ensures none { IfOk result (λ block. block ≡ None → is_block last row.now ≡ false) }
{
    let cid = match cid_of(row) {
        Some(cid) => cid,
        None => return Ok(None),
    };
    if !is_after(last, &cid) {
        return Ok(None);
    }
    match read_block(alloc, &cid, row.b.as_slice()) {
        Ok(block) => Ok(Some(block)),
        Err(BlockError::Damaged(_)) => Ok(None),
        Err(BlockError::Memory) => Err(AllocError),
    }
}

// The identifier with the row's digest, where it has 32 bytes.
pub(crate) fn cid_of(row: &Row) -> Option<Cid>
    ensures some { IfSome result (λ cid. cid ≡ cid_in row.now) }
    ensures none { result ≡ None → length row.now.a ≢ 32 }
    ensures length { IfSome result (λ cid. length row.now.a ≡ 32) }
{
    Some(Cid(row.a.as_slice().try_into().ok()?))
}

fn is_after(last: Option<Cid>, cid: &Cid) -> bool
    ensures { result ≡ is_above last cid.now }
{
    match last {
        Some(last) => last.cmp(cid).is_lt(),
        None => true,
    }
}

fn add_block(
    alloc: Global,
    blocks: &mut Blocks,
    block: &Block,
    marked: &IndexSet<Cid>,
) -> Result<(), AllocError>
    ensures last { OnOk result (blocks.new.last ≡ Some block.now.cid) }
    ensures stored { OnOk result (blocks.new.stored.keys ≡ insert_key same_cid blocks.old.stored.keys block.now.cid) }
    ensures found { OnOk result ((before : List Processed) → Gathers before blocks.old.found →
        Gathers (if is_among marked.now.keys block.now.cid then before ++ block.now ∷ [] else before)
        blocks.new.found) }
{
    blocks.last = Some(block.cid);
    blocks.stored.insert(block.cid)?;
    if marked.contains(&block.cid) {
        blocks.found.add(alloc, block)?;
    }
    Ok(())
}
