// What the blocks of a group do to the front.
ghost use Rattle.std.specs.Prelude.{◌≡◌, ◌<◌, ◌+◌, ◌-◌, ◌^◌, ◌++◌, List, filter, length, map};
ghost use Rattle.std.specs.Prelude.{IfSome, IfOk, OnOk, OnErr};
ghost use Rattle.mc_model.specs.declared.block.Block.{Block};
ghost use Rattle.mc_model.specs.Front.{is_among, gaps};
ghost use Rattle.mc_model.specs.Kept.{processed};
ghost use Rattle.mc_keep.specs.Calls.{Reads};
ghost use Rattle.mc_keep.specs.Causes.{IfTold};
ghost use Rattle.mc_keep.specs.Plan.{is_fault};
ghost use Rattle.mc_keep.specs.New.{AreNew};
ghost use Rattle.mc_keep.specs.Tables.{FrontFits};
ghost use Rattle.mc_front.specs.Front.{HeadsOut, MarkFits, new_heads as heads_of};
ghost use Rattle.mc_front.specs.Steps.{different_links, unlinked, rows_of_heads};

use crate::distinct::links_of;
use crate::heads::new_heads;
use crate::links::{new_links, old_heads};
use crate::mark::mark_change;
use mc_base::{Cid, List};
use mc_keep::{Changes, HeadRow, KeepError, Keeper};
use mc_model::Block;
use std::alloc::{AllocError, Global};

// The rows of a group of blocks.
#[derive(Drop)]
struct Rows {
    marks: List<Cid>,
    links: List<Cid>,
    heads_in: List<HeadRow>,
    heads_out: List<Cid>,
}

/// Gives the changes the marks, the link rows, the heads and the dirty mark by which the keeper, with the blocks
/// processed, has the front of all its blocks, and answers the number of gaps afterwards. Where `whole`, every gap is
/// wanted: the mark is set exactly where there is a gap. Else the mark stays. The mark and the blocks are in the same
/// changes. That the front is that one is promised where the blocks are distinct and none is processed. Such rows as
/// the changes had are no longer there.
///
/// Each link is looked up once, and so is each block. Over every keeper the answer is `Failed` exactly where a read of
/// the keeper failed, which then was the last one; on a refusal (that, or want of memory) the changes stay as they
/// were.
pub fn front_changes<K: Keeper>(
    keeper: &mut K,
    alloc: Global,
    blocks: &[Block],
    whole: bool,
    changes: &mut Changes,
) -> Result<u64, KeepError>
    ensures marks { OnOk result (changes.new.marks ≡ map (λ (block : Block). block.cid) blocks.now) }
    ensures fit { OnOk result (IfSome (K.told keeper.old) (λ kept.
        AreNew kept blocks.now → FrontFits (processed kept) blocks.now changes.new)) }
    ensures out { OnOk result (IfSome (K.told keeper.old) (λ kept.
        AreNew kept blocks.now → HeadsOut (processed kept) blocks.now changes.new.heads_out)) }
    ensures heads { OnOk result (IfSome (K.told keeper.old) (λ kept.
        changes.new.heads_in ≡ heads_of (processed kept) blocks.now)) }
    ensures gaps { IfTold (K.told keeper.old) result (λ kept count.
        AreNew kept blocks.now → count ≡ length (gaps (processed kept ++ blocks.now))) }
    ensures mark { OnOk result (IfSome (K.told keeper.old) (λ kept.
        AreNew kept blocks.now → MarkFits whole kept.mark (processed kept ++ blocks.now) changes.new.mark)) }
    ensures others { (changes.new.store ≡ changes.old.store) × (changes.new.elements ≡ changes.old.elements)
        × (changes.new.tombs ≡ changes.old.tombs) × (changes.new.values ≡ changes.old.values)
        × (changes.new.winners ≡ changes.old.winners) × (changes.new.upto ≡ changes.old.upto)
        × (changes.new.two ≡ changes.old.two) }
    ensures refused { OnErr result (changes.new ≡ changes.old) }
    ensures reads { Reads K.Keeper (is_fault result) keeper.old keeper.new }
{
    let rows = rows_of(keeper, alloc, blocks)?;
    let summary = keeper.summary()?;
    let gaps = gaps_after(summary.gaps, &rows);
    changes.mark = mark_change(whole, gaps, summary.mark);
    changes.marks = rows.marks;
    changes.links = rows.links;
    changes.heads_in = rows.heads_in;
    changes.heads_out = rows.heads_out;
    Ok(gaps)
}

fn rows_of<K: Keeper>(keeper: &mut K, alloc: Global, blocks: &[Block]) -> Result<Rows, KeepError>
    ensures marks { IfOk result (λ rows. rows.marks ≡ map (λ (block : Block). block.cid) blocks.now) }
    ensures links { IfTold (K.told keeper.old) result (λ kept rows.
        rows.links ≡ unlinked (processed kept) (different_links blocks.now)) }
    ensures heads_out { IfTold (K.told keeper.old) result (λ kept rows.
        rows.heads_out ≡ filter (is_among kept.order) rows.links) }
    ensures heads_in { IfTold (K.told keeper.old) result (λ kept rows.
        rows.heads_in ≡ rows_of_heads (processed kept) (different_links blocks.now) blocks.now) }
    ensures reads { Reads K.Keeper (is_fault result) keeper.old keeper.new }
{
    let marks = marks_of(alloc, blocks)?;
    let all = links_of(alloc, blocks)?;
    let links = new_links(keeper, alloc, all.as_slice())?;
    let heads_out = old_heads(keeper, alloc, links.as_slice())?;
    let heads_in = new_heads(keeper, alloc, blocks, &all)?;
    Ok(Rows {
        marks,
        links,
        heads_in,
        heads_out,
    })
}

fn marks_of(alloc: Global, blocks: &[Block]) -> Result<List<Cid>, AllocError>
    ensures { IfOk result (λ marks. marks ≡ map (λ (block : Block). block.cid) blocks.now) }
{
    let mut marks = List::with_capacity(alloc, blocks.len())?;
    for block in blocks {
        marks.push(block.cid)?;
    }
    Ok(marks)
}

// How many gaps there are with the rows. A link is a gap, or leads to a processed block that is no head: so there are
// as many more gaps as there are more links and heads, and as many less as there are more processed blocks.
fn gaps_after(gaps: u64, rows: &Rows) -> u64
    requires { gaps < 2 ^ 63 }
    ensures { result ≡ gaps + length rows.now.links - length rows.now.heads_out
        - (length rows.now.marks - length rows.now.heads_in) }
{
    let linked = count_of(&rows.marks).saturating_sub(rows.heads_in.as_slice().len() as u64);
    (gaps + count_of(&rows.links))
        .saturating_sub(count_of(&rows.heads_out))
        .saturating_sub(linked)
}

fn count_of(cids: &List<Cid>) -> u64
    ensures count { result ≡ length cids.now }
    ensures small { result < 2 ^ 63 }
{
    cids.as_slice().len() as u64
}
