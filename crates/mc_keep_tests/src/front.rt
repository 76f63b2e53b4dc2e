// Groups of blocks over an empty keeper.
ghost use Rattle.std.specs.Prelude.{IfSome};
ghost use Rattle.mc_keep.specs.New.{AreNew};

use crate::groups::are_once;
use crate::trials::empty;
use mc_base::{Cid, List};
use mc_front::front_changes;
use mc_keep::{Changes, HeadRow, KeepError, Keeper};
use mc_model::{Block, Delta};
use std::alloc::{AllocError, Global};
use std::test::Fail;

// A block by a number, with links to other numbers, and no elements and tombstones.
fn block(alloc: Global, number: u8, links: &[u8], priority: u64) -> Result<Block, AllocError> {
    let mut cids = List::new(alloc);
    for link in links {
        cids.push(Cid([*link; 32]))?;
    }
    Ok(Block {
        cid: Cid([number; 32]),
        links: cids,
        delta: Delta {
            elements: List::new(alloc),
            tombstones: List::new(alloc),
            priority,
        },
    })
}

// What the blocks, which differ, change in an empty keeper, with the number of gaps.
fn changes_of(alloc: Global, blocks: &[Block], whole: bool) -> Result<(u64, Changes), Fail> {
    if !are_once(blocks) {
        return Err("a block stands twice".into());
    }
    let keeper = empty(alloc)?;
    Ok(changes_in(keeper, alloc, blocks, whole)?)
}

fn changes_in<K: Keeper + Drop>(
    keeper: K,
    alloc: Global,
    blocks: &[Block],
    whole: bool,
) -> Result<(u64, Changes), KeepError>
    requires new { IfSome (K.told keeper) (λ kept. AreNew kept blocks.now) }
{
    let mut keeper = keeper;
    let mut changes = Changes::new(alloc);
    let gaps = front_changes(&mut keeper, alloc, blocks, whole, &mut changes)?;
    Ok((gaps, changes))
}

// The blocks by their numbers, links and priorities; the number of gaps and the mark where every gap is wanted; and the
// numbers of the new link rows and heads.
#[derive(Drop)]
struct Row<'a> {
    blocks: &'a [(u8, &'a [u8], u64)],
    gaps: u64,
    mark: Option<bool>,
    links: &'a [u8],
    heads: &'a [(u8, u64)],
}

#[test]
fn the_front_of_a_first_group(rt: HostRuntime) -> Result<(), Fail> {
    let rows = [
        // nothing
        Row {
            blocks: &[],
            gaps: 0,
            mark: None,
            links: &[],
            heads: &[],
        },
        // a block with one link
        Row {
            blocks: &[(1, &[9], 0)],
            gaps: 1,
            mark: Some(true),
            links: &[9],
            heads: &[(1, 0)],
        },
        // with the block that it links to
        Row {
            blocks: &[(1, &[9], 0), (9, &[], 0)],
            gaps: 0,
            mark: None,
            links: &[9],
            heads: &[(1, 0)],
        },
        // two blocks that link to the same, one of them twice
        Row {
            blocks: &[(1, &[9, 9], 3), (2, &[9, 8], 5)],
            gaps: 2,
            mark: Some(true),
            links: &[9, 8],
            heads: &[(1, 3), (2, 5)],
        },
        // a block that links to itself is no head
        Row {
            blocks: &[(1, &[1], 1)],
            gaps: 0,
            mark: None,
            links: &[1],
            heads: &[],
        },
    ];
    let alloc = rt.alloc();
    for row in &rows {
        for whole in [true, false] {
            let (gaps, changes) = made(alloc, row.blocks, whole)?;
            assert_eq!(rt; gaps, row.gaps);
            assert_eq!(rt; changes.mark, if whole { row.mark } else { None });
            assert_eq!(rt; changes.marks.len(), row.blocks.len());
            assert_eq!(rt;
                changes.links.as_slice(),
                cids(alloc, row.links)?.as_slice()
            );
            assert_eq!(rt;
                changes.heads_in.as_slice(),
                heads(alloc, row.heads)?.as_slice()
            );
            assert!(rt; changes.heads_out.as_slice().is_empty());
        }
    }
    Ok(())
}

// What the blocks of these numbers, links and priorities change.
fn made(alloc: Global, rows: &[(u8, &[u8], u64)], whole: bool) -> Result<(u64, Changes), Fail> {
    let mut blocks = Vec::new(alloc);
    for (number, links, priority) in rows {
        blocks.push(block(alloc, *number, links, *priority)?)?;
    }
    changes_of(alloc, &blocks, whole)
}

fn cids(alloc: Global, numbers: &[u8]) -> Result<Vec<Cid>, AllocError> {
    let mut cids = Vec::new(alloc);
    for number in numbers {
        cids.push(Cid([*number; 32]))?;
    }
    Ok(cids)
}

fn heads(alloc: Global, rows: &[(u8, u64)]) -> Result<Vec<HeadRow>, AllocError> {
    let mut heads = Vec::new(alloc);
    for (number, height) in rows {
        heads.push(HeadRow {
            cid: Cid([*number; 32]),
            height: *height,
        })?;
    }
    Ok(heads)
}

#[test]
fn a_chain_backwards(rt: HostRuntime) -> Result<(), Fail> {
    let alloc = rt.alloc();
    let mut blocks = Vec::new(alloc);
    for number in (1..100u8).rev() {
        blocks.push(block(alloc, number, &[number - 1], number as u64)?)?;
    }
    blocks.push(block(alloc, 0, &[], 0)?)?;
    let (gaps, changes) = changes_of(alloc, &blocks, true)?;
    assert_eq!(rt; gaps, 0);
    assert_eq!(rt; changes.mark, None);
    assert_eq!(rt; changes.marks.len(), 100);
    assert_eq!(rt; changes.links.len(), 99);
    assert_eq!(rt;
        changes.heads_in.as_slice(),
        heads(alloc, &[(99, 99)])?.as_slice()
    );
    assert!(rt; changes.heads_out.as_slice().is_empty());
    Ok(())
}
