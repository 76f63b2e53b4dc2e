//! Values below a block.
ghost use Rattle.std.specs.Prelude.{◌≡◌, IfSome};

use crate::histories::history;
use mc_base::Cid;
use mc_model::Block;
use mc_view::View;
use std::alloc::Global;
use std::test::Fail;

// The block of this identifier among those from one place to another.
fn find<'a>(blocks: &'a [Block], from: usize, to: usize, cid: &Cid) -> Option<&'a Block>
    ensures { IfSome result (λ block. block.now.cid ≡ cid.now) }
{
    let mut at = 0usize;
    for block in blocks {
        if from <= at && at < to && block.cid == *cid {
            return Some(block);
        }
        at = at.saturating_add(1);
    }
    None
}

// The one byte of the value below an identifier, and how many of these blocks were visited, where what is next was
// skipped first, and is visited again.
fn below(
    alloc: Global,
    cid: &Cid,
    blocks: &[Block],
    from: usize,
    to: usize,
) -> Result<(Option<u8>, u64), Fail> {
    let mut view = View::new(alloc, *cid)?;
    if view.next().is_some() {
        view.skip();
    }
    view.again();
    for _ in 0..20 {
        let Some(next) = view.next() else {
            break;
        };
        match find(blocks, from, to, &next) {
            Some(block) => view.visit(alloc, block)?,
            None => view.skip(),
        }
    }
    let value = match view.get(alloc, "/a")? {
        Some(bytes) => bytes.as_slice().first().copied(),
        None => None,
    };
    Ok((value, view.visited()))
}

// From which block a view goes, which blocks are there, and the value and the number of blocks that it finds.
const ROWS: [(usize, usize, usize, Option<u8>, u64); 7] = [
    (0, 0, 5, Some(1), 1),
    (1, 0, 5, Some(2), 2),
    (2, 0, 5, Some(2), 3),
    (3, 0, 5, Some(1), 4),
    (4, 0, 5, None, 5),
    (1, 1, 5, Some(2), 1),
    (0, 1, 5, None, 0),
];

#[test]
fn each_block_has_the_values_that_its_writer_saw(rt: HostRuntime) -> Result<(), Fail> {
    let alloc = rt.alloc();
    let blocks = history(alloc)?;
    for (of, from, to, value, visited) in ROWS {
        let Some(block) = blocks.as_slice().get(of) else {
            return Err(Fail::new("no such block"));
        };
        let found = below(alloc, &block.cid, blocks.as_slice(), from, to)?;
        assert!(rt; found == (value, visited));
    }
    Ok(())
}
