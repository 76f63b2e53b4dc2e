//! Blocks that follow one another.
use mc_base::{Bytes, Cid, List, Text};
use mc_block::{read_block, write_block};
use mc_model::{Block, Delta, Element, Tomb, id_of};
use std::alloc::Global;
use std::test::Fail;

/// A put, a put over it, a put of another key without bytes, a delete that hides the second, and one that hides the first
/// and the second.
pub(crate) fn history(alloc: Global) -> Result<Vec<Block>, Fail> {
    let mut blocks = Vec::with_capacity(alloc, 5)?;
    let first = put(alloc, None, "/a", &[1], 1)?;
    let second = put(alloc, Some(&first), "/a", &[2], 2)?;
    let third = put(alloc, Some(&second), "/b", &[], 3)?;
    let fourth = hide(alloc, &third, "/a", &[&second], 4)?;
    let fifth = hide(alloc, &fourth, "/a", &[&first, &second], 5)?;
    blocks.push_reserved(first);
    blocks.push_reserved(second);
    blocks.push_reserved(third);
    blocks.push_reserved(fourth);
    blocks.push_reserved(fifth);
    Ok(blocks)
}

// A block that puts a value, with a link to the block before it.
fn put(
    alloc: Global,
    before: Option<&Block>,
    key: &str,
    value: &[u8],
    priority: u64,
) -> Result<Block, Fail> {
    let mut elements = List::new(alloc);
    elements.push(Element {
        key: Text::from_text(alloc, key)?,
        value: Bytes::from_slice(alloc, value)?,
    })?;
    made(
        alloc,
        before,
        Delta {
            elements,
            tombstones: List::new(alloc),
            priority,
        },
    )
}

// A block that hides the elements of a key in other blocks, with a link to the block before it.
fn hide(
    alloc: Global,
    before: &Block,
    key: &str,
    of: &[&Block],
    priority: u64,
) -> Result<Block, Fail> {
    let mut tombstones = List::new(alloc);
    for block in of {
        tombstones.push(Tomb {
            key: Text::from_text(alloc, key)?,
            id: id_of(alloc, &block.cid)?,
        })?;
    }
    made(
        alloc,
        Some(before),
        Delta {
            elements: List::new(alloc),
            tombstones,
            priority,
        },
    )
}

fn made(alloc: Global, before: Option<&Block>, delta: Delta) -> Result<Block, Fail> {
    let made = match before {
        Some(block) => write_block(alloc, &[block.cid], &delta)?,
        None => write_block(alloc, &[], &delta)?,
    };
    match read_block(alloc, &made.cid, made.bytes.as_slice()) {
        Ok(block) => Ok(block),
        Err(_) => Err(Fail::new("a made block was not read")),
    }
}
