// Groups of three blocks, merged over an empty keeper.
ghost use Rattle.std.specs.Prelude.{IfSome};
ghost use Rattle.mc_keep.specs.New.{AreNew};

use crate::groups::are_once;
use crate::orders::ORDERS;
use crate::trials::{ask_two, empty};
use mc_base::{Bytes, Cid, List, Text};
use mc_keep::{Changes, KeepError, Keeper};
use mc_model::{Block, Delta, Element, Tomb, id_of};
use mc_rows::merge;
use std::alloc::Global;
use std::test::Fail;

// A key with the one byte of its value.
#[derive(Clone, Copy)]
struct Put {
    key: &'static str,
    value: u8,
}

// A key with the byte of which the digest of the named block is made.
#[derive(Clone, Copy)]
struct Delete {
    key: &'static str,
    digest: u8,
}

fn block(
    alloc: Global,
    digest: u8,
    priority: u64,
    puts: &[Put],
    deletes: &[Delete],
) -> Result<Block, Fail> {
    let mut elements = List::new(alloc);
    for put in puts {
        elements.push(element(alloc, *put)?)?;
    }
    let mut tombstones = List::new(alloc);
    for delete in deletes {
        tombstones.push(tomb(alloc, *delete)?)?;
    }
    Ok(Block {
        cid: Cid([digest; 32]),
        links: List::new(alloc),
        delta: Delta {
            elements,
            tombstones,
            priority,
        },
    })
}

fn element(alloc: Global, put: Put) -> Result<Element, Fail> {
    Ok(Element {
        key: Text::from_text(alloc, put.key)?,
        value: Bytes::from_slice(alloc, &[put.value])?,
    })
}

fn tomb(alloc: Global, delete: Delete) -> Result<Tomb, Fail> {
    Ok(Tomb {
        key: Text::from_text(alloc, delete.key)?,
        id: id_of(alloc, &Cid([delete.digest; 32]))?,
    })
}

fn merged(alloc: Global, blocks: &[Block]) -> Result<Changes, Fail> {
    if !are_once(blocks) {
        return Err("a block stands twice".into());
    }
    let keeper = empty(alloc)?;
    Ok(merged_in(keeper, alloc, blocks)?)
}

fn merged_in<K: Keeper + Drop>(
    keeper: K,
    alloc: Global,
    blocks: &[Block],
) -> Result<Changes, KeepError>
    requires new { IfSome (K.told keeper) (λ kept. AreNew kept blocks.now) }
{
    let mut keeper = keeper;
    ask_two(&mut keeper, alloc)?;
    let mut changes = Changes::new(alloc);
    merge(&mut keeper, alloc, blocks, &mut changes)?;
    Ok(changes)
}

// The new value of a key with its priority.
fn new_value<'a>(changes: &'a Changes, key: &str) -> Option<(u64, &'a [u8])> {
    for change in changes.values.as_slice() {
        if change.key.as_str() == key {
            return match &change.value {
                Some(value) => Some((value.priority, value.value.as_slice())),
                None => None,
            };
        }
    }
    None
}

fn example(alloc: Global, which: u8) -> Result<Block, Fail> {
    let low = Put {
        key: "/k",
        value: 1,
    };
    let high = Put {
        key: "/k",
        value: 2,
    };
    let delete = Delete {
        key: "/k",
        digest: 2,
    };
    match which {
        0 => block(alloc, 1, 1, &[low], &[]),
        1 => block(alloc, 2, 1, &[high], &[]),
        2 => block(alloc, 3, 2, &[], &[delete]),
        _ => block(alloc, 4, 1, &[], &[]),
    }
}

fn examples(alloc: Global, order: [u8; 3]) -> Result<Vec<Block>, Fail> {
    let mut blocks = Vec::new(alloc);
    for which in order {
        blocks.push(example(alloc, which)?)?;
    }
    Ok(blocks)
}

// The new value of the key `/k` of the examples, and how many rows there are.
fn has_rows(
    alloc: Global,
    order: [u8; 3],
    value: u8,
    elements: usize,
    tombs: usize,
) -> Result<bool, Fail> {
    let blocks = examples(alloc, order)?;
    let changes = merged(alloc, blocks.as_slice())?;
    let rows = changes.elements.len() == elements && changes.tombs.len() == tombs;
    Ok(rows && changes.values.len() == 1 && is_value(&changes, "/k", value))
}

// Whether the new value of a key is this byte, with priority 1.
fn is_value(changes: &Changes, key: &str, value: u8) -> bool {
    match new_value(changes, key) {
        Some((1, &[byte])) => byte == value,
        _ => false,
    }
}

#[test]
fn a_tombstone_hides_in_every_order(rt: HostRuntime) -> Result<(), Fail> {
    let alloc = rt.alloc();
    assert!(rt; has_rows(alloc, [0, 1, 3], 2, 2, 0)?);
    for order in ORDERS {
        assert!(rt; has_rows(alloc, order, 1, 2, 1)?);
    }
    Ok(())
}

// The plain program of the value rule, by a look at all blocks for each element.
fn plain_value<'a>(
    alloc: Global,
    blocks: &'a [Block],
    key: &str,
) -> Result<Option<(u64, &'a [u8])>, Fail> {
    let mut best: Option<(u64, &'a [u8])> = None;
    for block in blocks {
        let id = id_of(alloc, &block.cid)?;
        if !is_deleted(blocks, key, id.as_str()) {
            for element in block.delta.elements.as_slice() {
                if element.key.as_str() == key {
                    best = better(best, (block.delta.priority, element.value.as_slice()));
                }
            }
        }
    }
    Ok(best)
}

fn better<'a>(best: Option<(u64, &'a [u8])>, next: (u64, &'a [u8])) -> Option<(u64, &'a [u8])> {
    match best {
        Some(best) if best >= next => Some(best),
        _ => Some(next),
    }
}

fn is_deleted(blocks: &[Block], key: &str, id: &str) -> bool {
    for block in blocks {
        for tomb in block.delta.tombstones.as_slice() {
            if tomb.key.as_str() == key && tomb.id.as_str() == id {
                return true;
            }
        }
    }
    false
}

// Numbers that look random.
#[derive(Drop)]
struct Dice {
    state: u64,
}

impl Dice {
    fn roll(&mut self, sides: u8) -> u8 {
        self.state = self
            .state
            .wrapping_mul(6364136223846793005)
            .wrapping_add(1442695040888963407);
        let high = u8::try_from(self.state >> 56).unwrap_or(0);
        high.checked_rem(sides).unwrap_or(0)
    }

    fn key(&mut self) -> &'static str {
        if self.roll(2) == 0 { "/a" } else { "/b" }
    }
}

// A block of a random group. A fourth digest names no block of the group.
fn random_block(alloc: Global, seed: u64, which: u8) -> Result<Block, Fail> {
    let mut dice = Dice {
        state: seed.wrapping_mul(3).wrapping_add(u64::from(which)),
    };
    dice.roll(2);
    let priority = u64::from(dice.roll(2)).saturating_add(1);
    let mut puts = Vec::new(alloc);
    for _ in 0..dice.roll(4) {
        puts.push(Put {
            key: dice.key(),
            value: dice.roll(3),
        })?;
    }
    let mut deletes = Vec::new(alloc);
    for _ in 0..dice.roll(3) {
        deletes.push(Delete {
            key: dice.key(),
            digest: dice.roll(4).saturating_add(1),
        })?;
    }
    block(
        alloc,
        which.saturating_add(1),
        priority,
        puts.as_slice(),
        deletes.as_slice(),
    )
}

fn random_blocks(alloc: Global, seed: u64, order: [u8; 3]) -> Result<Vec<Block>, Fail> {
    let mut blocks = Vec::new(alloc);
    for which in order {
        blocks.push(random_block(alloc, seed, which)?)?;
    }
    Ok(blocks)
}

fn follows_the_rule(alloc: Global, seed: u64, order: [u8; 3]) -> Result<bool, Fail> {
    let blocks = random_blocks(alloc, seed, order)?;
    let changes = merged(alloc, blocks.as_slice())?;
    let a = new_value(&changes, "/a") == plain_value(alloc, blocks.as_slice(), "/a")?;
    let b = new_value(&changes, "/b") == plain_value(alloc, blocks.as_slice(), "/b")?;
    Ok(a && b)
}

#[test]
fn random_groups_follow_the_value_rule(rt: HostRuntime) -> Result<(), Fail> {
    let alloc = rt.alloc();
    for seed in 0..50 {
        for order in ORDERS {
            assert!(rt; follows_the_rule(alloc, seed, order)?);
        }
    }
    Ok(())
}
