//! The feed of changes.
ghost use Rattle.std.specs.Prelude.{◌≡◌};

use crate::histories::history;
use mc_base::{Bytes, List};
use mc_feed::{Event, Feed, FeedRefused, Hook};
use mc_model::Block;
use std::alloc::{AllocError, Global};
use std::test::Fail;

/// A hook that keeps so many events, and refuses more.
#[derive(Drop)]
struct Events {
    events: List<Event>,
    most: usize,
}

impl Hook for Events {
    ghost taken = { λ hook. hook.events };

    fn told(&mut self, event: Event) -> Result<(), AllocError> {
        if self.events.len() >= self.most {
            return Err(AllocError);
        }
        match self.events.push(event) {
            Ok(()) => Ok(()),
            Err(_refused) => Err(AllocError),
        }
    }
}

/// How passes of blocks ended.
#[derive(Clone, Copy, Debug, PartialEq, Eq)]
struct Passed {
    length: u64,
    short: bool,
    spent: bool,
}

// The events that a hook takes of these blocks in this order, as bytes: the position, the last byte of the key, and the
// value or `-`.
fn told_of(
    alloc: Global,
    blocks: &[Block],
    order: &[usize],
    most: usize,
) -> Result<(Bytes, Passed), Fail> {
    let events = Events {
        events: List::new(alloc),
        most,
    };
    let mut feed = Feed::new(alloc, events);
    let mut short = false;
    let mut spent = false;
    for at in order {
        let Some(block) = blocks.get(*at) else {
            break;
        };
        match feed.pass(alloc, block) {
            Ok(()) => {}
            Err(FeedRefused::Memory) => short = true,
            Err(FeedRefused::Spent) => spent = true,
        }
    }
    let length = feed.length();
    let bytes = bytes_of(alloc, &feed.end())?;
    Ok((
        bytes,
        Passed {
            length,
            short,
            spent,
        },
    ))
}

fn bytes_of(alloc: Global, hook: &Events) -> Result<Bytes, Fail> {
    let mut bytes = Bytes::new(alloc);
    for event in hook.events.as_slice() {
        bytes.push((event.position % 256) as u8)?;
        bytes.push(*event.key.as_bytes().last().unwrap_or(&0))?;
        match &event.value {
            Some(value) => bytes.extend_from_slice(value.as_slice())?,
            None => bytes.push(b'-')?,
        }
    }
    Ok(bytes)
}

// Whether blocks in this order, to a hook that takes so many events, are told so.
fn are_told(
    alloc: Global,
    blocks: &[Block],
    order: &[usize],
    most: usize,
    wanted: (&[u8], u64, bool),
) -> Result<bool, Fail> {
    let (told, passed) = told_of(alloc, blocks, order, most)?;
    let (bytes, length, short) = wanted;
    let all = Passed {
        length,
        short,
        spent: short,
    };
    Ok(told.as_slice() == bytes && passed == all)
}

#[test]
fn changes_are_told_and_no_others(rt: HostRuntime) -> Result<(), Fail> {
    let alloc = rt.alloc();
    let blocks = history(alloc)?;
    let all = blocks.as_slice();
    let told = [0, b'a', 1, 1, b'a', 2, 2, b'b', 3, b'a', 1, 4, b'a', b'-'];
    assert!(rt; are_told(alloc, all, &[0, 1, 2, 3, 4], 100, (&told, 5, false))?);
    // a tombstone is there before its block, which then changes nothing
    let told = [0, b'a', 1, 3, b'a', b'-', 4, b'b'];
    assert!(rt; are_told(alloc, all, &[0, 3, 1, 4, 2], 100, (&told, 5, false))?);
    // a hook that refuses has some first events, and from then on nothing is told
    assert!(rt; are_told(alloc, all, &[0, 1, 2, 3, 4], 1, (&[0, b'a', 1], 1, true))?);
    Ok(())
}
