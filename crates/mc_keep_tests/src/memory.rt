// The keeper in memory: without blocks, with faults that are planned, and with rows of a key that are hidden.
use crate::blocks::{no_delta, take_up};
use crate::trials::{Trial, passes, passes_over};
use mc_base::{Bytes, Cid, Counted, List, Text};
use mc_block::write_block;
use mc_keep::{ElementRow, KeepError, Keeper};
use mc_keep_mem::FaultPlan;
use mc_model::{Element, Tomb, id_of};
use std::alloc::{AllocError, Global};
use std::sync::Wait;
use std::test::Fail;

const CID: Cid = Cid([7; 32]);

// What is tried here on one keeper.
#[derive(Clone, Copy)]
enum Memory<'a> {
    LeaveOut {
        later: bool,
        hidden: &'a [u8],
        live: &'a [u8],
    },
    HidePair,
    HaveNothing,
    FailAt {
        number: usize,
    },
    FailAtDesks,
}

impl<'a> Trial for Memory<'a> {
    fn passes<K: Keeper + Drop, W: Wait>(
        self,
        alloc: Global,
        keeper: K,
        wait: &W,
    ) -> Result<bool, Fail>
    where
        K::Desk: Drop,
    {
        let answer = match self {
            Memory::LeaveOut {
                later,
                hidden,
                live,
            } => hidden_are_left_out(keeper, alloc, later, hidden, live),
            Memory::HidePair => hides_its_pair(keeper, alloc),
            Memory::HaveNothing => is_empty(keeper, alloc),
            Memory::FailAt { number } => Ok(fails_at(keeper, alloc, number)),
            Memory::FailAtDesks => desks_fail_as_planned(wait, keeper, alloc),
        };
        Ok(answer?)
    }
}

// The bytes of a block of priority 1 that sets a key to one byte.
fn element(alloc: Global, key: &str, value: u8) -> Result<Bytes, AllocError> {
    let mut delta = no_delta(alloc, 1);
    delta.elements.push(Element {
        key: Text::from_text(alloc, key)?,
        value: Bytes::from_slice(alloc, &[value])?,
    })?;
    Ok(write_block(alloc, &[], &delta)?.bytes)
}

// Those of a block of priority 2 that hides a key under an id.
fn tombstone(alloc: Global, key: &str, id: &str) -> Result<Bytes, AllocError> {
    let mut delta = no_delta(alloc, 2);
    delta.tombstones.push(Tomb {
        key: Text::from_text(alloc, key)?,
        id: Text::from_text(alloc, id)?,
    })?;
    Ok(write_block(alloc, &[], &delta)?.bytes)
}

// The identifier of the block that sets a key to one byte.
fn cid_of(alloc: Global, key: &str, value: u8) -> Result<Cid, AllocError> {
    Ok(Cid::of(element(alloc, key, value)?.as_slice()))
}

// Takes up blocks that set keys to one byte each, in this order.
fn put_rows<K: Keeper>(
    keeper: &mut K,
    alloc: Global,
    rows: &[(&str, u8)],
) -> Result<(), KeepError> {
    for (key, value) in rows {
        take_up(keeper, alloc, element(alloc, key, *value)?)?;
    }
    Ok(())
}

// Takes up blocks that hide a key in the blocks that set it to these bytes.
fn put_tombs<K: Keeper>(
    keeper: &mut K,
    alloc: Global,
    key: &str,
    values: &[u8],
) -> Result<(), KeepError> {
    for value in values {
        let id = id_of(alloc, &cid_of(alloc, key, *value)?)?;
        take_up(keeper, alloc, tombstone(alloc, key, id.as_str())?)?;
    }
    Ok(())
}

// Whether the live rows of a key are those of the blocks that set it to these bytes, ascending.
fn are_live<K: Keeper>(
    keeper: &mut K,
    alloc: Global,
    key: &str,
    values: &[u8],
) -> Result<bool, KeepError> {
    let rows = keeper.live_elements(alloc, key)?;
    if rows.len() != values.len() || !rows.as_slice().is_sorted() {
        return Ok(false);
    }
    for value in values {
        if !has_row(rows.as_slice(), key, &cid_of(alloc, key, *value)?) {
            return Ok(false);
        }
    }
    Ok(true)
}

fn has_row(rows: &[ElementRow], key: &str, cid: &Cid) -> bool {
    for row in rows {
        if row.cid == *cid && row.key.as_str() == key {
            return true;
        }
    }
    false
}

// Whether just these rows of one key are live and both rows of the other one, at each reading.
fn are_left_out<K: Keeper>(keeper: &mut K, alloc: Global, live: &[u8]) -> Result<bool, KeepError> {
    Ok(
        are_live(keeper, alloc, "/b", &[2, 3])?
            && are_live(keeper, alloc, "/a", live)?
            && are_live(keeper, alloc, "/b", &[2, 3])?
            && are_live(keeper, alloc, "/a", live)?,
    )
}

// Whether the rows of a key that are hidden are left out, and no other row of the key or of another one: where the
// tombstones came before the rows, and, where `later`, after they were read.
fn hidden_are_left_out<K: Keeper + Drop>(
    keeper: K,
    alloc: Global,
    later: bool,
    hidden: &[u8],
    live: &[u8],
) -> Result<bool, KeepError> {
    let mut keeper = keeper;
    let rows = [
        ("/b", 2),
        ("/a", 5),
        ("/a", 2),
        ("/b", 3),
        ("/a", 3),
        ("/a", 1),
    ];
    if !later {
        put_tombs(&mut keeper, alloc, "/a", hidden)?;
    }
    put_rows(&mut keeper, alloc, &rows)?;
    if later {
        if !are_left_out(&mut keeper, alloc, &[1, 2, 3, 5])? {
            return Ok(false);
        }
        put_tombs(&mut keeper, alloc, "/a", hidden)?;
    }
    are_left_out(&mut keeper, alloc, live)
}

#[test]
fn live_rows_of_a_key(rt: HostRuntime) -> Result<(), Fail> {
    let alloc = rt.alloc();
    // the hidden blocks, and the live ones
    let cases: [(&[u8], &[u8]); 6] = [
        (&[], &[1, 2, 3, 5]),
        (&[1], &[2, 3, 5]),
        (&[5], &[1, 2, 3]),
        (&[2, 3], &[1, 5]),
        (&[1, 3, 5], &[2]),
        (&[1, 2, 3, 5], &[]),
    ];
    for (hidden, live) in cases {
        for later in [false, true] {
            let trial = Memory::LeaveOut {
                later,
                hidden,
                live,
            };
            assert!(rt; passes(trial, alloc, &rt)?);
        }
    }
    Ok(())
}

// Whether a tombstone hides its key under its id, and nothing with the two the other way round.
fn hides_its_pair<K: Keeper + Drop>(keeper: K, alloc: Global) -> Result<bool, KeepError> {
    let mut keeper = keeper;
    take_up(&mut keeper, alloc, tombstone(alloc, "/a", "/X")?)?;
    Ok(keeper.hidden("/a", "/X")? && !keeper.hidden("/X", "/a")?)
}

#[test]
fn tombstones(rt: HostRuntime) -> Result<(), Fail> {
    assert!(rt; passes(Memory::HidePair, rt.alloc(), &rt)?);
    Ok(())
}

/// A list of this number.
pub fn numbers(alloc: Global, number: u64) -> Result<List<u64>, AllocError> {
    let mut numbers = List::new(alloc);
    numbers.push(number)?;
    Ok(numbers)
}

/// A plan by which this read fails, and the second read of the second desk.
pub fn read_plan(alloc: Global, read: u64) -> Result<FaultPlan, AllocError> {
    let mut plan = FaultPlan::nothing(alloc);
    plan.reads = numbers(alloc, read)?;
    plan.desks.push(List::new(alloc))?;
    plan.desks.push(numbers(alloc, 2)?)?;
    Ok(plan)
}

// Whether the keeper has no block, and then no row, and then no value.
fn has_no_block<K: Keeper>(keeper: &mut K, alloc: Global) -> Result<bool, KeepError> {
    Ok(
        keeper.block(alloc, &CID)?.is_none()
            && !keeper.stored(&CID)?
            && keeper.position(&CID)?.is_none()
            && keeper.at(0)?.is_none(),
    )
}

fn has_no_row<K: Keeper>(keeper: &mut K, alloc: Global) -> Result<bool, KeepError> {
    Ok(
        !keeper.linked(&CID)?
            && keeper.heads(alloc)?.as_slice().is_empty()
            && keeper.live_elements(alloc, "/a")?.as_slice().is_empty()
            && !keeper.hidden("/a", "/X")?,
    )
}

fn has_no_value<K: Keeper>(keeper: &mut K, alloc: Global) -> Result<bool, KeepError> {
    Ok(
        keeper.value(alloc, "/a")?.is_none()
            && !keeper.has("/a")?
            && keeper.winner("/a")?.is_none()
            && keeper.values_from(alloc, "", true, 1)?.len() == 0,
    )
}

// Whether its numbers are all 0.
fn has_zeros<K: Keeper>(keeper: &mut K) -> Result<bool, KeepError> {
    keeper.reserve(100)?;
    let summary = keeper.summary()?;
    Ok(
        summary.processed == 0
            && summary.stored == 0
            && summary.gaps == 0
            && !summary.mark
            && keeper.faults() == 0
            && keeper.own_faults() == 0,
    )
}

fn is_empty<K: Keeper + Drop>(keeper: K, alloc: Global) -> Result<bool, KeepError> {
    let mut keeper = keeper;
    Ok(
        has_no_block(&mut keeper, alloc)?
            && has_no_row(&mut keeper, alloc)?
            && has_no_value(&mut keeper, alloc)?
            && has_zeros(&mut keeper)?,
    )
}

#[test]
fn an_empty_keeper_has_nothing(rt: HostRuntime) -> Result<(), Fail> {
    assert!(rt; passes(Memory::HaveNothing, rt.alloc(), &rt)?);
    Ok(())
}

// The number of the one call of eighteen that fails and is counted, in an order of the calls in which each comes once.
fn failing_read<K: Keeper>(keeper: &mut K, alloc: Global) -> usize {
    let failed = [
        keeper.summary().is_err(),
        keeper.block(alloc, &CID).is_err(),
        keeper.stored(&CID).is_err(),
        keeper.position(&CID).is_err(),
        keeper.at(0).is_err(),
        keeper.linked(&CID).is_err(),
        keeper.heads(alloc).is_err(),
        keeper.live_elements(alloc, "/a").is_err(),
        keeper.hidden("/a", "/X").is_err(),
        keeper.hides(alloc, "/a", &CID).is_err(),
        keeper.value(alloc, "/a").is_err(),
        keeper.has("/a").is_err(),
        keeper.values_from(alloc, "", true, 1).is_err(),
        keeper.key_from(alloc, "", true, 0).is_err(),
        keeper.winner("/a").is_err(),
        keeper.layout(alloc).is_err(),
        keeper.stored(&CID).is_err(),
        keeper.at(0).is_err(),
    ];
    only_true(&failed)
}

// The number of the one that is true, counted from 1, and 0 where there is none or are more.
fn only_true(flags: &[bool]) -> usize {
    let mut found = 0;
    for (index, flag) in flags.iter().enumerate() {
        if *flag {
            if found > 0 {
                return 0;
            }
            found = index.saturating_add(1);
        }
    }
    found
}

fn fails_at<K: Keeper + Drop>(keeper: K, alloc: Global, number: usize) -> bool {
    let mut keeper = keeper;
    failing_read(&mut keeper, alloc) == number && keeper.faults() == 1 && keeper.own_faults() == 1
}

#[test]
fn a_planned_read_fails_alone(rt: HostRuntime) -> Result<(), Fail> {
    let alloc = rt.alloc();
    for number in 1..19u8 {
        let plan = read_plan(alloc, u64::from(number))?;
        let trial = Memory::FailAt {
            number: usize::from(number),
        };
        assert!(rt; passes_over(trial, alloc, plan, &rt)?);
    }
    Ok(())
}

// The number of the one read of three through a new desk that fails and is counted at the desk.
fn failing_desk_read<W: Wait, K: Keeper>(
    rt: &W,
    keeper: &mut K,
    alloc: Global,
) -> Result<usize, KeepError>
where
    K::Desk: Drop,
{
    let mut desk = keeper.desk(alloc)?;
    let failed = [
        keeper.peer_block(alloc, &mut desk, &CID, rt).is_err(),
        keeper.peer_block(alloc, &mut desk, &CID, rt).is_err(),
        keeper.peer_block(alloc, &mut desk, &CID, rt).is_err(),
    ];
    let number = only_true(&failed);
    if desk.faults() != u64::from(number > 0) {
        return Err(KeepError::Failed);
    }
    Ok(number)
}

// Whether just the second read of the second desk fails, and its failure isn't one of the keeper.
fn desks_fail_as_planned<W: Wait, K: Keeper + Drop>(
    rt: &W,
    keeper: K,
    alloc: Global,
) -> Result<bool, KeepError>
where
    K::Desk: Drop,
{
    let mut keeper = keeper;
    Ok(
        failing_desk_read(rt, &mut keeper, alloc)? == 0
            && failing_desk_read(rt, &mut keeper, alloc)? == 2
            && failing_desk_read(rt, &mut keeper, alloc)? == 0
            && keeper.faults() == 0,
    )
}

#[test]
fn a_planned_read_of_a_desk_fails_alone(rt: HostRuntime) -> Result<(), Fail> {
    let alloc = rt.alloc();
    let plan = read_plan(alloc, 100)?;
    assert!(rt; passes_over(Memory::FailAtDesks, alloc, plan, &rt)?);
    Ok(())
}
