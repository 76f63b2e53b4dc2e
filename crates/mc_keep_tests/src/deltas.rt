// What puts, deletes and batches make, of rows made by hand.
use crate::hand_made::{HandMade, cid_of};
use mc_base::{Bytes, Cid, List};
use mc_dagpb::write_node;
use mc_delta::write_delta;
use mc_keep::{HeadRow, KeepError, Keeper};
use mc_key::Key;
use mc_model::{Delta, id_of};
use mc_write::{Batch, WriteError, delete_deltas, next_priority, put_delta};
use std::alloc::{AllocError, Global};
use std::test::Fail;

fn key(text: &str) -> Result<Key<'_>, Fail> {
    match Key::read(text) {
        Ok(key) => Ok(key),
        Err(_) => Err(Fail::new("the text is no key")),
    }
}

// The block of a delta with these links.
fn block(alloc: Global, links: &[Cid], delta: &Delta) -> Result<Bytes, AllocError> {
    let payload = write_delta(alloc, delta)?;
    write_node(alloc, links, payload.as_slice())
}

#[test]
fn a_put_is_one_element(rt: HostRuntime) -> Result<(), Fail> {
    let want = [10, 11, 10, 7, 10, 2, 47, 97, 26, 1, 1, 24, 1];
    let delta = put_delta(rt.alloc(), &key("/a")?, &[1], 1)?;
    assert_eq!(rt; block(rt.alloc(), &[], &delta)?.as_slice(), want.as_slice());
    Ok(())
}

fn head(height: u64) -> HeadRow {
    HeadRow {
        cid: cid_of(0),
        height,
    }
}

#[test]
fn the_next_priority_is_one_more(rt: HostRuntime) {
    assert_eq!(rt; next_priority(&[]), Some(1));
    assert_eq!(rt; next_priority(&[head(4), head(9), head(2)]), Some(10));
    assert_eq!(rt; next_priority(&[head(u64::MAX)]), None);
}

// A keeper of a chain of so many puts of each key, of which the one with this number is hidden.
fn puts(alloc: Global, count: u64, hidden: u64) -> Result<HandMade, AllocError> {
    Ok(HandMade::of_puts(alloc, count, id_of(alloc, &cid_of(hidden))?))
}

fn deltas_of<K: Keeper + Drop>(
    keeper: K,
    alloc: Global,
    key: &Key<'_>,
) -> Result<List<Delta>, WriteError> {
    let mut keeper = keeper;
    delete_deltas(&mut keeper, alloc, key)
}

// Whether the deltas have no elements, so many tombstones, and priorities that ascend from this one.
fn are_cuts(deltas: &[Delta], priority: u64, tombs: &[usize]) -> bool {
    let mut next = priority;
    for (delta, count) in deltas.iter().zip(tombs) {
        if delta.elements.len() != 0 || delta.tombstones.len() != *count || delta.priority != next {
            return false;
        }
        next = next.saturating_add(1);
    }
    deltas.len() == tombs.len()
}

// The bytes of the first delta's block, which links to one head, or 0 where there is no delta.
fn first_len(alloc: Global, deltas: &[Delta]) -> Result<usize, AllocError> {
    match deltas.first() {
        Some(delta) => Ok(block(alloc, &[cid_of(0)], delta)?.len()),
        None => Ok(0),
    }
}

#[test]
fn deletes_are_cut(rt: HostRuntime) -> Result<(), Fail> {
    let alloc = rt.alloc();
    // the puts, the hidden one of them, the tombstones of each delta, and the bytes of the first block
    let rows: [(u64, u64, &[usize], usize); 8] = [
        (0, 0, &[], 0),
        (1, 0, &[1], 112),
        (1, 1, &[], 0),
        (2, 1, &[1], 112),
        (16383, 0, &[16383], 1_048_564),
        (16384, 0, &[16383, 1], 1_048_564),
        (16384, 7, &[16383], 1_048_564),
        (32767, 0, &[16383, 16383, 1], 1_048_564),
    ];
    for (count, hidden, tombs, len) in rows {
        let keeper = puts(alloc, count, hidden)?;
        let deltas = deltas_of(keeper, alloc, &key("/a")?)?;
        assert!(rt;
            are_cuts(deltas.as_slice(), count.saturating_add(1), tombs),
            "{count} {hidden}"
        );
        assert_eq!(rt;
            first_len(alloc, deltas.as_slice())?,
            len,
            "{count} {hidden}"
        );
    }
    Ok(())
}

// Puts and deletes a key in a batch: a put, a delete and a put, and then a delete where `again`.
fn changed_twice<K: Keeper + Drop>(
    keeper: K,
    alloc: Global,
    key: &Key<'_>,
    again: bool,
) -> Result<Delta, KeepError> {
    let mut keeper = keeper;
    let mut batch = Batch::new(alloc);
    batch.put(key, &[1])?;
    batch.delete(key, &mut keeper)?;
    batch.put(key, &[2])?;
    if again {
        batch.delete(key, &mut keeper)?;
    }
    Ok(batch.delta(alloc, 1)?)
}

#[test]
fn a_batch_puts_and_deletes(rt: HostRuntime) -> Result<(), Fail> {
    let alloc = rt.alloc();
    // the puts before, whether a delete comes last, and the elements and tombstones of the delta
    let rows = [
        (0, false, 1, 0),
        (0, true, 0, 0),
        (3, false, 1, 2),
        (3, true, 0, 2),
    ];
    for (count, again, elements, tombs) in rows {
        let delta = changed_twice(puts(alloc, count, 2)?, alloc, &key("/k")?, again)?;
        assert_eq!(rt; delta.elements.len(), elements, "{count} {again}");
        assert_eq!(rt; delta.tombstones.len(), tombs, "{count} {again}");
    }
    let delta = changed_twice(puts(alloc, 0, 0)?, alloc, &key("/k")?, false)?;
    let want = [10, 11, 10, 7, 10, 2, 47, 107, 26, 1, 2, 24, 1];
    assert_eq!(rt; block(alloc, &[], &delta)?.as_slice(), want.as_slice());
    Ok(())
}

fn put_in(batch: &mut Batch, text: &str, value: &[u8]) -> Result<(), Fail> {
    batch.put(&key(text)?, value)?;
    Ok(())
}

#[test]
fn a_batch_has_the_last_value_of_a_key(rt: HostRuntime) -> Result<(), Fail> {
    let alloc = rt.alloc();
    let mut batch = Batch::new(alloc);
    assert!(rt; batch.is_empty());
    put_in(&mut batch, "/k", &[1])?;
    assert!(rt; !batch.is_empty());
    put_in(&mut batch, "/k", &[2])?;
    let delta = batch.delta(alloc, 1)?;
    let want = [10, 11, 10, 7, 10, 2, 47, 107, 26, 1, 2, 24, 1];
    assert_eq!(rt; block(alloc, &[], &delta)?.as_slice(), want.as_slice());
    Ok(())
}

#[test]
fn four_long_values_are_1048630_bytes(rt: HostRuntime) -> Result<(), Fail> {
    let alloc = rt.alloc();
    let mut batch = Batch::new(alloc);
    let value = [0; 262_144];
    for text in ["/a", "/b", "/c", "/d"] {
        put_in(&mut batch, text, &value)?;
    }
    let delta = batch.delta(alloc, 1)?;
    assert_eq!(rt; block(alloc, &[], &delta)?.len(), 1_048_630);
    Ok(())
}
