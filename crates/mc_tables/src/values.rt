// The values of the keys, and the keys with a value in order: those that were put into order, and those that wait.
ghost use Rattle.std.specs.Prelude.{◌≡◌, ℕ, ◌<◌, ◌≤◌, ◌+◌, true, false, List, length, vec_len, vec_capacity};
ghost use Rattle.std.specs.Prelude.{IfOk, OnOk, IfSome, IfNone, is_some, cond, slice_get, Some, None};
ghost use Rattle.std.specs.Str.{bytes_eq};
ghost use Rattle.std.specs.List.{list_all};
ghost use Rattle.std.specs.HashMap.{spare};
ghost use Rattle.std.specs.Option.{option_and_then, option_copied};
ghost use Rattle.mc_base.specs.declared.cid.Cid.{Cid};
ghost use Rattle.mc_keep.specs.Changes.{ranked_value, value_after, values_after};
ghost use Rattle.mc_tables.specs.Chains.{rows_in};
ghost use Rattle.mc_tables.specs.Places.{last_in, value_in, texts_in, stands_at};
ghost use Rattle.mc_tables.specs.Values.{is_brought, row_in, row_with, AreThere, IsCovered};
ghost use Rattle.mc_tables.specs.Winners.{has_value_of};

use crate::elements::{Elements, Node};
use crate::order::drop_key;
use crate::places::{find_key, set_value, value_place};
use crate::rows::place_with;
use mc_base::Text;
use mc_graph::Spot;
use mc_keep::{RankedValue, ValueChange, ValueRow};
use std::alloc::{AllocError, Global};
use std::collections::BTreeSet;
use std::hash::BuildHasher;

/// The keys with a value, in order, and the places in the table of the keys of those that wait to be put there.
#[derive(Drop)]
pub(crate) struct Values {
    pub(crate) ordered: BTreeSet<String>,
    pub(crate) pending: Vec<usize>,
}

// Makes a change. It takes no memory.
pub(crate) fn put_value<S: BuildHasher + Drop>(
    values: &mut Values,
    elements: &mut Elements<S>,
    change: ValueChange,
)
    requires pending_room { vec_len values.old.pending < vec_capacity values.old.pending }
    requires brought { (cids : List Cid) →
        is_brought (rows_in cids elements.old.nodes.items (last_in elements.old.keys)) change ≡ true }
    requires covered { IsCovered (texts_in elements.old.keys) (value_in elements.old.keys)
        values.old.ordered values.old.pending.items }
    ensures rows { (key : List ℕ) → row_in elements.new.nodes.items (value_in elements.new.keys) key
        ≡ value_after key (row_in elements.old.nodes.items (value_in elements.old.keys) key) change }
    ensures others { (key : List ℕ) → bytes_eq change.key key ≡ false →
        value_in elements.new.keys key ≡ value_in elements.old.keys key }
    ensures nodes { elements.new.nodes ≡ elements.old.nodes }
    ensures lasts { (key : List ℕ) → last_in elements.new.keys key ≡ last_in elements.old.keys key }
    ensures there { AreThere elements.old.nodes.items (value_in elements.old.keys) →
        AreThere elements.new.nodes.items (value_in elements.new.keys) }
    ensures covered { IsCovered (texts_in elements.new.keys) (value_in elements.new.keys)
        values.new.ordered values.new.pending.items }
    ensures keys_spare { spare elements.old.keys ≤ spare elements.new.keys }
    ensures pending_spare { vec_len values.new.pending ≤ vec_len values.old.pending + 1 }
    ensures pending_capacity { vec_capacity values.old.pending ≤ vec_capacity values.new.pending }
{
    let ValueChange { key, value } = change;
    match value {
        Some(value) => set_row(values, elements, key.as_str(), value),
        None => remove_row(values, elements, key.as_str()),
    }
}

// Gives a key a value.
fn set_row<S: BuildHasher + Drop>(
    values: &mut Values,
    elements: &mut Elements<S>,
    key: &str,
    value: RankedValue,
)
    requires pending_room { vec_len values.old.pending < vec_capacity values.old.pending }
    requires brought { (cids : List Cid) → is_some (row_with (value.priority, value.value)
        (rows_in cids elements.old.nodes.items (last_in elements.old.keys) key.now)) ≡ true }
    requires covered { IsCovered (texts_in elements.old.keys) (value_in elements.old.keys)
        values.old.ordered values.old.pending.items }
    ensures rows { (other : List ℕ) → row_in elements.new.nodes.items (value_in elements.new.keys) other
        ≡ cond (bytes_eq key.now other) (Some (value.priority, value.value))
        (row_in elements.old.nodes.items (value_in elements.old.keys) other) }
    ensures others { (other : List ℕ) → bytes_eq key.now other ≡ false →
        value_in elements.new.keys other ≡ value_in elements.old.keys other }
    ensures nodes { elements.new.nodes ≡ elements.old.nodes }
    ensures lasts { (other : List ℕ) → last_in elements.new.keys other ≡ last_in elements.old.keys other }
    ensures there { AreThere elements.old.nodes.items (value_in elements.old.keys) →
        AreThere elements.new.nodes.items (value_in elements.new.keys) }
    ensures covered { IsCovered (texts_in elements.new.keys) (value_in elements.new.keys)
        values.new.ordered values.new.pending.items }
    ensures keys_spare { spare elements.old.keys ≤ spare elements.new.keys }
    ensures pending_spare { vec_len values.new.pending ≤ vec_len values.old.pending + 1 }
    ensures pending_capacity { vec_capacity values.old.pending ≤ vec_capacity values.new.pending }
{
    let (number, had) = place_row(elements, key, value);
    if had {
        return;
    }
    values.pending.push_reserved(number);
}

// Gives a key the place of the row with a value, and tells the place of the key, and whether it had a value.
fn place_row<S: BuildHasher + Drop>(
    elements: &mut Elements<S>,
    key: &str,
    value: RankedValue,
) -> (usize, bool)
    requires brought { (cids : List Cid) → is_some (row_with (value.priority, value.value)
        (rows_in cids elements.old.nodes.items (last_in elements.old.keys) key.now)) ≡ true }
    ensures before { result.1 ≡ is_some (value_in elements.old.keys key.now) }
    ensures place { stands_at (texts_in elements.new.keys) key.now result.0 ≡ true }
    ensures texts { texts_in elements.new.keys ≡ texts_in elements.old.keys }
    ensures rows { (other : List ℕ) → row_in elements.new.nodes.items (value_in elements.new.keys) other
        ≡ cond (bytes_eq key.now other) (Some (value.priority, value.value))
        (row_in elements.old.nodes.items (value_in elements.old.keys) other) }
    ensures has { (other : List ℕ) → is_some (value_in elements.new.keys other)
        ≡ cond (bytes_eq key.now other) true (is_some (value_in elements.old.keys other)) }
    ensures others { (other : List ℕ) → bytes_eq key.now other ≡ false →
        value_in elements.new.keys other ≡ value_in elements.old.keys other }
    ensures nodes { elements.new.nodes ≡ elements.old.nodes }
    ensures lasts { (other : List ℕ) → last_in elements.new.keys other ≡ last_in elements.old.keys other }
    ensures there { AreThere elements.old.nodes.items (value_in elements.old.keys) →
        AreThere elements.new.nodes.items (value_in elements.new.keys) }
    ensures keys_spare { spare elements.old.keys ≤ spare elements.new.keys }
{
    let bytes = value.value.as_slice();
    let Some((number, place)) = place_with(elements, key, value.priority, bytes) else {
        unreachable!();
    };
    let had = set_value(&mut elements.keys, number, Spot::at(place));
    (number, had)
}

// Takes the value of a key away, and the key out of the order.
fn remove_row<S: BuildHasher + Drop>(values: &mut Values, elements: &mut Elements<S>, key: &str)
    requires covered { IsCovered (texts_in elements.old.keys) (value_in elements.old.keys)
        values.old.ordered values.old.pending.items }
    ensures values { (other : List ℕ) → value_in elements.new.keys other
        ≡ cond (bytes_eq key.now other) None (value_in elements.old.keys other) }
    ensures texts { texts_in elements.new.keys ≡ texts_in elements.old.keys }
    ensures nodes { elements.new.nodes ≡ elements.old.nodes }
    ensures lasts { (other : List ℕ) → last_in elements.new.keys other ≡ last_in elements.old.keys other }
    ensures covered { IsCovered (texts_in elements.new.keys) (value_in elements.new.keys)
        values.new.ordered values.new.pending.items }
    ensures keys_spare { spare elements.old.keys ≤ spare elements.new.keys }
    ensures pending { values.new.pending ≡ values.old.pending }
{
    drop_key(&mut values.ordered, key);
    drop_value(elements, key);
}

// Takes the value of a key away.
fn drop_value<S: BuildHasher + Drop>(elements: &mut Elements<S>, key: &str)
    ensures values { (other : List ℕ) → value_in elements.new.keys other
        ≡ cond (bytes_eq key.now other) None (value_in elements.old.keys other) }
    ensures texts { texts_in elements.new.keys ≡ texts_in elements.old.keys }
    ensures nodes { elements.new.nodes ≡ elements.old.nodes }
    ensures lasts { (other : List ℕ) → last_in elements.new.keys other ≡ last_in elements.old.keys other }
    ensures keys_spare { spare elements.old.keys ≤ spare elements.new.keys }
{
    if let Some((number, _)) = find_key(&elements.keys, key) {
        let _had = set_value(&mut elements.keys, number, Spot::none());
    }
}

/// Makes the changes in their order, where their values are those of rows. It takes no memory.
pub(crate) fn put_values<S: BuildHasher + Drop>(
    values: &mut Values,
    elements: &mut Elements<S>,
    changes: Vec<ValueChange>,
)
    requires pending_room { vec_len values.old.pending + length changes.items ≤ vec_capacity values.old.pending }
    requires brought { (cids : List Cid) →
        list_all (is_brought (rows_in cids elements.old.nodes.items (last_in elements.old.keys))) changes.items ≡ true }
    requires covered { IsCovered (texts_in elements.old.keys) (value_in elements.old.keys)
        values.old.ordered values.old.pending.items }
    ensures rows { (key : List ℕ) → row_in elements.new.nodes.items (value_in elements.new.keys) key
        ≡ values_after key (row_in elements.old.nodes.items (value_in elements.old.keys) key) changes.items }
    ensures others { (key : List ℕ) → has_value_of changes.items key ≡ false →
        value_in elements.new.keys key ≡ value_in elements.old.keys key }
    ensures nodes { elements.new.nodes ≡ elements.old.nodes }
    ensures lasts { (key : List ℕ) → last_in elements.new.keys key ≡ last_in elements.old.keys key }
    ensures there { AreThere elements.old.nodes.items (value_in elements.old.keys) →
        AreThere elements.new.nodes.items (value_in elements.new.keys) }
    ensures covered { IsCovered (texts_in elements.new.keys) (value_in elements.new.keys)
        values.new.ordered values.new.pending.items }
    ensures keys_spare { spare elements.old.keys ≤ spare elements.new.keys }
    ensures pending_spare { vec_len values.new.pending ≤ vec_len values.old.pending + length changes.items }
    ensures pending_capacity { vec_capacity values.old.pending ≤ vec_capacity values.new.pending }
{
    for change in changes {
        put_value(values, elements, change);
    }
}

/// The node of the row with the value of a key, or none where it has no value. It takes no memory.
pub(crate) fn node_of<'a, S: BuildHasher + Drop>(
    elements: &'a Elements<S>,
    key: &str,
) -> Option<&'a Node>
    ensures { option_copied result
        ≡ option_and_then (slice_get elements.now.nodes.items) (value_in elements.now.keys key.now) }
{
    match value_place(&elements.keys, key) {
        Some(place) => elements.nodes.get(place),
        None => None,
    }
}

/// The value of a key, with its priority, or none.
pub(crate) fn value_of<S: BuildHasher + Drop>(
    alloc: Global,
    elements: &Elements<S>,
    key: &str,
) -> Result<Option<RankedValue>, AllocError>
    ensures { IfOk result (λ value. ranked_value value
        ≡ row_in elements.now.nodes.items (value_in elements.now.keys) key.now) }
{
    match node_of(elements, key) {
        Some(node) => Ok(Some(value_with(alloc, node)?)),
        None => Ok(None),
    }
}

fn value_with(alloc: Global, node: &Node) -> Result<RankedValue, AllocError>
    ensures { IfOk result (λ value. (value.priority ≡ node.now.priority) × (value.value ≡ node.now.value)) }
{
    Ok(RankedValue {
        priority: node.priority,
        value: node.value.to_bytes(alloc)?,
    })
}

/// The row of a key with its value, or none.
pub(crate) fn row_of_key<S: BuildHasher + Drop>(
    alloc: Global,
    elements: &Elements<S>,
    key: &str,
) -> Result<Option<ValueRow>, AllocError>
    ensures none { IfOk result (λ row. IfNone row
        (row_in elements.now.nodes.items (value_in elements.now.keys) key.now ≡ None)) }
    ensures row { IfOk result (λ row. IfSome row (λ r. (r.key ≡ key.now)
        × (row_in elements.now.nodes.items (value_in elements.now.keys) key.now ≡ Some (r.priority, r.value)))) }
{
    match value_of(alloc, elements, key)? {
        Some(found) => Ok(Some(row_with(alloc, key, found)?)),
        None => Ok(None),
    }
}

fn row_with(alloc: Global, key: &str, found: RankedValue) -> Result<ValueRow, AllocError>
    ensures { IfOk result (λ row.
        (row.key ≡ key.now) × (row.priority ≡ found.priority) × (row.value ≡ found.value)) }
{
    let RankedValue { priority, value } = found;
    Ok(ValueRow {
        key: Text::from_text(alloc, key)?,
        priority,
        value,
    })
}

/// Whether a key has a value. It takes no memory.
pub(crate) fn has_value<S: BuildHasher + Drop>(elements: &Elements<S>, key: &str) -> bool
    ensures { result ≡ is_some (row_in elements.now.nodes.items (value_in elements.now.keys) key.now) }
{
    node_of(elements, key).is_some()
}

/// Makes room for so many keys that wait to be put into order.
pub(crate) fn reserve_values(values: &mut Values, keys: usize) -> Result<(), AllocError>
    ensures room { OnOk result (vec_len values.new.pending + keys ≤ vec_capacity values.new.pending) }
    ensures ordered { values.new.ordered ≡ values.old.ordered }
    ensures pending { values.new.pending.items ≡ values.old.pending.items }
    ensures pending_len { vec_len values.new.pending ≡ vec_len values.old.pending }
    ensures pending_capacity { vec_capacity values.old.pending ≤ vec_capacity values.new.pending }
{
    values.pending.reserve(keys)
}
