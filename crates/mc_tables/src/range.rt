// The next keys with a value, along the order of the keys: their rows, and the one at a place.
ghost use Rattle.std.specs.Prelude.{◌≡◌, ◌≤◌, ◌<◌, ◌++◌, true, false, ℕ, List, Option, length, slice_get, is_some};
ghost use Rattle.std.specs.Prelude.{IfOk, OnOk};
ghost use Rattle.std.specs.BTreeSet.{contains_text, IsOrdered};
ghost use Rattle.std.specs.Option.{option_copied};
ghost use Rattle.std.specs.String.{string_cmp};
ghost use Rattle.mc_model.specs.Rank.{Ranked};
ghost use Rattle.mc_keep.specs.Next.{AreNextOf, IsKeyAtOf};
ghost use Rattle.mc_tables.specs.Listed.{keys_past, row_listed};
ghost use Rattle.mc_tables.specs.Places.{value_in};
ghost use Rattle.mc_tables.specs.Values.{row_in};

use crate::elements::Elements;
use crate::values::row_of_key;
use mc_base::{List as Rows, Text};
use mc_keep::ValueRow;
use std::alloc::{AllocError, Global};
use std::collections::BTreeSet;
use std::collections::btree_set::Range;
use std::hash::BuildHasher;
use std::ops::Bound;

/// The rows of the next keys past a bound, or from it on where `inclusive`, that have a value, at most so many. Each
/// key with a value is in order.
pub(crate) fn rows_from<S: BuildHasher + Drop>(
    alloc: Global,
    ordered: &BTreeSet<String>,
    elements: &Elements<S>,
    bound: &str,
    inclusive: bool,
    most: u64,
) -> Result<Rows<ValueRow>, AllocError>
    requires covered { (key : List ℕ) → is_some (value_in elements.now.keys key) ≡ true →
        contains_text ordered.now key ≡ true }
    ensures { IfOk result (λ rows. AreNextOf
        (row_in elements.now.nodes.items (value_in elements.now.keys)) bound.now inclusive most rows) }
{
    let keys = range_past(alloc, ordered, bound, inclusive)?;
    let mut rows = Rows::new(alloc);
    for key in keys {
        if is_full(&rows, most) {
            return Ok(rows);
        }
        add_row(alloc, &mut rows, elements, key.as_str())?;
    }
    Ok(rows)
}

// Whether there are so many rows.
fn is_full(rows: &Rows<ValueRow>, most: u64) -> bool
    ensures full { result ≡ true → most ≤ length rows.now }
    ensures room { result ≡ false → length rows.now < most }
{
    rows.as_slice().len() as u64 >= most
}

// Adds the row of a key, where it has a value.
fn add_row<S: BuildHasher + Drop>(
    alloc: Global,
    rows: &mut Rows<ValueRow>,
    elements: &Elements<S>,
    key: &str,
) -> Result<(), AllocError>
    ensures { OnOk result (rows.new ≡ rows.old ++ row_listed key.now
        (row_in elements.now.nodes.items (value_in elements.now.keys) key.now)) }
{
    if let Some(row) = row_of_key(alloc, elements, key)? {
        rows.push(row)?;
    }
    Ok(())
}

/// The key at a place, from 0, among the next keys past a bound, or from it on where `inclusive`, or none where there
/// are not so many. The keys in order are to be those with a value: none is looked up on the way.
pub(crate) fn key_at(
    alloc: Global,
    ordered: &BTreeSet<String>,
    bound: &str,
    inclusive: bool,
    place: u64,
) -> Result<Option<Text>, AllocError>
    ensures { (value : List ℕ → Option Ranked) →
        ((key : List ℕ) → is_some (value key) ≡ contains_text ordered.now key) →
        IfOk result (λ key. IsKeyAtOf value bound.now inclusive place key) }
{
    let keys = range_past(alloc, ordered, bound, inclusive)?;
    match nth_key(keys, place) {
        Some(key) => Ok(Some(Text::from_text(alloc, key.as_str())?)),
        None => Ok(None),
    }
}

// The key at a place of those in a range.
fn nth_key<'a>(keys: Range<'a, String>, place: u64) -> Option<&'a String>
    ensures { option_copied result ≡ slice_get keys.entry place }
{
    let mut left = place;
    for key in keys {
        if left == 0 {
            return Some(key);
        }
        left -= 1;
    }
    None
}

// The keys past a bound, or from it on where `inclusive`.
fn range_past<'a>(
    alloc: Global,
    ordered: &'a BTreeSet<String>,
    bound: &str,
    inclusive: bool,
) -> Result<Range<'a, String>, AllocError>
    ensures keys { IfOk result (λ keys. keys ≡ keys_past bound.now inclusive ordered.now) }
    ensures sorted { OnOk result (IsOrdered string_cmp ordered.now) }
{
    let from = String::from_str(alloc, bound)?;
    if inclusive {
        return Ok(ordered.range((Bound::Included(&from), Bound::Unbounded)));
    }
    Ok(ordered.range((Bound::Excluded(&from), Bound::Unbounded)))
}
