// The pairs of a query, along the order of the keys.
ghost use Rattle.std.specs.Prelude.{◌≡◌, ◌≤◌, ◌<◌, ◌++◌, ◌∷◌, [], true, false, map, length, IfOk, OnOk};
ghost use Rattle.std.specs.BTreeMap.{IsOrdered};
ghost use Rattle.std.specs.String.{string_bytes, string_cmp};
ghost use Rattle.mc_query.specs.Places as places;
ghost use Rattle.mc_query.specs.Places.{pair_of};
ghost use Rattle.mc_face.specs.Pairs.{pairs_of};
ghost use Rattle.mc_face.specs.Rows.{rows_of};

use mc_base::{Bytes, List, Text};
use mc_key::under;
use mc_query::Pair;
use std::alloc::{AllocError, Global};
use std::collections::BTreeMap;
use std::ops::Bound;

/// The pairs whose keys a prefix selects, in the order of the keys: those after the first `skip`, and at most `count`.
/// It begins where such a key may stand first, and ends at the first one that isn't selected.
pub(crate) fn rows(
    alloc: Global,
    values: &BTreeMap<String, Bytes>,
    prefix: &str,
    skip: u64,
    count: u64,
) -> Result<List<Pair>, AllocError>
    ensures rows { IfOk result (λ rows. map pair_of rows
        ≡ rows_of (pairs_of values.now.entries) prefix.now skip count) }
    ensures ordered { OnOk result (IsOrdered string_cmp values.now) }
{
    let start = start_of(alloc, prefix)?;
    let mut rows = List::new(alloc);
    let mut left = skip;
    for (key, value) in values.range((Bound::Included(&start), Bound::Unbounded)) {
        if is_full(&rows, count) {
            return Ok(rows);
        }
        let key = key.as_str();
        if !under(prefix, key) {
            return Ok(rows);
        }
        if left > 0 {
            left -= 1;
            continue;
        }
        push_pair(alloc, &mut rows, key, value)?;
    }
    Ok(rows)
}

// Whether there are so many pairs.
fn is_full(rows: &List<Pair>, count: u64) -> bool
    ensures full { result ≡ true → count ≤ length rows.now }
    ensures room { result ≡ false → length rows.now < count }
{
    rows.as_slice().len() as u64 >= count
}

// Adds a copy of a key with its value.
fn push_pair(
    alloc: Global,
    rows: &mut List<Pair>,
    key: &str,
    value: &Bytes,
) -> Result<(), AllocError>
    ensures { OnOk result (map pair_of rows.new ≡ map pair_of rows.old ++ (key.now, value.now) ∷ []) }
{
    rows.push(Pair {
        key: Text::from_text(alloc, key)?,
        value: value.try_clone(alloc)?,
    })?;
    Ok(())
}

// The least text at which a key that a prefix selects may stand: the prefix without the slashes at its end and with one
// more, or nothing where no text is left.
fn start_of(alloc: Global, prefix: &str) -> Result<String, AllocError>
    ensures { IfOk result (λ start. string_bytes start ≡ places.start_of prefix.now) }
{
    let folder = prefix.trim_end_matches('/');
    if folder.is_empty() {
        return Ok(String::new(alloc));
    }
    Ok(format!(in alloc; "{folder}/")?)
}
