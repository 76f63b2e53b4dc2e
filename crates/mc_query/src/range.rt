// The keys under a prefix.
ghost use Rattle.std.specs.Prelude.{◌≡◌, ◌+◌, [], true, false, map, take, IfOk, IfSome, OnOk, ◌++◌, ◌∷◌};
ghost use Rattle.mc_key.specs.Prefix.{is_under};
ghost use Rattle.mc_model.specs.Answers as answers;
ghost use Rattle.mc_model.specs.Answers.{with_value};
ghost use Rattle.mc_model.specs.Kept.{processed};
ghost use Rattle.mc_keep.specs.Calls.{Reads};
ghost use Rattle.mc_keep.specs.Causes.{IfTold};
ghost use Rattle.mc_keep.specs.Next.{is_past};
ghost use Rattle.mc_keep.specs.Plan.{ReadsAsPlanned, is_fault};
ghost use Rattle.mc_query.specs.Ahead.{AreAhead};
ghost use Rattle.mc_query.specs.Answers.{AreAnswers};
ghost use Rattle.mc_query.specs.Reads.{ReadsWithin};
ghost use Rattle.mc_query.specs.Places as places;
ghost use Rattle.mc_query.specs.Places.{start_of, left_of, pair_of, pair_of_row, IsKeyUnder, IsNextUnder, IsPassed};

use crate::Pair;
use crate::ahead::{Ahead, next_row};
use crate::place::{Place, is_past, place_after, start_of};
use mc_base::{List, Text};
use mc_keep::{KeepError, Keeper, ValueRow};
use mc_key::under;
use mc_model::valued_keys_are_exact;
use std::alloc::{AllocError, AllocFailed, Global};

// The most keys that are passed over at once. A query whose prefix selects fewer keys than it skips walks at most so
// many keys past the prefix's.
const LONGEST_STRIDE: u64 = 4096;

/// The keys with a value that a prefix selects, ascending by their bytes, each with its value: those after the first
/// `skip` of them, and at most `count`. The slashes at the prefix's end don't count; a prefix of slashes alone, or of
/// nothing, selects every key, and any other those that begin with it and a slash. It passes over keys in strides,
/// without their rows, and then asks for rows some at a time, each time for no more than are still to be given. It ends
/// where it comes to a key that isn't selected. `Failed` comes only where the keeper failed.
///
/// A key that isn't past the one before it ends the query too, so that over every keeper the keys ascend strictly, are
/// selected, and are at most `count`.
pub fn query<K: Keeper>(
    keeper: &mut K,
    alloc: Global,
    prefix: &str,
    skip: u64,
    count: u64,
) -> Result<List<Pair>, KeepError>
    ensures rows { IfTold (K.told keeper.old) result (λ kept pairs.
        map pair_of pairs ≡ answers.query (processed kept) (is_under prefix.now) skip count) }
    ensures ascend { IfOk result (λ pairs. AreAnswers (start_of prefix.now) true prefix.now count pairs) }
    ensures reads { Reads K.Keeper (is_fault result) keeper.old keeper.new }
    ensures planned { ReadsWithin (skip + count) (K.schedule keeper.old) (K.schedule keeper.new) (is_fault result) }
{
    if count == 0 {
        return Ok(List::new(alloc));
    }
    let start = start_of(alloc, prefix)?;
    match pass_over(keeper, alloc, prefix, start, skip)? {
        Some(place) => take_rows(keeper, alloc, prefix, &place, count),
        None => Ok(List::new(alloc)),
    }
}

// The place after the first `skip` keys that the prefix selects, or none where there are no more than them.
fn pass_over<K: Keeper>(
    keeper: &mut K,
    alloc: Global,
    prefix: &str,
    start: Text,
    skip: u64,
) -> Result<Option<Place>, KeepError>
    requires start { start ≡ start_of prefix.now }
    ensures place { IfTold (K.told keeper.old) result (λ kept place. IsPassed (processed kept) prefix.now skip place) }
    ensures past { IfOk result (λ place. IfSome place (λ place.
        is_past (start_of prefix.now) true place.bound ≡ true)) }
    ensures reads { Reads K.Keeper (is_fault result) keeper.old keeper.new }
    ensures planned { ReadsWithin skip (K.schedule keeper.old) (K.schedule keeper.new) (is_fault result) }
{
    let mut place = Place {
        bound: start,
        inclusive: true,
    };
    let mut left = skip;
    while left > 0 {
        let stride = left.min(LONGEST_STRIDE);
        let Some(key) = key_under(
            keeper,
            alloc,
            prefix,
            place.bound.as_str(),
            place.inclusive,
            stride - 1,
        )?
        else {
            return Ok(None);
        };
        place = Place {
            bound: key,
            inclusive: false,
        };
        left -= stride;
    }
    Ok(Some(place))
}

// The key at a place, from 0, among the next keys with a value that the prefix selects, or none where there are not so
// many. None too where the keeper gives a key that isn't past the bound.
fn key_under<K: Keeper>(
    keeper: &mut K,
    alloc: Global,
    prefix: &str,
    bound: &str,
    inclusive: bool,
    place: u64,
) -> Result<Option<Text>, KeepError>
    requires past { is_past (start_of prefix.now) true bound.now ≡ true }
    ensures key { IfTold (K.told keeper.old) result (λ kept key.
        IsKeyUnder (processed kept) prefix.now bound.now inclusive place key) }
    ensures past { IfOk result (λ key. IfSome key (λ key. is_past (start_of prefix.now) true key ≡ true)) }
    ensures next { IfOk result (λ key. IfSome key (λ key. is_past bound.now inclusive key ≡ true)) }
    ensures reads { Reads K.Keeper (is_fault result) keeper.old keeper.new }
    ensures planned { ReadsAsPlanned (K.schedule keeper.old) (K.schedule keeper.new) (is_fault result) }
{
    valued_keys_are_exact();
    let key = keeper.key_from(alloc, bound, inclusive, place)?;
    Ok(key_left(prefix, bound, inclusive, key))
}

/// The key, where it is past the bound, or at it where `inclusive`, and the prefix selects it.
pub fn key_left(prefix: &str, bound: &str, inclusive: bool, next: Option<Text>) -> Option<Text>
    ensures { result ≡ places.key_left prefix.now bound.now inclusive next }
{
    match next {
        Some(key) if is_left(prefix, bound, inclusive, key.as_str()) => Some(key),
        _ => None,
    }
}

// Whether a key is past the bound, or at it where `inclusive`, and the prefix selects it.
fn is_left(prefix: &str, bound: &str, inclusive: bool, key: &str) -> bool
    ensures { result ≡ places.is_left prefix.now bound.now inclusive key.now }
{
    is_past(bound, inclusive, key) && under(prefix, key)
}

// The next keys that the prefix selects, at most `count` of them, with their values.
fn take_rows<K: Keeper>(
    keeper: &mut K,
    alloc: Global,
    prefix: &str,
    place: &Place,
    count: u64,
) -> Result<List<Pair>, KeepError>
    requires past { is_past (start_of prefix.now) true place.now.bound ≡ true }
    ensures rows { IfTold (K.told keeper.old) result (λ kept pairs.
        map pair_of pairs ≡ map (with_value (processed kept))
        (take count (left_of (processed kept) prefix.now place.now.bound place.now.inclusive))) }
    ensures ascend { IfOk result (λ pairs.
        AreAnswers place.now.bound place.now.inclusive prefix.now count pairs) }
    ensures reads { Reads K.Keeper (is_fault result) keeper.old keeper.new }
    ensures planned { ReadsWithin count (K.schedule keeper.old) (K.schedule keeper.new) (is_fault result) }
{
    let mut ahead = Ahead::new(alloc, count);
    let mut pairs = List::new(alloc);
    for _ in 0..count {
        let (bound, inclusive) = place_after(place, pairs.as_slice());
        match next_under(keeper, alloc, &mut ahead, prefix, bound, inclusive)? {
            Some(row) => push_row(&mut pairs, row)?,
            None => return Ok(pairs),
        }
    }
    Ok(pairs)
}

fn push_row(pairs: &mut List<Pair>, row: ValueRow) -> Result<(), AllocError>
    ensures { OnOk result (pairs.new ≡ pairs.old ++ pair_of_row row ∷ []) }
{
    pairs.push(Pair {
        key: row.key,
        value: row.value,
    })?;
    Ok(())
}

// The row of the next key with a value, or none where the prefix doesn't select it: then it selects none after it. None
// too where the keeper gives a row whose key isn't past the bound.
fn next_under<K: Keeper>(
    keeper: &mut K,
    alloc: Global,
    ahead: &mut Ahead,
    prefix: &str,
    bound: &str,
    inclusive: bool,
) -> Result<Option<ValueRow>, KeepError>
    requires past { is_past (start_of prefix.now) true bound.now ≡ true }
    requires ahead { IfSome (K.told keeper.old) (λ kept.
        AreAhead (processed kept) bound.now inclusive ahead.old.rows.items) }
    ensures row { IfTold (K.told keeper.old) result (λ kept row.
        IsNextUnder (processed kept) prefix.now bound.now inclusive row) }
    ensures past { IfOk result (λ row. IfSome row (λ row. is_past (start_of prefix.now) true row.key ≡ true)) }
    ensures next { IfOk result (λ row. IfSome row (λ row. is_past bound.now inclusive row.key ≡ true)) }
    ensures under { IfOk result (λ row. IfSome row (λ row. is_under prefix.now row.key ≡ true)) }
    ensures ahead { IfTold (K.told keeper.old) result (λ kept row. IfSome row (λ row.
        AreAhead (processed kept) row.key false ahead.new.rows.items)) }
    ensures reads { Reads K.Keeper (is_fault result) keeper.old keeper.new }
    ensures planned { ReadsWithin 1 (K.schedule keeper.old) (K.schedule keeper.new) (is_fault result) }
{
    valued_keys_are_exact();
    let next = next_row(keeper, alloc, ahead, bound, inclusive)?;
    Ok(selected(prefix, row_past(bound, inclusive, next)))
}

/// The row, where its key is past the bound, or at it where `inclusive`.
pub fn row_past(bound: &str, inclusive: bool, next: Option<ValueRow>) -> Option<ValueRow>
    ensures { result ≡ places.row_past bound.now inclusive next }
{
    match next {
        Some(row) if is_past(bound, inclusive, row.key.as_str()) => Some(row),
        _ => None,
    }
}

/// The row, where the prefix selects its key.
pub fn selected(prefix: &str, next: Option<ValueRow>) -> Option<ValueRow>
    ensures { result ≡ places.selected prefix.now next }
{
    match next {
        Some(row) if under(prefix, row.key.as_str()) => Some(row),
        _ => None,
    }
}
