// What a face shows: the values of the keys, and how far its list has come.
ghost use Rattle.std.specs.Prelude.{◌≡◌, MatchResult, OnOk, OnErr};
ghost use Rattle.std.specs.Prelude.{map, Some, None, IfOk, IfErr, is_some};
ghost use Rattle.std.specs.BTreeMap.{IsOrdered};
ghost use Rattle.std.specs.String.{string_cmp};
ghost use Rattle.mc_query.specs.Places.{pair_of};
ghost use Rattle.mc_face.specs.Rows.{rows_of};
ghost use Rattle.mc_face.specs.Pairs.{pairs_of, value_at, with_change, changed_to};

use crate::change::Change;
use crate::front::Front;
use crate::rows::rows;
use left_right::Absorb;
use mc_base::{Bytes, List, Text};
use mc_query::Pair;
use std::alloc::{AllocError, AllocFailed, Global};
use std::collections::BTreeMap;

/// What a face shows: the values of the keys of a list of blocks, in the order of the keys. The list is kept for
/// contracts alone.
#[derive(Drop)]
pub struct Shown {
    pub(crate) alloc: Global,
    pub(crate) values: BTreeMap<String, Bytes>,
    pub(crate) front: Front,
}

/// What is done to it.
#[derive(Drop)]
pub enum Op {
    /// A key gets a value, or loses it.
    Set(Change),
    /// The values are from now on those of this list.
    Reach(Front),
}

impl Absorb<Op> for Shown {
    ghost use Rattle.mc_face.specs.Faces.{applied, state_of};

    type State = (Front, [(Text, Bytes); 0]);

    ghost state = { state_of };

    ghost applied = { applied };

    fn absorb_first(&mut self, operation: &Op, _other: &Shown) -> Result<(), AllocError> {
        match operation {
            Op::Set(change) => copy_in(self.alloc, &mut self.values, change),
            Op::Reach(front) => {
                self.front = front.again();
                Ok(())
            }
        }
    }

    fn absorb_second(&mut self, operation: Op, _other: &Shown) -> Result<(), Op> {
        match operation {
            Op::Set(change) => match move_in(&mut self.values, change) {
                Ok(()) => Ok(()),
                Err(change) => Err(Op::Set(change)),
            },
            Op::Reach(front) => {
                self.front = front;
                Ok(())
            }
        }
    }
}

impl Shown {
    /// The value of a key, or none.
    pub(crate) fn value(&self, alloc: Global, key: &str) -> Result<Option<Bytes>, AllocError>
        ensures { IfOk result (λ found. found ≡ value_at (pairs_of self.now.values.entries) key.now) }
    {
        match self.values.get(key) {
            Some(value) => Ok(Some(value.try_clone(alloc)?)),
            None => Ok(None),
        }
    }

    /// The pairs whose keys a prefix selects, in the order of the keys: those after the first `skip`, at most `count`.
    pub(crate) fn rows(
        &self,
        alloc: Global,
        prefix: &str,
        skip: u64,
        count: u64,
    ) -> Result<List<Pair>, AllocError>
        ensures rows { IfOk result (λ rows. map pair_of rows
            ≡ rows_of (pairs_of self.now.values.entries) prefix.now skip count) }
        ensures ordered { OnOk result (IsOrdered string_cmp self.now.values) }
    {
        rows(alloc, &self.values, prefix, skip, count)
    }

    /// Whether a key has a value.
    pub(crate) fn has(&self, key: &str) -> bool
        ensures { result ≡ is_some (value_at (pairs_of self.now.values.entries) key.now) }
    {
        self.values.contains_key(key)
    }
}

// Makes a change by copies of its key and its value.
fn copy_in(
    alloc: Global,
    values: &mut BTreeMap<String, Bytes>,
    change: &Change,
) -> Result<(), AllocError>
    ensures ok { OnOk result (pairs_of values.new.entries ≡ with_change (pairs_of values.old.entries) change.now) }
    ensures err { OnErr result (pairs_of values.new.entries ≡ pairs_of values.old.entries) }
{
    match &change.value {
        Some(value) => {
            let key = change.key.try_clone(alloc)?;
            let value = value.try_clone(alloc)?;
            match put(values, key, value) {
                Ok(()) => Ok(()),
                Err(_) => Err(AllocError),
            }
        }
        None => {
            take_out(values, change.key.as_str());
            Ok(())
        }
    }
}

// Makes a change, or hands it back.
fn move_in(values: &mut BTreeMap<String, Bytes>, change: Change) -> Result<(), Change>
    ensures ok { OnOk result (pairs_of values.new.entries ≡ with_change (pairs_of values.old.entries) change) }
    ensures err { OnErr result (pairs_of values.new.entries ≡ pairs_of values.old.entries) }
    ensures back { IfErr result (λ left. left ≡ change) }
{
    let Change { key, value } = change;
    match value {
        Some(value) => match put(values, key, value) {
            Ok(()) => Ok(()),
            Err((key, value)) => Err(Change {
                key,
                value: Some(value),
            }),
        },
        None => {
            take_out(values, key.as_str());
            Ok(())
        }
    }
}

// Gives a key a value, or hands both back.
fn put(values: &mut BTreeMap<String, Bytes>, key: Text, value: Bytes) -> Result<(), (Text, Bytes)>
    ensures ok { OnOk result (pairs_of values.new.entries ≡ changed_to (pairs_of values.old.entries) key (Some value)) }
    ensures err { OnErr result (pairs_of values.new.entries ≡ pairs_of values.old.entries) }
    ensures back { IfErr result (λ left. left ≡ (key, value)) }
{
    match values.insert(key.into_string(), value) {
        Ok(_) => Ok(()),
        Err(failed) => {
            let AllocFailed {
                value: (key, value),
            } = failed;
            Err((Text::from_string(key), value))
        }
    }
}

// Takes the value of a key away.
fn take_out(values: &mut BTreeMap<String, Bytes>, key: &str)
    ensures { pairs_of values.new.entries ≡ changed_to (pairs_of values.old.entries) key.now None }
{
    let _count = values.len();
    values.remove(key);
}
