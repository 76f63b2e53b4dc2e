// What became of keys.
ghost use Rattle.std.specs.Prelude.{◌≡◌, IfOk};
ghost use Rattle.mc_model.specs.Kept.{processed};
ghost use Rattle.mc_model.specs.Live.{value};
ghost use Rattle.mc_keep.specs.Calls.{Reads};
ghost use Rattle.mc_keep.specs.Causes.{IfTold};
ghost use Rattle.mc_keep.specs.Plan.{is_fault};
ghost use Rattle.mc_face.specs.Exact.{AreValues};
ghost use Rattle.mc_news.specs.Keys.{keys_of, texts_of};

use crate::blocks::add;
use mc_base::{List, Text};
use mc_face::Change;
use mc_keep::{KeepError, Keeper};
use std::alloc::Global;

/// The values of keys over the processed blocks, each as a change.
pub(crate) fn values_of<K: Keeper>(
    keeper: &mut K,
    alloc: Global,
    keys: &[&str],
) -> Result<List<Change>, KeepError>
    ensures keys { IfOk result (λ changes. keys_of changes ≡ texts_of keys.now) }
    ensures values { IfTold (K.told keeper.old) result (λ kept changes. AreValues (processed kept) changes) }
    ensures reads { Reads K.Keeper (is_fault result) keeper.old keeper.new }
{
    let mut changes = List::new(alloc);
    for key in keys {
        let change = value_of(keeper, alloc, key)?;
        add(&mut changes, change)?;
    }
    Ok(changes)
}

// The value of a key over the processed blocks, as a change.
fn value_of<K: Keeper>(keeper: &mut K, alloc: Global, key: &str) -> Result<Change, KeepError>
    ensures key { IfOk result (λ change. change.key ≡ key.now) }
    ensures value { IfTold (K.told keeper.old) result (λ kept change. change.value ≡ value (processed kept) key.now) }
    ensures reads { Reads K.Keeper (is_fault result) keeper.old keeper.new }
{
    let value = mc_query::get(keeper, alloc, key)?;
    let key = Text::from_text(alloc, key)?;
    Ok(Change { key, value })
}
