// The deleted keys of a batch, each with the blocks that had live elements of it.
ghost use Rattle.std.specs.Prelude.{◌≡◌, ◌++◌, IfOk, OnOk, OnErr, map};
ghost use Rattle.std.specs.Prelude as prelude;
ghost use Rattle.std.specs.BTreeMap.{IsOrdered, get_by_text};
ghost use Rattle.std.specs.Option.{unwrap_or};
ghost use Rattle.std.specs.String.{string_cmp};
ghost use Rattle.mc_base.specs.declared.cid.Cid.{Cid as Link};
ghost use Rattle.mc_model.specs.Ascending.{ascending, Ascends};
ghost use Rattle.mc_model.specs.Batch.{deleted_cmp, deleted_tomb};
ghost use Rattle.mc_model.specs.Cuts.{Pair as Taken};
ghost use Rattle.mc_write.specs.Held.{deleted_in, AreHeld, cid_cmp};
ghost use Rattle.mc_write.specs.Pairs.{all_seen};

use crate::pair::Pair;
use mc_base::{Cid, List, Text};
use mc_model::{Tomb, id_of};
use std::alloc::{AllocError, Global};
use std::collections::BTreeMap;

/// Adds the blocks of pairs to those of a key. A refusal changes nothing.
pub(crate) fn add_pairs(
    alloc: Global,
    dropped: &mut BTreeMap<String, List<Cid>>,
    key: &str,
    pairs: &[Pair],
) -> Result<(), AllocError>
    requires ordered { IsOrdered string_cmp dropped.old }
    requires held { AreHeld dropped.old.entries }
    ensures ok { OnOk result (deleted_in dropped.new.entries ≡ ascending deleted_cmp
        (deleted_in dropped.old.entries ++ map (λ (pair : Taken). (key.now, pair.cid)) (all_seen pairs.now))) }
    ensures err { OnErr result (deleted_in dropped.new.entries ≡ deleted_in dropped.old.entries) }
    ensures ordered { IsOrdered string_cmp dropped.new }
    ensures held { AreHeld dropped.new.entries }
{
    if pairs.is_empty() {
        return Ok(());
    }
    let cids = merged(alloc, held_of(dropped, key), pairs)?;
    let name = String::from_str(alloc, key)?;
    match dropped.insert(name, cids) {
        Ok(_) => Ok(()),
        Err(_) => Err(AllocError),
    }
}

// The blocks of a key.
fn held_of<'a>(dropped: &'a BTreeMap<String, List<Cid>>, key: &str) -> &'a [Cid]
    ensures { result.now ≡ unwrap_or (get_by_text dropped.now key.now) prelude.[] }
{
    match dropped.get(key) {
        Some(cids) => cids.as_slice(),
        None => &[],
    }
}

// Both in order, each once.
fn merged(alloc: Global, held: &[Cid], pairs: &[Pair]) -> Result<List<Cid>, AllocError>
    ensures { IfOk result (λ cids.
        Ascends cid_cmp cids (held.now ++ map (λ (pair : Taken). pair.cid) (all_seen pairs.now))) }
{
    let mut cids = joined(alloc, held, pairs)?;
    cids.sort_unstable();
    cids.dedup();
    Ok(List::from_vec(cids))
}

fn joined(alloc: Global, held: &[Cid], pairs: &[Pair]) -> Result<Vec<Cid>, AllocError>
    ensures { IfOk result (λ cids. cids.items ≡ held.now ++ map (λ (pair : Taken). pair.cid) (all_seen pairs.now)) }
{
    let mut cids = held.to_vec(alloc)?;
    for pair in pairs {
        cids.push(pair.cid)?;
    }
    Ok(cids)
}

/// The tombstones of the deleted keys, by the key and then the block.
pub(crate) fn tombs_of_dropped(
    alloc: Global,
    dropped: &BTreeMap<String, List<Cid>>,
) -> Result<List<Tomb>, AllocError>
    ensures { IfOk result (λ tombs. tombs ≡ map deleted_tomb (deleted_in dropped.now.entries)) }
{
    let mut tombs = List::new(alloc);
    for (key, cids) in dropped.iter() {
        push_tombs(alloc, &mut tombs, key.as_str(), cids.as_slice())?;
    }
    Ok(tombs)
}

fn push_tombs(
    alloc: Global,
    tombs: &mut List<Tomb>,
    key: &str,
    cids: &[Cid],
) -> Result<(), AllocError>
    ensures { OnOk result (tombs.new ≡ tombs.old ++ map deleted_tomb (map (λ (cid : Link). (key.now, cid)) cids.now)) }
{
    for cid in cids {
        tombs.push(Tomb {
            key: Text::from_text(alloc, key)?,
            id: id_of(alloc, cid)?,
        })?;
    }
    Ok(())
}
