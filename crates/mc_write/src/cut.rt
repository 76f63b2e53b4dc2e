// The deltas into which the tombstones of a delete are cut.
ghost use Rattle.std.specs.Prelude.{◌≡◌, ◌+◌, ◌<◌, ◌≤◌, ◌++◌, ◌∷◌, ◌^◌, [], length, map, drop, true, false, IfOk};
ghost use Rattle.std.specs.Prelude.{IfErr, OnOk};
ghost use Rattle.std.specs.Prelude as prelude;
ghost use Rattle.mc_base.specs.declared.cid.Cid.{Cid as Link};
ghost use Rattle.mc_model.specs.Cuts.{IsCuts, pair_tomb};
ghost use Rattle.mc_keep.specs.Changes.{heads_in_rows};
ghost use Rattle.mc_model.specs.Made.{greatest_height};
ghost use Rattle.mc_write.specs.Cutting.{number, IsNext, NextRefused, CutsRefused};
ghost use Rattle.mc_write.specs.Lengths.{capped, links_length, IsTombLen};
ghost use Rattle.mc_write.specs.Refusals.{is_fault};
ghost use Rattle.mc_write.specs.Pairs.{all_seen, have_digests};

use crate::WriteError;
use crate::length::{LINK_LEN, block_len, priority_len, room_for, tomb_len};
use crate::pair::Pair;
use mc_base::{List, Text};
use mc_keep::HeadRow;
use mc_key::Key;
use mc_model::{Delta, Tomb, id_of};
use std::alloc::{AllocError, Global};

/// The deltas of a delete of these pairs, of which the first block has so many bytes of links and this priority, or no
/// priority is left for it.
pub(crate) fn cut(
    alloc: Global,
    links: u64,
    priority: Option<u64>,
    key: &Key<'_>,
    pairs: &[Pair],
) -> Result<List<Delta>, WriteError>
    requires { have_digests (all_seen pairs.now) ≡ true }
    ensures cuts { IfOk result (λ deltas. (cids : prelude.List Link) →
        links ≡ capped (links_length cids) → IsCuts cids (number priority) key.now (all_seen pairs.now) deltas) }
    ensures refused { IfErr result (λ error. (cids : prelude.List Link) →
        links ≡ capped (links_length cids) → CutsRefused cids (number priority) key.now (all_seen pairs.now) error) }
    ensures keeper { is_fault result ≡ false }
{
    let mut deltas = List::new(alloc);
    let mut rest = pairs;
    let mut links = links;
    let mut priority = priority;
    let tomb = tomb_len(key);
    while !rest.is_empty() {
        let delta = next_delta(alloc, links, priority, key, tomb, rest)?;
        rest = rest_of(rest, delta.tombstones.len());
        links = LINK_LEN;
        priority = after(priority);
        push_delta(&mut deltas, delta)?;
    }
    Ok(deltas)
}

// The pairs after those that were taken.
fn rest_of(pairs: &[Pair], taken: usize) -> &[Pair]
    requires { taken ≤ length pairs.now }
    ensures rest { all_seen result.now ≡ drop taken (all_seen pairs.now) }
    ensures len { length result.now + taken ≡ length pairs.now }
{
    &pairs[taken..]
}

fn push_delta(deltas: &mut List<Delta>, delta: Delta) -> Result<(), AllocError>
    ensures { OnOk result (deltas.new ≡ deltas.old ++ delta ∷ []) }
{
    deltas.push(delta)?;
    Ok(())
}

// The next delta, with as many tombstones, each of `tomb` bytes, as its block has room for.
fn next_delta(
    alloc: Global,
    links: u64,
    priority: Option<u64>,
    key: &Key<'_>,
    tomb: u64,
    pairs: &[Pair],
) -> Result<Delta, WriteError>
    requires tomb { IsTombLen key.now tomb }
    requires some { 0 < length pairs.now }
    requires digests { have_digests (all_seen pairs.now) ≡ true }
    ensures within { IfOk result (λ delta.
        (0 < length delta.tombstones) × (length delta.tombstones ≤ length pairs.now)) }
    ensures cut { IfOk result (λ delta. (cids : prelude.List Link) →
        links ≡ capped (links_length cids) → IsNext cids (number priority) key.now (all_seen pairs.now) delta) }
    ensures refused { IfErr result (λ error. (cids : prelude.List Link) →
        links ≡ capped (links_length cids) → NextRefused cids (number priority) key.now (all_seen pairs.now) error) }
    ensures keeper { is_fault result ≡ false }
{
    let Some(priority) = priority else {
        return Err(WriteError::PriorityFull);
    };
    let base = priority_len(priority);
    let taken = room_for(links, base, tomb, pairs.len());
    if taken == 0 {
        let len = block_len(links, base + tomb);
        return Err(WriteError::BlockTooLarge { len });
    }
    let tombstones = tombs_of(alloc, key, &pairs[..taken])?;
    Ok(Delta {
        elements: List::new(alloc),
        tombstones,
        priority,
    })
}

// The tombstones of the key in the pairs' blocks.
fn tombs_of(alloc: Global, key: &Key<'_>, pairs: &[Pair]) -> Result<List<Tomb>, AllocError>
    ensures { IfOk result (λ tombs. tombs ≡ map (pair_tomb key.now) (all_seen pairs.now)) }
{
    let mut tombs = List::with_capacity(alloc, pairs.len())?;
    for pair in pairs {
        tombs.push(Tomb {
            key: Text::from_text(alloc, key.as_str())?,
            id: id_of(alloc, &pair.cid)?,
        })?;
    }
    Ok(tombs)
}

// The priority one higher, or none where none is left.
fn after(priority: Option<u64>) -> Option<u64>
    ensures { number priority < 2 ^ 64 → number result ≡ number priority + 1 }
{
    priority?.checked_add(1)
}

/// The priority of a block that links to these heads: one more than the greatest height of a head, 1 where there is no
/// head, and none where it would pass `u64::MAX`.
pub fn next_priority(heads: &[HeadRow]) -> Option<u64>
    ensures { number result ≡ greatest_height (heads_in_rows heads.now) + 1 }
{
    after(Some(greatest_height(heads)))
}

fn greatest_height(heads: &[HeadRow]) -> u64
    ensures { result ≡ greatest_height (heads_in_rows heads.now) }
{
    let mut height = 0;
    for head in heads {
        height = height.max(head.height);
    }
    height
}
