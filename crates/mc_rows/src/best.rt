// The greatest of the values of a key, with its block, while they are looked at one after another.
ghost use Rattle.std.specs.Prelude.{◌≡◌, true, false, Some};
ghost use Rattle.mc_model.specs.Who.{higher, placed_cmp};
ghost use Rattle.mc_rows.specs.Values.{placed_best, placed_top};

use mc_base::{Cid, Text};
use mc_keep::RankedValue;
use std::cmp::Ordering;

// A value with its block's priority, and the block.
#[derive(Clone, Copy)]
pub(crate) struct Best<'a> {
    pub(crate) priority: u64,
    pub(crate) value: &'a [u8],
    pub(crate) cid: &'a Cid,
}

// The value of a key, and the block that gives it.
#[derive(Drop)]
pub(crate) struct Top {
    pub(crate) value: RankedValue,
    pub(crate) cid: Cid,
}

// The new value of a key and its block, or none where it has no value any more.
#[derive(Drop)]
pub(crate) struct TopChange {
    pub(crate) key: Text,
    pub(crate) top: Option<Top>,
}

// Whether the next one is above the best.
pub(crate) fn is_above(best: Option<Best<'_>>, next: Best<'_>) -> bool
    ensures above { result ≡ true →
        higher (placed_best best.entry) ((next.entry.priority, next.entry.value.now), next.entry.cid.now)
        ≡ placed_best (Some next.entry) }
    ensures below { result ≡ false →
        higher (placed_best best.entry) ((next.entry.priority, next.entry.value.now), next.entry.cid.now)
        ≡ placed_best best.entry }
{
    match best {
        Some(best) => compare(best, next).is_lt(),
        None => true,
    }
}

// By the priority and the bytes, and then the greater identifier first.
fn compare(a: Best<'_>, b: Best<'_>) -> Ordering
    ensures { result ≡ placed_cmp ((a.entry.priority, a.entry.value.now), a.entry.cid.now)
        ((b.entry.priority, b.entry.value.now), b.entry.cid.now) }
{
    a.priority
        .cmp(&b.priority)
        .then(a.value.cmp(b.value))
        .then(b.cid.cmp(a.cid))
}

// The value and its block, borrowed.
pub(crate) fn best_of<'a>(top: &'a Option<Top>) -> Option<Best<'a>>
    ensures { placed_best result ≡ placed_top top.now }
{
    match top {
        Some(top) => Some(Best {
            priority: top.value.priority,
            value: top.value.value.as_slice(),
            cid: &top.cid,
        }),
        None => None,
    }
}

// Whether the best is what counted. It may say no where it is.
pub(crate) fn is_unchanged(top: &Option<Top>, best: Option<Best<'_>>) -> bool
    ensures { result ≡ true → placed_best best.entry ≡ placed_top top.now }
{
    match (top, best) {
        (Some(top), Some(best)) => is_same(best_in(top), best),
        (None, None) => true,
        _ => false,
    }
}

fn is_same(a: Best<'_>, b: Best<'_>) -> bool
    ensures { result ≡ true → placed_best (Some b.entry) ≡ placed_best (Some a.entry) }
{
    compare(a, b).is_eq()
}

fn best_in<'a>(top: &'a Top) -> Best<'a>
    ensures { placed_best (Some result) ≡ placed_top (Some top.now) }
{
    Best {
        priority: top.value.priority,
        value: top.value.value.as_slice(),
        cid: &top.cid,
    }
}
