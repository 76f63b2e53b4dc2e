// What one commit changes.
ghost use Rattle.std.specs.Prelude.{◌≡◌, ◌-◌, ◌^◌, [], None, min};
ghost use Rattle.mc_keep.specs.Changes.{row_count, no_changes};

use crate::{ElementRow, HeadRow, RankedValue, TombRow};
use mc_base::{Cid, List, Text};
use mc_model::Stored;
use std::alloc::Global;

/// The new value of a key, or none where it has no value any more.
#[derive(Debug, Drop)]
pub struct ValueChange {
    /// The key.
    pub key: Text,
    /// Its value.
    pub value: Option<RankedValue>,
}

/// The new block that gives a key its value, or none where the key has no value any more.
#[derive(Debug, Drop)]
pub struct WinnerChange {
    /// The key.
    pub key: Text,
    /// The block.
    pub cid: Option<Cid>,
}

/// What one commit changes.
#[derive(Debug, Drop)]
pub struct Changes {
    /// The blocks to store.
    pub store: List<Stored>,
    /// The blocks to process, in order.
    pub marks: List<Cid>,
    /// The identifiers that are new in the link table.
    pub links: List<Cid>,
    /// The new element rows.
    pub elements: List<ElementRow>,
    /// The new tombstone rows.
    pub tombs: List<TombRow>,
    /// The keys whose value changes.
    pub values: List<ValueChange>,
    /// The keys whose value another block gives.
    pub winners: List<WinnerChange>,
    /// The key up to which winner rows are there, where a migration comes so far.
    pub upto: Option<Text>,
    /// Whether a migration is at its end: all winner rows are there.
    pub two: bool,
    /// The new heads.
    pub heads_in: List<HeadRow>,
    /// The heads that are none any more.
    pub heads_out: List<Cid>,
    /// The new dirty mark, where it changes.
    pub mark: Option<bool>,
}

impl Changes {
    /// No changes. Takes no memory.
    pub fn new(alloc: Global) -> Changes
        ensures { result ≡ no_changes }
    {
        Changes {
            store: List::new(alloc),
            marks: List::new(alloc),
            links: List::new(alloc),
            elements: List::new(alloc),
            tombs: List::new(alloc),
            values: List::new(alloc),
            winners: List::new(alloc),
            upto: None,
            two: false,
            heads_in: List::new(alloc),
            heads_out: List::new(alloc),
            mark: None,
        }
    }

    /// How many rows a keeper needs room for, at most `u64::MAX`.
    pub fn rows(&self) -> u64
        ensures { result ≡ min (row_count self.now) (2 ^ 64 - 1) }
    {
        let mut rows = self.store.len() as u64;
        rows = rows.saturating_add(self.marks.len() as u64);
        rows = rows.saturating_add(self.links.len() as u64);
        rows = rows.saturating_add(self.elements.len() as u64);
        rows = rows.saturating_add(self.tombs.len() as u64);
        rows = rows.saturating_add(self.values.len() as u64);
        rows = rows.saturating_add(self.winners.len() as u64);
        rows.saturating_add(self.heads_in.len() as u64)
    }
}
