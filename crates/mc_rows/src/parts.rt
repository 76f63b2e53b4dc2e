// The value rows and the winner rows of changes.
ghost use Rattle.std.specs.Prelude.{◌≡◌, ◌++◌, ◌∷◌, [], IfOk, OnOk};
ghost use Rattle.mc_rows.specs.Values.{value_part, winner_part};

use crate::best::{Top, TopChange};
use mc_base::{Cid, List, Text};
use mc_keep::{RankedValue, ValueChange, WinnerChange};
use std::alloc::{AllocError, Global};

// Changes of the values of keys, kept as the value row and the winner row of each.
#[derive(Drop)]
pub(crate) struct TopChanges {
    pub(crate) values: List<ValueChange>,
    pub(crate) winners: List<WinnerChange>,
}

impl TopChanges {
    // No changes, with room for at least this many.
    pub(crate) fn with_capacity(alloc: Global, capacity: usize) -> Result<TopChanges, AllocError>
        ensures { IfOk result (λ changes. changes ≡ record { values = []; winners = [] }) }
    {
        Ok(TopChanges {
            values: List::with_capacity(alloc, capacity)?,
            winners: List::with_capacity(alloc, capacity)?,
        })
    }

    // Adds the rows of a change. A refusal may leave the one without the other.
    pub(crate) fn push(&mut self, alloc: Global, change: TopChange) -> Result<(), AllocError>
        ensures values { OnOk result (self.new.values ≡ self.old.values ++ value_part change ∷ []) }
        ensures winners { OnOk result (self.new.winners ≡ self.old.winners ++ winner_part change ∷ []) }
    {
        let TopChange { key, top } = change;
        self.winners.push(WinnerChange {
            key: Text::from_text(alloc, key.as_str())?,
            cid: cid_of(&top),
        })?;
        self.values.push(ValueChange {
            key,
            value: ranked_of(top),
        })?;
        Ok(())
    }
}

fn cid_of(top: &Option<Top>) -> Option<Cid>
    ensures { result ≡ (winner_part (record { key = []; top = top.now })).cid }
{
    match top {
        Some(top) => Some(top.cid),
        None => None,
    }
}

fn ranked_of(top: Option<Top>) -> Option<RankedValue>
    ensures { result ≡ (value_part (record { key = []; top = top })).value }
{
    match top {
        Some(top) => Some(top.value),
        None => None,
    }
}
