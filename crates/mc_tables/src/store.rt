// The tables with the fact that they are those of the processed blocks, and with the room that they have.
ghost use Rattle.std.specs.Prelude.{◌≡◌, ◌≢◌, ◌≤◌, ◌-◌, None, IfOk, IfErr, OnOk, is_some, slice_get};
ghost use Rattle.std.specs.List.{position};
ghost use Rattle.mc_model.specs.Ascending.{Ascends};
ghost use Rattle.mc_model.specs.Front.{same_cid, is_linked, heads};
ghost use Rattle.mc_model.specs.Id.{id_text};
ghost use Rattle.mc_model.specs.Layouts.{winner_in};
ghost use Rattle.mc_model.specs.declared.layout.Layout.TheVariants.{One, Two};
ghost use Rattle.mc_model.specs.Live.{has_tomb, value_row};
ghost use Rattle.mc_model.specs.Kept.{processed, bytes_at, is_stored, nothing_kept};
ghost use Rattle.mc_keep.specs.Changes.{row_count, changed, laid, heads_in_rows, ranked_value};
ghost use Rattle.mc_keep.specs.LiveRows.{live_element_rows};
ghost use Rattle.mc_keep.specs.Next.{AreNext, IsKeyAt};
ghost use Rattle.mc_keep.specs.ElementOrder.{element_cmp};
ghost use Rattle.mc_keep.specs.Tables.{Meets, IsSummary, IsSmall};
ghost use Rattle.mc_tables.specs.Fits.{Fits, HasWinners, RoomFor, kept_in};

use crate::elements::Elements;
use crate::live::{is_hidden, live_elements_of};
use crate::order::settle;
use crate::range::{key_at, rows_from};
use crate::tables::{Tables, commit_tables, reserve_tables};
use crate::values::{Values, has_value, value_of};
use crate::winners::named_block;
use indexmap::{IndexMap, IndexSet};
use mc_base::{Bytes, Cid, List, Text};
use mc_graph::{
    Graph, Tombs, block_bytes, cid_at, has_block, has_cid, has_head, has_tomb as has_tomb_row,
    head_rows, is_processed, position_of, processed_count, stored_count,
};
use mc_keep::{
    Changes, ElementRow, HeadRow, Layout, RankedValue, Summary, ValueRow, changes_fit,
    commits_are_events, migrations_fit,
};
use mc_model::gaps_are_counted;
use std::alloc::{AllocError, Global};
use std::collections::BTreeSet;
use std::hash::BuildHasher;

/// The tables of a keeper.
#[derive(Drop)]
pub struct Store<S: BuildHasher + Drop> {
    pub(crate) tables: Tables<S>,
    pub(crate) room: u64,
    ghost fits: { Fits tables },
    ghost roomy: { RoomFor tables room },
    ghost winners: { HasWinners tables },
}

impl<S: BuildHasher + Copy + Drop> Store<S> {
    /// Empty tables, with the mark clear, and this hasher for the tables of texts. Takes no memory.
    pub fn new(alloc: Global, hasher: S) -> Store<S>
        ensures kept { kept_in result.tables ≡ nothing_kept }
        ensures layout { result.tables.layout ≡ Two }
        ensures room { result.room ≡ 0 }
    {
        Store {
            tables: Tables {
                graph: Graph::new(alloc),
                mark: false,
                layout: Layout::Two,
                gaps: IndexSet::new(alloc),
                heads: IndexMap::new(alloc),
                elements: Elements {
                    nodes: Vec::new(alloc),
                    keys: IndexMap::with_hasher(alloc, hasher),
                },
                tombs: Tombs::with_hasher(alloc, hasher),
                values: Values {
                    ordered: BTreeSet::new(alloc),
                    pending: Vec::new(alloc),
                },
            },
            room: 0,
        }
    }
}

impl<S: BuildHasher + Drop> Store<S> {
    /// Makes the changes, for which there is room. It takes no memory.
    pub fn commit(&mut self, changes: Changes)
        requires rows { row_count changes ≤ self.old.room }
        requires fit { Meets self.old.tables.layout (kept_in self.old.tables) changes }
        ensures kept { kept_in self.new.tables ≡ changed (kept_in self.old.tables) changes }
        ensures layout { self.new.tables.layout ≡ laid self.old.tables.layout changes }
        ensures room { self.new.room ≡ self.old.room - row_count changes }
    {
        commits_are_events();
        changes_fit();
        migrations_fit();
        self.room = commit_tables(&mut self.tables, changes, self.room);
    }

    /// A copy of the bytes of a block, or none where it is not stored.
    pub fn block(&self, alloc: Global, cid: &Cid) -> Result<Option<Bytes>, AllocError>
        ensures { IfOk result (λ bytes. bytes ≡ bytes_at (kept_in self.now.tables).graph cid.now) }
    {
        block_bytes(alloc, &self.tables.graph, cid)
    }

    /// Whether a block is stored.
    pub fn stored(&self, cid: &Cid) -> bool
        ensures { result ≡ is_stored (kept_in self.now.tables).graph cid.now }
    {
        has_block(&self.tables.graph, cid)
    }

    /// The position of a block, or none where it is not processed.
    pub fn position(&self, cid: &Cid) -> Option<u64>
        ensures { result ≡ position (same_cid cid.now) (kept_in self.now.tables).order }
    {
        match position_of(&self.tables.graph, cid) {
            Some(place) => Some(place as u64),
            None => None,
        }
    }

    /// The block at a position, or none past the last one.
    pub fn at(&self, position: u64) -> Option<Cid>
        ensures { result ≡ slice_get (kept_in self.now.tables).order position }
    {
        cid_at(&self.tables.graph, position as usize)
    }

    /// Whether a processed block links to the block. A processed block is linked unless it is a head, and another one
    /// where it is a gap.
    pub fn linked(&self, cid: &Cid) -> bool
        ensures { result ≡ is_linked (processed (kept_in self.now.tables)) cid.now }
    {
        if is_processed(&self.tables.graph, cid) {
            return !has_head(&self.tables.heads, cid);
        }
        has_cid(&self.tables.gaps, cid)
    }

    /// The heads, ascending.
    pub fn heads(&self, alloc: Global) -> Result<List<HeadRow>, AllocError>
        ensures { IfOk result (λ rows. heads_in_rows rows ≡ heads (processed (kept_in self.now.tables))) }
    {
        head_rows(alloc, &self.tables.heads)
    }

    /// The rows of a key that are not hidden, ascending. Passes over rows that are hidden, so the tables change, and
    /// nothing that they tell.
    pub fn live_elements(
        &mut self,
        alloc: Global,
        key: &str,
    ) -> Result<List<ElementRow>, AllocError>
        ensures rows { IfOk result (λ rows.
            Ascends element_cmp rows (live_element_rows (processed (kept_in self.old.tables)) key.now)) }
        ensures kept { kept_in self.new.tables ≡ kept_in self.old.tables }
        ensures layout { self.new.tables.layout ≡ self.old.tables.layout }
        ensures room { self.new.room ≡ self.old.room }
    {
        live_elements_of(
            alloc,
            &self.tables.graph,
            &mut self.tables.elements,
            &self.tables.tombs,
            key,
        )
    }

    /// Whether a tombstone of the key has the id.
    pub fn hidden(&self, key: &str, id: &str) -> bool
        ensures { result ≡ has_tomb (processed (kept_in self.now.tables)) key.now id.now }
    {
        has_tomb_row(&self.tables.tombs, key, id)
    }

    /// The numbers of processed and stored blocks and of gaps, and the mark.
    pub fn summary(&self) -> Summary
        ensures summary { IsSummary (kept_in self.now.tables) result }
        ensures small { IsSmall result }
    {
        gaps_are_counted();
        Summary {
            processed: processed_count(&self.tables.graph) as u64,
            stored: stored_count(&self.tables.graph) as u64,
            gaps: self.tables.gaps.as_slice().len() as u64,
            mark: self.tables.mark,
        }
    }

    /// Whether a tombstone of the key names the block.
    pub fn hides(&self, alloc: Global, key: &str, cid: &Cid) -> Result<bool, AllocError>
        ensures { IfOk result (λ found.
            found ≡ has_tomb (processed (kept_in self.now.tables)) key.now (id_text cid.now.0)) }
    {
        is_hidden(alloc, &self.tables.tombs, key, cid)
    }

    /// The value of a key, with its priority, or none.
    pub fn value(&self, alloc: Global, key: &str) -> Result<Option<RankedValue>, AllocError>
        ensures { IfOk result (λ value. ranked_value value ≡ value_row (processed (kept_in self.now.tables)) key.now) }
    {
        value_of(alloc, &self.tables.elements, key)
    }

    /// A copy of the layout: of which keys the block that gives the value is known. Takes no memory where it is of all.
    pub fn layout(&self, alloc: Global) -> Result<Layout, AllocError>
        ensures ok { IfOk result (λ layout. layout ≡ self.now.tables.layout) }
        ensures no_memory { IfErr result (λ _. self.now.tables.layout ≢ Two) }
    {
        copy_of(alloc, &self.tables.layout)
    }

    /// The block that gives a key its value, or none where the key has none or the layout does not cover it.
    pub fn winner(&self, key: &str) -> Option<Cid>
        ensures { result ≡ winner_in self.now.tables.layout (processed (kept_in self.now.tables)) key.now }
    {
        if !self.tables.layout.covers(key) {
            return None;
        }
        named_block(&self.tables.elements, &self.tables.graph, key)
    }

    /// Forgets of each key which block gives the value, as in a store of layout 1. It takes no memory.
    pub fn downgrade(&mut self)
        ensures kept { kept_in self.new.tables ≡ kept_in self.old.tables }
        ensures layout { self.new.tables.layout ≡ One None }
        ensures room { self.new.room ≡ self.old.room }
    {
        self.tables.layout = Layout::One { upto: None };
    }

    /// Whether a key has a value.
    pub fn has(&self, key: &str) -> bool
        ensures { result ≡ is_some (value_row (processed (kept_in self.now.tables)) key.now) }
    {
        has_value(&self.tables.elements, key)
    }

    /// The rows of the next keys with a value, past a bound, or from it on where `inclusive`, at most so many. Puts the
    /// keys that wait into order, so the tables change, and nothing that they tell.
    pub fn values_from(
        &mut self,
        alloc: Global,
        bound: &str,
        inclusive: bool,
        most: u64,
    ) -> Result<List<ValueRow>, AllocError>
        ensures rows { IfOk result (λ rows.
            AreNext (processed (kept_in self.old.tables)) bound.now inclusive most rows) }
        ensures kept { kept_in self.new.tables ≡ kept_in self.old.tables }
        ensures layout { self.new.tables.layout ≡ self.old.tables.layout }
        ensures room { self.new.room ≡ self.old.room }
    {
        settle(alloc, &mut self.tables.values, &self.tables.elements)?;
        rows_from(
            alloc,
            &self.tables.values.ordered,
            &self.tables.elements,
            bound,
            inclusive,
            most,
        )
    }

    /// The key at a place, from 0, among the next keys with a value, past a bound, or from it on where `inclusive`.
    /// Puts the keys that wait into order, so the tables change, and nothing that they tell.
    pub fn key_from(
        &mut self,
        alloc: Global,
        bound: &str,
        inclusive: bool,
        place: u64,
    ) -> Result<Option<Text>, AllocError>
        ensures key { IfOk result (λ key.
            IsKeyAt (processed (kept_in self.old.tables)) bound.now inclusive place key) }
        ensures kept { kept_in self.new.tables ≡ kept_in self.old.tables }
        ensures layout { self.new.tables.layout ≡ self.old.tables.layout }
        ensures room { self.new.room ≡ self.old.room }
    {
        settle(alloc, &mut self.tables.values, &self.tables.elements)?;
        key_at(alloc, &self.tables.values.ordered, bound, inclusive, place)
    }

    /// Makes room for so many rows.
    pub fn reserve(&mut self, rows: u64) -> Result<(), AllocError>
        ensures ok { OnOk result (rows ≤ self.new.room) }
        ensures kept { kept_in self.new.tables ≡ kept_in self.old.tables }
        ensures layout { self.new.tables.layout ≡ self.old.tables.layout }
        ensures room { self.old.room ≤ self.new.room }
    {
        if rows <= self.room {
            return Ok(());
        }
        reserve_tables(&mut self.tables, rows as usize)?;
        self.room = rows;
        Ok(())
    }
}

fn copy_of(alloc: Global, layout: &Layout) -> Result<Layout, AllocError>
    ensures ok { IfOk result (λ copy. copy ≡ layout.now) }
    ensures no_memory { IfErr result (λ _. layout.now ≢ Two) }
{
    match layout {
        Layout::One { upto: None } => Ok(Layout::One { upto: None }),
        Layout::One { upto: Some(upto) } => Ok(Layout::One {
            upto: Some(Text::from_text(alloc, upto.as_str())?),
        }),
        Layout::Two => Ok(Layout::Two),
    }
}
