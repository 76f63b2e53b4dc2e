// A keeper with rows made by hand, which tells nothing.
ghost use Rattle.std.specs.Prelude.{◌≡◌, None, false};
ghost use Rattle.mc_model.specs.declared.layout.Layout.TheVariants.{Two};

use mc_base::{Bytes, Cid, Counted, Failed, List, Text};
use mc_keep::{Changes, ElementRow, HeadRow, KeepError, Keeper, RankedValue, Summary, ValueRow};
use mc_model::{Layout, id_of};
use mc_query::Pair;
use std::alloc::{AllocError, Global};
use std::sync::Wait;

/// A desk that finds nothing.
#[derive(Drop)]
pub struct HandMadeDesk {
    faults: u64,
}

impl Counted for HandMadeDesk {
    ghost faults = { λ desk. desk.faults };

    fn faults(&self) -> u64 {
        self.faults
    }
}

/// Value rows in ascending order of their keys, of which so many are given before memory is short. Every key has one
/// element of each of a chain of blocks, of which each but the first links to the one before it; the element of the
/// block with the id is hidden.
#[derive(Drop)]
pub struct HandMade {
    rows: List<Pair>,
    left: u64,
    count: u64,
    hidden: Text,
    room: u64,
    faults: u64,
}

impl HandMade {
    /// A keeper of these value rows, which gives `left` of them, and no blocks.
    pub fn of_values(alloc: Global, rows: List<Pair>, left: u64) -> HandMade {
        HandMade {
            rows,
            left,
            count: 0,
            hidden: Text::new(alloc),
            room: 0,
            faults: 0,
        }
    }

    /// A keeper of a chain of `count` blocks, of which that with the id is hidden, and no value rows.
    pub fn of_puts(alloc: Global, count: u64, hidden: Text) -> HandMade {
        HandMade {
            rows: List::new(alloc),
            left: 0,
            count,
            hidden,
            room: 0,
            faults: 0,
        }
    }

    fn read(&mut self) -> Result<(), AllocError>
        ensures faults { self.new.faults ≡ self.old.faults }
        ensures room { self.new.room ≡ self.old.room }
    {
        if self.left == 0 {
            return Err(AllocError);
        }
        self.left = self.left.saturating_sub(1);
        Ok(())
    }
}

impl Counted for HandMade {
    ghost faults = { λ keeper. keeper.faults };

    fn faults(&self) -> u64 {
        self.faults
    }
}

fn row_of(alloc: Global, pair: &Pair) -> Result<ValueRow, AllocError> {
    Ok(ValueRow {
        key: pair.key.try_clone(alloc)?,
        priority: 1,
        value: pair.value.try_clone(alloc)?,
    })
}

fn find_value(alloc: Global, rows: &[Pair], key: &str) -> Result<Option<RankedValue>, AllocError> {
    for pair in rows {
        if pair.key.as_str() == key {
            let ValueRow {
                priority,
                value,
                ..
            } = row_of(alloc, pair)?;
            return Ok(Some(RankedValue { priority, value }));
        }
    }
    Ok(None)
}

fn has_row(rows: &[Pair], key: &str) -> bool {
    for pair in rows {
        if pair.key.as_str() == key {
            return true;
        }
    }
    false
}

fn rows_from(
    alloc: Global,
    rows: &[Pair],
    bound: &str,
    inclusive: bool,
    most: u64,
) -> Result<List<ValueRow>, AllocError> {
    let mut found = List::new(alloc);
    for pair in rows {
        let key = pair.key.as_str();
        if found.len() as u64 == most {
            return Ok(found);
        }
        if key > bound || inclusive && key == bound {
            found.push(row_of(alloc, pair)?)?;
        }
    }
    Ok(found)
}

fn key_at(
    alloc: Global,
    rows: &[Pair],
    bound: &str,
    inclusive: bool,
    place: u64,
) -> Result<Option<Text>, AllocError> {
    let mut left = place;
    for pair in rows {
        let key = pair.key.as_str();
        if key > bound || inclusive && key == bound {
            if left == 0 {
                return Ok(Some(pair.key.try_clone(alloc)?));
            }
            left -= 1;
        }
    }
    Ok(None)
}

// The row of the block with this number.
fn element_of(alloc: Global, key: &str, number: u64) -> Result<ElementRow, AllocError> {
    Ok(ElementRow {
        key: Text::from_text(alloc, key)?,
        cid: cid_of(number),
        priority: number,
        value: Bytes::from_slice(alloc, &[1])?,
    })
}

/// The identifier of the block with this number.
pub fn cid_of(number: u64) -> Cid {
    let mut digest = [0; 32];
    digest[..8].copy_from_slice(&number.to_be_bytes());
    Cid(digest)
}

fn elements_of(
    alloc: Global,
    key: &str,
    count: u64,
    hidden: &str,
) -> Result<List<ElementRow>, AllocError> {
    let mut rows = List::new(alloc);
    for number in 1..=count {
        if id_of(alloc, &cid_of(number))?.as_str() != hidden {
            rows.push(element_of(alloc, key, number)?)?;
        }
    }
    Ok(rows)
}

fn one_head(alloc: Global, height: u64) -> Result<List<HeadRow>, AllocError> {
    let mut heads = List::new(alloc);
    heads.push(HeadRow {
        cid: cid_of(height),
        height,
    })?;
    Ok(heads)
}

impl Keeper for HandMade {
    type Desk = HandMadeDesk;

    ghost told = { λ keeper. None };

    ghost layout = { λ keeper. Two };

    ghost spare = { λ keeper. keeper.room };

    ghost fuse = { λ keeper. None };

    ghost own = { λ keeper. keeper.faults };

    ghost quiet = { λ keeper. false };

    ghost quiet_desk = { λ desk. false };

    ghost schedule = { λ keeper. None };

    ghost desk_schedule = { λ desk. None };

    ghost sound = { λ keeper. tt };

    fn own_faults(&self) -> u64 {
        self.faults
    }

    fn desk(&mut self, _alloc: Global) -> Result<HandMadeDesk, KeepError> {
        Ok(HandMadeDesk { faults: 0 })
    }

    fn peer_block<W: Wait>(
        &self,
        _alloc: Global,
        _desk: &mut HandMadeDesk,
        _cid: &Cid,
        _wait: &W,
    ) -> Result<Option<Bytes>, KeepError> {
        Ok(None)
    }

    fn summary(&mut self) -> Result<Summary, Failed> {
        Ok(Summary {
            processed: 0,
            stored: 0,
            gaps: 0,
            mark: false,
        })
    }

    fn block(&mut self, _alloc: Global, _cid: &Cid) -> Result<Option<Bytes>, KeepError> {
        Ok(None)
    }

    fn stored(&mut self, _cid: &Cid) -> Result<bool, Failed> {
        Ok(false)
    }

    fn position(&mut self, _cid: &Cid) -> Result<Option<u64>, Failed> {
        Ok(None)
    }

    fn at(&mut self, _position: u64) -> Result<Option<Cid>, Failed> {
        Ok(None)
    }

    fn linked(&mut self, _cid: &Cid) -> Result<bool, Failed> {
        Ok(false)
    }

    fn heads(&mut self, alloc: Global) -> Result<List<HeadRow>, KeepError> {
        if self.count == 0 {
            return Ok(List::new(alloc));
        }
        Ok(one_head(alloc, self.count)?)
    }

    fn live_elements(&mut self, alloc: Global, key: &str) -> Result<List<ElementRow>, KeepError> {
        Ok(elements_of(alloc, key, self.count, self.hidden.as_str())?)
    }

    fn hidden(&mut self, _key: &str, id: &str) -> Result<bool, Failed> {
        Ok(self.hidden.as_str() == id)
    }

    fn hides(&mut self, alloc: Global, _key: &str, cid: &Cid) -> Result<bool, KeepError> {
        Ok(self.hidden.as_str() == id_of(alloc, cid)?.as_str())
    }

    fn value(&mut self, alloc: Global, key: &str) -> Result<Option<RankedValue>, KeepError> {
        self.read()?;
        Ok(find_value(alloc, self.rows.as_slice(), key)?)
    }

    fn layout(&mut self, _alloc: Global) -> Result<Layout, KeepError> {
        Ok(Layout::Two)
    }

    fn winner(&mut self, _key: &str) -> Result<Option<Cid>, Failed> {
        Ok(None)
    }

    fn has(&mut self, key: &str) -> Result<bool, Failed> {
        Ok(has_row(self.rows.as_slice(), key))
    }

    fn values_from(
        &mut self,
        alloc: Global,
        bound: &str,
        inclusive: bool,
        most: u64,
    ) -> Result<List<ValueRow>, KeepError> {
        self.read()?;
        Ok(rows_from(alloc, self.rows.as_slice(), bound, inclusive, most)?)
    }

    fn key_from(
        &mut self,
        alloc: Global,
        bound: &str,
        inclusive: bool,
        place: u64,
    ) -> Result<Option<Text>, KeepError> {
        self.read()?;
        Ok(key_at(alloc, self.rows.as_slice(), bound, inclusive, place)?)
    }

    fn reserve(&mut self, rows: u64) -> Result<(), AllocError> {
        self.room = self.room.max(rows);
        Ok(())
    }

    fn commit(&mut self, _changes: Changes) -> Result<(), Failed> {
        Ok(())
    }
}
