// What the processed blocks of a block table have.
ghost use Rattle.std.specs.Prelude.{◌≡◌, ◌++◌, ◌∷◌, [], List, IfOk, OnOk, map, fold};
ghost use Rattle.indexmap.specs.IndexSet.{insert_key};
ghost use Rattle.mc_model.specs.declared.block.Block.{Block as Processed};
ghost use Rattle.mc_model.specs.Front.{same_cid};
ghost use Rattle.mc_raw.specs.RowTables.{element_line, tomb_line};
ghost use Rattle.mc_audit.specs.Rows.{head_row_of};
ghost use Rattle.mc_audit.specs.Found.{Gathers};

use indexmap::IndexSet;
use mc_base::{Bytes, Cid};
use mc_keep::HeadRow;
use mc_model::{Block, Element, Tomb};
use mc_raw::Row;
use std::alloc::{AllocError, Global};

// The elements, tombstones, links and heights of blocks.
#[derive(Drop)]
pub(crate) struct Found {
    pub(crate) elements: Vec<Row>,
    pub(crate) tombs: Vec<Row>,
    pub(crate) heads: Vec<HeadRow>,
    pub(crate) links: IndexSet<Cid>,
}

impl Found {
    pub(crate) fn new(alloc: Global) -> Found
        ensures { Gathers [] result }
    {
        Found {
            elements: Vec::new(alloc),
            tombs: Vec::new(alloc),
            heads: Vec::new(alloc),
            links: IndexSet::new(alloc),
        }
    }

    // Adds what one more block has.
    pub(crate) fn add(&mut self, alloc: Global, block: &Block) -> Result<(), AllocError>
        ensures { OnOk result ((blocks : List Processed) →
            Gathers blocks self.old → Gathers (blocks ++ block.now ∷ []) self.new) }
    {
        add_elements(alloc, &mut self.elements, block)?;
        add_tombs(alloc, &mut self.tombs, block.delta.tombstones.as_slice())?;
        add_links(&mut self.links, block.links.as_slice())?;
        add_head(&mut self.heads, block)?;
        Ok(())
    }
}

fn add_elements(alloc: Global, rows: &mut Vec<Row>, block: &Block) -> Result<(), AllocError>
    ensures { OnOk result (rows.new.items ≡ rows.old.items ++ map (element_line block.now) block.now.delta.elements) }
{
    for element in block.delta.elements.as_slice() {
        rows.push(element_row(alloc, block, element)?)?;
    }
    Ok(())
}

fn element_row(alloc: Global, block: &Block, element: &Element) -> Result<Row, AllocError>
    ensures { IfOk result (λ row. row ≡ element_line block.now element.now) }
{
    Ok(Row {
        a: Bytes::from_slice(alloc, element.key.as_bytes())?,
        b: Bytes::from_slice(alloc, &block.cid.0)?,
        c: element.value.try_clone(alloc)?,
        n: block.delta.priority,
    })
}

fn add_tombs(alloc: Global, rows: &mut Vec<Row>, tombs: &[Tomb]) -> Result<(), AllocError>
    ensures { OnOk result (rows.new.items ≡ rows.old.items ++ map tomb_line tombs.now) }
{
    for tomb in tombs {
        rows.push(tomb_row(alloc, tomb)?)?;
    }
    Ok(())
}

fn tomb_row(alloc: Global, tomb: &Tomb) -> Result<Row, AllocError>
    ensures { IfOk result (λ row. row ≡ tomb_line tomb.now) }
{
    Ok(Row {
        a: Bytes::from_slice(alloc, tomb.key.as_bytes())?,
        b: Bytes::from_slice(alloc, tomb.id.as_bytes())?,
        c: Bytes::new(alloc),
        n: 0,
    })
}

fn add_links(links: &mut IndexSet<Cid>, new: &[Cid]) -> Result<(), AllocError>
    ensures { OnOk result (links.new.keys ≡ fold (insert_key same_cid) links.old.keys new.now) }
{
    for link in new {
        links.insert(*link)?;
    }
    Ok(())
}

fn add_head(heads: &mut Vec<HeadRow>, block: &Block) -> Result<(), AllocError>
    ensures { OnOk result (heads.new.items ≡ heads.old.items ++ head_row_of block.now ∷ []) }
{
    heads.push(HeadRow {
        cid: block.cid,
        height: block.delta.priority,
    })?;
    Ok(())
}
