// The elements of a group of blocks, by their keys.
ghost use Rattle.std.specs.Prelude.{refl, ◌≡◌, ◌++◌, map, IfOk, OnOk};
ghost use Rattle.std.proofs.Common.{◌∙◌};
ghost use Rattle.std.specs.Ordering.{eq_by_cmp, as_partial_cmp};
ghost use Rattle.std.specs.Cmp.{partial_order_from_total};
ghost use Rattle.std.specs.List.Sorted.{IsStrictlySortedBy};
ghost use Rattle.std.proofs.lemmas.Cmp.{eq_by_cmp_equiv};
ghost use Rattle.mc_model.specs.SameMembers.{SameMembers};
ghost use Rattle.mc_keep.specs.Tables.{element_row, element_rows};
ghost use Rattle.mc_rows.specs.Rows.{new_element_cmp, new_element_total, row_of, rows_of};

use mc_base::{Bytes, Cid, List, Text};
use mc_keep::ElementRow;
use mc_model::Block;
use std::alloc::{AllocError, Global};
use std::cmp::Ordering;

// An element of a block of the group.
#[derive(Clone, Copy)]
pub(crate) struct NewElement<'a> {
    pub(crate) key: &'a str,
    pub(crate) value: &'a [u8],
    pub(crate) block: &'a Block,
}

impl<'a> NewElement<'a> {
    pub(crate) fn cid(&self) -> &Cid
        ensures { result.now ≡ (row_of self.now).cid }
    {
        &self.block.cid
    }

    // The same for as long as the block lives.
    pub(crate) fn cid_of(&self) -> &'a Cid
        ensures { result.now ≡ (row_of self.now).cid }
    {
        let block: &'a Block = self.block;
        &block.cid
    }

    pub(crate) fn priority(&self) -> u64
        ensures { result ≡ (row_of self.now).priority }
    {
        self.block.delta.priority
    }
}

impl<'a> PartialEq for NewElement<'a> {
    ghost eq = { eq_by_cmp new_element_cmp };

    ghost laws = { record {
      symm = (eq_by_cmp_equiv new_element_total).symm;
      trans = λ x y z e f. (eq_by_cmp_equiv new_element_total).congr x y z e ∙ f;
    } };

    fn eq(&self, other: &NewElement<'a>) -> bool {
        self.cmp(other).is_eq()
    }
}

impl<'a> Eq for NewElement<'a> {
    ghost laws = { eq_by_cmp_equiv new_element_total };
}

impl<'a> PartialOrd for NewElement<'a> {
    ghost partial_cmp = { as_partial_cmp new_element_cmp };

    ghost laws = { partial_order_from_total new_element_total };

    fn partial_cmp(&self, other: &NewElement<'a>) -> Option<Ordering> {
        Some(self.cmp(other))
    }
}

// By the key, and then by the block, the value and the priority.
impl<'a> Ord for NewElement<'a> {
    ghost cmp = { new_element_cmp };

    ghost total = { new_element_total };

    ghost matches_partial_cmp = { λ x y. refl };

    ghost matches_eq = { λ x y. refl };

    fn cmp(&self, other: &NewElement<'a>) -> Ordering {
        self.key
            .as_bytes()
            .cmp(other.key.as_bytes())
            .then(self.cid().cmp(other.cid()))
            .then(self.value.cmp(other.value))
            .then(self.priority().cmp(&other.priority()))
    }
}

// The elements of the group, ascending, each once.
pub(crate) fn new_elements<'a>(
    alloc: Global,
    blocks: &'a [Block],
) -> Result<Vec<NewElement<'a>>, AllocError>
    ensures sorted { IfOk result (λ elements. IsStrictlySortedBy new_element_cmp elements.items) }
    ensures members { IfOk result (λ elements.
        SameMembers (rows_of elements.items) (element_rows blocks.now)) }
{
    let mut elements = gather(alloc, blocks)?;
    elements.sort_unstable();
    elements.dedup();
    Ok(elements)
}

fn gather<'a>(alloc: Global, blocks: &'a [Block]) -> Result<Vec<NewElement<'a>>, AllocError>
    ensures { IfOk result (λ elements. rows_of elements.items ≡ element_rows blocks.now) }
{
    let mut elements = Vec::with_capacity(alloc, element_count(blocks))?;
    for block in blocks {
        gather_of(block, &mut elements)?;
    }
    Ok(elements)
}

// How many elements the blocks have.
fn element_count(blocks: &[Block]) -> usize {
    let mut count = 0usize;
    for block in blocks {
        count = count.saturating_add(block.delta.elements.as_slice().len());
    }
    count
}

fn gather_of<'a>(block: &'a Block, elements: &mut Vec<NewElement<'a>>) -> Result<(), AllocError>
    ensures { OnOk result (rows_of elements.new.items ≡
        rows_of elements.old.items ++ map (element_row block.now) block.now.delta.elements) }
{
    for element in block.delta.elements.as_slice() {
        elements.push(NewElement {
            key: element.key.as_str(),
            value: element.value.as_slice(),
            block,
        })?;
    }
    Ok(())
}

// The rows of the elements.
pub(crate) fn element_rows_from(
    alloc: Global,
    elements: &[NewElement<'_>],
) -> Result<List<ElementRow>, AllocError>
    ensures { IfOk result (λ rows. rows ≡ rows_of elements.now) }
{
    let mut rows = List::with_capacity(alloc, elements.len())?;
    for element in elements {
        rows.push(element_row_from(alloc, element)?)?;
    }
    Ok(rows)
}

fn element_row_from(alloc: Global, element: &NewElement<'_>) -> Result<ElementRow, AllocError>
    ensures { IfOk result (λ row. row ≡ row_of element.now) }
{
    Ok(ElementRow {
        key: Text::from_text(alloc, element.key)?,
        cid: *element.cid(),
        priority: element.priority(),
        value: Bytes::from_slice(alloc, element.value)?,
    })
}
