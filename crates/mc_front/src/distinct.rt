// The links of a group of blocks, each once.
ghost use Rattle.std.specs.Prelude.{◌≡◌, fold, IfOk, IfSome, OnOk};
ghost use Rattle.indexmap.specs.IndexSet.{insert_key};
ghost use Rattle.mc_model.specs.Front.{same_cid, is_among};
ghost use Rattle.mc_front.specs.Steps.{with_links, different_links};
ghost use Rattle.mc_front.specs.Distinct.{cids_in};

use crate::adding::add;
use indexmap::IndexSet;
use mc_base::{Cid, List};
use mc_model::Block;
use std::alloc::{AllocError, Global};

// As many links are looked through one after another: a list of so few takes less time than a table.
const FEW: usize = 8;

// Identifiers, each once. At most one is lent.
#[derive(Drop)]
pub(crate) enum Distinct<'a> {
    Lent(&'a [Cid]),
    Few(List<Cid>),
    Many(IndexSet<Cid>),
}

impl<'a> Distinct<'a> {
    pub(crate) fn as_slice(&self) -> &[Cid]
        ensures { result.now ≡ cids_in self.now }
    {
        match self {
            Distinct::Lent(cids) => *cids,
            Distinct::Few(cids) => cids.as_slice(),
            Distinct::Many(cids) => cids.as_slice(),
        }
    }

    pub(crate) fn contains(&self, cid: &Cid) -> bool
        ensures { result ≡ is_among (cids_in self.now) cid.now }
    {
        match self {
            Distinct::Lent(cids) => has(*cids, cid),
            Distinct::Few(cids) => has(cids.as_slice(), cid),
            Distinct::Many(cids) => cids.contains(cid),
        }
    }
}

// The links of the blocks, each once.
pub(crate) fn links_of<'a>(alloc: Global, blocks: &'a [Block]) -> Result<Distinct<'a>, AllocError>
    ensures { IfOk result (λ links. cids_in links ≡ different_links blocks.now) }
{
    if let Some(links) = only_link(blocks) {
        return Ok(Distinct::Lent(links));
    }
    let count = link_count(blocks);
    if count <= FEW {
        return Ok(Distinct::Few(few_links(alloc, blocks, count)?));
    }
    Ok(Distinct::Many(many_links(alloc, blocks)?))
}

// The link of a block, or none of it, where it is the only block and has no more.
fn only_link<'a>(blocks: &'a [Block]) -> Option<&'a [Cid]>
    ensures { IfSome result (λ links. links.now ≡ different_links blocks.now) }
{
    let [block] = blocks else {
        return None;
    };
    let links = block.links.as_slice();
    match links {
        [] | [_] => Some(links),
        _ => None,
    }
}

// How many links the blocks have, repeats too.
fn link_count(blocks: &[Block]) -> usize {
    let mut count = 0usize;
    for block in blocks {
        count = count.saturating_add(block.links.as_slice().len());
    }
    count
}

fn few_links(alloc: Global, blocks: &[Block], count: usize) -> Result<List<Cid>, AllocError>
    ensures { IfOk result (λ links. links ≡ different_links blocks.now) }
{
    let mut links = List::with_capacity(alloc, count)?;
    for block in blocks {
        add_links(&mut links, block.links.as_slice())?;
    }
    Ok(links)
}

fn add_links(links: &mut List<Cid>, new: &[Cid]) -> Result<(), AllocError>
    ensures { OnOk result (links.new ≡ fold (insert_key same_cid) links.old new.now) }
{
    for link in new {
        add_link(links, link)?;
    }
    Ok(())
}

fn add_link(links: &mut List<Cid>, link: &Cid) -> Result<(), AllocError>
    ensures { OnOk result (links.new ≡ insert_key same_cid links.old link.now) }
{
    if has(links.as_slice(), link) {
        return Ok(());
    }
    add(links, *link)
}

fn has(cids: &[Cid], cid: &Cid) -> bool
    ensures { result ≡ is_among cids.now cid.now }
{
    for other in cids {
        if cid == other {
            return true;
        }
    }
    false
}

fn many_links(alloc: Global, blocks: &[Block]) -> Result<IndexSet<Cid>, AllocError>
    ensures { IfOk result (λ links. links.keys ≡ different_links blocks.now) }
{
    let mut links = IndexSet::new(alloc);
    for block in blocks {
        insert_links(&mut links, block.links.as_slice())?;
    }
    Ok(links)
}

fn insert_links(links: &mut IndexSet<Cid>, new: &[Cid]) -> Result<(), AllocError>
    ensures { OnOk result (links.new.keys ≡ fold (insert_key same_cid) links.old.keys new.now) }
{
    for link in new {
        links.insert(*link)?;
    }
    Ok(())
}
