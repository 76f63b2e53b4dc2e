// Reading a block.
ghost use Rattle.std.specs.Prelude.{◌≡◌, true, map, Ok, Err, IfOk, IfErr, OnOk};
ghost use Rattle.std.specs.Option.{option_map};
ghost use Rattle.mc_base.specs.Cid.{digest_of};
ghost use Rattle.mc_base.specs.NodeRead.{node_of};
ghost use Rattle.mc_model.specs.Offer as offers;
ghost use Rattle.mc_model.specs.Offer.{offer, is_good, block_of, block_of_node, cid_of_bytes, links_from, data_of};
ghost use Rattle.mc_dagpb.specs.Reads.{view_text};
ghost use Rattle.mc_block.specs.Faults.{damage_of};
ghost use Rattle.mc_base.specs.declared.cid.Cid.{Cid as Identifier};
ghost use Rattle.mc_block.specs.Reads.{IsDamage, node_links, named_links};

use crate::{BlockError, Damage};
use mc_base::{Cid, List};
use mc_dagpb::{NodeView, view_node};
use mc_delta::read_delta;
use mc_model::{Block, Delta};
use std::alloc::{AllocError, AllocFailed, Global};

// The most bytes of a block.
const BLOCK_MOST: usize = 1_048_576;

/// The block that the bytes are under the content identifier. The first damage, in the order of `Damage`, is the answer
/// for bytes that are none. A node without data has the empty delta, and a link may stand twice. Keys, ids and values
/// are copied once, from the bytes into the block.
pub fn read_block(alloc: Global, cid: &Cid, bytes: &[u8]) -> Result<Block, BlockError>
    ensures named { IfOk result (λ block. block.cid ≡ cid.now) }
    ensures good { IfOk result (λ block. offer cid.now bytes.now ≡ Ok block) }
    ensures damaged { IfErr result (λ error. IsDamage (offer cid.now bytes.now) error) }
{
    check_digest(cid, bytes)?;
    let node = view_node(alloc, bytes)?;
    read_content(alloc, cid, &node)
}

/// The same of bytes that have the digest of the content identifier, which is not computed again.
pub fn read_found(alloc: Global, cid: &Cid, bytes: &[u8]) -> Result<Block, BlockError>
    requires digest { digest_of bytes.now ≡ cid.now.0 }
    ensures named { IfOk result (λ block. block.cid ≡ cid.now) }
    ensures good { IfOk result (λ block. offer cid.now bytes.now ≡ Ok block) }
    ensures damaged { IfErr result (λ error. IsDamage (offer cid.now bytes.now) error) }
{
    check_size(cid, bytes)?;
    let node = view_node(alloc, bytes)?;
    read_content(alloc, cid, &node)
}

/// The links that bytes have as a node, and none where they are no node, or a link of it is no identifier. Of bytes
/// that are a block under an identifier these are the block's. No digest is computed, and Data is not looked into.
pub fn links_of(alloc: Global, bytes: &[u8]) -> Result<List<Cid>, AllocError>
    ensures links { IfOk result (λ links. links ≡ named_links bytes.now) }
    ensures good { IfOk result (λ links. (cid : Identifier) → is_good cid bytes.now ≡ true →
        links ≡ (block_of cid bytes.now).links) }
{
    match view_links(alloc, bytes) {
        Ok(links) => Ok(links),
        Err(BlockError::Damaged(_)) => Ok(List::new(alloc)),
        Err(BlockError::Memory) => Err(AllocError),
    }
}

// The same, or the damage where there are none.
fn view_links(alloc: Global, bytes: &[u8]) -> Result<List<Cid>, BlockError>
    ensures good { IfOk result (λ links. node_links (node_of bytes.now) ≡ Ok links) }
    ensures damaged { IfErr result (λ error. IsDamage (node_links (node_of bytes.now)) error) }
{
    let node = view_node(alloc, bytes)?;
    read_links(alloc, node.links.as_slice())
}

// Bytes with the digest that aren't too many are the block that their node is.
fn check_size(cid: &Cid, bytes: &[u8]) -> Result<(), Damage>
    requires digest { digest_of bytes.now ≡ cid.now.0 }
    ensures sound { OnOk result (offer cid.now bytes.now ≡ block_of_node cid.now (node_of bytes.now)) }
    ensures damaged { IfErr result (λ damage. offer cid.now bytes.now ≡ Err (damage_of damage)) }
{
    let _cid = cid;
    if bytes.len() > BLOCK_MOST {
        return Err(Damage::TooLarge {
            len: bytes.len() as u64,
        });
    }
    Ok(())
}

// Bytes that aren't too many and have the digest are the block that their node is.
fn check_digest(cid: &Cid, bytes: &[u8]) -> Result<(), Damage>
    ensures sound { OnOk result (offer cid.now bytes.now ≡ block_of_node cid.now (node_of bytes.now)) }
    ensures damaged { IfErr result (λ damage. offer cid.now bytes.now ≡ Err (damage_of damage)) }
{
    if bytes.len() > BLOCK_MOST {
        return Err(Damage::TooLarge {
            len: bytes.len() as u64,
        });
    }
    let found = Cid::of(bytes);
    if found != *cid {
        return Err(Damage::WrongDigest { found });
    }
    Ok(())
}

fn read_content(alloc: Global, cid: &Cid, node: &NodeView<'_>) -> Result<Block, BlockError>
    ensures named { IfOk result (λ block. block.cid ≡ cid.now) }
    ensures good { IfOk result (λ block. block_of_node cid.now (Ok (view_text node.now)) ≡ Ok block) }
    ensures damaged { IfErr result (λ error. IsDamage (block_of_node cid.now (Ok (view_text node.now))) error) }
{
    let links = read_links(alloc, node.links.as_slice())?;
    let delta = read_data(alloc, node.payload)?;
    Ok(Block {
        cid: *cid,
        links,
        delta,
    })
}

fn read_links(alloc: Global, links: &[&[u8]]) -> Result<List<Cid>, BlockError>
    ensures good { IfOk result (λ cids. links_from 0 (map (λ link. link.now) links.now) ≡ Ok cids) }
    ensures damaged { IfErr result (λ error. IsDamage (links_from 0 (map (λ link. link.now) links.now)) error) }
{
    let mut cids = List::with_capacity(alloc, links.len())?;
    for link in links {
        match read_cid(link) {
            Some(cid) => cids.push(cid)?,
            None => {
                return Err(BlockError::Damaged(Damage::BadLink {
                    index: cids.len() as u64,
                }));
            }
        }
    }
    Ok(cids)
}

fn read_cid(link: &[u8]) -> Option<Cid>
    ensures { result ≡ cid_of_bytes link.now }
{
    Cid::from_bytes(link)
}

// Data as a delta: none is the empty one.
fn read_data(alloc: Global, payload: Option<&[u8]>) -> Result<Delta, BlockError>
    ensures good { IfOk result (λ delta. data_of (option_map (λ bytes. bytes.now) payload.entry) ≡ Ok delta) }
    ensures damaged { IfErr result (λ error. IsDamage (data_of (option_map (λ bytes. bytes.now) payload.entry)) error) }
{
    match payload {
        Some(bytes) => Ok(read_delta(alloc, bytes)?),
        None => Ok(empty_delta(alloc)),
    }
}

fn empty_delta(alloc: Global) -> Delta
    ensures { result ≡ offers.empty_delta }
{
    Delta {
        elements: List::new(alloc),
        tombstones: List::new(alloc),
        priority: 0,
    }
}
