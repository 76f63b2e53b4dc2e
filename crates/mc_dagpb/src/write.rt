// Writing a node.
ghost use Rattle.std.specs.Prelude.{◌≡◌, ◌+◌, ◌*◌, ◌^◌, ◌<◌, ◌++◌, ℕ, List, length, IfOk, OnOk};
ghost use Rattle.std.specs.List.{flat_map};
ghost use Rattle.mc_base.specs.Node.{link_bytes, node_bytes};
ghost use Rattle.mc_base.specs.Wire.{varint_bytes};

use crate::order::DATA;
use mc_base::{Bytes, Cid};
use mc_wire::{put_part_head, varint_len};
use std::alloc::{AllocError, Global};

// A link with a Hash of 36 bytes.
const LINK_HEAD: [u8; 4] = [0x12, 0x2a, 0x0a, 0x24];

// An empty Name, and a Tsize of 0.
const LINK_TAIL: [u8; 4] = [0x12, 0x00, 0x18, 0x00];

const LINK_LEN: u64 = 44;

/// The written spelling of a node: the links in this order, and then Data, also where it is empty.
pub fn write_node(alloc: Global, links: &[Cid], payload: &[u8]) -> Result<Bytes, AllocError>
    ensures { IfOk result (λ bytes. bytes ≡ node_bytes links.now payload.now) }
{
    let mut out = begin_node(alloc, links, payload.len() as u64)?;
    out.extend_from_slice(payload)?;
    Ok(out)
}

/// The written spelling of a node up to its payload, of which the length is given in bytes, with room for that: with
/// the payload behind it, it is the node.
pub fn begin_node(alloc: Global, links: &[Cid], len: u64) -> Result<Bytes, AllocError>
    ensures { IfOk result (λ bytes. (payload : List ℕ) → length payload ≡ len →
        bytes ++ payload ≡ node_bytes links.now payload) }
{
    let room = links
        .len()
        .saturating_mul(LINK_LEN as usize)
        .saturating_add(1 + varint_len(len) as usize)
        .saturating_add(len as usize);
    let mut out = Bytes::with_capacity(alloc, room)?;
    push_links(&mut out, links)?;
    put_part_head(&mut out, DATA, len)?;
    Ok(out)
}

fn push_links(out: &mut Bytes, links: &[Cid]) -> Result<(), AllocError>
    ensures { OnOk result (out.new ≡ out.old ++ flat_map link_bytes links.now) }
{
    for link in links {
        push_link(out, link)?;
    }
    Ok(())
}

fn push_link(out: &mut Bytes, link: &Cid) -> Result<(), AllocError>
    ensures { OnOk result (out.new ≡ out.old ++ link_bytes link.now) }
{
    out.extend_from_slice(&LINK_HEAD)?;
    out.extend_from_slice(&link.bytes())?;
    out.extend_from_slice(&LINK_TAIL)
}

/// The length of the written spelling of a node with so many links and so many bytes of payload.
pub fn node_len(links: u64, payload: u64) -> u64
    requires { (links < 2 ^ 32) × (payload < 2 ^ 48) }
    ensures { result ≡ 44 * links + 1 + length (varint_bytes payload) + payload }
{
    LINK_LEN * links + 1 + varint_len(payload) + payload
}
