// Writing a file.
ghost use Rattle.std.specs.Prelude.{◌≡◌, [], ◌∷◌, ◌++◌, ◌≤◌, length, IfOk, OnOk};
ghost use Rattle.std.specs.List.{flat_map};
ghost use Rattle.mc_car.specs.Car as car;
ghost use Rattle.mc_car.specs.Car.{IsCarText};
ghost use Rattle.mc_car.specs.Places.{AddsSections};
ghost use Rattle.mc_car.specs.Steps.{AppendsPiece, AppendsSections};

use crate::car::Section;
use crate::layout::{CID_LEN, HEADER_END, HEADER_START, ROOT_START};
use mc_base::{Bytes, Cid, write_varint};
use std::alloc::{AllocError, Global};

// The most bytes of a block whose section has a length below 2^63.
const BLOCK_MOST: usize = 0x7fff_ffff_ffff_ffdb;

// The most bytes of a varint.
const VARINT_MOST: usize = 9;

/// The CARv1 file with these roots and sections, in this order (IPLD CARv1 specification). Whether a block's bytes have
/// its identifier isn't looked at; a file whose sections are named by their bytes is read again as these.
pub fn write_car(alloc: Global, roots: &[Cid], sections: &[Section]) -> Result<Bytes, AllocError>
    requires few { length roots.now ≤ 255 }
    ensures { IfOk result (λ bytes. IsCarText bytes roots.now sections.now) }
{
    let header = header(alloc, roots)?;
    let mut out = Bytes::with_capacity(alloc, room(header.len(), sections))?;
    put_piece(&mut out, header.as_slice())?;
    put_sections(&mut out, sections)?;
    Ok(out)
}

/// Adds a section to the end of a file. Whether the block's bytes have the identifier isn't looked at. A refusal may leave
/// a part of the section.
pub fn add_section(file: &mut Bytes, cid: &Cid, block: &[u8]) -> Result<(), AllocError>
    ensures { OnOk result (AddsSections file.old file.new (record { cid = cid.now; bytes = block.now } ∷ [])) }
{
    put_block(file, cid, block)
}

// Room for a file with a header of this length: each varint counts as the longest.
fn room(header: usize, sections: &[Section]) -> usize {
    let mut room = VARINT_MOST.saturating_add(header);
    for section in sections {
        room = room.saturating_add(VARINT_MOST + CID_LEN);
        room = room.saturating_add(section.bytes.len());
    }
    room
}

// The header that names these roots.
fn header(alloc: Global, roots: &[Cid]) -> Result<Bytes, AllocError>
    requires few { length roots.now ≤ 255 }
    ensures { IfOk result (λ bytes. bytes ≡ car.header_bytes roots.now) }
{
    let mut out = Bytes::from_slice(alloc, &HEADER_START)?;
    put_count(&mut out, roots.len() as u8)?;
    put_roots(&mut out, roots)?;
    out.extend_from_slice(&HEADER_END)?;
    Ok(out)
}

fn put_count(out: &mut Bytes, count: u8) -> Result<(), AllocError>
    ensures { OnOk result (out.new ≡ out.old ++ car.array_head count) }
{
    if count < 24 {
        return out.extend_from_slice(&[0x80 + count]);
    }
    out.extend_from_slice(&[0x98, count])
}

fn put_roots(out: &mut Bytes, roots: &[Cid]) -> Result<(), AllocError>
    ensures { OnOk result (out.new ≡ out.old ++ flat_map car.root_bytes roots.now) }
{
    for root in roots {
        put_root(out, root)?;
    }
    Ok(())
}

fn put_root(out: &mut Bytes, root: &Cid) -> Result<(), AllocError>
    ensures { OnOk result (out.new ≡ out.old ++ car.root_bytes root.now) }
{
    out.extend_from_slice(&ROOT_START)?;
    out.extend_from_slice(&root.bytes())
}

// A length, and as many bytes.
fn put_piece(out: &mut Bytes, body: &[u8]) -> Result<(), AllocError>
    ensures { OnOk result (AppendsPiece out.old out.new body.now) }
{
    write_varint(body.len() as u64, out)?;
    out.extend_from_slice(body)
}

fn put_sections(out: &mut Bytes, sections: &[Section]) -> Result<(), AllocError>
    ensures { OnOk result (AppendsSections out.old out.new sections.now) }
{
    for section in sections {
        put_section(out, section)?;
    }
    Ok(())
}

fn put_section(out: &mut Bytes, section: &Section) -> Result<(), AllocError>
    ensures { OnOk result (AppendsPiece out.old out.new (car.section_body section.now)) }
{
    put_block(out, &section.cid, section.bytes.as_slice())
}

// A length, the identifier and the block. A block whose section's length has no varint has no room in memory twice.
fn put_block(out: &mut Bytes, cid: &Cid, block: &[u8]) -> Result<(), AllocError>
    ensures { OnOk result (AppendsPiece out.old out.new (car.cid_bytes cid.now ++ block.now)) }
{
    let len = block.len();
    if len > BLOCK_MOST {
        return Err(AllocError);
    }
    write_varint(CID_LEN as u64 + len as u64, out)?;
    out.extend_from_slice(&cid.bytes())?;
    out.extend_from_slice(block)
}
