// Blocks and damages by vectors that were computed outside.
use crate::texts::bytes_of;
use mc_base::{Bytes, Cid, List, Text};
use mc_block::{BlockError, Damage, read_block, write_block};
use mc_dagpb::{NodeFault, NodeFaultKind};
use mc_delta::{DeltaFault, DeltaFaultKind};
use mc_model::{Block, Delta, Element, id_of};
use mc_wire::WireFault;
use std::alloc::{AllocError, Global};
use std::test::Fail;

// The block of a first put of the byte 01 at /a, and its SHA-256.
const PUT: &str = "0a0b0a070a022f611a01011801";

const PUT_DIGEST: &str = "f65ffe16440b1a31e860eac96a083bc5d39cf3be7792050176b992fd0942c0c2";

fn node_damage(kind: NodeFaultKind) -> Damage {
    Damage::NotDagPb {
        fault: NodeFault { kind, at: 0 },
    }
}

fn delta_damage(kind: DeltaFaultKind, at: usize) -> Damage {
    Damage::BadDelta {
        fault: DeltaFault { kind, at },
    }
}

fn wire(fault: WireFault) -> DeltaFaultKind {
    DeltaFaultKind::Wire { fault }
}

// The damage of the bytes under the identifier, or none.
fn damage(alloc: Global, cid: &Cid, bytes: &[u8]) -> Result<Option<Damage>, AllocError> {
    match read_block(alloc, cid, bytes) {
        Ok(_) => Ok(None),
        Err(BlockError::Damaged(damage)) => Ok(Some(damage)),
        Err(BlockError::Memory) => Err(AllocError),
    }
}

// The same under their own identifier.
fn own_damage(alloc: Global, text: &str) -> Result<Option<Damage>, Fail> {
    let bytes = bytes_of(alloc, text)?;
    Ok(damage(alloc, &Cid::of(bytes.as_slice()), bytes.as_slice())?)
}

#[test]
fn damages_are_the_first_by_the_vectors(rt: HostRuntime) -> Result<(), Fail> {
    let rows = [
        ("616263", node_damage(NodeFaultKind::BadField), 3),
        (
            "80808080808080808080",
            node_damage(NodeFaultKind::LongVarint),
            3,
        ),
        ("0aff7f", node_damage(NodeFaultKind::Short), 3),
        ("12030a0100", Damage::BadLink { index: 0 }, 4),
        ("12020a00", Damage::BadLink { index: 0 }, 4),
        ("1226 H 12020a00", Damage::BadLink { index: 1 }, 4),
        ("0a011b", delta_damage(wire(WireFault::WireType), 0), 5),
        ("0a021b00", delta_damage(wire(WireFault::WireType), 0), 5),
        (
            "0a050a030a01ff",
            delta_damage(DeltaFaultKind::TextFault, 2),
            5,
        ),
        (
            "0a0b18ffffffffffffffffffff",
            delta_damage(wire(WireFault::LongVarint), 0),
            5,
        ),
    ];
    for (text, want, number) in rows {
        assert!(rt; own_damage(rt.alloc(), text)? == Some(want), "{text}");
        assert!(rt; want.number() == number, "{text}");
    }
    Ok(())
}

#[test]
fn size_and_digest_are_looked_at_first(rt: HostRuntime) -> Result<(), Fail> {
    let alloc = rt.alloc();
    let empty = Cid::of(&[]);
    let found = Cid::of(&[0]);
    let wrong = Damage::WrongDigest { found };
    assert!(rt; damage(alloc, &empty, &[0])? == Some(wrong) && wrong.number() == 2);
    let zeros = vec![in alloc; 0_u8; 1_048_577]?;
    let all = zeros.as_slice();
    let large = Damage::TooLarge { len: 1_048_577 };
    assert!(rt; damage(alloc, &Cid::of(all), all)? == Some(large) && large.number() == 1);
    assert!(rt; damage(alloc, &empty, all)? == Some(large));
    let most = &all[1..];
    let zero = node_damage(NodeFaultKind::BadField);
    assert!(rt; damage(alloc, &Cid::of(most), most)? == Some(zero));
    Ok(())
}

// Whether a block without elements and tombstones has so many links, each to the empty block, and this priority.
fn is_bare(block: &Block, links: usize, priority: u64) -> bool {
    for link in block.links.as_slice() {
        if *link != Cid::of(&[]) {
            return false;
        }
    }
    block.links.len() == links
        && block.delta.elements.len() == 0
        && block.delta.tombstones.len() == 0
        && block.delta.priority == priority
}

fn is_read(alloc: Global, text: &str, links: usize, priority: u64) -> Result<bool, Fail> {
    let bytes = bytes_of(alloc, text)?;
    let cid = Cid::of(bytes.as_slice());
    match read_block(alloc, &cid, bytes.as_slice()) {
        Ok(block) => Ok(block.cid == cid && is_bare(&block, links, priority)),
        Err(_) => Ok(false),
    }
}

#[test]
fn blocks_without_elements_are_read(rt: HostRuntime) -> Result<(), Fail> {
    // the block, the number of its links, and its priority
    let rows = [
        ("", 0, 0),
        ("0a00", 0, 0),
        ("0a0428071802", 0, 2),
        ("1226 H 1226 H", 2, 0),
    ];
    for (text, links, priority) in rows {
        assert!(rt; is_read(rt.alloc(), text, links, priority)?, "{text}");
    }
    Ok(())
}

fn element(alloc: Global) -> Result<Element, AllocError> {
    let key = Text::from_text(alloc, "/a")?;
    let value = Bytes::from_slice(alloc, &[1])?;
    Ok(Element { key, value })
}

fn put(alloc: Global) -> Result<Delta, AllocError> {
    let mut elements = List::new(alloc);
    elements.push(element(alloc)?)?;
    Ok(Delta {
        elements,
        tombstones: List::new(alloc),
        priority: 1,
    })
}

// Whether a block is read with these links, and written as the same again.
fn is_read_back(alloc: Global, cid: &Cid, bytes: &[u8], links: &[Cid]) -> Result<bool, Fail> {
    match read_block(alloc, cid, bytes) {
        Ok(block) => {
            let again = write_block(alloc, block.links.as_slice(), &block.delta)?;
            Ok(
                block.links.as_slice() == links
                    && block.delta.priority == 1
                    && again.cid == *cid
                    && again.bytes.as_slice() == bytes,
            )
        }
        Err(_) => Ok(false),
    }
}

#[test]
fn a_put_is_made_and_read_back(rt: HostRuntime) -> Result<(), Fail> {
    let alloc = rt.alloc();
    let empty = Cid::of(&[]);
    let id = id_of(alloc, &empty)?;
    assert!(rt; id.as_str() == "/CIQOHMGEIKMPYHAUTL57JSEZN64SIJ5OIHSGJG4TJSSJLGI3PBJLQVI");
    let delta = put(alloc)?;
    let first = write_block(alloc, &[], &delta)?;
    assert!(rt; first.bytes.as_slice() == bytes_of(alloc, PUT)?.as_slice());
    assert!(rt; first.cid.0.as_slice() == bytes_of(alloc, PUT_DIGEST)?.as_slice());
    let links = [first.cid, empty];
    let next = write_block(alloc, &links, &delta)?;
    assert!(rt; next.bytes.len() == 101);
    assert!(rt; is_read_back(alloc, &next.cid, next.bytes.as_slice(), &links)?);
    Ok(())
}
