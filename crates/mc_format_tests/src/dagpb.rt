// Nodes by the vectors of this profile, with the link of the empty block.
use crate::texts::bytes_of;
use mc_base::{Cid, List};
use mc_dagpb::{
    Node, NodeError, NodeFault, NodeFaultKind, NodeView, node_len, read_node, view_node, write_node,
};
use std::alloc::Global;
use std::test::Fail;

// Whether a node has so many links, each to the empty block, and this payload.
fn is_node(node: &Node, links: usize, payload: Option<&[u8]>) -> bool {
    for link in node.links.as_slice() {
        if link.as_slice() != Cid::of(&[]).bytes().as_slice() {
            return false;
        }
    }
    let same = match (&node.payload, payload) {
        (Some(payload), Some(wanted)) => payload.as_slice() == wanted,
        (None, None) => true,
        _ => false,
    };
    node.links.len() == links && same
}

fn is_read(alloc: Global, text: &str, links: usize, payload: Option<&[u8]>) -> Result<bool, Fail> {
    let bytes = bytes_of(alloc, text)?;
    match read_node(alloc, bytes.as_slice()) {
        Ok(node) => Ok(is_node(&node, links, payload)),
        Err(_) => Ok(false),
    }
}

#[test]
fn nodes_are_read_by_the_vectors(rt: HostRuntime) -> Result<(), Fail> {
    // the node, the number of its links, and its payload
    let rows: [(&str, usize, Option<&[u8]>); 8] = [
        ("", 0, None),
        ("0a00", 0, Some(b"")),
        ("122a H 12001800", 1, None),
        ("1226 H", 1, None),
        ("0a001226 H", 1, Some(b"")),
        ("1226 H 1226 H", 2, None),
        ("1226 H 0a0161", 1, Some(b"a")),
        ("9200a600 H", 1, None),
    ];
    for (text, links, payload) in rows {
        assert!(rt; is_read(rt.alloc(), text, links, payload)?, "{text}");
    }
    Ok(())
}

fn fault_of(alloc: Global, text: &str) -> Result<Option<NodeFault>, Fail> {
    let bytes = bytes_of(alloc, text)?;
    match read_node(alloc, bytes.as_slice()) {
        Err(NodeError::Fault(fault)) => Ok(Some(fault)),
        _ => Ok(None),
    }
}

#[test]
fn faults_are_the_first_by_the_vectors(rt: HostRuntime) -> Result<(), Fail> {
    let rows = [
        ("12281200 H", NodeFaultKind::Order, 4),
        ("12021200", NodeFaultKind::NoHash, 0),
        ("0a000a00", NodeFaultKind::Order, 2),
        ("1226 H 0a001226 H", NodeFaultKind::Order, 42),
        ("1a00", NodeFaultKind::BadField, 0),
        ("0801", NodeFaultKind::WireType, 0),
        ("0a05", NodeFaultKind::Short, 0),
        ("122a H 12011801", NodeFaultKind::BadField, 43),
        ("80808080808080808080", NodeFaultKind::LongVarint, 0),
        ("0aff7f", NodeFaultKind::Short, 0),
        ("03", NodeFaultKind::BadField, 0),
        ("1229 H 1201ff", NodeFaultKind::NameText, 40),
        ("0a0012020a05", NodeFaultKind::Short, 4),
    ];
    for (text, kind, at) in rows {
        let found = fault_of(rt.alloc(), text)?;
        assert!(rt; found == Some(NodeFault { kind, at }), "{text}");
    }
    Ok(())
}

// Whether a view has two links to the empty block and the payload `a`.
fn is_view(view: &NodeView<'_>) -> bool {
    let empty = Cid::of(&[]).bytes();
    match view.links.as_slice() {
        [first, second] => {
            *first == empty.as_slice()
                && *second == empty.as_slice()
                && view.payload == Some(b"a".as_slice())
        }
        _ => false,
    }
}

#[test]
fn a_view_has_the_links_and_the_data(rt: HostRuntime) -> Result<(), Fail> {
    let bytes = bytes_of(rt.alloc(), "1226 H 1226 H 0a0161")?;
    let is_so = match view_node(rt.alloc(), bytes.as_slice()) {
        Ok(view) => is_view(&view),
        Err(_) => false,
    };
    assert!(rt; is_so);
    Ok(())
}

#[test]
fn a_node_of_a_thousand_links_is_read_back(rt: HostRuntime) -> Result<(), Fail> {
    let cid = Cid::of(&[]);
    let mut links = List::new(rt.alloc());
    for _ in 0..1000 {
        links.push(cid)?;
    }
    let written = write_node(rt.alloc(), links.as_slice(), &[0x61; 200])?;
    let bytes = written.as_slice();
    assert!(rt; bytes.len() as u64 == node_len(1000, 200));
    assert!(rt; bytes.starts_with(&[0x12, 0x2a, 0x0a, 0x24]));
    let is_back = match read_node(rt.alloc(), bytes) {
        Ok(node) => is_node(&node, 1000, Some(&[0x61; 200])),
        Err(_) => false,
    };
    assert!(rt; is_back);
    Ok(())
}
