// Reading a node.
ghost use Rattle.std.specs.Prelude.{◌≡◌, Ok, IfOk, IfErr, OnOk, map};
ghost use Rattle.std.specs.Option.{option_map};
ghost use Rattle.mc_base.specs.Node.{IsNode};
ghost use Rattle.mc_base.specs.NodeRead.{node_of};
ghost use Rattle.mc_dagpb.specs.Reads.{node_text, view_text, IsFault, with_field};
ghost use Rattle.mc_dagpb.specs.Step.{IsInside};

use crate::order::Order;
use crate::step::{NodeField, next_node_field};
use crate::{Node, NodeError, NodeView};
use mc_base::{Bytes, List};
use std::alloc::{AllocError, Global};

/// The node of a text, by this store's profile of IPLD dag-pb: Data at most once, before or after all links, and
/// the fields of a link in ascending order, with a Hash. The first fault, from left to right and with
/// a look into each link when it is met, is the answer for a text that is no node. It is a copy of what `view_node`
/// gives.
pub fn read_node(alloc: Global, bytes: &[u8]) -> Result<Node, NodeError>
    ensures node { IfOk result (λ node. IsNode bytes.now node.links node.payload) }
    ensures read { IfOk result (λ node. node_of bytes.now ≡ Ok (node_text node)) }
    ensures fault { IfErr result (λ error. IsFault bytes.now error) }
{
    let view = view_node(alloc, bytes)?;
    Ok(Node {
        links: copy_links(alloc, view.links.as_slice())?,
        payload: copy_payload(alloc, view.payload)?,
    })
}

/// The node of a text, as `read_node` gives it, but borrowed: no link and no Data is copied. One pass over the text.
pub fn view_node<'a>(alloc: Global, bytes: &'a [u8]) -> Result<NodeView<'a>, NodeError>
    ensures node { IfOk result (λ view. IsNode bytes.now (view_text view).links (view_text view).payload) }
    ensures read { IfOk result (λ view. node_of bytes.now ≡ Ok (view_text view)) }
    ensures fault { IfErr result (λ error. IsFault bytes.now error) }
{
    let mut view = NodeView {
        links: List::new(alloc),
        payload: None,
    };
    let mut order = Order::Start;
    let mut at = 0;
    while let Some(step) = next_node_field(bytes, at, order)? {
        view.take(bytes, step.field)?;
        order = order.after(step.field);
        at = step.next;
    }
    Ok(view)
}

impl<'a> NodeView<'a> {
    // Takes what a field holds.
    fn take(&mut self, bytes: &'a [u8], field: NodeField) -> Result<(), AllocError>
        requires { IsInside bytes.now field }
        ensures { OnOk result (view_text self.new ≡ with_field bytes.now field (view_text self.old)) }
    {
        match field {
            NodeField::Data(span) => self.payload = Some(&bytes[span.from..span.to]),
            NodeField::Link(span) => self.links.push(&bytes[span.from..span.to])?,
        }
        Ok(())
    }
}

fn copy_links(alloc: Global, links: &[&[u8]]) -> Result<List<Bytes>, AllocError>
    ensures { IfOk result (λ copies. copies ≡ map (λ link. link.now) links.now) }
{
    let mut copies = List::with_capacity(alloc, links.len())?;
    for link in links {
        copies.push(Bytes::from_slice(alloc, link)?)?;
    }
    Ok(copies)
}

fn copy_payload(alloc: Global, payload: Option<&[u8]>) -> Result<Option<Bytes>, AllocError>
    ensures { IfOk result (λ copy. copy ≡ option_map (λ bytes. bytes.now) payload.entry) }
{
    match payload {
        Some(bytes) => Ok(Some(Bytes::from_slice(alloc, bytes)?)),
        None => Ok(None),
    }
}
