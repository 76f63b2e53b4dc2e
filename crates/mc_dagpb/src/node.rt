// What a node says.
use mc_base::{Bytes, List};

/// The Hash of each link, in order, and the content of Data, where it stands.
#[derive(Debug, Drop)]
pub struct Node {
    pub links: List<Bytes>,
    pub payload: Option<Bytes>,
}

/// The same, borrowed from the bytes of the node.
#[derive(Debug, Drop)]
pub struct NodeView<'a> {
    pub links: List<&'a [u8]>,
    pub payload: Option<&'a [u8]>,
}
