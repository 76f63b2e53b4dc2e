//! Nodes of a content-addressed graph (IPLD dag-pb specification), read by this store's profile and written in its one
//! spelling.
#![tactic(auto)]

mod fault;
mod laws;
mod link;
mod node;
mod order;
mod read;
mod step;
mod write;

pub use fault::{NodeError, NodeFault, NodeFaultKind};
pub use laws::{nodes_are_read, written_nodes_are_read};
pub use node::{Node, NodeView};
pub use read::{read_node, view_node};
pub use write::{begin_node, node_len, write_node};
