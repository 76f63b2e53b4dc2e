//! Tables of a keeper in memory: the stored blocks, the order of the processed ones, their gaps and heads, and the
//! tombstones.
//! docs/GLOSSARY.md explains the words of its contracts.
#![tactic(auto)]

mod cids;
mod front;
mod graph;
mod heads;
mod spot;
mod tombs;

pub use cids::{has_cid, reserve_cids};
pub use front::{put_gaps, put_marks};
pub use graph::{
    Graph, block_bytes, cid_at, cid_of, has_block, is_processed, place_of, position_of,
    processed_count, put_blocks, reserve_blocks, stored_count,
};
pub use heads::{drop_heads, has_head, head_rows, put_heads, reserve_heads};
pub use mc_tombs::{Tombs, has_key, has_tomb, reserve_tombs};
pub use spot::Spot;
pub use tombs::put_tombs;
