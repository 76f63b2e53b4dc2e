//! The inbox of a replica: verified blocks that wait to be taken in, in the order in which they came; and the law that blocks
//! which are taken in together are a drain of the wanted ones.
#![tactic(auto)]

mod groups;
mod inbox;

pub use groups::groups_are_drains;
pub use inbox::Inbox;
