//! A relay: a bounded queue that hands verified blocks from givers to one taker, in threads of their own, under a rule that
//! tells at its end that each block which was pushed was taken or is left, once and in its giver's order.
#![tactic(auto)]

mod calls;
mod closing;
mod ends;
mod making;
mod opening;
mod posts;
mod relay;
mod rule;
mod view;

pub use ends::{Giver, Taker};
pub use opening::open_relay;
pub use posts::{GiverEnd, TakerEnd};
pub use relay::Relay;
pub use view::EndView;
