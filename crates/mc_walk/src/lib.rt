//! The state of a repair walk: which of the blocks processed at its beginning are still to be visited.
#![tactic(auto)]

mod laws;
mod walk;

pub use laws::{walks_are_events, walks_visit_each_once};
pub use walk::Walk;
