//! The generated script: a long run of commands over three replicas, drawn from a number.
#![tactic(auto)]

mod draws;
mod generate;
mod lines;
mod summary;

pub use generate::script;
pub use summary::Summary;
