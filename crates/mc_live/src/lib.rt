//! The values of keys over a list of blocks that grows: what lives of their elements, kept block by block, for those who
//! read values over other lists than the processed blocks. It knows neither keepers nor replicas: it is given blocks and
//! keeps no bytes of them. Its contract stands on `Live`, in the words of specs/Stands.antt.
#![tactic(auto)]

mod held;
mod hiding;
mod live;
mod order;
mod prune;
mod rows;

pub use live::Live;
