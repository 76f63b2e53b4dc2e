//! All tables of a keeper in memory: the rows of the elements, the values and their order, beside those of `mc_graph`.
//! docs/GLOSSARY.md explains the words of its contracts.
#![tactic(auto)]

mod elements;
mod live;
mod order;
mod places;
mod range;
mod rows;
mod short;
mod store;
mod tables;
mod values;
mod winners;

pub use store::Store;
