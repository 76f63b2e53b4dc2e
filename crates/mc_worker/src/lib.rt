//! Workers: each one takes jobs from a shop, looks their blocks up, and delivers what was found.
//! docs/GLOSSARY.md explains the words of its contracts.
#![tactic(auto)]

mod ends;
mod gate;
mod handover;
mod hands;
mod lookup;
mod shop;
mod turns;

pub use ends::{HandEnd, ShopError, end_of};
pub use gate::{Gate, Open};
pub use handover::Handover;
pub use hands::{Hand, run_workers};
pub use lookup::look_up;
pub use shop::Shop;
