//! CARv1 files: some roots, and blocks under their content identifiers, written and read.
#![tactic(auto)]

mod car;
mod fault;
mod header;
mod laws;
mod layout;
mod piece;
mod places;
mod read;
mod write;

pub use car::{Car, Section};
pub use fault::{CarError, CarFault, CarFaultKind};
pub use laws::cars_are_read;
pub use places::{Front, Place, read_front, read_place};
pub use read::read_car;
pub use write::{add_section, write_car};
