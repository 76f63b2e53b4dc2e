//! A face of a node that threads share: any of them brings it up to the node's list and shows it, one at a time, and its
//! readers read beside them, waiting for nobody. The turn of the node is kept for the read alone, never for a publish.
//! docs/GLOSSARY.md explains the words of its contracts.
#![tactic(auto)]

mod name;
mod opening;
mod seat;
mod shared;
mod showing;

pub use name::FaceName;
pub use opening::{Faces, open_face};
pub use seat::FaceSeat;
pub use shared::SharedFace;
pub use showing::Showing;
