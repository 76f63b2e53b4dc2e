//! A replica's blocks leave it as a CARv1 file, and come in again.
//! docs/GLOSSARY.md explains the words of its contracts.
#![tactic(auto)]

mod exporting;
mod importing;
mod laws;
mod reading;
mod taking;

pub use exporting::export;
pub use importing::import;
pub use laws::exports_are_one;
pub use taking::Imported;
