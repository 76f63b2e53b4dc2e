//! Tombstones by numbers: which key they hide, of which block, kept for those who hide elements by them.
//! It knows neither keepers nor blocks: a tombstone is a pair of texts. Its contract stands on `put_tomb` and `has_tomb`,
//! in the words of specs/Tombs.antt.
#![tactic(auto)]

mod tombs;

pub use tombs::{Tombs, has_key, has_tomb, put_tomb, reserve_tombs};
