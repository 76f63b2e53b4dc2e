//! A storm: writers that put and get beside one another on one node, each in a thread of its own, and what comes of it. What a
//! storm is, in words of interleavings, stands in `mc_storm`.
//! docs/GLOSSARY.md explains the words of its contracts.
#![tactic(auto)]

mod crews;
mod storming;
mod writing;

pub use storming::storm;
