//! Tests of what a node tells of its past, over keepers in memory. They stand above the layers that they are of, so that
//! none of them is proved again for a test of another.
#![tactic(auto)]

#[cfg(test)]
mod feeds;
