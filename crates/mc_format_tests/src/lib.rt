//! Tests of the formats: each is read and written by outside vectors and worked tables; and of what is read out of blocks
//! alone, without a keeper: values below a block, and the feed of changes. They stand above all of these crates, so that
//! none of them is proved again for its tests.
#![tactic(auto)]

#[cfg(test)]
mod base;
#[cfg(test)]
mod base32;
#[cfg(test)]
mod block;
#[cfg(test)]
mod car;
#[cfg(test)]
mod cast;
#[cfg(test)]
mod cidtext;
#[cfg(test)]
mod dagpb;
#[cfg(test)]
mod delta;
#[cfg(test)]
mod feeds;
#[cfg(test)]
mod generated;
#[cfg(test)]
mod histories;
#[cfg(test)]
mod index;
#[cfg(test)]
mod key;
#[cfg(test)]
mod script;
#[cfg(test)]
mod texts;
#[cfg(test)]
mod views;
#[cfg(test)]
mod wire;
