//! Tests of what works with replicas: repairs and drains, workers that pull, nodes with several seats, relays, faces that
//! threads share, and storms.
#![tactic(auto)]

#[cfg(test)]
mod beside;
#[cfg(test)]
mod crews;
#[cfg(test)]
mod drains;
#[cfg(test)]
mod handovers;
#[cfg(test)]
mod library;
#[cfg(test)]
mod nodes;
#[cfg(test)]
mod relays;
#[cfg(test)]
mod sharing;
#[cfg(test)]
mod shops;
#[cfg(test)]
mod storms;
#[cfg(test)]
mod trees;
