//! Tests of the parts that stand below a replica, each by itself: lists, queues, walks, turns, workers, fetches, faces, and
//! audits of plain tables. They stand above these parts and below the replica, so that none of them waits for it or is
//! proved again for a test of another.
#![tactic(auto)]

#[cfg(test)]
mod audits;
#[cfg(test)]
mod faces;
#[cfg(test)]
mod lists;
#[cfg(test)]
mod offers;
#[cfg(test)]
mod queues;
#[cfg(test)]
mod stores;
#[cfg(test)]
mod turns;
#[cfg(test)]
mod walks;
#[cfg(test)]
mod workers;
