// What a worker passes before it looks a block up.
use std::sync::Wait;

/// What a worker passes with each job that it has taken, before it looks the block up. It may wait, and nothing more.
pub trait Gate {
    /// Lets the worker pass. Workers and their turns are counted from 0.
    fn pass<W: Wait>(&self, worker: u64, turn: u64, wait: &W);
}

/// The gate at which nobody waits.
#[derive(Clone, Copy, Debug)]
pub struct Open;

impl Gate for Open {
    fn pass<W: Wait>(&self, _worker: u64, _turn: u64, _wait: &W) {}
}
