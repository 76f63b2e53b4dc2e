// The ends of a relay.
ghost use Rattle.std.specs.Prelude.{◌≡◌, [], true};
ghost use Rattle.crossbeam_queue.specs.Passes.{view};

use crate::view::EndView;
use crossbeam_queue::Pass;
use mc_block::Verified;

/// What one giver pushes into a relay with. It has no bytes.
///
/// Condition of each call that takes one: it is one of this relay's, which `new` gave.
#[derive(Drop)]
pub struct Giver {
    pub(crate) pass: Pass<Verified, EndView<Verified>>,
    ghost gives: { (view pass).gives ≡ true },
    ghost idle: { pass.me.1 ≡ [] },
}

/// What the one taker pops from a relay with. It has no bytes. Condition as of a giver.
#[derive(Drop)]
pub struct Taker {
    pub(crate) pass: Pass<Verified, EndView<Verified>>,
    ghost takes: { (view pass).takes ≡ true },
    ghost alone: { (view pass).known ≡ [] },
    ghost idle: { pass.me.1 ≡ [] },
}
