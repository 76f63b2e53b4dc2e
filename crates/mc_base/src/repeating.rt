// A source without an end.
ghost use Rattle.std.specs.Prelude.{◌≡◌, ◌+◌, ◌%◌, ◌<◌, [], length, IsNone, IfSome, None, Ok, true};
ghost use Rattle.std.specs.Io.{ReadsAtMost};
ghost use Rattle.std.specs.Io.KnownBytes.{ReadConsumes};
ghost use Rattle.mc_base.specs.Causes.{HasCause};
ghost use Rattle.mc_base.specs.Endless.{StaysEndless};
ghost use Rattle.mc_base.specs.Repeated.{IsRepeated};

use crate::{Bytes, Counted, Failed, Source};

/// A source that gives the same bytes over and over, and never ends or fails.
#[derive(Drop)]
pub struct RepeatingSource {
    bytes: Bytes,
    at: usize,
    ghost in_bounds: { at < length bytes },
}

impl RepeatingSource {
    /// A source that repeats these bytes, or none where there are none to repeat.
    pub fn new(bytes: Bytes) -> Option<Self>
        ensures none { IsNone result → bytes ≡ [] }
        ensures first { IfSome result (λ source. (source.bytes ≡ bytes) × (source.at ≡ 0)) }
    {
        if bytes.len() == 0 {
            return None;
        }
        Some(RepeatingSource { bytes, at: 0 })
    }
}

impl Counted for RepeatingSource {
    ghost faults = { λ _. 0 };

    fn faults(&self) -> u64 {
        0
    }
}

impl Source for RepeatingSource {
    ghost left = { λ _. None };

    ghost endless = { λ _. true };

    fn read(&mut self, into: &mut [u8]) -> Result<usize, Failed>
        ensures bound { ReadsAtMost result into.new }
        ensures bytes { ReadConsumes None None result into.new }
        ensures endless { StaysEndless true true result into.new }
        ensures cause { HasCause 0 0 result }
        ensures full { result ≡ Ok (length into.new) }
        ensures repeated { IsRepeated self.old.bytes self.old.at into.new }
        ensures next { (self.new.bytes ≡ self.old.bytes)
            × (self.new.at ≡ (self.old.at + length into.new) % length self.old.bytes) }
    {
        self.at = fill(self.bytes.as_slice(), self.at, into);
        Ok(into.len())
    }
}

// Fills a buffer with what comes from a place on where the bytes are repeated, and gives the place after it.
fn fill(bytes: &[u8], first: usize, into: &mut [u8]) -> usize
    requires { first < length bytes.now }
    ensures next { result ≡ (first + length into.new) % length bytes.now }
    ensures within { result < length bytes.now }
    ensures len { length into.new ≡ length into.old }
    ensures repeated { IsRepeated bytes.now first into.new }
{
    let mut at = first;
    for i in 0..into.len() {
        into[i] = bytes[at];
        at = place_after(bytes, at);
    }
    at
}

// The place after this one, where the bytes begin again at their end.
#[tactic(auto, using(crate::proofs::FillFacts::begins_again, crate::proofs::FillFacts::goes_on))]
fn place_after(bytes: &[u8], at: usize) -> usize
    requires { at < length bytes.now }
    ensures { result ≡ (at + 1) % length bytes.now }
{
    if at + 1 == bytes.len() { 0 } else { at + 1 }
}
