// Broadcasts: what a replica says of its heads, and what it hears.
ghost use Rattle.std.specs.Prelude.{◌≡◌, None, IfErr, IfOk};
ghost use Rattle.mc_queue.specs.Views.{shown};
ghost use Rattle.mc_plan.specs.Calls.{Stays};
ghost use Rattle.mc_core.specs.Exact.{DecidesAlone, RestSame, front_of, stop_front};
ghost use Rattle.mc_plan.specs.Hears.{HearEvents, HearWants, IsQueued};
ghost use Rattle.mc_plan.specs.Hears.{cast_refusal, hear_refusal, unless_short, written_cast};
ghost use Rattle.mc_plan.specs.Refusals.{Is, is_fault};
ghost use Rattle.mc_core.specs.Words.{Acts, Answers, Continues, StillTells, TellsSame};

use crate::Replica;
use mc_base::Bytes;
use mc_keep::Keeper;
use mc_model::kept_is_durable;
use mc_plan::{CoreError, Heard, cast_heads, hear_new, read_new, stops};
use std::alloc::{AllocError, Global};

impl<K: Keeper> Replica<K> {
    /// The written broadcast of the heads, ascending by the digest. Refusals: `Stopped`.
    pub fn cast(&mut self, alloc: Global) -> Result<Bytes, CoreError>
        ensures call { Answers K.Keeper (λ kept bytes. bytes ≡ written_cast kept) result self.old self.new }
        ensures keeps { Continues K.Keeper (is_fault result) self.old self.new }
        ensures front { front_of result ≡ stop_front self.old.stopped None }
        ensures seen { IfErr result DecidesAlone }
        ensures rest { RestSame self.old self.new }
        ensures same { TellsSame K.Keeper self.old self.new }
    {
        kept_is_durable();
        if self.stopped {
            return Err(CoreError::Stopped);
        }
        match cast_heads(&mut self.keeper, alloc) {
            Ok(bytes) => Ok(bytes),
            Err(error) => {
                let error = CoreError::from(error);
                self.stopped = stops(error);
                Err(error)
            }
        }
    }

    /// Hears a broadcast: each block that it names and that is not processed comes to the back of waiting, also out of
    /// missing or bad, unless it waits or is in flight. The keeper is only read. All memory is taken before the first
    /// change. Refusals in their order: `Stopped`, `BadCast`. After every error the same blocks are wanted as before.
    pub fn hear(&mut self, alloc: Global, message: &[u8]) -> Result<Heard, CoreError>
        ensures call { Acts K.Keeper (λ s. Is (hear_refusal s message.now)) (λ s. HearEvents s message.now)
            Stays result self.old self.new }
        ensures keeps { Continues K.Keeper (is_fault result) self.old self.new }
        ensures front { front_of result ≡ stop_front self.old.stopped (unless_short result (cast_refusal message.now)) }
        ensures seen { IfErr result DecidesAlone }
        ensures rest { RestSame self.old self.new }
        ensures tells { StillTells K.Keeper self.old self.new }
        ensures wants { HearWants message.now result (shown self.old.queue) (shown self.new.queue) }
        ensures queued { IfOk result (λ heard.
            IsQueued (shown self.old.queue) (shown self.new.queue) heard.queued) }
    {
        if self.stopped {
            return Err(CoreError::Stopped);
        }
        match read_new(&mut self.keeper, alloc, message) {
            Ok(new) => match hear_new(&mut self.queue, new.as_slice()) {
                Ok(heard) => Ok(heard),
                Err(AllocError) => Err(CoreError::Memory),
            },
            Err(error) => {
                self.stopped = stops(error);
                Err(error)
            }
        }
    }
}
