// Deliveries: what was found for a job comes in.
ghost use Rattle.std.specs.Prelude.{◌≡◌, ◌≤◌, true, false, None, Some, Ok, IfOk, IfErr, IfSome};
ghost use Rattle.std.specs.Prelude.{not};
ghost use Rattle.mc_base.specs.Cid.{digest_of};
ghost use Rattle.mc_fetch.specs.Fits.{FoundHas};
ghost use Rattle.mc_model.specs.Graph.{has};
ghost use Rattle.mc_model.specs.Offer.{offer};
ghost use Rattle.mc_queue.specs.Views.{shown};
ghost use Rattle.mc_core.specs.Exact.{DecidesAlone, RestSame, front_of, stop_front};
ghost use Rattle.mc_fetch.specs.declared.job.Delivered.{Delivered};
ghost use Rattle.mc_plan.specs.Deletes.{IsOutside};
ghost use Rattle.mc_plan.specs.Jobs.{DeliverEvents, DeliverShort, DeliverWants, TakesArrival, found_in};
ghost use Rattle.mc_plan.specs.Jobs.{is_known};
ghost use Rattle.mc_core.specs.AnswersTo.{IsAnswerTo};
ghost use Rattle.mc_plan.specs.Uptakes.{IsShaped, IsSomeUptake};
ghost use Rattle.mc_plan.specs.Uptakes.{uptake_rows};
ghost use Rattle.mc_plan.specs.Reads.{read_refusal};
ghost use Rattle.mc_plan.specs.Refusals.{Is, is_fault};
ghost use Rattle.mc_core.specs.Words.{Acts, Becomes, Continues};

use crate::Replica;
use mc_base::{Bytes, Cid, Failed};
use mc_block::{BlockError, read_found};
use mc_fetch::{Delivered, Found, Job};
use mc_keep::{KeepError, Keeper};
use mc_model::{Block, kept_is_durable};
use mc_plan::{Arrival, CoreError, is_sound, plan_arrival};
use std::alloc::Global;

impl<K: Keeper> Replica<K> {
    /// Takes what was found for a job. A block that is good is stored, unless it is, and processed; it is wanted no
    /// more, and its links that are not processed are, each unless it is. Where no bytes were found it is missing, and
    /// where they are damaged it is bad. `Known` goes first, and comes exactly where the block is no longer in flight.
    /// Found bytes have the digest of the job's block. All memory is taken before the first commit. Refusals:
    /// `Stopped`; after `Memory` the block is at the back of those that wait.
    pub fn deliver(&mut self, alloc: Global, job: Job, found: Found) -> Result<Delivered, CoreError>
        requires digest { FoundHas job.cid found }
        ensures call { Acts K.Keeper (λ s. Is (read_refusal s)) (λ s. DeliverEvents s job.cid (found_in found))
            (λ s. DeliverShort s job.cid) result self.old self.new }
        ensures keeps { Continues K.Keeper (is_fault result) self.old self.new }
        ensures front { front_of result ≡ stop_front self.old.stopped None }
        ensures seen { IfErr result DecidesAlone }
        ensures rest { RestSame self.old self.new }
        ensures wants { DeliverWants result (shown self.old.queue) (shown self.new.queue) job.cid }
        ensures known { IfOk result (λ delivered.
            is_known delivered ≡ not (has job.cid (shown self.old.queue).flight)) }
        ensures answers { IfOk result (IsAnswerTo job.cid (found_in found)) }
    {
        kept_is_durable();
        if self.stopped {
            return Err(CoreError::Stopped);
        }
        if self.queue.in_flight(&job.cid) {
            return self.deliver_found(alloc, job.cid, found);
        }
        Ok(Delivered::Known)
    }

    // The same for a block that is in flight.
    fn deliver_found(
        &mut self,
        alloc: Global,
        cid: Cid,
        found: Found,
    ) -> Result<Delivered, CoreError>
        requires up { self.old.stopped ≡ false }
        requires flight { has cid (shown self.old.queue).flight ≡ true }
        requires digest { FoundHas cid found }
        ensures call { Acts K.Keeper (λ s. Is (read_refusal s)) (λ s. DeliverEvents s cid (found_in found))
            (λ s. DeliverShort s cid) result self.old self.new }
        ensures keeps { Continues K.Keeper (is_fault result) self.old self.new }
        ensures only { front_of result ≡ None }
        ensures seen { IfErr result DecidesAlone }
        ensures rest { RestSame self.old self.new }
        ensures wants { DeliverWants result (shown self.old.queue) (shown self.new.queue) cid }
        ensures found { IfOk result (λ delivered. is_known delivered ≡ false) }
        ensures answers { IfOk result (IsAnswerTo cid (found_in found)) }
    {
        match found {
            Found::Missing => {
                self.queue.missing(&cid);
                Ok(Delivered::Missing)
            }
            Found::Bytes(bytes) => self.deliver_bytes(alloc, cid, bytes),
        }
    }

    // The same of bytes for a block that is in flight.
    fn deliver_bytes(
        &mut self,
        alloc: Global,
        cid: Cid,
        bytes: Bytes,
    ) -> Result<Delivered, CoreError>
        requires up { self.old.stopped ≡ false }
        requires flight { has cid (shown self.old.queue).flight ≡ true }
        requires digest { digest_of bytes ≡ cid.0 }
        ensures call { Acts K.Keeper (λ s. Is (read_refusal s)) (λ s. DeliverEvents s cid (Some bytes))
            (λ s. DeliverShort s cid) result self.old self.new }
        ensures keeps { Continues K.Keeper (is_fault result) self.old self.new }
        ensures only { front_of result ≡ None }
        ensures seen { IfErr result DecidesAlone }
        ensures rest { RestSame self.old self.new }
        ensures wants { DeliverWants result (shown self.old.queue) (shown self.new.queue) cid }
        ensures found { IfOk result (λ delivered. is_known delivered ≡ false) }
        ensures answers { IfOk result (IsAnswerTo cid (Some bytes)) }
    {
        match read_found(alloc, &cid, bytes.as_slice()) {
            Ok(block) => self.deliver_block(alloc, cid, block, bytes),
            Err(BlockError::Damaged(damage)) => {
                let damage = damage.number();
                self.queue.bad(&cid, damage);
                Ok(Delivered::Bad { damage })
            }
            Err(BlockError::Memory) => {
                self.queue.back(&cid);
                Err(CoreError::Memory)
            }
        }
    }

    // The same of bytes that are this block.
    fn deliver_block(
        &mut self,
        alloc: Global,
        cid: Cid,
        block: Block,
        bytes: Bytes,
    ) -> Result<Delivered, CoreError>
        requires up { self.old.stopped ≡ false }
        requires flight { has cid (shown self.old.queue).flight ≡ true }
        requires good { (offer cid bytes ≡ Ok block) × (block.cid ≡ cid) }
        ensures call { Acts K.Keeper (λ s. Is (read_refusal s)) (λ s. DeliverEvents s cid (Some bytes))
            (λ s. DeliverShort s cid) result self.old self.new }
        ensures keeps { Continues K.Keeper (is_fault result) self.old self.new }
        ensures only { front_of result ≡ None }
        ensures seen { IfErr result DecidesAlone }
        ensures rest { RestSame self.old self.new }
        ensures wants { DeliverWants result (shown self.old.queue) (shown self.new.queue) cid }
        ensures found { IfOk result (λ delivered. is_known delivered ≡ false) }
        ensures answers { IfOk result (IsAnswerTo cid (Some bytes)) }
    {
        kept_is_durable();
        is_sound(&self.keeper);
        match plan_arrival(&mut self.keeper, alloc, &cid, block, bytes, self.whole) {
            Ok(arrival) => self.take_up_arrival(arrival),
            Err(KeepError::Failed) => {
                self.stopped = true;
                Err(CoreError::KeeperFault)
            }
            Err(KeepError::Memory) => {
                self.queue.back(&cid);
                Err(CoreError::Memory)
            }
        }
    }

    // The commits of a block that was found.
    fn take_up_arrival(&mut self, arrival: Arrival) -> Result<Delivered, CoreError>
        requires up { self.old.stopped ≡ false }
        requires flight { has arrival.uptake.after.cid (shown self.old.queue).flight ≡ true }
        requires room { uptake_rows arrival.uptake ≤ K.spare self.old.keeper }
        requires shape { IsShaped arrival.uptake }
        requires uptake { IfSome (K.told self.old.keeper) (λ kept. IsSomeUptake kept self.old.whole arrival.uptake) }
        ensures takes { Becomes K.Keeper (λ rose. TakesArrival arrival.uptake rose result) self.old self.new }
        ensures answer { IfOk result (λ delivered. delivered ≡ Delivered.Processed arrival.position) }
        ensures only { IfErr result IsOutside }
        ensures keeps { Continues K.Keeper (is_fault result) self.old self.new }
        ensures rest { RestSame self.old self.new }
        ensures wants { DeliverWants result (shown self.old.queue) (shown self.new.queue) arrival.uptake.after.cid }
    {
        let Arrival { uptake, position } = arrival;
        match self.queue.reserve(uptake.after.links.len() as u64) {
            Ok(()) => match self.carry_out(uptake) {
                Ok(()) => Ok(Delivered::Processed { position }),
                Err(Failed) => Err(CoreError::KeeperFault),
            },
            Err(_error) => {
                self.queue.back(&uptake.after.cid);
                Err(CoreError::Memory)
            }
        }
    }
}
