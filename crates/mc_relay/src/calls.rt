// Pushes and pops.
ghost use Rattle.std.specs.Prelude.{◌≡◌, ◌+◌, [], ◌∷◌, ◌++◌, IfOk, IfErr, IfSome, IfNone, OnOk};
ghost use Rattle.crossbeam_queue.specs.Fifo.{Held};
ghost use Rattle.mc_relay.specs.Ends.{IsGiverOf, IsTakerOf, giver_knows, taker_knows};
ghost use Rattle.mc_relay.specs.Items.{IsRight};
ghost use Rattle.mc_relay.specs.Passes.{HasPushed, HasTaken, with_empty, with_full, with_pushed, with_taken};

use crate::ends::{Giver, Taker};
use crate::relay::Relay;
use crate::rule::{NotesEmpty, NotesFull, Popped, Pushed};
use mc_block::Verified;
use mc_fetch::Naming;
use std::sync::Wait;

impl<J: Naming> Relay<J> {
    /// Pushes an item. It is handed back only where the relay was full at a moment of this call, and that is noted.
    /// Condition: where `J.found` is a map, the item's bytes are the map's for its block.
    pub fn push<W: Wait>(&self, giver: &mut Giver, item: Verified, wait: &W) -> Result<(), Verified>
        requires own { IsGiverOf self.now giver.old }
        requires right { IsRight J.found item }
        ensures own { IsGiverOf self.now giver.new }
        ensures pushed { OnOk result (giver_knows giver.new ≡ with_pushed (giver_knows giver.old) item) }
        ensures back { IfErr result (λ left. left ≡ item) }
        ensures noted { IfErr result (λ left. giver_knows giver.new ≡ with_full (giver_knows giver.old)) }
        ensures full { IfErr result (λ left. Held 64 (HasPushed (giver_knows giver.old))) }
    {
        match self.queue.push_as::<Pushed, W>(wait, &mut giver.pass, item) {
            Ok(()) => Ok(()),
            Err(item) => {
                self.queue.another::<NotesFull>(&mut giver.pass);
                Err(item)
            }
        }
    }

    /// Pops the item that was pushed first of those that are left. None only where the relay was empty at a moment of
    /// this call, and that is noted.
    pub fn pop<W: Wait>(&self, taker: &mut Taker, wait: &W) -> Option<Verified>
        requires own { IsTakerOf self.now taker.old }
        ensures own { IsTakerOf self.now taker.new }
        ensures taken { IfSome result (λ item. taker_knows taker.new ≡ with_taken (taker_knows taker.old) item) }
        ensures right { IfSome result (IsRight J.found) }
        ensures noted { IfNone result (taker_knows taker.new ≡ with_empty (taker_knows taker.old)) }
        ensures empty { IfNone result (Held 0 (HasTaken (taker_knows taker.old))) }
    {
        match self.queue.pop_as::<Popped<J>, W>(wait, &mut taker.pass) {
            Some(item) => Some(item),
            None => {
                self.queue.another::<NotesEmpty>(&mut taker.pass);
                None
            }
        }
    }
}
