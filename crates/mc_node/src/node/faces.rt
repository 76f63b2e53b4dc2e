// A face is brought up to a node.
ghost use Rattle.std.specs.Prelude.{◌≡◌, true, length, IfErr, IfOk, OnErr, OnOk};
ghost use Rattle.mc_turn.specs.Seats.{IsSeatOf};
ghost use Rattle.mc_model.specs.Kept.{processed};
ghost use Rattle.mc_core.specs.Exact.{DecidesAlone};
ghost use Rattle.mc_node.specs.Entries.{StaysOpen, is_open, items};
ghost use Rattle.mc_node.specs.Faces.{IsFaceOf, IsWholeFace, WasFaceOf};
ghost use Rattle.mc_node.specs.Items.{tells};
ghost use Rattle.mc_node.specs.Moves.{ReadDoes};
ghost use Rattle.mc_node.specs.Seats.{knows};
ghost use Rattle.mc_node.specs.Views.{Turned};

use super::{Node, NodeSeat, Seen};
use crate::stored::Stored;
use mc_core::CoreError;
use mc_face::{Exactness, FaceWriter};
use mc_fetch::Naming;
use mc_keep::Keeper;
use mc_model::kept_is_durable;
use std::alloc::Global;
use std::sync::Wait;

impl<K: Keeper, J: Naming> Node<Stored<K, J>> {
    /// Brings a face to the blocks that are processed when the turn is got, and says how many blocks its list has then.
    /// Its readers see it once it is published, which doesn't keep the turn. It is a read of the replica, as `get` is. A
    /// refusal leaves the face as it was. Refusals: `Stopped`, exactly where the log says that the keeper has failed.
    ///
    /// Conditions: the node isn't sealed. Where the keeper tells, the face's list is a beginning of the processed blocks
    /// that some log showed with which begins what the seat has seen, as it is where this seat brought it up last, or has
    /// learned of the seat that did, or where the list is empty. Where the face is exact, the keeper tells.
    pub fn catch_up<X: Exactness, W: Wait>(
        &self,
        alloc: Global,
        seat: &mut NodeSeat<Stored<K, J>, K>,
        face: &mut FaceWriter<X>,
        wait: &W,
    ) -> Result<Seen<u64>, CoreError>
        requires own { IsSeatOf self.now.turn seat.old.seat }
        requires unsealed { is_open (knows seat.old).seen ≡ true }
        requires begins { WasFaceOf K.Keeper (knows seat.old).seen face.old.list }
        requires tells { X.exact ≡ true → tells (items K.Keeper (knows seat.old).seen) ≡ true }
        ensures own { IsSeatOf self.now.turn seat.new.seat }
        ensures open { StaysOpen (knows seat.old).seen (knows seat.new).seen }
        ensures turned { Turned (knows seat.old) (knows seat.new) (λ old new.
            ReadDoes (λ kept count. face.new.list ≡ processed kept) result (items K.Keeper old)
            (items K.Keeper new)) }
        ensures whole { OnOk result (IsWholeFace (items K.Keeper (knows seat.new).seen) face.new.list) }
        ensures begins { IsFaceOf (items K.Keeper (knows seat.new).seen) face.new.list }
        ensures count { IfOk result (λ seen. seen.answer ≡ length face.new.list) }
        ensures err { OnErr result (face.new.list ≡ face.old.list) }
        ensures shown { face.new.shown ≡ face.old.shown }
        ensures face { face.new.face ≡ face.old.face }
        ensures seen { IfErr result DecidesAlone }
    {
        kept_is_durable();
        let mut held = self.turn.take(&mut seat.seat, wait);
        let result = held.value.catch_up(alloc, face);
        self.turn.give(&mut seat.seat, held);
        result
    }
}
