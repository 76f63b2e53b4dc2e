// A face that threads share.
ghost use Rattle.std.specs.Prelude.{◌≡◌, ◌<◌, ◌+◌, true, IfErr, IfOk};
ghost use Rattle.mc_turn.specs.Seats.{view, IsSeatOf};
ghost use Rattle.mc_turn.specs.Views.{left_view, right_view};
ghost use Rattle.mc_model.specs.Kept.{processed};
ghost use Rattle.mc_face.specs.Words.{told_list, told_face};
ghost use Rattle.mc_core.specs.Exact.{DecidesAlone};
ghost use Rattle.mc_node.specs.Entries.{StaysOpen, is_open, items};
ghost use Rattle.mc_node.specs.Faces.{IsWholeFace};
ghost use Rattle.mc_node.specs.Items.{tells};
ghost use Rattle.mc_node.specs.Moves.{ReadDoes};
ghost use Rattle.mc_node.specs.Seats.{knows};
ghost use Rattle.mc_node.specs.Views.{Turned};
ghost use Rattle.mc_shown.specs.Words.{IsAt, face_of, node_of};

use crate::seat::FaceSeat;
use crate::showing::Showing;
use mc_core::CoreError;
use mc_face::{Exactness, Told};
use mc_fetch::Naming;
use mc_keep::Keeper;
use mc_node::{Node, NodeSeat, Seen, Stored};
use mc_turn::Turn;
use std::alloc::Global;
use std::sync::Wait;

/// A face of a node, which any thread may show that has a seat of it. It can't be dropped: `end` uses it up.
pub struct SharedFace<K: Keeper, X: Exactness> {
    pub(crate) turn: Turn<Showing<K, X>>,
}

impl<K: Keeper, X: Exactness> SharedFace<K, X> {
    /// A new seat, of the same face and node, with half of this one's parts, rounded down. It takes no memory.
    /// Condition: the seat has at least 2 parts.
    pub fn split(&self, seat: &mut FaceSeat<K, X>) -> FaceSeat<K, X>
        requires own { IsSeatOf self.now.turn seat.old.seat }
        requires parts { 1 < (view seat.old.seat).parts }
        ensures own { IsSeatOf self.now.turn seat.new.seat × IsSeatOf self.now.turn result.seat }
        ensures left { view seat.new.seat ≡ left_view (view seat.old.seat) }
        ensures right { view result.seat ≡ right_view (view seat.old.seat) }
    {
        FaceSeat {
            seat: self.turn.split(&mut seat.seat),
        }
    }

    /// The seat takes in another one of the same face. It takes no memory.
    pub fn join(&self, seat: &mut FaceSeat<K, X>, other: FaceSeat<K, X>)
        requires own { IsSeatOf self.now.turn seat.old.seat × IsSeatOf self.now.turn other.seat }
        ensures own { IsSeatOf self.now.turn seat.new.seat }
        ensures same { (face_of seat.new ≡ face_of seat.old) × (node_of seat.new ≡ node_of seat.old) }
        ensures parts { (view seat.new.seat).parts ≡ (view seat.old.seat).parts + (view other.seat).parts }
    {
        let FaceSeat { seat: other } = other;
        self.turn.join(&mut seat.seat, other);
    }

    /// Brings the face to the blocks that are processed at a moment of this call, shows it to its readers, and tells of
    /// it. It is a read of the replica, as `get` of a node is, and its answer is what readers may be told: the list of the
    /// node at that moment, which this thread's seat of the node has then seen. Who shows waits for others that show and,
    /// with the node's turn given back, for readers that still read what was shown before the last.
    ///
    /// Refusals: `Stopped`, exactly where the log says that the keeper has failed; `KeeperFault`; `Memory`. After each of
    /// them nothing is lost: what the face has then, readers see after the next call that answers Ok.
    ///
    /// Conditions: the seat is of a face of this node; the node isn't sealed. Where the face is exact, the keeper tells.
    pub fn show<J: Naming, W: Wait>(
        &self,
        alloc: Global,
        seat: &mut FaceSeat<K, X>,
        node: &Node<Stored<K, J>>,
        place: &mut NodeSeat<Stored<K, J>, K>,
        wait: &W,
    ) -> Result<Seen<Told>, CoreError>
        requires own { IsSeatOf self.now.turn seat.old.seat }
        requires of { IsAt seat.old node.now.turn }
        requires place { IsSeatOf node.now.turn place.old.seat }
        requires unsealed { is_open (knows place.old).seen ≡ true }
        requires tells { X.exact ≡ true → tells (items K.Keeper (knows place.old).seen) ≡ true }
        ensures own { IsSeatOf self.now.turn seat.new.seat }
        ensures same { (view seat.new.seat).seen ≡ (view seat.old.seat).seen }
        ensures parts { (view seat.new.seat).parts ≡ (view seat.old.seat).parts }
        ensures place { IsSeatOf node.now.turn place.new.seat }
        ensures open { StaysOpen (knows place.old).seen (knows place.new).seen }
        ensures turned { Turned (knows place.old) (knows place.new) (λ old new.
            ReadDoes (λ kept told. told_list told ≡ processed kept) result (items K.Keeper old)
            (items K.Keeper new)) }
        ensures whole { IfOk result (λ seen.
            IsWholeFace (items K.Keeper (knows place.new).seen) (told_list seen.answer)) }
        ensures face { IfOk result (λ seen. told_face seen.answer ≡ face_of seat.old) }
        ensures seen { IfErr result DecidesAlone }
    {
        let mut held = self.turn.take(&mut seat.seat, wait);
        let (value, result) = held.value.show(alloc, node, place, wait);
        held.value = value;
        self.turn.give(&mut seat.seat, held);
        result
    }

    /// Uses the face up: from then on its readers are answered by `Shut`. It waits for who shows and for the readers that
    /// still read, and takes no memory.
    pub fn end<W: Wait>(self, seat: FaceSeat<K, X>, wait: &W)
        requires own { IsSeatOf self.turn seat.seat }
    {
        let SharedFace { turn } = self;
        let FaceSeat { seat } = seat;
        let Showing { writer, glimpse: _ } = turn.close(seat, wait);
        writer.end(wait);
    }
}
