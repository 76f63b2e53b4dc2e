// Shared faces are opened.
ghost use Rattle.std.specs.Prelude.{◌≡◌, ◌<◌, ◌≤◌, length, All, IfOk};
ghost use Rattle.mc_turn.specs.Seats.{view, IsSeatOf};
ghost use Rattle.mc_turn.specs.Views.{all_parts};
ghost use Rattle.mc_face.specs.Words.{BeginsAt};
ghost use Rattle.mc_node.specs.Seats.{knows};
ghost use Rattle.mc_shown.specs.Words.{IsAt, face_of};

use crate::seat::FaceSeat;
use crate::shared::SharedFace;
use crate::showing::Showing;
use mc_base::List;
use mc_face::{Exactness, FaceReader, FaceRefused, face};
use mc_fetch::Naming;
use mc_keep::Keeper;
use mc_node::{Node, NodeSeat, Stored};
use mc_turn::{Refused, Turn};
use std::alloc::Global;
use std::sync::Wait;

/// A shared face that was opened, with what threads need to call it.
pub struct Faces<K: Keeper, X: Exactness> {
    /// The face, for all threads.
    pub face: SharedFace<K, X>,
    /// A seat of it, with all its parts, from which those of other threads are split.
    pub seat: FaceSeat<K, X>,
    /// Its readers, each for one thread.
    pub readers: List<FaceReader<X>>,
}

/// Opens a face of a node, of no blocks yet: the first `show` brings it up. It calls the replica by nothing, and no one
/// else's face of this node is touched. It waits for nobody.
///
/// Refusals: `NoPlace`, where left_right refused a reader its place; `Memory`.
///
/// Condition: 1 to 16 readers.
pub fn open_face<K: Keeper, J: Naming, X: Exactness, W: Wait>(
    alloc: Global,
    node: &Node<Stored<K, J>>,
    place: &mut NodeSeat<Stored<K, J>, K>,
    readers: u64,
    wait: &W,
) -> Result<Faces<K, X>, FaceRefused>
    requires place { IsSeatOf node.now.turn place.old.seat }
    requires readers { (0 < readers) × (readers ≤ 16) }
    ensures place { IsSeatOf node.now.turn place.new.seat }
    ensures same { knows place.new ≡ knows place.old }
    ensures own { IfOk result (λ faces. IsSeatOf faces.face.turn faces.seat.seat) }
    ensures parts { IfOk result (λ faces. (view faces.seat.seat).parts ≡ all_parts) }
    ensures node { IfOk result (λ faces. IsAt faces.seat node.now.turn) }
    ensures readers { IfOk result (λ faces. All (BeginsAt (face_of faces.seat)) faces.readers) }
    ensures count { IfOk result (λ faces. length faces.readers ≡ readers) }
{
    let (writer, readers) = face::<X, W>(alloc, readers, wait)?;
    let glimpse = node.glimpse(place);
    match Turn::new(alloc, Showing { writer, glimpse }) {
        Ok((turn, seat)) => Ok(Faces {
            face: SharedFace { turn },
            seat: FaceSeat { seat },
            readers,
        }),
        Err(refused) => {
            let Refused { value } = refused;
            let Showing { writer, glimpse: _ } = value;
            writer.end(wait);
            Err(FaceRefused::Memory)
        }
    }
}
