// What the lock of a shared face holds.
ghost use Rattle.std.specs.Prelude.{◌≡◌, true, IfErr, IfOk};
ghost use Rattle.mc_turn.specs.Seats.{sight, IsGlimpseOf, IsSeatOf};
ghost use Rattle.mc_model.specs.Kept.{processed};
ghost use Rattle.mc_face.specs.Words.{told_list, told_face};
ghost use Rattle.mc_core.specs.Exact.{DecidesAlone};
ghost use Rattle.mc_node.specs.Entries.{StaysOpen, is_open, items, items_at};
ghost use Rattle.mc_node.specs.Faces.{IsFaceOf, IsWholeFace, WasFaceOf};
ghost use Rattle.mc_node.specs.Items.{tells};
ghost use Rattle.mc_node.specs.Moves.{ReadDoes};
ghost use Rattle.mc_node.specs.Seats.{knows};
ghost use Rattle.mc_node.specs.Views.{Turned};

use crate::name::FaceName;
use mc_core::CoreError;
use mc_face::{Exactness, FaceWriter, Told};
use mc_fetch::Naming;
use mc_keep::Keeper;
use mc_node::{Node, NodeGlimpse, NodeSeat, Seen, Stored};
use mc_turn::Story;
use std::alloc::{AllocError, Global};
use std::sync::Wait;

/// The writer of a face, beside a glimpse of the node's log: where the keeper tells, the face's list is a beginning of the
/// processed blocks that this log shows last. It stands for the name of the face and of the node, which stays.
pub struct Showing<K: Keeper, X: Exactness> {
    pub(crate) writer: FaceWriter<X>,
    pub(crate) glimpse: NodeGlimpse<K>,
    ghost ties: { IsFaceOf (items_at K.told K.fuse K.own K.faults K.quiet K.schedule (sight glimpse.glimpse))
        writer.list },
}

impl<K: Keeper, X: Exactness> Story for Showing<K, X> {
    ghost use Rattle.std.specs.Prelude.{◌∷◌, []};

    type Entry = FaceName;

    ghost list = { λ s. record { face = s.writer.face; node = s.glimpse.glimpse.badge.table_id } ∷ [] };

    fn length(&self) -> u64 {
        1
    }
}

impl<K: Keeper, X: Exactness> Showing<K, X> {
    // The face is brought up by this seat of the node, which learns first how far it had come, and is then shown.
    pub(crate) fn show<J: Naming, W: Wait>(
        self,
        alloc: Global,
        node: &Node<Stored<K, J>>,
        place: &mut NodeSeat<Stored<K, J>, K>,
        wait: &W,
    ) -> (Showing<K, X>, Result<Seen<Told>, CoreError>)
        requires of { IsGlimpseOf node.now.turn self.glimpse.glimpse }
        requires place { IsSeatOf node.now.turn place.old.seat }
        requires unsealed { is_open (knows place.old).seen ≡ true }
        requires tells { X.exact ≡ true → tells (items K.Keeper (knows place.old).seen) ≡ true }
        ensures of { IsGlimpseOf node.now.turn result.0.glimpse.glimpse }
        ensures one { result.0.writer.face ≡ self.writer.face }
        ensures place { IsSeatOf node.now.turn place.new.seat }
        ensures open { StaysOpen (knows place.old).seen (knows place.new).seen }
        ensures turned { Turned (knows place.old) (knows place.new) (λ old new.
            ReadDoes (λ kept told. told_list told ≡ processed kept) result.1 (items K.Keeper old)
            (items K.Keeper new)) }
        ensures whole { IfOk result.1 (λ seen.
            IsWholeFace (items K.Keeper (knows place.new).seen) (told_list seen.answer)) }
        ensures face { IfOk result.1 (λ seen. told_face seen.answer ≡ self.writer.face) }
        ensures seen { IfErr result.1 DecidesAlone }
    {
        let Showing { writer, glimpse } = self;
        let mut writer = writer;
        node.learn(place, glimpse);
        let result = bring(alloc, node, place, &mut writer, wait);
        let glimpse = node.glimpse(place);
        (Showing { writer, glimpse }, result)
    }
}

// Brings a face to the node's blocks and shows it.
fn bring<K: Keeper, J: Naming, X: Exactness, W: Wait>(
    alloc: Global,
    node: &Node<Stored<K, J>>,
    place: &mut NodeSeat<Stored<K, J>, K>,
    writer: &mut FaceWriter<X>,
    wait: &W,
) -> Result<Seen<Told>, CoreError>
    requires place { IsSeatOf node.now.turn place.old.seat }
    requires unsealed { is_open (knows place.old).seen ≡ true }
    requires begins { WasFaceOf K.Keeper (knows place.old).seen writer.old.list }
    requires tells { X.exact ≡ true → tells (items K.Keeper (knows place.old).seen) ≡ true }
    ensures place { IsSeatOf node.now.turn place.new.seat }
    ensures open { StaysOpen (knows place.old).seen (knows place.new).seen }
    ensures turned { Turned (knows place.old) (knows place.new) (λ old new.
        ReadDoes (λ kept told. told_list told ≡ processed kept) result (items K.Keeper old)
        (items K.Keeper new)) }
    ensures whole { IfOk result (λ seen.
        IsWholeFace (items K.Keeper (knows place.new).seen) (told_list seen.answer)) }
    ensures begins { IsFaceOf (items K.Keeper (knows place.new).seen) writer.new.list }
    ensures one { writer.new.face ≡ writer.old.face }
    ensures face { IfOk result (λ seen. told_face seen.answer ≡ writer.old.face) }
    ensures seen { IfErr result DecidesAlone }
{
    match node.catch_up(alloc, place, writer, wait) {
        Ok(seen) => match writer.publish(wait) {
            Ok(told) => Ok(Seen {
                answer: told,
                length: seen.length,
            }),
            Err(AllocError) => Err(CoreError::Memory),
        },
        Err(error) => Err(error),
    }
}
