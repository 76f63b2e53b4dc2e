// A face is brought up to the replica.
ghost use Rattle.std.specs.Prelude.{◌≡◌, true, is_some, length, IfErr, IfOk, IfSome, OnErr, OnOk};
ghost use Rattle.mc_turn.specs.Lists.{Begins};
ghost use Rattle.mc_model.specs.Kept.{processed};
ghost use Rattle.mc_face.specs.Lists.{Starts};
ghost use Rattle.mc_core.specs.Exact.{DecidesAlone};
ghost use Rattle.mc_node.specs.Entries.{is_open, items};
ghost use Rattle.mc_node.specs.Faces.{IsWholeFace};
ghost use Rattle.mc_node.specs.Moves.{ReadDoes};

use super::Stored;
use super::entries::{note, noted};
use super::reads::seen;
use crate::node::Seen;
use mc_core::{CoreError, replicas_only_grow};
use mc_face::{Exactness, FaceWriter};
use mc_fetch::Naming;
use mc_keep::Keeper;
use mc_model::kept_is_durable;
use std::alloc::Global;

impl<K: Keeper, J: Naming> Stored<K, J> {
    // Brings a face to the processed blocks, and says how many its list has then.
    pub(crate) fn catch_up<X: Exactness>(
        &mut self,
        alloc: Global,
        face: &mut FaceWriter<X>,
    ) -> Result<Seen<u64>, CoreError>
        requires begins { IfSome (K.told self.old.replica.value.keeper) (λ kept.
            Starts (processed kept) face.old.list) }
        requires tells { X.exact ≡ true → is_some (K.told self.old.replica.value.keeper) ≡ true }
        ensures extends { Begins self.old.log.items self.new.log.items }
        ensures does { ReadDoes (λ kept count. face.new.list ≡ processed kept) result
            (items K.Keeper self.old.log.items) (items K.Keeper self.new.log.items) }
        ensures whole { is_open self.old.log.items ≡ true → OnOk result
            (IsWholeFace (items K.Keeper self.new.log.items) face.new.list) }
        ensures count { IfOk result (λ seen. seen.answer ≡ length face.new.list) }
        ensures err { OnErr result (face.new.list ≡ face.old.list) }
        ensures shown { face.new.shown ≡ face.old.shown }
        ensures face { face.new.face ≡ face.old.face }
        ensures seen { IfErr result DecidesAlone }
    {
        replicas_only_grow();
        kept_is_durable();
        let length = match self.begin() {
            Ok(length) => length,
            Err(error) => return Err(error),
        };
        self.replica.is_sound();
        let result = self.replica.catch_up(alloc, face);
        let entry = noted(&result, None, None);
        note(&mut self.log, &self.replica, entry);
        seen(length, result)
    }
}
