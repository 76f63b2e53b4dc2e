// The value of a node is made of a replica, and gives it back.
ghost use Rattle.std.specs.Prelude.{◌≡◌, true, false, [], IfOk, IfErr, IfSome};
ghost use Rattle.mc_model.specs.Kept.{IsKept};
ghost use Rattle.mc_node.specs.Entries.{IsRootLog, items, shown};
ghost use Rattle.mc_node.specs.Ties.{IsTied, IsWithin, StoresFound};
ghost use Rattle.mc_core.specs.Replica.{replica_state};

use super::Stored;
use crate::entry::{about, add};
use crate::note::Note;
use mc_core::Replica;
use mc_fetch::Naming;
use mc_keep::Keeper;
use mc_model::found_drains_go_on;
use mc_relay::TakerEnd;
use std::alloc::Global;
use std::marker::PhantomData;

impl<K: Keeper, J: Naming> Stored<K, J> {
    // A replica with a log that has its root alone, and room for the entry of a halt.
    pub(crate) fn new(
        alloc: Global,
        replica: Replica<K>,
        sealed: bool,
        taker: Option<TakerEnd<J>>,
    ) -> Result<Stored<K, J>, Replica<K>>
        requires runs { replica.stopped ≡ false }
        requires inbox { IfSome taker (λ end. replica.inbox.items ≡ []) }
        requires most { sealed ≡ true → IsWithin J.most (replica_state K.told K.fuse replica) }
        requires found { sealed ≡ true → StoresFound (record {
          walks = J.walks;
          most = J.most;
          found = J.found;
          kept = J.kept;
        })
            (replica_state K.told K.fuse replica) }
        ensures ok { IfOk result (λ stored. stored.replica.value ≡ replica) }
        ensures root { IfOk result (λ stored. IsRootLog sealed replica stored.log.items) }
        ensures err { IfErr result (λ left. left ≡ replica) }
    {
        found_drains_go_on();
        let Ok(mut log) = Vec::with_capacity(alloc, 2) else {
            return Err(replica);
        };
        let entry = about(Note::Root { sealed }, &replica);
        add(&mut log, entry);
        let replica = match Box::new(alloc, replica) {
            Ok(replica) => replica,
            Err(failed) => {
                drop(log);
                return Err(failed.value);
            }
        };
        Ok(Stored {
            replica,
            log,
            taker,
            of: PhantomData,
        })
    }

    // The replica alone.
    pub(crate) fn into_replica(self) -> Replica<K>
        ensures same { result ≡ self.replica.value }
        ensures tied { IsTied (record { walks = J.walks; most = J.most; found = J.found; kept = J.kept })
            (shown K.Keeper result) (items K.Keeper self.log.items) }
    {
        let Stored {
            replica,
            log,
            taker,
            of: _,
        } = self;
        drop(log);
        drop(taker);
        Box::into_inner(replica)
    }
}
