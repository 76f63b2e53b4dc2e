// How a node begins and ends, and its seats.
ghost use Rattle.std.specs.Prelude.{◌≡◌, ◌<◌, true, false, [], IfOk, IfErr, IfSome};
ghost use Rattle.mc_turn.specs.Lists.{Begins};
ghost use Rattle.mc_turn.specs.Seats.{IsGlimpseOf, IsSeatOf, sight};
ghost use Rattle.mc_turn.specs.Views.{first_view, left_view, right_view, joined_view, learned_view, AreApart, IsTaken};
ghost use Rattle.mc_core.specs.Replica.{replica_state};
ghost use Rattle.mc_node.specs.Entries.{IsRootLog, IsSealedOf, StaysOpen, StaysSealed, is_open, is_sealed_log, items};
ghost use Rattle.mc_node.specs.Entries.{shown};
ghost use Rattle.mc_node.specs.Seats.{knows};
ghost use Rattle.mc_core.specs.Exact.{RunSame};
ghost use Rattle.mc_core.specs.Words.{Becomes, Continues};
ghost use Rattle.mc_node.specs.Ties.{IsTied, IsWithin, StoresFound};
ghost use Rattle.mc_node.specs.Works.{WorkersLead};

use super::{Node, NodeGlimpse, NodeRefused, NodeSeat};
use crate::stored::Stored;
use mc_core::Replica;
use mc_fetch::Naming;
use mc_keep::Keeper;
use mc_relay::TakerEnd;
use mc_turn::{Refused, Turn};
use std::alloc::Global;
use std::sync::Wait;

impl<K: Keeper, J: Naming> Node<Stored<K, J>> {
    /// A node over a replica that runs, and a seat with all its parts, which has seen the root. A sealed node is for
    /// workers alone: nobody puts, deletes or hears there. With the taker of a relay it takes in what workers push
    /// there, each with a giver of that relay. `NodeRefused` comes for want of memory alone.
    ///
    /// Conditions: with a relay the replica's inbox is empty. Those of a sealed node: no more is processed than
    /// `J.most`; and where `J.found` is known, the keeper tells, each stored block is found there, and all of
    /// `J.kept` are stored.
    pub fn new(
        alloc: Global,
        replica: Replica<K>,
        sealed: bool,
        taker: Option<TakerEnd<J>>,
    ) -> Result<(Node<Stored<K, J>>, NodeSeat<Stored<K, J>, K>), NodeRefused<K>>
        requires runs { replica.stopped ≡ false }
        requires inbox { IfSome taker (λ end. replica.inbox.items ≡ []) }
        requires most { sealed ≡ true → IsWithin J.most (replica_state K.told K.fuse replica) }
        requires found { sealed ≡ true → StoresFound (record {
          walks = J.walks;
          most = J.most;
          found = J.found;
          kept = J.kept;
        })
            (replica_state K.told K.fuse replica) }
        ensures own { IfOk result (λ made. IsSeatOf made.0.turn made.1.seat) }
        ensures root { IfOk result (λ made. (log : _) × IsRootLog sealed replica log
            × (knows made.1 ≡ first_view log)) }
        ensures open { sealed ≡ false → IfOk result (λ made. is_open (knows made.1).seen ≡ true) }
        ensures sealed { sealed ≡ true → IfOk result (λ made. IsSealedOf replica (knows made.1).seen
            × (is_sealed_log (knows made.1).seen ≡ true)) }
        ensures err { IfErr result (λ refused. refused.replica ≡ replica) }
    {
        let stored = match Stored::new(alloc, replica, sealed, taker) {
            Ok(stored) => stored,
            Err(replica) => return Err(NodeRefused { replica }),
        };
        match Turn::new(alloc, stored) {
            Ok((turn, seat)) => Ok((Node { turn }, NodeSeat { seat })),
            Err(refused) => {
                let Refused { value } = refused;
                Err(NodeRefused {
                    replica: value.into_replica(),
                })
            }
        }
    }

    /// A new seat, which has seen what this seat has seen, with half of its parts, rounded down. Takes no memory.
    /// Condition: the seat has at least 2 parts.
    pub fn split(&self, seat: &mut NodeSeat<Stored<K, J>, K>) -> NodeSeat<Stored<K, J>, K>
        requires own { IsSeatOf self.now.turn seat.old.seat }
        requires parts { 1 < (knows seat.old).parts }
        ensures own { IsSeatOf self.now.turn seat.new.seat × IsSeatOf self.now.turn result.seat }
        ensures left { knows seat.new ≡ left_view (knows seat.old) }
        ensures right { knows result ≡ right_view (knows seat.old) }
    {
        NodeSeat {
            seat: self.turn.split(&mut seat.seat),
        }
    }

    /// The seat takes in another one, and has then seen the longer of both logs, which the shorter begins. No place
    /// stands in the `mine` of both. Takes no memory.
    pub fn join(&self, seat: &mut NodeSeat<Stored<K, J>, K>, other: NodeSeat<Stored<K, J>, K>)
        requires own { IsSeatOf self.now.turn seat.old.seat × IsSeatOf self.now.turn other.seat }
        ensures own { IsSeatOf self.now.turn seat.new.seat }
        ensures joined { knows seat.new ≡ joined_view (knows seat.old) (knows other) }
        ensures one { Begins (knows seat.old).seen (knows seat.new).seen
            × Begins (knows other).seen (knows seat.new).seen }
        ensures open { StaysOpen (knows seat.old).seen (knows seat.new).seen }
        ensures sealed { StaysSealed (knows seat.old).seen (knows seat.new).seen }
        ensures apart { AreApart (knows seat.old) (knows other) }
    {
        let NodeSeat { seat: other } = other;
        self.turn.join(&mut seat.seat, other);
    }

    /// What the seat has seen, as a token that another seat of the node may learn. The seat stays as it is. Takes no
    /// memory.
    pub fn glimpse(&self, seat: &mut NodeSeat<Stored<K, J>, K>) -> NodeGlimpse<K>
        requires own { IsSeatOf self.now.turn seat.old.seat }
        ensures own { IsSeatOf self.now.turn seat.new.seat × IsGlimpseOf self.now.turn result.glimpse }
        ensures same { knows seat.new ≡ knows seat.old }
        ensures sight { sight result.glimpse ≡ (knows seat.old).seen }
    {
        NodeGlimpse {
            glimpse: self.turn.glimpse(&mut seat.seat),
        }
    }

    /// The seat learns what another one had seen: it has then seen the longer of both logs, which the shorter begins, and
    /// all else that it knows stays. Takes no memory.
    pub fn learn(&self, seat: &mut NodeSeat<Stored<K, J>, K>, glimpse: NodeGlimpse<K>)
        requires own { IsSeatOf self.now.turn seat.old.seat × IsGlimpseOf self.now.turn glimpse.glimpse }
        ensures own { IsSeatOf self.now.turn seat.new.seat }
        ensures learned { knows seat.new ≡ learned_view (knows seat.old) (sight glimpse.glimpse) }
        ensures one { Begins (knows seat.old).seen (knows seat.new).seen
            × Begins (sight glimpse.glimpse) (knows seat.new).seen }
        ensures open { StaysOpen (knows seat.old).seen (knows seat.new).seen }
        ensures sealed { StaysSealed (knows seat.old).seen (knows seat.new).seen }
    {
        let NodeGlimpse { glimpse } = glimpse;
        self.turn.learn(&mut seat.seat, glimpse);
    }

    /// Ends the node and hands its replica out, tied to a log that begins with all that the seat has seen. The `mine`
    /// of a seat with all parts has every place after the root. Of a node that was made sealed of some replica, what
    /// comes back is what the calls of workers led to from there, and it has stopped exactly where one of them failed.
    /// Takes no memory.
    pub fn close<W: Wait>(self, seat: NodeSeat<Stored<K, J>, K>, wait: &W) -> Replica<K>
        requires own { IsSeatOf self.turn seat.seat }
        ensures log { (log : _) × IsTaken (knows seat) log
            × IsTied (record { walks = J.walks; most = J.most; found = J.found; kept = J.kept })
            (shown K.Keeper result) (items K.Keeper log) }
        ensures leads { (root : _) → IsSealedOf root (knows seat).seen → Becomes K.Keeper (λ rose s new.
            WorkersLead (record { walks = J.walks; most = J.most; found = J.found; kept = J.kept })
            result.stopped s new)
            root result }
        ensures keeps { (root : _) → IsSealedOf root (knows seat).seen →
            Continues K.Keeper result.stopped root result }
        ensures rest { (root : _) → J.walks ≡ false → IsSealedOf root (knows seat).seen → RunSame root result }
    {
        let Node { turn } = self;
        let NodeSeat { seat } = seat;
        turn.close(seat, wait).into_replica()
    }
}
