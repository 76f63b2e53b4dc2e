// The replicas of a run, what is around them, and the record of its lines.
ghost use Rattle.std.specs.Prelude.{◌≡◌, ◌≤◌, [], true, length, vec_capacity};
ghost use Rattle.mc_seats.specs.Desked.{desk_sums, is_desked};

use crate::LineEntry;
use crate::bag::Bag;
use crate::links::Link;
use crate::seat::Seat;
use mc_base::List;
use mc_core::OpenCause;
use mc_keep::Keeper;

/// A keeper, and its desks.
pub struct Part<K: Keeper> {
    /// The keeper.
    pub keeper: K,
    /// Its desks.
    pub desks: List<K::Desk>,
}

/// The world that was not made: why, and its parts.
pub struct NoWorld<K: Keeper> {
    /// Why.
    pub cause: OpenCause,
    /// The parts, whose keepers tell what they told before, with the desks that were made.
    pub parts: List<Part<K>>,
}

/// Some replicas in order of name, each running or stopped; the messages ever sent and the CARv1 files ever made or
/// given, numbered from 1; the links between the replicas; the offers that are planted at them; and the record of the
/// lines that were executed. Each replica has its sixteen desks at hand.
pub struct World<K: Keeper> {
    /// The replicas.
    pub seats: Vec<Seat<K>>,
    /// The desks of each.
    pub desks: Vec<List<K::Desk>>,
    /// How often the desks of each have failed.
    pub desk_counts: Vec<u64>,
    /// The messages and the files.
    pub bag: Bag,
    /// The links that are down.
    pub down: Vec<Link>,
    /// Room for the parts that are handed back.
    pub room: Vec<Part<K>>,
    /// One entry for each line that was executed.
    pub entries: List<LineEntry>,
    pub ghost desked: { is_desked (length seats.items) desks.items ≡ true },
    pub ghost counted: { desk_counts.items ≡ desk_sums K.Desk.faults desks.items },
    pub ghost empty: { room.items ≡ [] },
    pub ghost roomy: { length seats.items ≤ vec_capacity room },
}
