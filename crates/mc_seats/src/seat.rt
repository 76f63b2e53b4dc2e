// A replica's place in a world.
ghost use Rattle.std.specs.Prelude.{◌≡◌, IfSome};
ghost use Rattle.mc_model.specs.State.{HasSoundMark};
ghost use Rattle.mc_model.specs.declared.layout.Layout.TheVariants.{Two};
ghost use Rattle.mc_seats.specs.Marks.{IsMarked};

use mc_core::Replica;
use mc_fetch::Plants;
use mc_keep::Keeper;

/// The keeper of a replica that doesn't run. Its mark is sound, and it has the winner row of each key with a value.
#[derive(Drop)]
pub struct Idle<K: Keeper> {
    /// The keeper.
    pub keeper: K,
    pub ghost marked: { IsMarked (K.told keeper) },
    pub ghost laid: { K.layout keeper ≡ Two },
}

/// A replica that runs or has fallen by a fault of its keeper, or the keeper of one that doesn't run.
#[derive(Drop)]
pub enum Held<K: Keeper> {
    /// The replica.
    Up(Replica<K>),
    /// The keeper.
    Down(Idle<K>),
}

/// A replica in its place, and the offers that are planted at it.
#[derive(Drop)]
pub struct Seat<K: Keeper> {
    /// The replica, or its keeper.
    pub held: Held<K>,
    /// The offers.
    pub planted: Plants,
}

// A keeper whose mark is sound and which has all winner rows, at rest.
pub(crate) fn rest<K: Keeper>(keeper: K) -> Idle<K>
    requires marked { IfSome (K.told keeper) HasSoundMark }
    requires laid { K.layout keeper ≡ Two }
    ensures { result.keeper ≡ keeper }
{
    Idle { keeper }
}

// Its keeper, whose mark is sound and which has all winner rows.
pub(crate) fn wake<K: Keeper>(idle: Idle<K>) -> K
    ensures keeper { result ≡ idle.keeper }
    ensures marked { IfSome (K.told result) HasSoundMark }
    ensures laid { K.layout result ≡ Two }
{
    idle.keeper
}
