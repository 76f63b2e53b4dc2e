// What threads call a shared face with.
ghost use Rattle.std.specs.Prelude.{◌≡◌, true};
ghost use Rattle.mc_turn.specs.Seats.{view, IsIdle};
ghost use Rattle.mc_shown.specs.Names.{has_name};

use crate::name::FaceName;
use crate::showing::Showing;
use mc_face::Exactness;
use mc_keep::Keeper;
use mc_turn::Seat;

/// What a thread calls a shared face with. It has no bytes; contracts read which face of which node it is of.
///
/// Condition of each call that takes a seat: it is one of this shared face, which `open_face` gave or which was split
/// from one. It can't be dropped, since its type names the writer: `join` takes it back, or `end` does.
pub struct FaceSeat<K: Keeper, X: Exactness> {
    pub(crate) seat: Seat<Showing<K, X>, FaceName>,
    ghost idle: { IsIdle seat },
    ghost named: { has_name (view seat).seen ≡ true },
}
