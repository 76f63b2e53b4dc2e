// Which face of which node.
use mc_face::Told;
use mc_turn::Glimpse;
use std::marker::Model;

/// Which face of which node a shared face is. Contracts alone read it: no value of this type is ever made.
pub struct FaceName {
    face: Told,
    node: Glimpse<u8>,
}

impl Model for FaceName {
    ghost use Rattle.mc_face.specs.Words.{told_face};
    ghost use Rattle.mc_shown.specs.Names.{Name};

    ghost Value = { Name };

    ghost view = { λ n. record { face = told_face n.face; node = n.node.badge.table_id } };
}
