// What the contracts of a node and of its workers rely on.
use std::marker::Brand;

/// What is known of a round of work on a replica, for contracts alone. No value of such a type is made: a function that
/// begins a round picks one of its own, and all that it knows of the round's bounds and offers stands in its members.
pub trait Naming {
    ghost use Rattle.std.specs.Prelude.{ℕ, Bool, List, Option};
    ghost use Rattle.mc_base.specs.declared.cid.Cid.{Cid};
    ghost use Rattle.mc_fetch.specs.Fits.{Map};

    /// Whether steps of a repair walk may be made.
    ghost walks: { Bool };

    /// The blocks that the replica has stored when the round begins.
    ghost kept: { List Cid };

    /// How many processed blocks the replica may have at the round's end, where that is limited.
    ghost most: { Option ℕ };

    /// What is found for each block, where the offers are told: the bytes of the first offer whose digest names it.
    ghost found: { Option Map };

    /// The bytes that are surely found for a block: those of the first leading offer whose digest names it, whatever the
    /// places behind offer.
    ghost surely: { Map };

    /// Whether what a face of a node shows is the value rule's over its list.
    ghost exact: { Bool };
}

/// The name that each round picks anew.
impl Naming for Brand {
    ghost use Rattle.std.specs.Prelude.{false, []};
    ghost use Rattle.std.specs.Prelude as prelude;

    ghost walks = { false };

    ghost kept = { [] };

    ghost most = { prelude.None };

    ghost found = { prelude.None };

    ghost surely = { λ cid. prelude.None };

    ghost exact = { false };
}
