// A block with a live element of a key.
ghost use Rattle.std.specs.Prelude.{◌≡◌, true, refl};
ghost use Rattle.std.proofs.Common.{◌∙◌};
ghost use Rattle.std.specs.Ordering.{eq_by_cmp, as_partial_cmp};
ghost use Rattle.std.specs.Cmp.{partial_order_from_own_ties};
ghost use Rattle.std.specs.Cmp.Rules.{comparing};
ghost use Rattle.std.proofs.Common.{rules};
ghost use Rattle.std.proofs.lemmas.Cmp.{eq_by_cmp_equiv};
ghost use Rattle.mc_model.specs.Ascending.{Ascends};
ghost use Rattle.mc_model.specs.Cuts.{pair_cmp};
ghost use Rattle.mc_write.specs.Pairs.{seen, all_seen, row_pair, has_digest, have_digests};
ghost use Rattle.mc_write.specs.PairOrder.{own_cmp, own_total};

use mc_base::{Bytes, Cid};
use mc_keep::ElementRow;
use std::cmp::Ordering;

/// A processed block with a live element of a key.
#[derive(Debug, Drop)]
pub(crate) struct Pair {
    /// The block's priority.
    pub priority: u64,
    /// The greatest live value of the key in the block.
    pub value: Bytes,
    /// The block.
    pub cid: Cid,
}

impl PartialEq for Pair {
    ghost eq = { eq_by_cmp own_cmp };

    ghost laws = { record {
      symm = (eq_by_cmp_equiv own_total).symm;
      trans = λ x y z e f. (eq_by_cmp_equiv own_total).congr x y z e ∙ f;
    } };

    fn eq(&self, other: &Pair) -> bool {
        self.cmp(other).is_eq()
    }
}

impl Eq for Pair {
    ghost laws = { eq_by_cmp_equiv own_total };
}

impl PartialOrd for Pair {
    ghost partial_cmp = { as_partial_cmp own_cmp };

    ghost laws = { partial_order_from_own_ties (Prim.search (comparing, rules)) (Prim.search (comparing, rules)) };

    fn partial_cmp(&self, other: &Pair) -> Option<Ordering> {
        Some(self.cmp(other))
    }
}

/// By the priority, then by the value, then by the block.
impl Ord for Pair {
    ghost cmp = { own_cmp };

    ghost total = { own_total };

    ghost matches_partial_cmp = { λ x y. refl };

    ghost matches_eq = { λ x y. refl };

    fn cmp(&self, other: &Pair) -> Ordering {
        self.priority
            .cmp(&other.priority)
            .then(self.value.as_slice().cmp(other.value.as_slice()))
            .then(self.cid.cmp(&other.cid))
    }
}

// The pair of a row.
pub(crate) fn pair_of(row: ElementRow) -> Pair
    ensures pair { seen result ≡ row_pair row }
    ensures digest { has_digest result.cid ≡ true }
{
    Pair {
        priority: row.priority,
        value: row.value,
        cid: row.cid,
    }
}

// The pairs in order, each once.
pub(crate) fn in_order(pairs: Vec<Pair>) -> Vec<Pair>
    ensures ascends { Ascends pair_cmp (all_seen result.items) (all_seen pairs.items) }
    ensures digests { have_digests (all_seen pairs.items) ≡ true → have_digests (all_seen result.items) ≡ true }
{
    let mut pairs = pairs;
    pairs.sort_unstable();
    pairs.dedup();
    pairs
}
