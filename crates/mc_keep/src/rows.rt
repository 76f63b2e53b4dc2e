// The rows of a keeper's tables.
ghost use Rattle.std.specs.Prelude.{refl};
ghost use Rattle.std.proofs.Common.{◌∙◌};
ghost use Rattle.std.specs.Ordering.{eq_by_cmp, as_partial_cmp};
ghost use Rattle.std.specs.Cmp.{partial_order_from_own_ties, partial_order_from_total};
ghost use Rattle.std.specs.Cmp.Rules.{comparing};
ghost use Rattle.std.proofs.Common.{rules};
ghost use Rattle.std.proofs.lemmas.Cmp.{eq_by_cmp_equiv};
ghost use Rattle.mc_keep.specs.ElementOrder.{element_cmp, element_total};
ghost use Rattle.mc_keep.specs.HeadOrder.{head_row_cmp, head_row_total};

use mc_base::{Bytes, Cid, Text};
use std::cmp::Ordering;

/// An element of a processed block.
#[derive(Debug, Drop)]
pub struct ElementRow {
    /// The key that the element sets.
    pub key: Text,
    /// The block.
    pub cid: Cid,
    /// The block's priority.
    pub priority: u64,
    /// The value.
    pub value: Bytes,
}

impl PartialEq for ElementRow {
    ghost eq = { eq_by_cmp element_cmp };

    ghost laws = { record {
      symm = (eq_by_cmp_equiv element_total).symm;
      trans = λ x y z e f. (eq_by_cmp_equiv element_total).congr x y z e ∙ f;
    } };

    fn eq(&self, other: &ElementRow) -> bool {
        self.cmp(other).is_eq()
    }
}

impl Eq for ElementRow {
    ghost laws = { eq_by_cmp_equiv element_total };
}

impl PartialOrd for ElementRow {
    ghost partial_cmp = { as_partial_cmp element_cmp };

    ghost laws = { partial_order_from_total element_total };

    fn partial_cmp(&self, other: &ElementRow) -> Option<Ordering> {
        Some(self.cmp(other))
    }
}

/// By the priority and the block, and then by the value and the key.
impl Ord for ElementRow {
    ghost cmp = { element_cmp };

    ghost total = { element_total };

    ghost matches_partial_cmp = { λ x y. refl };

    ghost matches_eq = { λ x y. refl };

    fn cmp(&self, other: &ElementRow) -> Ordering {
        self.priority
            .cmp(&other.priority)
            .then(self.cid.cmp(&other.cid))
            .then(self.value.as_slice().cmp(other.value.as_slice()))
            .then(self.key.as_bytes().cmp(other.key.as_bytes()))
    }
}

/// A tombstone of a processed block.
#[derive(Debug, Drop)]
pub struct TombRow {
    /// The key.
    pub key: Text,
    /// The id of the block whose elements of the key it hides.
    pub id: Text,
}

/// A value, with the priority of the block that set it.
#[derive(Debug, Drop)]
pub struct RankedValue {
    /// The priority.
    pub priority: u64,
    /// The value.
    pub value: Bytes,
}

/// A key with its value, and with the priority of the block that set it.
#[derive(Debug, Drop)]
pub struct ValueRow {
    /// The key.
    pub key: Text,
    /// The priority.
    pub priority: u64,
    /// The value.
    pub value: Bytes,
}

/// A processed block to which no processed block links.
#[derive(Clone, Copy, Debug)]
pub struct HeadRow {
    /// The block.
    pub cid: Cid,
    /// Its height, the priority of its delta.
    pub height: u64,
}

impl PartialEq for HeadRow {
    ghost eq = { eq_by_cmp head_row_cmp };

    ghost laws = { record {
      symm = (eq_by_cmp_equiv head_row_total).symm;
      trans = λ x y z e f. (eq_by_cmp_equiv head_row_total).congr x y z e ∙ f;
    } };

    fn eq(&self, other: &HeadRow) -> bool {
        self.cmp(other).is_eq()
    }
}

impl Eq for HeadRow {
    ghost laws = { eq_by_cmp_equiv head_row_total };
}

impl PartialOrd for HeadRow {
    ghost partial_cmp = { as_partial_cmp head_row_cmp };

    ghost laws = { partial_order_from_own_ties (Prim.search (comparing, rules)) (Prim.search (comparing, rules)) };

    fn partial_cmp(&self, other: &HeadRow) -> Option<Ordering> {
        Some(self.cmp(other))
    }
}

/// By the block, and then by the height.
impl Ord for HeadRow {
    ghost cmp = { head_row_cmp };

    ghost total = { head_row_total };

    ghost matches_partial_cmp = { λ x y. refl };

    ghost matches_eq = { λ x y. refl };

    fn cmp(&self, other: &HeadRow) -> Ordering {
        self.cid
            .cmp(&other.cid)
            .then(self.height.cmp(&other.height))
    }
}

/// How many rows a keeper has, and its mark. Each number is below 2^63.
#[derive(Clone, Copy, Debug, PartialEq, Eq)]
pub struct Summary {
    /// The processed blocks.
    pub processed: u64,
    /// The stored blocks.
    pub stored: u64,
    /// The identifiers that a processed block links to and that are not processed.
    pub gaps: u64,
    /// The dirty mark.
    pub mark: bool,
}
