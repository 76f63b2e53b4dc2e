// The tombstones of a group of blocks that the keeper does not have.
ghost use Rattle.std.specs.Prelude.{refl, ◌≡◌, [], ◌∷◌, ◌++◌, map, filter, IfOk, OnOk, IfSome};
ghost use Rattle.std.proofs.Common.{◌∙◌};
ghost use Rattle.std.specs.Ordering.{eq_by_cmp, as_partial_cmp};
ghost use Rattle.std.specs.Cmp.{partial_order_from_total};
ghost use Rattle.std.specs.List.Sorted.{IsStrictlySortedBy};
ghost use Rattle.std.proofs.lemmas.Cmp.{eq_by_cmp_equiv};
ghost use Rattle.mc_model.specs.SameMembers.{SameMembers};
ghost use Rattle.mc_model.specs.Kept.{processed};
ghost use Rattle.mc_keep.specs.Calls.{Reads};
ghost use Rattle.mc_keep.specs.Causes.{IfTold};
ghost use Rattle.mc_keep.specs.Plan.{is_fault};
ghost use Rattle.mc_rows.specs.Rows.{new_tomb_cmp, new_tomb_total, tomb_of, tombs_of, tomb_row, tomb_rows};
ghost use Rattle.mc_rows.specs.Hiding.{is_unknown};

use mc_base::{List, Text};
use mc_keep::{KeepError, Keeper, TombRow};
use mc_model::{Block, Tomb};
use std::alloc::{AllocError, Global};
use std::cmp::Ordering;

// A tombstone of a block of the group.
#[derive(Clone, Copy)]
pub(crate) struct NewTomb<'a> {
    pub(crate) key: &'a str,
    pub(crate) id: &'a str,
}

impl<'a> PartialEq for NewTomb<'a> {
    ghost eq = { eq_by_cmp new_tomb_cmp };

    ghost laws = { record {
      symm = (eq_by_cmp_equiv new_tomb_total).symm;
      trans = λ x y z e f. (eq_by_cmp_equiv new_tomb_total).congr x y z e ∙ f;
    } };

    fn eq(&self, other: &NewTomb<'a>) -> bool {
        self.cmp(other).is_eq()
    }
}

impl<'a> Eq for NewTomb<'a> {
    ghost laws = { eq_by_cmp_equiv new_tomb_total };
}

impl<'a> PartialOrd for NewTomb<'a> {
    ghost partial_cmp = { as_partial_cmp new_tomb_cmp };

    ghost laws = { partial_order_from_total new_tomb_total };

    fn partial_cmp(&self, other: &NewTomb<'a>) -> Option<Ordering> {
        Some(self.cmp(other))
    }
}

// By the key, and then by the id.
impl<'a> Ord for NewTomb<'a> {
    ghost cmp = { new_tomb_cmp };

    ghost total = { new_tomb_total };

    ghost matches_partial_cmp = { λ x y. refl };

    ghost matches_eq = { λ x y. refl };

    fn cmp(&self, other: &NewTomb<'a>) -> Ordering {
        self.key
            .as_bytes()
            .cmp(other.key.as_bytes())
            .then(self.id.as_bytes().cmp(other.id.as_bytes()))
    }
}

// The tombstones of the blocks that the keeper does not have, ascending, each once.
pub(crate) fn new_tombs<'a, K: Keeper>(
    keeper: &mut K,
    alloc: Global,
    blocks: &'a [Block],
) -> Result<Vec<NewTomb<'a>>, KeepError>
    ensures sorted { IfOk result (λ tombs. IsStrictlySortedBy new_tomb_cmp tombs.items) }
    ensures members { IfTold (K.told keeper.old) result (λ kept tombs.
        SameMembers (tombs_of tombs.items) (filter (is_unknown (processed kept)) (tomb_rows blocks.now))) }
    ensures reads { Reads K.Keeper (is_fault result) keeper.old keeper.new }
{
    let mut tombs = gather(keeper, alloc, blocks)?;
    tombs.sort_unstable();
    tombs.dedup();
    Ok(tombs)
}

fn gather<'a, K: Keeper>(
    keeper: &mut K,
    alloc: Global,
    blocks: &'a [Block],
) -> Result<Vec<NewTomb<'a>>, KeepError>
    ensures rows { IfTold (K.told keeper.old) result (λ kept tombs.
        tombs_of tombs.items ≡ filter (is_unknown (processed kept)) (tomb_rows blocks.now)) }
    ensures reads { Reads K.Keeper (is_fault result) keeper.old keeper.new }
{
    let mut tombs = Vec::new(alloc);
    for block in blocks {
        gather_of(keeper, block.delta.tombstones.as_slice(), &mut tombs)?;
    }
    Ok(tombs)
}

fn gather_of<'a, K: Keeper>(
    keeper: &mut K,
    tombstones: &'a [Tomb],
    tombs: &mut Vec<NewTomb<'a>>,
) -> Result<(), KeepError>
    ensures rows { OnOk result (IfSome (K.told keeper.old) (λ kept. tombs_of tombs.new.items ≡
        tombs_of tombs.old.items ++ filter (is_unknown (processed kept)) (map tomb_row tombstones.now))) }
    ensures reads { Reads K.Keeper (is_fault result) keeper.old keeper.new }
{
    for tomb in tombstones {
        gather_one(keeper, tomb, tombs)?;
    }
    Ok(())
}

fn gather_one<'a, K: Keeper>(
    keeper: &mut K,
    tomb: &'a Tomb,
    tombs: &mut Vec<NewTomb<'a>>,
) -> Result<(), KeepError>
    ensures rows { OnOk result (IfSome (K.told keeper.old) (λ kept. tombs_of tombs.new.items ≡
        tombs_of tombs.old.items ++ filter (is_unknown (processed kept)) (tomb_row tomb.now ∷ []))) }
    ensures reads { Reads K.Keeper (is_fault result) keeper.old keeper.new }
{
    if keeper.hidden(tomb.key.as_str(), tomb.id.as_str())? {
        return Ok(());
    }
    push_tomb(tombs, tomb)?;
    Ok(())
}

fn push_tomb<'a>(tombs: &mut Vec<NewTomb<'a>>, tomb: &'a Tomb) -> Result<(), AllocError>
    ensures { OnOk result (tombs_of tombs.new.items ≡ tombs_of tombs.old.items ++ tomb_row tomb.now ∷ []) }
{
    tombs.push(NewTomb {
        key: tomb.key.as_str(),
        id: tomb.id.as_str(),
    })?;
    Ok(())
}

// The rows of the tombstones.
pub(crate) fn tomb_rows_from(
    alloc: Global,
    tombs: &[NewTomb<'_>],
) -> Result<List<TombRow>, AllocError>
    ensures { IfOk result (λ rows. rows ≡ tombs_of tombs.now) }
{
    let mut rows = List::with_capacity(alloc, tombs.len())?;
    for tomb in tombs {
        rows.push(tomb_row_from(alloc, tomb)?)?;
    }
    Ok(rows)
}

fn tomb_row_from(alloc: Global, tomb: &NewTomb<'_>) -> Result<TombRow, AllocError>
    ensures { IfOk result (λ row. row ≡ tomb_of tomb.now) }
{
    Ok(TombRow {
        key: Text::from_text(alloc, tomb.key)?,
        id: Text::from_text(alloc, tomb.id)?,
    })
}
