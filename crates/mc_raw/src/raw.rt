// The rows of tables as they stand, right or not.
ghost use Rattle.std.specs.Prelude.{◌≡◌, refl, true, false, List, [], ◌∷◌, ◌++◌, ℕ, Bool, Option, None, IfSome};
ghost use Rattle.std.specs.Prelude.{slice_get};
ghost use Rattle.std.proofs.Common.{◌∙◌};
ghost use Rattle.std.specs.Ordering.{eq_by_cmp, as_partial_cmp};
ghost use Rattle.std.specs.Cmp.{partial_order_from_total};
ghost use Rattle.std.specs.Result.{is_err};
ghost use Rattle.std.proofs.lemmas.Cmp.{eq_by_cmp_equiv};
ghost use Rattle.mc_base.specs.Told.{Told};
ghost use Rattle.mc_base.specs.declared.cid.Cid.{Cid as Identifier};
ghost use Rattle.mc_keep.specs.Causes.{CountGoes};
ghost use Rattle.mc_keep.specs.Plan.{is_fault};
ghost use Rattle.mc_raw.specs.RowOrder.{row_cmp, row_total};
ghost use Rattle.mc_raw.specs.Raw.{Tables, IfRaw, IsFree, IsWithout, DropGoes};

use mc_base::{Bytes, Cid, Counted, Failed};
use mc_keep::KeepError;
use std::alloc::Global;
use std::cmp::Ordering;

/// A row of a table as it stands. Columns that its table does not use are empty or 0.
#[derive(Debug, Drop)]
pub struct Row {
    /// The first column: a digest or a key.
    pub a: Bytes,
    /// The second one: bytes, a digest or an id.
    pub b: Bytes,
    /// The third one: a value.
    pub c: Bytes,
    /// The number: a position, a priority, a height or a mark.
    pub n: u64,
}

impl PartialEq for Row {
    ghost eq = { eq_by_cmp row_cmp };

    ghost laws = { record {
      symm = (eq_by_cmp_equiv row_total).symm;
      trans = λ x y z e f. (eq_by_cmp_equiv row_total).congr x y z e ∙ f;
    } };

    fn eq(&self, other: &Row) -> bool {
        self.cmp(other).is_eq()
    }
}

impl Eq for Row {
    ghost laws = { eq_by_cmp_equiv row_total };
}

impl PartialOrd for Row {
    ghost partial_cmp = { as_partial_cmp row_cmp };

    ghost laws = { partial_order_from_total row_total };

    fn partial_cmp(&self, other: &Row) -> Option<Ordering> {
        Some(self.cmp(other))
    }
}

/// By the columns, in their order, and then by the number.
impl Ord for Row {
    ghost cmp = { row_cmp };

    ghost total = { row_total };

    ghost matches_partial_cmp = { λ x y. refl };

    ghost matches_eq = { λ x y. refl };

    fn cmp(&self, other: &Row) -> Ordering {
        self.a
            .as_slice()
            .cmp(other.a.as_slice())
            .then(self.b.as_slice().cmp(other.b.as_slice()))
            .then(self.c.as_slice().cmp(other.c.as_slice()))
            .then(self.n.cmp(&other.n))
    }
}

/// Tables of plain rows, right or not: nine of them, each in its order. `raw_next` changes nothing. Either call fails
/// only where the count rose.
///
/// | table | a | b | c | n | order |
/// |---|---|---|---|---|---|
/// | 1, stored blocks | digest | bytes | | | a |
/// | 2, processed blocks | digest | | | position | n |
/// | 3, elements | key | digest | value | priority | a, b, c |
/// | 4, tombstones | key | id | | | a, b |
/// | 5, values | key | | value | priority | a |
/// | 6, winners | key | digest | | | a |
/// | 7, heads | digest | | | height | a |
/// | 8, links | digest | | | | a |
/// | 9, the mark | | | | 0 clear, 1 set, 2 where the layout is not the second | one row |
pub trait RawTables: Counted {
    /// The rows of each table, by its number, where they are told.
    ghost raw: { Self → Option Tables };

    /// What calls one after another leave, in which these blocks were removed in turn. The flag says whether the last
    /// call failed.
    ghost goes: { List Identifier → Bool → Self → Self → Type 0 };

    /// The row of a table, by its number from 1, at a place, from 0, or none exactly past its end. Where the rows are
    /// not told it gives any.
    fn raw_next(&mut self, alloc: Global, table: u64, index: u64) -> Result<Option<Row>, KeepError>
        ensures row { IfRaw (raw self.old) result (λ tables row. row ≡ slice_get (tables table) index) }
        ensures goes { goes [] (is_fault result) self.old self.new };

    /// Removes one row of table 1, the first with the block's digest, or fails before or after that; no other table
    /// changes. It takes no memory. The row must be there, and no row of table 2 may have the digest.
    fn raw_drop(&mut self, cid: &Cid) -> Result<(), Failed>
        requires { IfSome (raw self.old) (IsFree cid.now) }
        ensures { DropGoes (goes [] true self.old self.new)
            (goes (cid.now ∷ []) (is_err result) self.old self.new) result };

    /// No call at all.
    ghost still: { (tables : Self) → goes [] false tables tables };

    /// Calls, and then others.
    ghost goes_on: { (first next : List Identifier) (failed : Bool) (old mid new : Self) →
        goes first false old mid → goes next failed mid new → goes (first ++ next) failed old new };

    /// What is told is without the blocks that were removed.
    ghost goes_raw: { (cids : List Identifier) (failed : Bool) (old new : Self) →
        goes cids failed old new → Told (raw old) (raw new) (IsWithout cids) };

    /// What is not told stays so.
    ghost goes_silent: { (cids : List Identifier) (failed : Bool) (old new : Self) →
        goes cids failed old new → raw old ≡ None → raw new ≡ None };

    /// The count rose exactly where the last call failed.
    ghost goes_count: { (cids : List Identifier) (failed : Bool) (old new : Self) →
        goes cids failed old new → CountGoes failed (Self.faults old) (Self.faults new) };
}
