// The rows of the value table and of the winner table.
ghost use Rattle.std.specs.Prelude.{refl, ◌≡◌, ◌++◌, ◌∷◌, [], List, map, filter, IfOk, OnOk};
ghost use Rattle.std.proofs.Common.{◌∙◌};
ghost use Rattle.std.specs.Ordering.{eq_by_cmp, as_partial_cmp};
ghost use Rattle.std.specs.Cmp.{partial_order_from_total};
ghost use Rattle.std.specs.List.Sorted.{IsStrictlySortedBy};
ghost use Rattle.std.proofs.lemmas.Cmp.{eq_by_cmp_equiv};
ghost use Rattle.mc_model.specs.Id.{id_text};
ghost use Rattle.mc_model.specs.declared.block.Block.{Block};
ghost use Rattle.mc_raw.specs.RowOrder.{row_cmp};
ghost use Rattle.mc_raw.specs.RowTables.{element_table, tomb_table, value_table, winner_table};
ghost use Rattle.mc_audit.specs.Values.{candidate_cmp, candidate_total, rows_in, tomb_of, is_shown_by};
ghost use Rattle.mc_audit.specs.Values.{value_in, winner_in, IsTopsOf};

use crate::sorting::has_row;
use mc_base::{Bytes, Case, Text, encode32_after};
use mc_raw::Row;
use std::alloc::{AllocError, Global};
use std::cmp::Ordering;

// The multihash code of SHA-256, and the length of its digests.
const PREFIX: [u8; 2] = [0x12, 0x20];

// A live element. By the key, the greatest first, and then by the block.
#[derive(Drop)]
pub(crate) struct Candidate {
    row: Row,
}

impl PartialEq for Candidate {
    ghost eq = { eq_by_cmp candidate_cmp };

    ghost laws = { record {
      symm = (eq_by_cmp_equiv candidate_total).symm;
      trans = λ x y z e f. (eq_by_cmp_equiv candidate_total).congr x y z e ∙ f;
    } };

    fn eq(&self, other: &Candidate) -> bool {
        self.cmp(other).is_eq()
    }
}

impl Eq for Candidate {
    ghost laws = { eq_by_cmp_equiv candidate_total };
}

impl PartialOrd for Candidate {
    ghost partial_cmp = { as_partial_cmp candidate_cmp };

    ghost laws = { partial_order_from_total candidate_total };

    fn partial_cmp(&self, other: &Candidate) -> Option<Ordering> {
        Some(self.cmp(other))
    }
}

impl Ord for Candidate {
    ghost cmp = { candidate_cmp };

    ghost total = { candidate_total };

    ghost matches_partial_cmp = { λ x y. refl };

    ghost matches_eq = { λ x y. refl };

    fn cmp(&self, other: &Candidate) -> Ordering {
        self.row
            .a
            .as_slice()
            .cmp(other.row.a.as_slice())
            .then(other.row.n.cmp(&self.row.n))
            .then(other.row.c.as_slice().cmp(self.row.c.as_slice()))
            .then(self.row.b.as_slice().cmp(other.row.b.as_slice()))
    }
}

// The value table and the winner table of these elements and tombstones.
pub(crate) fn value_tables(
    alloc: Global,
    elements: Vec<Row>,
    tombs: &[Row],
) -> Result<(Vec<Row>, Vec<Row>), AllocError>
    requires { IsStrictlySortedBy row_cmp tombs.now }
    ensures values { (blocks : List Block) → elements.items ≡ element_table blocks → tombs.now ≡ tomb_table blocks →
        IfOk result (λ tables. tables.0.items ≡ value_table blocks) }
    ensures winners { (blocks : List Block) → elements.items ≡ element_table blocks → tombs.now ≡ tomb_table blocks →
        IfOk result (λ tables. tables.1.items ≡ winner_table blocks) }
{
    let live = live_rows(alloc, elements, tombs)?;
    let tops = tops_of(live);
    let winners = winner_rows(alloc, &tops)?;
    let values = value_rows(alloc, tops)?;
    Ok((values, winners))
}

// The elements that no tombstone hides.
fn live_rows(alloc: Global, elements: Vec<Row>, tombs: &[Row]) -> Result<Vec<Candidate>, AllocError>
    requires { IsStrictlySortedBy row_cmp tombs.now }
    ensures { IfOk result (λ live. rows_in live.items ≡ filter (is_shown_by tombs.now) elements.items) }
{
    let mut live = Vec::new(alloc);
    for row in elements {
        add_shown(alloc, &mut live, row, tombs)?;
    }
    Ok(live)
}

fn add_shown(
    alloc: Global,
    live: &mut Vec<Candidate>,
    row: Row,
    tombs: &[Row],
) -> Result<(), AllocError>
    requires { IsStrictlySortedBy row_cmp tombs.now }
    ensures { OnOk result (rows_in live.new.items
        ≡ rows_in live.old.items ++ filter (is_shown_by tombs.now) (row ∷ [])) }
{
    if has_row(tombs, &tomb_row(alloc, &row)?) {
        return Ok(());
    }
    live.push(Candidate { row })?;
    Ok(())
}

// The tombstone that hides an element.
fn tomb_row(alloc: Global, row: &Row) -> Result<Row, AllocError>
    ensures { IfOk result (λ tomb. tomb ≡ tomb_of row.now) }
{
    let id = id_of_digest(alloc, row.b.as_slice())?;
    Ok(Row {
        a: row.a.try_clone(alloc)?,
        b: Bytes::from_slice(alloc, id.as_bytes())?,
        c: Bytes::new(alloc),
        n: 0,
    })
}

#[tactic(auto, unfolding(mc_model::specs::Id::id_text))]
fn id_of_digest(alloc: Global, digest: &[u8]) -> Result<Text, AllocError>
    ensures { IfOk result (λ id. id ≡ id_text digest.now) }
{
    let mut bytes = Bytes::from_slice(alloc, &PREFIX)?;
    bytes.extend_from_slice(digest)?;
    encode32_after(alloc, "/", Case::Upper, bytes.as_slice())
}

// The first of each key.
fn tops_of(live: Vec<Candidate>) -> Vec<Candidate>
    ensures { IsTopsOf (rows_in live.items) (rows_in result.items) }
{
    let mut tops = live;
    tops.sort_unstable();
    tops.dedup();
    tops.dedup_by(|a, b| a.row.a.as_slice() == b.row.a.as_slice());
    tops
}

fn winner_rows(alloc: Global, tops: &[Candidate]) -> Result<Vec<Row>, AllocError>
    ensures { IfOk result (λ rows. rows.items ≡ map winner_in (rows_in tops.now)) }
{
    let mut rows = Vec::new(alloc);
    for top in tops {
        rows.push(Row {
            a: top.row.a.try_clone(alloc)?,
            b: top.row.b.try_clone(alloc)?,
            c: Bytes::new(alloc),
            n: 0,
        })?;
    }
    Ok(rows)
}

fn value_rows(alloc: Global, tops: Vec<Candidate>) -> Result<Vec<Row>, AllocError>
    ensures { IfOk result (λ rows. rows.items ≡ map value_in (rows_in tops.items)) }
{
    let mut rows = Vec::new(alloc);
    for top in tops {
        rows.push(value_row(alloc, top.row))?;
    }
    Ok(rows)
}

fn value_row(alloc: Global, row: Row) -> Row
    ensures { result ≡ value_in row }
{
    Row {
        a: row.a,
        b: Bytes::new(alloc),
        c: row.c,
        n: row.n,
    }
}
