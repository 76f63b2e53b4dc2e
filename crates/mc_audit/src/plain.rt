// Plain tables in memory, for tests.
ghost use Rattle.std.specs.Prelude.{◌≡◌, ◌≤◌, ◌+◌, ◌++◌, Some, IfOk, length, take, drop};
ghost use Rattle.mc_raw.specs.Raw.{is_row_of, without};
ghost use Rattle.mc_audit.specs.Plain.{first_rows, rows_at, tables_in};

use mc_base::{Cid, Counted, Failed, List};
use mc_keep::KeepError;
use mc_raw::{RawTables, Row};
use std::alloc::{AllocError, Global};

/// Rows in memory, right or not, without faults: for tests.
#[derive(Debug, Drop)]
pub struct PlainTables {
    // Table 1, where there is one, and those from table 2 on.
    blocks: Option<Vec<Row>>,
    others: Vec<List<Row>>,
}

impl PlainTables {
    /// The tables with these rows, from table 1 on: nine lists, each in the order in which its rows are to stand. A
    /// table whose list is missing is empty. It takes no memory.
    pub fn new(rows: List<List<Row>>) -> PlainTables
        ensures { ⟦<PlainTables as RawTables>⟧.raw result ≡ Some (tables_in rows) }
    {
        let mut others = rows.into_vec();
        if others.is_empty() {
            return PlainTables {
                blocks: None,
                others,
            };
        }
        let blocks = others.remove(0).into_vec();
        PlainTables {
            blocks: Some(blocks),
            others,
        }
    }

    // The rows of table 1.
    fn blocks_of(&self) -> &[Row]
        ensures { result.now ≡ first_rows self.now.blocks }
    {
        match &self.blocks {
            Some(rows) => rows.as_slice(),
            None => &[],
        }
    }

    // The rows of a table.
    fn rows_of(&self, table: u64) -> &[Row]
        ensures { result.now ≡ rows_at self.now table }
    {
        if table == 1 {
            return self.blocks_of();
        }
        if table < 2 {
            return &[];
        }
        match self.others.as_slice().get((table - 2) as usize) {
            Some(rows) => rows.as_slice(),
            None => &[],
        }
    }
}

fn copy_of(alloc: Global, row: &Row) -> Result<Row, AllocError>
    ensures { IfOk result (λ copy. copy ≡ row.now) }
{
    Ok(Row {
        a: row.a.try_clone(alloc)?,
        b: row.b.try_clone(alloc)?,
        c: row.c.try_clone(alloc)?,
        n: row.n,
    })
}

// Takes the first row of the block out.
fn drop_first(rows: &mut Vec<Row>, cid: &Cid)
    ensures { rows.new.items ≡ without rows.old.items cid.now }
{
    let place = place_of(rows.as_slice(), cid);
    if place < rows.len() {
        let _dropped = rows.remove(place);
    }
}

// The place of the first row of the block, or the end.
fn place_of(rows: &[Row], cid: &Cid) -> usize
    ensures within { result ≤ length rows.now }
    ensures cut { without rows.now cid.now ≡ take result rows.now ++ drop (result + 1) rows.now }
{
    for index in 0..rows.len() {
        if is_row_of(&rows[index], cid) {
            return index;
        }
    }
    rows.len()
}

fn is_row_of(row: &Row, cid: &Cid) -> bool
    ensures { result ≡ is_row_of cid.now row.now }
{
    row.a.as_slice() == cid.0.as_slice()
}

impl Counted for PlainTables {
    ghost faults = { λ tables. 0 };

    fn faults(&self) -> u64 {
        0
    }
}

impl RawTables for PlainTables {
    ghost use Rattle.mc_audit.specs.Plain.{PlainGoes, plain_still, plain_on, plain_raw, plain_silent, plain_count};

    ghost raw = { λ tables. Some (rows_at tables) };

    ghost goes = { PlainGoes };

    ghost still = { plain_still };

    ghost goes_on = { plain_on };

    ghost goes_raw = { plain_raw };

    ghost goes_silent = { plain_silent };

    ghost goes_count = { plain_count };

    fn raw_next(
        &mut self,
        alloc: Global,
        table: u64,
        index: u64,
    ) -> Result<Option<Row>, KeepError> {
        match self.rows_of(table).get(index as usize) {
            Some(row) => Ok(Some(copy_of(alloc, row)?)),
            None => Ok(None),
        }
    }

    fn raw_drop(&mut self, cid: &Cid) -> Result<(), Failed> {
        if let Some(blocks) = &mut self.blocks {
            drop_first(blocks, cid);
        }
        Ok(())
    }
}
