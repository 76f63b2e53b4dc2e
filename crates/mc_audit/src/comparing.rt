// A table against the rows that it should have.
ghost use Rattle.std.specs.Prelude.{◌≡◌, [], slice_get};
ghost use Rattle.std.specs.Option.{is_some};
ghost use Rattle.mc_keep.specs.Plan.{is_fault};
ghost use Rattle.mc_raw.specs.Raw.{IfRaw};
ghost use Rattle.mc_audit.specs.Sound.{rows_break, mark_break};
ghost use Rattle.mc_audit.specs.Checks.{is_row_at, mark_found};

use mc_keep::KeepError;
use mc_raw::{RawTables, Row};
use std::alloc::Global;

// The first place at which a table hasn't just these rows.
pub(crate) fn compare<T: RawTables>(
    alloc: Global,
    tables: &mut T,
    table: u64,
    rows: &[Row],
) -> Result<Option<u64>, KeepError>
    ensures found { IfRaw (T.raw tables.old) result (λ t found. found ≡ rows_break 0 (t table) rows.now) }
    ensures goes { T.goes [] (is_fault result) tables.old tables.new }
{
    for index in 0..rows.len() {
        if !is_row_at(alloc, tables, table, index as u64, &rows[index])? {
            return Ok(Some(index as u64));
        }
    }
    let end = rows.len() as u64;
    if has_more(alloc, tables, table, end)? {
        return Ok(Some(end));
    }
    Ok(None)
}

// Whether the row stands at this place.
fn is_row_at<T: RawTables>(
    alloc: Global,
    tables: &mut T,
    table: u64,
    index: u64,
    row: &Row,
) -> Result<bool, KeepError>
    ensures same { IfRaw (T.raw tables.old) result (λ t same. same ≡ is_row_at row.now (slice_get (t table) index)) }
    ensures goes { T.goes [] (is_fault result) tables.old tables.new }
{
    match tables.raw_next(alloc, table, index)? {
        Some(found) => Ok(found == *row),
        None => Ok(false),
    }
}

// Whether a row stands at this place.
pub(crate) fn has_more<T: RawTables>(
    alloc: Global,
    tables: &mut T,
    table: u64,
    index: u64,
) -> Result<bool, KeepError>
    ensures more { IfRaw (T.raw tables.old) result (λ t more. more ≡ is_some (slice_get (t table) index)) }
    ensures goes { T.goes [] (is_fault result) tables.old tables.new }
{
    match tables.raw_next(alloc, table, index)? {
        Some(_) => Ok(true),
        None => Ok(false),
    }
}

// Table 9: one row, which is 1 where there is a gap.
pub(crate) fn compare_mark<T: RawTables>(
    alloc: Global,
    tables: &mut T,
    gap: bool,
) -> Result<Option<u64>, KeepError>
    ensures found { IfRaw (T.raw tables.old) result (λ t found. found ≡ mark_break gap (t 9)) }
    ensures goes { T.goes [] (is_fault result) tables.old tables.new }
{
    if !is_marked(alloc, tables, gap)? {
        return Ok(Some(0));
    }
    if has_more(alloc, tables, 9, 1)? {
        return Ok(Some(1));
    }
    Ok(None)
}

fn is_marked<T: RawTables>(alloc: Global, tables: &mut T, gap: bool) -> Result<bool, KeepError>
    ensures marked { IfRaw (T.raw tables.old) result (λ t marked. marked ≡ mark_found gap (slice_get (t 9) 0)) }
    ensures goes { T.goes [] (is_fault result) tables.old tables.new }
{
    match tables.raw_next(alloc, 9, 0)? {
        Some(row) => Ok(row.n == 1 || row.n == 0 && !gap),
        None => Ok(false),
    }
}
