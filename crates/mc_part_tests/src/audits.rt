// Audits and sweeps of plain tables, right and wrong ones.
use crate::stores::{GAP, Line, NOTHING, PUT, Part, STORE, bytes_of, digest_of};
use mc_audit::{PlainTables, Verdict, audit, sweep};
use mc_base::{Bytes, List};
use mc_keep::KeepError;
use mc_raw::{RawTables, Row};
use std::alloc::{AllocError, Global};
use std::test::Fail;

// What is done to a row: another thing in a column or another number, left out, written twice, written behind the
// next one, written before a row with this digest; or nothing.
#[derive(Clone, Copy)]
enum Edit {
    No,
    A(Part),
    B(Part),
    C(Part),
    N(u64),
    Missing,
    Twice,
    Behind,
    Before(Part),
}

// Adds a row with its edit; one that is to stand behind the next is held back.
fn add(
    lines: &mut Vec<Line>,
    held: &mut Option<Line>,
    line: Line,
    edit: Edit,
) -> Result<(), AllocError> {
    let Line(table, a, b, c, n) = line;
    match edit {
        Edit::A(part) => lines.push(Line(table, part, b, c, n))?,
        Edit::B(part) => lines.push(Line(table, a, part, c, n))?,
        Edit::C(part) => lines.push(Line(table, a, b, part, n))?,
        Edit::N(number) => lines.push(Line(table, a, b, c, number))?,
        Edit::Missing => {}
        Edit::Twice => {
            lines.push(line)?;
            lines.push(line)?;
        }
        Edit::Behind => {
            *held = Some(line);
            return Ok(());
        }
        Edit::Before(part) => {
            lines.push(line)?;
            lines.push(Line(table, part, Part::Nothing, Part::Nothing, 9))?;
        }
        Edit::No => lines.push(line)?,
    }
    if let Some(first) = held.take() {
        lines.push(first)?;
    }
    Ok(())
}

// The lines of a table with the row at a place edited.
fn edited(
    alloc: Global,
    store: &[Line],
    table: u64,
    at: u64,
    edit: Edit,
) -> Result<Vec<Line>, AllocError> {
    let mut lines = Vec::new(alloc);
    let mut held = None;
    let mut place = 0u64;
    for line in store {
        if line.0 == table {
            let edit = if place == at { edit } else { Edit::No };
            add(&mut lines, &mut held, *line, edit)?;
            place = place.saturating_add(1);
        }
    }
    Ok(lines)
}

fn row_of(alloc: Global, line: &Line) -> Result<Row, AllocError> {
    Ok(Row {
        a: Bytes::from_slice(alloc, bytes_of(&line.1))?,
        b: Bytes::from_slice(alloc, bytes_of(&line.2))?,
        c: Bytes::from_slice(alloc, bytes_of(&line.3))?,
        n: line.4,
    })
}

fn rows_of(alloc: Global, lines: &[Line]) -> Result<List<Row>, AllocError> {
    let mut rows = List::new(alloc);
    for line in lines {
        rows.push(row_of(alloc, line)?)?;
    }
    Ok(rows)
}

// The tables of a store with the blocks of another one, or of the same; in one of them a row is edited.
fn tables_with(
    alloc: Global,
    blocks: &[Line],
    store: &[Line],
    place: (u64, u64),
    edit: Edit,
) -> Result<PlainTables, AllocError> {
    let mut lists = List::new(alloc);
    for number in 1..10u64 {
        let from = if number == 1 { blocks } else { store };
        let edit = if number == place.0 { edit } else { Edit::No };
        let lines = edited(alloc, from, number, place.1, edit)?;
        lists.push(rows_of(alloc, lines.as_slice())?)?;
    }
    Ok(PlainTables::new(lists))
}

// Whether an audit of these tables tells this.
fn tells(alloc: Global, tables: PlainTables, wanted: Verdict) -> Result<bool, KeepError> {
    let mut tables = tables;
    Ok(audit(alloc, &mut tables)? == wanted)
}

// A row of the six blocks' tables that is edited: its table and its place, and the table and the place at which the
// tables then differ first, where they do.
#[derive(Clone, Copy)]
struct Case(u64, u64, Edit, Option<(u64, u64)>);

const CASES: [Case; 39] = [
    Case(0, 0, Edit::No, None),
    // a digest or bytes that are others; columns that a table doesn't use are not looked at
    Case(1, 0, Edit::A(Part::Junk), Some((1, 0))),
    Case(1, 2, Edit::A(Part::Digest(3)), Some((1, 2))),
    Case(1, 3, Edit::B(Part::Block(0)), Some((1, 3))),
    Case(1, 5, Edit::B(Part::Nothing), Some((1, 5))),
    Case(1, 3, Edit::C(Part::Junk), None),
    Case(1, 3, Edit::N(7), None),
    // what is processed is not stored
    Case(1, 0, Edit::Missing, Some((2, 2))),
    Case(1, 2, Edit::Missing, Some((2, 1))),
    Case(1, 5, Edit::Missing, Some((2, 0))),
    // digests that don't ascend
    Case(1, 0, Edit::Twice, Some((1, 1))),
    Case(1, 2, Edit::Twice, Some((1, 3))),
    Case(1, 5, Edit::Twice, Some((1, 6))),
    Case(1, 0, Edit::Behind, Some((1, 1))),
    Case(1, 2, Edit::Behind, Some((1, 3))),
    Case(1, 4, Edit::Behind, Some((1, 5))),
    Case(1, 5, Edit::Before(Part::Junk), Some((1, 6))),
    // positions
    Case(2, 0, Edit::N(1), Some((2, 0))),
    Case(2, 3, Edit::N(9), Some((2, 3))),
    Case(2, 5, Edit::N(6), Some((2, 5))),
    Case(2, 0, Edit::A(Part::Digest(1)), Some((2, 1))),
    Case(2, 3, Edit::A(Part::Junk), Some((2, 3))),
    Case(2, 5, Edit::A(Part::Digest(0)), Some((2, 5))),
    Case(2, 3, Edit::B(Part::Junk), None),
    Case(2, 0, Edit::Missing, Some((2, 0))),
    Case(2, 2, Edit::Missing, Some((2, 2))),
    // the last block isn't processed then, so its element is a row too many
    Case(2, 5, Edit::Missing, Some((3, 5))),
    Case(2, 0, Edit::Twice, Some((2, 1))),
    Case(2, 2, Edit::Twice, Some((2, 3))),
    Case(2, 5, Edit::Twice, Some((2, 6))),
    Case(2, 0, Edit::Behind, Some((2, 0))),
    Case(2, 4, Edit::Behind, Some((2, 4))),
    // the mark; one that is set without a gap is sound, and 2 is of another layout
    Case(9, 0, Edit::N(1), None),
    Case(9, 0, Edit::N(2), Some((9, 0))),
    Case(9, 0, Edit::N(3), Some((9, 0))),
    Case(9, 0, Edit::A(Part::Junk), None),
    Case(9, 0, Edit::Missing, Some((9, 0))),
    Case(9, 0, Edit::Twice, Some((9, 1))),
    Case(9, 0, Edit::Before(Part::Nothing), Some((9, 1))),
];

// What is done to a row of the tables 3 to 8, and how far behind its place the table then differs.
const EDITS: [(Edit, u64); 7] = [
    (Edit::A(Part::Junk), 0),
    (Edit::B(Part::Junk), 0),
    (Edit::C(Part::Junk), 0),
    (Edit::N(7), 0),
    (Edit::Missing, 0),
    (Edit::Twice, 1),
    (Edit::Before(Part::Junk), 1),
];

// The places of the tables 3 to 8 at which this is done, and whether a row stands behind it.
const PLACES: [(u64, u64, bool); 18] = [
    (3, 0, true),
    (3, 3, true),
    (3, 5, false),
    (4, 0, true),
    (4, 1, true),
    (4, 2, false),
    (5, 0, true),
    (5, 1, true),
    (5, 2, false),
    (6, 0, true),
    (6, 1, true),
    (6, 2, false),
    (7, 0, true),
    (7, 1, true),
    (7, 2, false),
    (8, 0, true),
    (8, 1, true),
    (8, 2, false),
];

fn is_right(alloc: Global, case: Case) -> Result<bool, KeepError> {
    let Case(table, at, edit, place) = case;
    let wanted = match place {
        Some((table, index)) => Verdict::Differs { table, index },
        None => Verdict::Sound {
            processed: 6,
            stored: 6,
        },
    };
    tells(
        alloc,
        tables_with(alloc, &STORE, &STORE, (table, at), edit)?,
        wanted,
    )
}

// Whether each edit of a row is found where it is.
fn are_right(alloc: Global, table: u64, at: u64, followed: bool) -> Result<bool, KeepError> {
    for (edit, behind) in EDITS {
        let place = Some((table, at.saturating_add(behind)));
        if !is_right(alloc, Case(table, at, edit, place))? {
            return Ok(false);
        }
    }
    Ok(!followed || is_right(alloc, Case(table, at, Edit::Behind, Some((table, at))))?)
}

#[test]
fn the_first_difference_is_found(rt: HostRuntime) -> Result<(), Fail> {
    let alloc = rt.alloc();
    for case in CASES {
        assert!(rt; is_right(alloc, case)?);
    }
    for (table, at, followed) in PLACES {
        assert!(rt; are_right(alloc, table, at, followed)?);
    }
    Ok(())
}

// One more case over another store.
#[derive(Clone, Copy)]
struct Other(&'static [Line], u64, Edit, Verdict);

fn differs(table: u64, index: u64) -> Verdict {
    Verdict::Differs { table, index }
}

fn sound(processed: u64, stored: u64) -> Verdict {
    Verdict::Sound { processed, stored }
}

#[test]
fn other_stores_are_audited(rt: HostRuntime) -> Result<(), Fail> {
    let alloc = rt.alloc();
    let cases = [
        Other(&PUT, 0, Edit::No, sound(1, 1)),
        Other(&PUT, 5, Edit::C(Part::Value(2)), differs(5, 0)),
        Other(&PUT, 7, Edit::Missing, differs(7, 0)),
        Other(&NOTHING, 0, Edit::No, sound(0, 0)),
        Other(&NOTHING, 9, Edit::N(1), sound(0, 0)),
        Other(&NOTHING, 9, Edit::N(2), differs(9, 0)),
        Other(&NOTHING, 9, Edit::Missing, differs(9, 0)),
        Other(&GAP, 0, Edit::No, sound(1, 1)),
        Other(&GAP, 9, Edit::N(0), differs(9, 0)),
    ];
    for Other(store, table, edit, wanted) in cases {
        let tables = tables_with(alloc, store, store, (table, 0), edit)?;
        assert!(rt; tells(alloc, tables, wanted)?);
    }
    assert!(rt; tells(alloc, PlainTables::new(List::new(alloc)), differs(9, 0))?);
    Ok(())
}

// Whether a row of table 1 stands at a place and has this digest.
fn stands(
    alloc: Global,
    tables: &mut PlainTables,
    index: u64,
    digest: &[u8],
) -> Result<bool, KeepError> {
    match tables.raw_next(alloc, 1, index)? {
        Some(row) => Ok(row.a.as_slice() == digest),
        None => Ok(false),
    }
}

// Whether a sweep leaves the row whose digest is short, where there is one, and the processed block.
fn is_swept(alloc: Global, tables: PlainTables, short: bool) -> Result<bool, KeepError> {
    let mut tables = tables;
    if sweep(alloc, &mut tables)? != 5 {
        return Ok(false);
    }
    let place = if short { 1 } else { 0 };
    let first = if short {
        bytes_of(&Part::Short)
    } else {
        digest_of(3)
    };
    if !stands(alloc, &mut tables, 0, first)? || !stands(alloc, &mut tables, place, digest_of(3))? {
        return Ok(false);
    }
    if tables
        .raw_next(alloc, 1, place.saturating_add(1))?
        .is_some()
        || sweep(alloc, &mut tables)? != 0
    {
        return Ok(false);
    }
    tells(
        alloc,
        tables,
        if short { differs(1, 0) } else { sound(1, 1) },
    )
}

#[test]
fn a_sweep_leaves_processed_blocks(rt: HostRuntime) -> Result<(), Fail> {
    let alloc = rt.alloc();
    let short = tables_with(alloc, &STORE, &GAP, (1, 0), Edit::Before(Part::Short))?;
    assert!(rt; is_swept(alloc, short, true)?);
    let whole = tables_with(alloc, &STORE, &GAP, (0, 0), Edit::No)?;
    assert!(rt; is_swept(alloc, whole, false)?);
    let unswept = tables_with(alloc, &STORE, &GAP, (0, 0), Edit::No)?;
    assert!(rt; tells(alloc, unswept, sound(1, 6))?);
    Ok(())
}
