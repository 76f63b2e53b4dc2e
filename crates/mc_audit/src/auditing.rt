// The audit.
ghost use Rattle.std.specs.Prelude.{◌≡◌, ◌+◌, ◌<◌, ◌++◌, ◌∷◌, [], List, map, fold, not, length, IfOk, OnOk, IfSome};
ghost use Rattle.std.specs.List.{list_any};
ghost use Rattle.mc_base.specs.declared.cid.Cid.{Cid as Identifier};
ghost use Rattle.mc_model.specs.declared.block.Block.{Block};
ghost use Rattle.mc_model.specs.Front.{is_among, is_processed};
ghost use Rattle.mc_keep.specs.Plan.{is_fault};
ghost use Rattle.mc_raw.specs.Raw.{IfRaw};
ghost use Rattle.std.specs.List.Sorted.{IsStrictlySortedBy};
ghost use Rattle.mc_raw.specs.RowOrder.{row_cmp};
ghost use Rattle.mc_raw.specs.RowTables.{link_line, element_table, tomb_table};
ghost use Rattle.mc_audit.specs.Found.{Gathers, with_links};
ghost use Rattle.mc_audit.specs.Rows.{head_row_of};
ghost use Rattle.mc_audit.specs.Sound.{verdict_of, later_break, value_break, front_break, or_then, in_table};
ghost use Rattle.mc_audit.specs.Sound.{rows_break, mark_break};
ghost use Rattle.mc_audit.specs.Checks.{Marks, AreCids, IsWhole, verdict_with, digest_line, unlinked_rows};

use crate::blocks::{Blocks, Checked, check_blocks};
use crate::comparing::{compare, compare_mark};
use crate::found::Found;
use crate::places::{Placed, check_places, marked};
use crate::sorting::in_order;
use crate::values::value_tables;
use crate::verdict::{Place, Verdict};
use indexmap::IndexSet;
use mc_base::{Bytes, Cid};
use mc_keep::{HeadRow, KeepError};
use mc_raw::{RawTables, Row};
use std::alloc::{AllocError, Global};

/// Whether the tables are sound, with the numbers of processed and of stored blocks, or else the first place where they
/// are not. It changes nothing. `Failed` where a read failed. It keeps the digests of all blocks and the element and
/// tombstone rows of the processed ones, and no block's bytes.
pub fn audit<T: RawTables>(alloc: Global, tables: &mut T) -> Result<Verdict, KeepError>
    ensures verdict { IfRaw (T.raw tables.old) result (λ t verdict. verdict ≡ verdict_of t) }
    ensures goes { T.goes [] (is_fault result) tables.old tables.new }
{
    let marked = marked(alloc, tables)?;
    match check_blocks(alloc, tables, &marked)? {
        Checked::Whole(blocks, stored) => audit_rest(alloc, tables, blocks, stored, &marked),
        Checked::Broken(index) => Ok(Verdict::Differs { table: 1, index }),
    }
}

// The same where table 1 is right.
fn audit_rest<T: RawTables>(
    alloc: Global,
    tables: &mut T,
    blocks: Blocks,
    stored: u64,
    marked: &IndexSet<Cid>,
) -> Result<Verdict, KeepError>
    requires { IfSome (T.raw tables.old) (λ t. IsWhole marked.now.keys t blocks stored) }
    ensures verdict { IfRaw (T.raw tables.old) result (λ t verdict.
        AreCids marked.now.keys (t 2) → verdict ≡ verdict_of t) }
    ensures goes { T.goes [] (is_fault result) tables.old tables.new }
{
    match check_places(alloc, tables, &blocks.stored)? {
        Placed::Whole(processed) => {
            let place = check_rows(alloc, tables, blocks.found, marked)?;
            Ok(verdict_at(place, processed, stored))
        }
        Placed::Broken(index) => Ok(Verdict::Differs { table: 2, index }),
    }
}

fn verdict_at(place: Option<Place>, processed: u64, stored: u64) -> Verdict
    ensures { result ≡ verdict_with processed stored place }
{
    match place {
        Some(place) => Verdict::Differs {
            table: place.table,
            index: place.index,
        },
        None => Verdict::Sound { processed, stored },
    }
}

// The first place in tables 3 to 9 that is wrong.
fn check_rows<T: RawTables>(
    alloc: Global,
    tables: &mut T,
    found: Found,
    marked: &IndexSet<Cid>,
) -> Result<Option<Place>, KeepError>
    ensures place { IfRaw (T.raw tables.old) result (λ t place. (blocks : List Block) →
        Gathers blocks found → Marks marked.now.keys blocks → place ≡ later_break t blocks) }
    ensures goes { T.goes [] (is_fault result) tables.old tables.new }
{
    let elements = in_order(found.elements);
    let tombs = in_order(found.tombs);
    match check_two(alloc, tables, 3, elements.as_slice(), tombs.as_slice())? {
        Some(place) => Ok(Some(place)),
        None => check_values(
            alloc,
            tables,
            elements,
            tombs.as_slice(),
            found.heads.as_slice(),
            &found.links,
            marked,
        ),
    }
}

// The first place in tables 5 to 9 that is wrong.
fn check_values<T: RawTables>(
    alloc: Global,
    tables: &mut T,
    elements: Vec<Row>,
    tombs: &[Row],
    heads: &[HeadRow],
    links: &IndexSet<Cid>,
    marked: &IndexSet<Cid>,
) -> Result<Option<Place>, KeepError>
    requires { IsStrictlySortedBy row_cmp tombs.now }
    ensures place { IfRaw (T.raw tables.old) result (λ t place. (blocks : List Block) →
        elements.items ≡ element_table blocks → tombs.now ≡ tomb_table blocks →
        heads.now ≡ map head_row_of blocks → links.now.keys ≡ fold with_links [] blocks →
        Marks marked.now.keys blocks → place ≡ or_then (value_break t blocks) (front_break t blocks)) }
    ensures goes { T.goes [] (is_fault result) tables.old tables.new }
{
    let (values, winners) = value_tables(alloc, elements, tombs)?;
    match check_two(alloc, tables, 5, values.as_slice(), winners.as_slice())? {
        Some(place) => Ok(Some(place)),
        None => check_front(alloc, tables, heads, links, marked),
    }
}

// The first place in tables 7 to 9 that is wrong.
fn check_front<T: RawTables>(
    alloc: Global,
    tables: &mut T,
    heads: &[HeadRow],
    links: &IndexSet<Cid>,
    marked: &IndexSet<Cid>,
) -> Result<Option<Place>, KeepError>
    ensures place { IfRaw (T.raw tables.old) result (λ t place. (blocks : List Block) →
        heads.now ≡ map head_row_of blocks → links.now.keys ≡ fold with_links [] blocks →
        Marks marked.now.keys blocks → place ≡ front_break t blocks) }
    ensures goes { T.goes [] (is_fault result) tables.old tables.new }
{
    let heads = in_order(head_rows(alloc, heads, links)?);
    let rows = in_order(link_rows(alloc, links.as_slice())?);
    let gap = has_gap(links.as_slice(), marked);
    match check_two(alloc, tables, 7, heads.as_slice(), rows.as_slice())? {
        Some(place) => Ok(Some(place)),
        None => check_mark(alloc, tables, gap),
    }
}

// The first place in a table and the next one where they haven't just these rows.
fn check_two<T: RawTables>(
    alloc: Global,
    tables: &mut T,
    table: u64,
    first: &[Row],
    second: &[Row],
) -> Result<Option<Place>, KeepError>
    requires { table < 9 }
    ensures place { IfRaw (T.raw tables.old) result (λ t place. place ≡
        or_then (in_table table (rows_break 0 (t table) first.now))
        (in_table (table + 1) (rows_break 0 (t (table + 1)) second.now))) }
    ensures goes { T.goes [] (is_fault result) tables.old tables.new }
{
    match check_one(alloc, tables, table, first)? {
        Some(place) => Ok(Some(place)),
        None => check_one(alloc, tables, table + 1, second),
    }
}

// The first place in a table where it hasn't just these rows.
fn check_one<T: RawTables>(
    alloc: Global,
    tables: &mut T,
    table: u64,
    rows: &[Row],
) -> Result<Option<Place>, KeepError>
    ensures place { IfRaw (T.raw tables.old) result (λ t place. place ≡
        in_table table (rows_break 0 (t table) rows.now)) }
    ensures goes { T.goes [] (is_fault result) tables.old tables.new }
{
    match compare(alloc, tables, table, rows)? {
        Some(index) => Ok(Some(Place { table, index })),
        None => Ok(None),
    }
}

// The first place in table 9 that is wrong.
fn check_mark<T: RawTables>(
    alloc: Global,
    tables: &mut T,
    gap: bool,
) -> Result<Option<Place>, KeepError>
    ensures place { IfRaw (T.raw tables.old) result (λ t place. place ≡ in_table 9 (mark_break gap (t 9))) }
    ensures goes { T.goes [] (is_fault result) tables.old tables.new }
{
    match compare_mark(alloc, tables, gap)? {
        Some(index) => Ok(Some(Place { table: 9, index })),
        None => Ok(None),
    }
}

// The rows of the blocks to which nothing links.
fn head_rows(
    alloc: Global,
    heads: &[HeadRow],
    links: &IndexSet<Cid>,
) -> Result<Vec<Row>, AllocError>
    ensures { IfOk result (λ rows. rows.items ≡ unlinked_rows links.now.keys heads.now) }
{
    let mut rows = Vec::new(alloc);
    for head in heads {
        add_unlinked(alloc, &mut rows, head, links)?;
    }
    Ok(rows)
}

fn add_unlinked(
    alloc: Global,
    rows: &mut Vec<Row>,
    head: &HeadRow,
    links: &IndexSet<Cid>,
) -> Result<(), AllocError>
    ensures { OnOk result (rows.new.items ≡ rows.old.items ++ unlinked_rows links.now.keys (head.now ∷ [])) }
{
    if links.contains(&head.cid) {
        return Ok(());
    }
    rows.push(digest_row(alloc, &head.cid, head.height)?)?;
    Ok(())
}

fn link_rows(alloc: Global, links: &[Cid]) -> Result<Vec<Row>, AllocError>
    ensures { IfOk result (λ rows. rows.items ≡ map link_line links.now) }
{
    let mut rows = Vec::new(alloc);
    for link in links {
        rows.push(digest_row(alloc, link, 0)?)?;
    }
    Ok(rows)
}

fn digest_row(alloc: Global, cid: &Cid, n: u64) -> Result<Row, AllocError>
    ensures { IfOk result (λ row. row ≡ digest_line cid.now n) }
{
    Ok(Row {
        a: Bytes::from_slice(alloc, &cid.0)?,
        b: Bytes::new(alloc),
        c: Bytes::new(alloc),
        n,
    })
}

// Whether a link leads to no marked block.
fn has_gap(links: &[Cid], marked: &IndexSet<Cid>) -> bool
    ensures { (blocks : List Block) → Marks marked.now.keys blocks →
        result ≡ list_any (λ (cid : Identifier). not (is_processed blocks cid)) links.now }
{
    for link in links {
        if is_gap(*link, marked) {
            return true;
        }
    }
    false
}

fn is_gap(link: Cid, marked: &IndexSet<Cid>) -> bool
    ensures gap { result ≡ not (is_among marked.now.keys link) }
    ensures digest { length link.0 ≡ 32 }
{
    !marked.contains(&link)
}
