// Replies of many lines. A refusal leaves the bytes that are written to as they were.
ghost use Rattle.std.specs.Prelude.{◌≡◌, ◌++◌, length, IfOk, OnOk, OnErr, codes, string_bytes};
ghost use Rattle.std.specs.List.{flat_map};
ghost use Rattle.mc_script.specs.ReplyText.{event_text, head_text, row_text, number_line, value_text};

use crate::key_text::escape_key;
use crate::texts::{to_hex, write_event_line, write_number, write_pair};
use mc_base::{Bytes, Cid, Text};
use mc_cidtext::to_text;
use std::alloc::{AllocError, Global};

// The number of rows, and a line for each.
pub fn write_rows(alloc: Global, rows: &[(Text, Bytes)], out: &mut Bytes) -> Result<(), AllocError>
    ensures ok { OnOk result (out.new
        ≡ out.old ++ number_line (codes "rows") (length rows.now) ++ flat_map row_text rows.now) }
    ensures err { OnErr result (out.new ≡ out.old) }
{
    let len = out.len();
    write_number("rows", rows.len() as u64, out)?;
    for row in rows {
        if let Err(error) = write_row(alloc, row, out) {
            out.truncate(len);
            return Err(error);
        }
    }
    Ok(())
}

// The number of heads, and a line for each.
pub fn write_heads(alloc: Global, heads: &[(Cid, u64)], out: &mut Bytes) -> Result<(), AllocError>
    ensures ok { OnOk result (out.new
        ≡ out.old ++ number_line (codes "heads") (length heads.now) ++ flat_map head_text heads.now) }
    ensures err { OnErr result (out.new ≡ out.old) }
{
    let len = out.len();
    write_number("heads", heads.len() as u64, out)?;
    for head in heads {
        if let Err(error) = write_head(alloc, head, out) {
            out.truncate(len);
            return Err(error);
        }
    }
    Ok(())
}

// The number of changes, and a line for each.
pub fn write_events(
    alloc: Global,
    events: &[(u64, Text, Option<Bytes>)],
    out: &mut Bytes,
) -> Result<(), AllocError>
    ensures ok { OnOk result (out.new
        ≡ out.old ++ number_line (codes "feed") (length events.now) ++ flat_map event_text events.now) }
    ensures err { OnErr result (out.new ≡ out.old) }
{
    let len = out.len();
    write_number("feed", events.len() as u64, out)?;
    for event in events {
        if let Err(error) = write_event(alloc, event, out) {
            out.truncate(len);
            return Err(error);
        }
    }
    Ok(())
}

// A key and its value.
fn write_row(alloc: Global, row: &(Text, Bytes), out: &mut Bytes) -> Result<(), AllocError>
    ensures ok { OnOk result (out.new ≡ out.old ++ row_text row.now) }
    ensures err { OnErr result (out.new ≡ out.old) }
{
    let key = escape_key(alloc, row.0.as_bytes())?;
    let value = to_hex(alloc, row.1.as_slice())?;
    write_pair(key.as_str(), value.as_str(), out)
}

// A head and its height.
fn write_head(alloc: Global, head: &(Cid, u64), out: &mut Bytes) -> Result<(), AllocError>
    ensures ok { OnOk result (out.new ≡ out.old ++ head_text head.now) }
    ensures err { OnErr result (out.new ≡ out.old) }
{
    let cid = to_text(alloc, &head.0)?;
    write_number(cid.as_str(), head.1, out)
}

// A change: the position of its block, a key and its value.
fn write_event(
    alloc: Global,
    event: &(u64, Text, Option<Bytes>),
    out: &mut Bytes,
) -> Result<(), AllocError>
    ensures ok { OnOk result (out.new ≡ out.old ++ event_text event.now) }
    ensures err { OnErr result (out.new ≡ out.old) }
{
    let key = escape_key(alloc, event.1.as_bytes())?;
    let value = text_of_value(alloc, &event.2)?;
    write_event_line(alloc, event.0, key.as_str(), value.as_str(), out)
}

// A value, or `none`.
fn text_of_value(alloc: Global, value: &Option<Bytes>) -> Result<String, AllocError>
    ensures { IfOk result (λ text. string_bytes text ≡ value_text value.now) }
{
    match value {
        Some(bytes) => to_hex(alloc, bytes.as_slice()),
        None => String::from_str(alloc, "none"),
    }
}
