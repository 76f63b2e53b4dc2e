// The lines of a reply. A refusal leaves the bytes that are written to as they were.
ghost use Rattle.std.specs.Prelude.{◌≡◌, ◌++◌, IfOk, OnOk, OnErr, string_bytes};
ghost use Rattle.std.specs.Fmt.{decimal};
ghost use Rattle.std.specs.List.{flat_map};
ghost use Rattle.mc_script.specs.ReplyText.{clear_or_set, count_words, counts_text, hex_text, joined, line, mark_words};
ghost use Rattle.mc_script.specs.ReplyText.{number_line, pair_line, state_text, stormed_text, three_words, worked_text};
ghost use Rattle.mc_script.specs.ReplyText.{yes_or_no};
ghost use Rattle.mc_script.specs.Words.{text_of};

use itoa::Buffer;
use mc_base::Bytes;
use std::alloc::{AllocError, Global};

// A word and a number.
pub fn write_number(word: &str, number: u64, out: &mut Bytes) -> Result<(), AllocError>
    ensures ok { OnOk result (out.new ≡ out.old ++ number_line word.now number) }
    ensures err { OnErr result (out.new ≡ out.old) }
{
    let mut digits = Buffer::new();
    write_pair(word, digits.format(number), out)
}

// A value.
pub fn write_value(alloc: Global, bytes: &[u8], out: &mut Bytes) -> Result<(), AllocError>
    ensures ok { OnOk result (out.new ≡ out.old ++ line (hex_text bytes.now)) }
    ensures err { OnErr result (out.new ≡ out.old) }
{
    let text = to_hex(alloc, bytes)?;
    write_pieces(&[text.as_bytes(), b"\n"], out)
}

// Two texts, with a space between them.
pub fn write_pair(first: &str, second: &str, out: &mut Bytes) -> Result<(), AllocError>
    ensures ok { OnOk result (out.new ≡ out.old ++ pair_line first.now second.now) }
    ensures err { OnErr result (out.new ≡ out.old) }
{
    write_pieces(&[first.as_bytes(), b" ", second.as_bytes(), b"\n"], out)
}

// Some texts, one behind the other.
fn write_pieces(pieces: &[&[u8]], out: &mut Bytes) -> Result<(), AllocError>
    ensures ok { OnOk result (out.new ≡ out.old ++ flat_map text_of pieces.now) }
    ensures err { OnErr result (out.new ≡ out.old) }
{
    let len = out.len();
    for piece in pieces {
        if let Err(error) = out.extend_from_slice(piece) {
            out.truncate(len);
            return Err(error);
        }
    }
    Ok(())
}

// How many blocks were processed, and are missing and bad.
pub fn write_worked(
    alloc: Global,
    processed: u64,
    missing: u64,
    bad: u64,
    out: &mut Bytes,
) -> Result<(), AllocError>
    ensures ok { OnOk result (out.new ≡ out.old ++ line (worked_text processed missing bad)) }
    ensures err { OnErr result (out.new ≡ out.old) }
{
    let text = format!(in alloc; "worked {processed} {missing} {bad}\n")?;
    out.extend_from_slice(text.as_bytes())
}

// How many puts made a block, and gave the bytes that were put.
pub fn write_stormed(alloc: Global, made: u64, same: u64, out: &mut Bytes) -> Result<(), AllocError>
    ensures ok { OnOk result (out.new ≡ out.old ++ line (stormed_text made same)) }
    ensures err { OnErr result (out.new ≡ out.old) }
{
    let text = format!(in alloc; "stormed {made} {same}\n")?;
    out.extend_from_slice(text.as_bytes())
}

// A word and two numbers.
pub fn write_counts(
    alloc: Global,
    word: &str,
    first: u64,
    second: u64,
    out: &mut Bytes,
) -> Result<(), AllocError>
    ensures ok { OnOk result (out.new ≡ out.old ++ line (counts_text word.now first second)) }
    ensures err { OnErr result (out.new ≡ out.old) }
{
    let text = format!(in alloc; "{word} {first} {second}\n")?;
    out.extend_from_slice(text.as_bytes())
}

// A position and two texts.
pub fn write_event_line(
    alloc: Global,
    position: u64,
    key: &str,
    value: &str,
    out: &mut Bytes,
) -> Result<(), AllocError>
    ensures ok { OnOk result (out.new ≡ out.old ++ line (three_words (decimal position) key.now value.now)) }
    ensures err { OnErr result (out.new ≡ out.old) }
{
    let text = format!(in alloc; "{position} {key} {value}\n")?;
    out.extend_from_slice(text.as_bytes())
}

// The counts of a replica, its mark, and whether it is whole.
pub fn write_state(
    alloc: Global,
    processed: u64,
    stored: u64,
    waiting: u64,
    missing: u64,
    bad: u64,
    mark: bool,
    whole: bool,
    out: &mut Bytes,
) -> Result<(), AllocError>
    ensures ok { OnOk result (out.new ≡ out.old ++ line (state_text processed stored waiting missing bad mark whole)) }
    ensures err { OnErr result (out.new ≡ out.old) }
{
    let counts = text_of_counts(alloc, processed, stored, waiting, missing, bad)?;
    write_marks(alloc, counts.as_str(), mark, whole, out)
}

fn text_of_counts(
    alloc: Global,
    processed: u64,
    stored: u64,
    waiting: u64,
    missing: u64,
    bad: u64,
) -> Result<String, AllocError>
    ensures { IfOk result (λ text. string_bytes text ≡ joined (count_words processed stored waiting missing bad)) }
{
    format!(in alloc;
        "state processed {processed} stored {stored} waiting {waiting} missing {missing} bad {bad}"
    )
}

// The counts, and the two marks behind them.
fn write_marks(
    alloc: Global,
    counts: &str,
    mark: bool,
    whole: bool,
    out: &mut Bytes,
) -> Result<(), AllocError>
    ensures ok { OnOk result (out.new ≡ out.old ++ pair_line counts.now (joined (mark_words mark whole))) }
    ensures err { OnErr result (out.new ≡ out.old) }
{
    let mark = clear_or_set(mark);
    let whole = yes_or_no(whole);
    let text = format!(in alloc; "{counts} mark {mark} whole {whole}\n")?;
    out.extend_from_slice(text.as_bytes())
}

fn clear_or_set(mark: bool) -> &'static str
    ensures { result.now ≡ clear_or_set mark }
{
    if mark { "set" } else { "clear" }
}

fn yes_or_no(yes: bool) -> &'static str
    ensures { result.now ≡ yes_or_no yes }
{
    if yes { "yes" } else { "no" }
}

// Bytes as lower-case hexadecimal digits, and none as a dash.
pub fn to_hex(alloc: Global, bytes: &[u8]) -> Result<String, AllocError>
    ensures { IfOk result (λ text. string_bytes text ≡ hex_text bytes.now) }
{
    if bytes.is_empty() {
        return String::from_str(alloc, "-");
    }
    hex::encode(alloc, bytes)
}
