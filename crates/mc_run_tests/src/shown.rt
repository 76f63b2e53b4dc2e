// What a keeper answers, as text.
use mc_base::{List, Text};
use mc_keep::{HeadRow, KeepError, Keeper, ValueRow};
use std::alloc::{AllocError, Global};

// More than a keeper of a test has values.
const MOST: u64 = 1_000;

/// The answers of a keeper to `summary` and `heads`, and those to `values_from` and `winner` at each key, in order of
/// the keys.
pub(crate) fn shown<K: Keeper>(keeper: &mut K, alloc: Global) -> Result<String, KeepError> {
    let mut text = String::new(alloc);
    push_summary(keeper, alloc, &mut text)?;
    let heads = keeper.heads(alloc)?;
    push_heads(alloc, &heads, &mut text)?;
    push_values(keeper, alloc, &mut text)?;
    Ok(text)
}

/// Adds the answers of a keeper to a text, or that it gave none.
pub(crate) fn note<K: Keeper + Drop>(keeper: K, alloc: Global, text: &mut String) {
    let mut keeper = keeper;
    let _ = match shown(&mut keeper, alloc) {
        Ok(answers) => text.push_str(answers.as_str()),
        Err(_) => text.push_str("no answer\n"),
    };
}

fn push_summary<K: Keeper>(
    keeper: &mut K,
    alloc: Global,
    text: &mut String,
) -> Result<(), KeepError> {
    let summary = keeper.summary()?;
    let (processed, stored, gaps) = (summary.processed, summary.stored, summary.gaps);
    let mark = summary.mark;
    let line = format!(in alloc;
        "processed {processed} stored {stored} gaps {gaps} mark {mark}\n"
    )?;
    text.push_str(line.as_str())?;
    Ok(())
}

fn push_heads(alloc: Global, heads: &List<HeadRow>, text: &mut String) -> Result<(), AllocError> {
    for head in heads.as_slice() {
        let cid = hex::encode(alloc, head.cid.0)?;
        let height = head.height;
        let line = format!(in alloc; "head {cid} {height}\n")?;
        text.push_str(line.as_str())?;
    }
    Ok(())
}

// The rows of all keys, from the first one on.
fn push_values<K: Keeper>(
    keeper: &mut K,
    alloc: Global,
    text: &mut String,
) -> Result<(), KeepError> {
    let mut key = Text::new(alloc);
    for _ in 0..MOST {
        match push_value_after(keeper, alloc, &key, text)? {
            Some(next) => key = next,
            None => return Ok(()),
        }
    }
    Ok(())
}

// The row of the first key after this one, and the same row once more from its own key on. Gives the key.
fn push_value_after<K: Keeper>(
    keeper: &mut K,
    alloc: Global,
    key: &Text,
    text: &mut String,
) -> Result<Option<Text>, KeepError> {
    let mut found = keeper
        .values_from(alloc, key.as_str(), false, 1)?
        .into_vec();
    let Some(row) = found.pop() else {
        return Ok(None);
    };
    push_value(alloc, &row, text)?;
    for same in keeper
        .values_from(alloc, row.key.as_str(), true, 2)?
        .as_slice()
    {
        push_value(alloc, same, text)?;
    }
    push_winner(keeper, alloc, row.key.as_str(), text)?;
    Ok(Some(row.key))
}

fn push_value(alloc: Global, row: &ValueRow, text: &mut String) -> Result<(), AllocError> {
    let key = row.key.as_str();
    let priority = row.priority;
    let value = hex::encode(alloc, row.value.as_slice())?;
    let line = format!(in alloc; "value {key} {priority} {value}\n")?;
    text.push_str(line.as_str())?;
    Ok(())
}

fn push_winner<K: Keeper>(
    keeper: &mut K,
    alloc: Global,
    key: &str,
    text: &mut String,
) -> Result<(), KeepError> {
    let Some(cid) = keeper.winner(key)? else {
        text.push_str("no winner\n")?;
        return Ok(());
    };
    let cid = hex::encode(alloc, cid.0)?;
    let line = format!(in alloc; "winner {cid}\n")?;
    text.push_str(line.as_str())?;
    Ok(())
}
