// One writer of a storm.
ghost use Rattle.std.specs.Prelude.{◌≡◌, ◌<◌, ◌≤◌, ◌^◌, [], true, false};
ghost use Rattle.mc_turn.specs.Seats.{IsSeatOf};
ghost use Rattle.mc_node.specs.Entries.{is_open, items};
ghost use Rattle.mc_node.specs.Seats.{knows};
ghost use Rattle.mc_storm.specs.Storms.{storm_key, is_block_refusal, is_bytes};
ghost use Rattle.mc_writers.specs.Writers.{HasWritten, WritesOnce, counted, end_of_put};

use mc_base::Bytes;
use mc_core::{CoreError, Written};
use mc_keep::Keeper;
use mc_node::{Node, NodeSeat, Seen, Stored};
use mc_storm::Stormed;
use std::alloc::Global;
use std::marker::Brand;
use std::sync::Wait;

/// What a write came to: whether its put made a block, and whether the get after it gave the bytes of the put.
#[derive(Clone, Copy, Debug, PartialEq, Eq)]
pub(crate) struct Wrote {
    pub(crate) made: bool,
    pub(crate) same: bool,
}

// Whether the refusal is one of the block that a put would make.
fn is_block_refusal(error: &CoreError) -> bool
    ensures { result ≡ is_block_refusal error.now }
{
    match error {
        CoreError::BlockTooLarge { .. } => true,
        CoreError::PriorityFull => true,
        CoreError::Clash { .. } => true,
        _ => false,
    }
}

// Whether the put of this answer made a block, or none where its writer ends.
fn end_of_put(answer: &Result<Written, CoreError>) -> Option<bool>
    ensures { result ≡ end_of_put answer.now }
{
    match answer {
        Ok(_) => Some(true),
        Err(error) => {
            if is_block_refusal(error) {
                Some(false)
            } else {
                None
            }
        }
    }
}

// Whether a get gave these bytes.
fn is_bytes(bytes: &[u8], found: &Option<Bytes>) -> bool
    ensures { result ≡ is_bytes bytes.now found.now }
{
    match found {
        None => false,
        Some(found) => found.as_slice() == bytes,
    }
}

// One write: a put, and then a get, of this number. None where its writer ends.
fn write_once<K: Keeper, W: Wait>(
    alloc: Global,
    node: &Node<Stored<K, Brand>>,
    seat: &mut NodeSeat<Stored<K, Brand>, K>,
    key: &str,
    writer: u64,
    number: u64,
    wait: &W,
) -> Option<Wrote>
    requires own { IsSeatOf node.now.turn seat.old.seat }
    requires unsealed { is_open (knows seat.old).seen ≡ true }
    requires key { key.now ≡ storm_key writer }
    requires short { number < 2 ^ 32 }
    ensures own { IsSeatOf node.now.turn seat.new.seat }
    ensures unsealed { is_open (knows seat.new).seen ≡ true }
    ensures writes { WritesOnce writer number result (items K.Keeper (knows seat.new).seen) (knows seat.old)
        (knows seat.new) }
{
    let bytes = (number as u32).to_be_bytes();
    let put = node.put(alloc, seat, key, &bytes, wait);
    let made = match end_of_put(&put) {
        Some(made) => made,
        None => return None,
    };
    match node.get(alloc, seat, key, wait) {
        Ok(seen) => {
            let same = is_bytes(&bytes, &seen.answer);
            Some(Wrote { made, same })
        }
        Err(_error) => None,
    }
}

// One write more.
fn counted(stormed: Stormed, wrote: Wrote) -> Stormed
    requires room { (stormed.made < 2 ^ 32) × (stormed.same < 2 ^ 32) }
    ensures { result ≡ counted stormed wrote }
{
    Stormed {
        made: stormed.made + u64::from(wrote.made),
        same: stormed.same + u64::from(wrote.made && wrote.same),
    }
}

// All writes of a seat, or none where its writer ended before.
fn write_each<K: Keeper, W: Wait>(
    alloc: Global,
    node: &Node<Stored<K, Brand>>,
    seat: &mut NodeSeat<Stored<K, Brand>, K>,
    key: &str,
    writer: u64,
    writes: u64,
    wait: &W,
) -> Option<Stormed>
    requires own { IsSeatOf node.now.turn seat.old.seat }
    requires unsealed { is_open (knows seat.old).seen ≡ true }
    requires unused { (knows seat.old).mine ≡ [] }
    requires key { key.now ≡ storm_key writer }
    requires short { writes < 2 ^ 32 }
    ensures own { IsSeatOf node.now.turn seat.new.seat }
    ensures parts { (knows seat.new).parts ≡ (knows seat.old).parts }
    ensures written { HasWritten writer writes result (items K.Keeper (knows seat.new).seen) (knows seat.new) }
{
    let mut stormed = Stormed { made: 0, same: 0 };
    for number in 0..writes {
        match write_once(alloc, node, seat, key, writer, number + 1, wait) {
            Some(wrote) => stormed = counted(stormed, wrote),
            None => return None,
        }
    }
    Some(stormed)
}

/// One writer: its seat, its number from 1, and, once it has made all its writes, what they came to.
pub(crate) struct Writer<T, K: Keeper> {
    pub(crate) seat: NodeSeat<T, K>,
    pub(crate) number: u64,
    pub(crate) wrote: Option<Stormed>,
}

/// Lets a writer make its writes.
pub(crate) fn write_all<K: Keeper, W: Wait>(
    alloc: Global,
    node: &Node<Stored<K, Brand>>,
    writer: &mut Writer<Stored<K, Brand>, K>,
    writes: u64,
    wait: &W,
)
    requires own { IsSeatOf node.now.turn writer.old.seat.seat }
    requires unsealed { is_open (knows writer.old.seat).seen ≡ true }
    requires unused { (knows writer.old.seat).mine ≡ [] }
    requires short { writes < 2 ^ 32 }
    ensures own { IsSeatOf node.now.turn writer.new.seat.seat }
    ensures number { writer.new.number ≡ writer.old.number }
    ensures parts { (knows writer.new.seat).parts ≡ (knows writer.old.seat).parts }
    ensures written { HasWritten writer.new.number writes writer.new.wrote
        (items K.Keeper (knows writer.new.seat).seen) (knows writer.new.seat) }
{
    let number = writer.number;
    let Ok(key) = format!(in alloc; "/storm/{number}") else {
        writer.wrote = None;
        return;
    };
    writer.wrote = write_each(
        alloc,
        node,
        &mut writer.seat,
        key.as_str(),
        number,
        writes,
        wait,
    );
}
