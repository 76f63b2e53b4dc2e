// The writers of a storm: their seats are split from one, and come back to it.
ghost use Rattle.std.specs.Prelude.{◌≡◌, ◌≤◌, ◌<◌, ◌+◌, ◌^◌, [], ◌∷◌, ◌++◌, ℕ, All, length, map, is_some};
ghost use Rattle.std.specs.Prelude.{slice_index_or, true, vec_len, vec_capacity};
ghost use Rattle.mc_turn.specs.Lists.{Begins, places, total};
ghost use Rattle.mc_turn.specs.Seats.{IsSeatOf};
ghost use Rattle.mc_writers.specs.Crews.{HasStormed, IsReady};
ghost use Rattle.mc_node.specs.Entries.{is_open, items};
ghost use Rattle.mc_node.specs.Seats.{knows};
ghost use Rattle.mc_writers.specs.Gathers.{Joined};
ghost use Rattle.mc_writers.specs.Writers.{HasWritten, IsBad, IsGood, both_of, made_of, same_of};

use crate::writing::{Writer, write_all};
use mc_keep::Keeper;
use mc_node::{Node, NodeSeat, Stored};
use mc_storm::Stormed;
use std::alloc::Global;
use std::marker::Brand;
use std::sync::Wait;
use std::thread;
use std::thread::Threads;

// The room was taken before.
fn place<T>(items: &mut Vec<T>, item: T)
    requires { vec_len items.old < vec_capacity items.old }
    ensures items { items.new.items ≡ items.old.items ++ item ∷ [] }
    ensures capacity { vec_capacity items.old ≤ vec_capacity items.new }
{
    match items.push(item) {
        Ok(()) => {}
        Err(_) => unreachable!(),
    }
}

/// So many writers, with seats that are split from this one.
pub(crate) fn hire<K: Keeper>(
    node: &Node<Stored<K, Brand>>,
    seat: &mut NodeSeat<Stored<K, Brand>, K>,
    count: u64,
    crew: &mut Vec<Writer<Stored<K, Brand>, K>>,
)
    requires own { IsSeatOf node.now.turn seat.old.seat }
    requires unsealed { is_open (knows seat.old).seen ≡ true }
    requires parts { 2 ^ count ≤ (knows seat.old).parts }
    requires empty { crew.old.items ≡ [] }
    requires room { count ≤ vec_capacity crew.old }
    ensures own { IsSeatOf node.now.turn seat.new.seat }
    ensures seen { (knows seat.new).seen ≡ (knows seat.old).seen }
    ensures mine { (knows seat.new).mine ≡ (knows seat.old).mine }
    ensures base { (knows seat.new).base ≡ (knows seat.old).base }
    ensures ready { All (λ writer. IsReady (IsSeatOf node.now.turn writer.seat.seat)
        (is_open (knows writer.seat).seen ≡ true) (knows writer.seat)) crew.new.items }
    ensures size { length crew.new.items ≡ count }
    ensures numbered { map (λ writer. writer.number) crew.new.items ≡ places 1 count }
    ensures shares { (knows seat.new).parts + total (λ writer. (knows writer.seat).parts) crew.new.items
        ≡ (knows seat.old).parts }
{
    for index in 0..count {
        let other = node.split(seat);
        place(
            crew,
            Writer {
                seat: other,
                number: index + 1,
                wrote: None,
            },
        );
    }
}

/// Lets all writers write, each in a thread of its own where one can be made.
pub(crate) fn write_beside<K: Keeper + Send + Sync, T: Threads + Sync, W: Wait + Sync>(
    alloc: Global,
    node: &Node<Stored<K, Brand>>,
    crew: &mut Vec<Writer<Stored<K, Brand>, K>>,
    writes: u64,
    threads: &T,
    wait: &W,
)
where
    K::Desk: Send,
    requires ready { All (λ writer. IsReady (IsSeatOf node.now.turn writer.seat.seat)
        (is_open (knows writer.seat).seen ≡ true) (knows writer.seat)) crew.old.items }
    requires short { writes < 2 ^ 32 }
    ensures size { length crew.new.items ≡ length crew.old.items }
    ensures owned { All (λ writer. IsSeatOf node.now.turn writer.seat.seat) crew.new.items }
    ensures written { All (λ writer. HasWritten writer.number writes writer.wrote
        (items K.Keeper (knows writer.seat).seen) (knows writer.seat)) crew.new.items }
    ensures numbered { map (λ writer. writer.number) crew.new.items ≡ map (λ writer. writer.number) crew.old.items }
    ensures parts { total (λ writer. (knows writer.seat).parts) crew.new.items
        ≡ total (λ writer. (knows writer.seat).parts) crew.old.items }
{
    write_listed(alloc, node, crew.as_mut_slice(), writes, threads, wait);
}

// The same, over a slice.
fn write_listed<K: Keeper + Send + Sync, T: Threads + Sync, W: Wait + Sync>(
    alloc: Global,
    node: &Node<Stored<K, Brand>>,
    crew: &mut [Writer<Stored<K, Brand>, K>],
    writes: u64,
    threads: &T,
    wait: &W,
)
where
    K::Desk: Send,
    requires ready { All (λ writer. IsReady (IsSeatOf node.now.turn writer.seat.seat)
        (is_open (knows writer.seat).seen ≡ true) (knows writer.seat)) crew.old }
    requires short { writes < 2 ^ 32 }
    ensures size { length crew.new ≡ length crew.old }
    ensures owned { All (λ writer. IsSeatOf node.now.turn writer.seat.seat) crew.new }
    ensures written { All (λ writer. HasWritten writer.number writes writer.wrote
        (items K.Keeper (knows writer.seat).seen) (knows writer.seat)) crew.new }
    ensures numbered { map (λ writer. writer.number) crew.new ≡ map (λ writer. writer.number) crew.old }
    ensures parts { total (λ writer. (knows writer.seat).parts) crew.new
        ≡ total (λ writer. (knows writer.seat).parts) crew.old }
{
    write_slice(alloc, node, crew, writes, threads, wait);
}

// The same, writer by writer.
fn write_slice<K: Keeper + Send + Sync, T: Threads + Sync, W: Wait + Sync>(
    alloc: Global,
    node: &Node<Stored<K, Brand>>,
    crew: &mut [Writer<Stored<K, Brand>, K>],
    writes: u64,
    threads: &T,
    wait: &W,
)
where
    K::Desk: Send,
    requires ready { All (λ writer. IsReady (IsSeatOf node.now.turn writer.seat.seat)
        (is_open (knows writer.seat).seen ≡ true) (knows writer.seat)) crew.old }
    requires short { writes < 2 ^ 32 }
    ensures length { length crew.new ≡ length crew.old }
    ensures stormed { (k : ℕ) (d : _) → k < length crew.old →
        HasStormed (IsSeatOf node.now.turn (slice_index_or crew.new k d).seat.seat) writes
        (slice_index_or crew.old k d).number (slice_index_or crew.new k d).number (slice_index_or crew.new k d).wrote
        (items K.Keeper (knows (slice_index_or crew.new k d).seat).seen) (knows (slice_index_or crew.old k d).seat)
        (knows (slice_index_or crew.new k d).seat) }
{
    let write_one = |_at: usize, writer: &mut Writer<Stored<K, Brand>, K>|
        requires { IsReady (IsSeatOf node.now.turn writer.now.seat.seat)
            (is_open (knows writer.now.seat).seen ≡ true) (knows writer.now.seat) × (writes < 2 ^ 32) }
        ensures { HasStormed (IsSeatOf node.entry.now.turn writer.exit.now.seat.seat) writes writer.entry.now.number
            writer.exit.now.number writer.exit.now.wrote (items K.Keeper (knows writer.exit.now.seat).seen)
            (knows writer.entry.now.seat) (knows writer.exit.now.seat) }
    { write_all(alloc, node, writer, writes, wait) };
    thread::for_each_mut(threads, crew, 16, &write_one);
}

// What two writes came to, where both did.
fn both(one: Option<Stormed>, other: Option<Stormed>) -> Option<Stormed>
    requires room { (made_of one < 2 ^ 63) × (same_of one < 2 ^ 63) }
    requires more { (made_of other < 2 ^ 63) × (same_of other < 2 ^ 63) }
    ensures { result ≡ both_of one other }
{
    match (one, other) {
        (Some(one), Some(other)) => Some(Stormed {
            made: one.made + other.made,
            same: one.same + other.same,
        }),
        _ => None,
    }
}

/// The seats of all writers come back to this one: what all writes came to, where each writer has made its own.
pub(crate) fn gather<K: Keeper>(
    node: &Node<Stored<K, Brand>>,
    seat: &mut NodeSeat<Stored<K, Brand>, K>,
    crew: Vec<Writer<Stored<K, Brand>, K>>,
    writes: u64,
) -> Option<Stormed>
    requires own { IsSeatOf node.now.turn seat.old.seat }
    requires unused { (knows seat.old).mine ≡ [] }
    requires owned { All (λ writer. IsSeatOf node.now.turn writer.seat.seat) crew.items }
    requires written { All (λ writer. HasWritten writer.number writes writer.wrote
        (items K.Keeper (knows writer.seat).seen) (knows writer.seat)) crew.items }
    requires numbered { map (λ writer. writer.number) crew.items ≡ places 1 (length crew.items) }
    requires few { length crew.items ≤ 16 }
    requires short { writes < 2 ^ 32 }
    ensures own { IsSeatOf node.now.turn seat.new.seat }
    ensures seen { Begins (knows seat.old).seen (knows seat.new).seen }
    ensures base { (knows seat.new).base ≡ (knows seat.old).base }
    ensures parts { (knows seat.new).parts
        ≡ (knows seat.old).parts + total (λ writer. (knows writer.seat).parts) crew.items }
    ensures joined { Joined (length crew.items) writes (length (knows seat.new).seen) (is_some result) (made_of result)
        (same_of result) (knows seat.new).mine (IsGood (items K.Keeper (knows seat.new).seen))
        (IsBad (items K.Keeper (knows seat.new).seen)) }
{
    let mut wrote = Some(Stormed { made: 0, same: 0 });
    let mut rest = crew.into_iter();
    while let Some(writer) = rest.next() {
        let Writer {
            seat: other,
            number: _,
            wrote: more,
        } = writer;
        node.join(seat, other);
        wrote = both(wrote, more);
    }
    rest.destroy_empty();
    wrote
}
