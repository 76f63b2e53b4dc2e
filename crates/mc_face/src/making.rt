// Faces are made.
ghost use Rattle.std.specs.Prelude.{◌≡◌, ◌≤◌, ◌<◌, ◌+◌, [], true, length, All, IfOk, Some};
ghost use Rattle.std.specs.Prelude.{vec_len, vec_capacity};
ghost use Rattle.left_right.specs.Sides.{view};
ghost use Rattle.mc_face.specs.Book.{head_of};
ghost use Rattle.mc_face.specs.Faces.{blocks_of};
ghost use Rattle.mc_face.specs.Words.{BeginsAt};

use crate::exactness::Exactness;
use crate::front::{Front, Head};
use crate::reader::FaceReader;
use crate::rule::Notes;
use crate::shown::Shown;
use crate::writer::{FaceWriter, Pen, show};
use left_right::writer::Writer;
use logbook::{Seen, Start, Word};
use mc_base::List;
use std::alloc::{AllocError, Global};
use std::collections::{BTreeMap, VecDeque};
use std::sync::Wait;
use thiserror::Error;

/// Why a face was not made.
#[derive(Clone, Copy, Debug, PartialEq, Eq, Error)]
pub enum FaceRefused {
    /// No place for a reader was given.
    #[error("no place for a reader")]
    NoPlace,
    /// Want of memory.
    #[error("out of memory")]
    Memory,
}

/// A face of the list of no blocks: its writer, and so many readers that have seen nothing. It waits for nobody, since
/// no reader is there yet.
///
/// Refusals: `NoPlace`, where left_right refused a reader its place; `Memory`.
///
/// Condition: 1 to 16 readers.
pub fn face<X: Exactness, W: Wait>(
    alloc: Global,
    readers: u64,
    wait: &W,
) -> Result<(FaceWriter<X>, List<FaceReader<X>>), FaceRefused>
    requires readers { (0 < readers) × (readers ≤ 16) }
    ensures list { IfOk result (λ made. made.0.list ≡ []) }
    ensures shown { IfOk result (λ made. made.0.shown ≡ []) }
    ensures readers { IfOk result (λ made. All (BeginsAt made.0.face) made.1) }
    ensures count { IfOk result (λ made. length made.1 ≡ readers) }
{
    let (head, front) = no_blocks();
    let mut list = match Vec::with_capacity(alloc, readers as usize) {
        Ok(list) => list,
        Err(_) => return Err(FaceRefused::Memory),
    };
    let shown = nothing(alloc, &front);
    let spare = nothing(alloc, &front);
    let pen = match Writer::new(alloc, shown, spare, readers as usize) {
        Ok(pen) => pen,
        Err(_) => return Err(FaceRefused::Memory),
    };
    let (mut pen, published) = show::<X, W>(pen, &front, wait);
    if published.is_err() {
        drop(pen.take(wait));
        return Err(FaceRefused::Memory);
    }
    if !hire(&mut pen, &front, readers, &mut list) {
        drop(pen.take(wait));
        return Err(FaceRefused::NoPlace);
    }
    let writer = FaceWriter {
        pen,
        queue: VecDeque::new(alloc),
        head,
        front,
    };
    Ok((writer, List::from_vec(list)))
}

// The list of no blocks, in a book of its own.
fn no_blocks() -> (Head, Front)
    ensures head { result.0 ≡ head_of result.1.seen.book }
    ensures none { blocks_of result.1 ≡ [] }
{
    let (seen, mut first, _second) = Seen::open(Start::alone(), 0, 0);
    let head = Word::tracked(0, &mut first);
    (head, Front { count: 0, seen })
}

// What is shown of the list of no blocks.
fn nothing(alloc: Global, front: &Front) -> Shown
    ensures front { result.front ≡ front.now }
    ensures values { result.values.entries ≡ [] }
{
    Shown {
        alloc,
        values: BTreeMap::new(alloc),
        front: front.again(),
    }
}

// So many readers, with what the pen knows, and whether each got a place. The room was taken before.
fn hire<X: Exactness>(
    pen: &mut Pen<X>,
    front: &Front,
    count: u64,
    readers: &mut Vec<FaceReader<X>>,
) -> bool
    requires known { view pen.old.desk.place ≡ Some front.now }
    requires nothing { blocks_of front.now ≡ [] }
    requires room { vec_len readers.old + count ≤ vec_capacity readers.old }
    requires empty { readers.old.items ≡ [] }
    ensures readers { result ≡ true → All (BeginsAt front.now.seen.book) readers.new.items }
    ensures count { result ≡ true → length readers.new.items ≡ count }
    ensures shown { pen.new.desk.shown ≡ pen.old.desk.shown }
    ensures log { (pen.new.log ≡ pen.old.log) × (pen.new.behind ≡ pen.old.behind) }
{
    for _ in 0..count {
        let mut place = match pen.factory().reader() {
            Ok(place) => place,
            Err(_) => return false,
        };
        place.learn::<Notes>(pen.tell::<Notes>());
        readers.push_reserved(FaceReader {
            place: Some(place),
            seen: front.again(),
            told: front.again(),
        });
    }
    true
}
