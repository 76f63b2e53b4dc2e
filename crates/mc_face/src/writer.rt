// The writer of a face.
ghost use Rattle.std.specs.Prelude.{◌≡◌, ◌<◌, ◌+◌, ◌++◌, ◌∷◌, [], true, drop, map, length};
ghost use Rattle.std.specs.Prelude.{IfOk, OnOk, OnErr, Some};
ghost use Rattle.std.specs.VecDeque.{deque_len, deque_capacity};
ghost use Rattle.left_right.specs.Sides.{view};
ghost use Rattle.mc_face.specs.declared.shown.Op.TheVariants.{Set};
ghost use Rattle.mc_face.specs.Exact.{AreValues, Covers};
ghost use Rattle.mc_face.specs.Faces.{IsReady};
ghost use Rattle.mc_face.specs.Words.{told_list, told_face};

use crate::change::Change;
use crate::exactness::Exactness;
use crate::front::{Front, Head, extend};
use crate::glance::Told;
use crate::rule::{Faced, Sees};
use crate::shown::{Op, Shown};
use core::mem::replace_with;
use left_right::writer::Writer;
use mc_base::List;
use mc_model::Block;
use std::alloc::AllocError;
use std::collections::VecDeque;
use std::marker::Model;
use std::sync::Wait;

// For how many operations the queue keeps its room once it is empty.
const MOST_KEPT: usize = 1024;

/// What a face is written with.
pub(crate) type Pen<X> = Writer<Shown, Op, Option<Front>, Faced<X>>;

/// The writer of a face. A contract sees it as the list of blocks that was appended, the beginning of it that is shown,
/// and its face. It can't be dropped: `end` uses it up.
pub struct FaceWriter<X: Exactness> {
    pub(crate) pen: Pen<X>,
    pub(crate) queue: VecDeque<Op>,
    pub(crate) head: Head,
    pub(crate) front: Front,
}

impl<X: Exactness> Model for FaceWriter<X> {
    ghost use Rattle.std.specs.Prelude.{◌++◌, drop};
    ghost use Rattle.mc_face.specs.Faces.{IsWriting, blocks_of};
    ghost use Rattle.mc_face.specs.Words.{WriterValue};

    ghost Value = { WriterValue };

    ghost view = { λ w. record {
      list = blocks_of w.front;
      shown = blocks_of w.pen.desk.shown.value.front;
      face = w.front.seen.book;
    } };

    ghost invariant = { λ w. IsWriting X.exact w.pen.desk.shown.value
        (drop w.pen.behind w.pen.log.items ++ w.queue.items) w.front w.head };
}

impl<X: Exactness> FaceWriter<X> {
    /// How many blocks were appended. It takes no memory.
    pub fn length(&self) -> u64
        ensures { result ≡ length self.now.list }
    {
        self.front.count
    }

    /// Appends blocks, with what becomes of the values of the keys that they name. Readers see it once it is published.
    /// A refusal is for want of memory, and changes nothing.
    ///
    /// Conditions: each key that an element or a tombstone of the blocks names is changed; and where the face is exact,
    /// each change gives its key the value that it has over all blocks, these added.
    pub fn append(&mut self, blocks: List<Block>, changes: List<Change>) -> Result<(), AllocError>
        requires covers { Covers blocks changes }
        requires values { X.exact ≡ true → AreValues (self.old.list ++ blocks) changes }
        ensures ok { OnOk result (self.new.list ≡ self.old.list ++ blocks) }
        ensures err { OnErr result (self.new.list ≡ self.old.list) }
        ensures shown { self.new.shown ≡ self.old.shown }
        ensures face { self.new.face ≡ self.old.face }
    {
        let Some(room) = changes.len().checked_add(1) else {
            return Err(AllocError);
        };
        if self.queue.reserve(room).is_err() {
            return Err(AllocError);
        }
        let Some(front) = extend(&self.head, &self.front, &blocks) else {
            return Err(AllocError);
        };
        put_changes(&mut self.queue, changes, front.again());
        self.front = front;
        Ok(())
    }

    /// Shows readers all that was appended, at once, and tells of it. It waits for those that still read what was shown
    /// before the last call. A refusal is for want of memory: readers see what they saw, and what was appended stays to
    /// be shown.
    pub fn publish<W: Wait>(&mut self, wait: &W) -> Result<Told, AllocError>
        ensures told { IfOk result (λ told. (told_list told ≡ self.old.list) × (told_face told ≡ self.old.face)) }
        ensures ok { OnOk result (self.new.shown ≡ self.old.list) }
        ensures err { OnErr result (self.new.shown ≡ self.old.shown) }
        ensures list { self.new.list ≡ self.old.list }
        ensures face { self.new.face ≡ self.old.face }
    {
        if !feed(&mut self.pen, &mut self.queue) {
            return Err(AllocError);
        }
        let front = self.front.again();
        match replace_with(&mut self.pen, (&front, wait), show_with::<X, W>) {
            Ok(()) => Ok(Told {
                length: front.count,
                front,
            }),
            Err(AllocError) => Err(AllocError),
        }
    }

    /// Uses the writer up. It waits for the readers that still read. From then on the face gives them no entry. It
    /// takes no memory.
    pub fn end<W: Wait>(self, wait: &W) {
        let FaceWriter {
            pen,
            queue: _queue,
            head: _head,
            front: _front,
        } = self;
        drop(pen.take(wait));
    }
}

// Hands all that was appended to the pen, and says whether it could.
fn feed<X: Exactness>(pen: &mut Pen<X>, queue: &mut VecDeque<Op>) -> bool
    ensures desk { pen.new.desk ≡ pen.old.desk }
    ensures all { drop pen.new.behind pen.new.log.items ++ queue.new.items
        ≡ drop pen.old.behind pen.old.log.items ++ queue.old.items }
    ensures empty { result ≡ true → queue.new.items ≡ [] }
{
    while let Some(op) = queue.pop_front() {
        if let Err(op) = pen.append(op) {
            queue.push_front_reserved(op);
            return false;
        }
    }
    queue.shrink_to(MOST_KEPT);
    true
}

// Adds changes to what is to be done, and the front to which they lead. The room was taken before.
fn put_changes(queue: &mut VecDeque<Op>, changes: List<Change>, front: Front)
    requires room { deque_len queue.old + length changes < deque_capacity queue.old }
    ensures { queue.new.items ≡ (queue.old.items ++ map Set changes) ++ Op.Reach front ∷ [] }
{
    for change in changes.into_vec() {
        queue.push_back_reserved(Op::Set(change));
    }
    queue.push_back_reserved(Op::Reach(front));
}

/// Shows what is pending, after which what is shown stands for this front.
pub(crate) fn show<X: Exactness, W: Wait>(
    pen: Pen<X>,
    front: &Front,
    wait: &W,
) -> (Pen<X>, Result<(), AllocError>)
    requires ready { IsReady X.exact pen.desk.shown.value (drop pen.behind pen.log.items) front.now }
    ensures ready { IsReady X.exact result.0.desk.shown.value
        (drop result.0.behind result.0.log.items) front.now }
    ensures shown { OnOk result.1 (result.0.desk.shown.value.front ≡ front.now) }
    ensures kept { OnErr result.1 (result.0.desk.shown.value ≡ pen.desk.shown.value) }
    ensures view { OnOk result.1 (view result.0.desk.place ≡ Some front.now) }
{
    pen.publish_as::<Sees<X>, W>(wait)
}

// The same, with both in one.
fn show_with<X: Exactness, W: Wait>(
    pen: Pen<X>,
    with: (&Front, &W),
) -> (Pen<X>, Result<(), AllocError>)
    requires ready { IsReady X.exact pen.desk.shown.value (drop pen.behind pen.log.items) with.0.now }
    ensures ready { IsReady X.exact result.0.desk.shown.value
        (drop result.0.behind result.0.log.items) with.entry.0.now }
    ensures shown { OnOk result.1 (result.0.desk.shown.value.front ≡ with.entry.0.now) }
    ensures kept { OnErr result.1 (result.0.desk.shown.value ≡ pen.desk.shown.value) }
{
    show::<X, W>(pen, with.0, with.1)
}
