// A thread that puts values and shows them, beside a thread that reads what is shown.
ghost use Rattle.std.specs.Prelude.{◌≡◌, true, IfSome};
ghost use Rattle.mc_turn.specs.Seats.{view, IsSeatOf};
ghost use Rattle.mc_model.specs.State.{HasSoundMark};
ghost use Rattle.mc_node.specs.Entries.{is_open};
ghost use Rattle.mc_node.specs.Seats.{knows};
ghost use Rattle.mc_shown.specs.Words.{IsAt, face_of};

use crate::sharing::{Loose, Place, Shared, reads};
use mc_base::Bytes;
use mc_core::CoreError;
use mc_core_tests::opened;
use mc_face::{FaceReader, Glance};
use mc_keep::Keeper;
use mc_keep_tests::empty;
use mc_shown::{FaceSeat, Faces, SharedFace, open_face};
use std::alloc::Global;
use std::marker::Brand;
use std::sync::Wait;
use std::test::Fail;
use std::thread::{Threads, join_mut};

// Puts a key with the numbers from 1 on, so many, and shows each: whether it was.
fn write<K: Keeper, W: Wait>(
    alloc: Global,
    node: &Shared<K>,
    place: &mut Place<K>,
    face: &SharedFace<K, Loose>,
    seat: &mut FaceSeat<K, Loose>,
    count: u64,
    wait: &W,
) -> bool
    requires place { IsSeatOf node.now.turn place.old.seat }
    requires open { is_open (knows place.old).seen ≡ true }
    requires seat { IsSeatOf face.now.turn seat.old.seat }
    requires of { IsAt seat.old node.now.turn }
    ensures place { IsSeatOf node.now.turn place.new.seat }
    ensures open { is_open (knows place.new).seen ≡ true }
    ensures seat { IsSeatOf face.now.turn seat.new.seat }
    ensures same { (view seat.new.seat).seen ≡ (view seat.old.seat).seen }
{
    for number in 0..count {
        let value = (number + 1).to_be_bytes();
        if node.put(alloc, place, "/a", &value, wait).is_err() {
            return false;
        }
        if face.show(alloc, seat, node, place, wait).is_err() {
            return false;
        }
    }
    true
}

// Whether this is what a list of so many blocks gives: the number of the last one, or none.
fn is_last(found: &Option<Bytes>, length: u64) -> bool {
    match found {
        Some(bytes) => length > 0 && bytes.as_slice() == length.to_be_bytes().as_slice(),
        None => length == 0,
    }
}

// Reads until so many blocks are shown: whether each answer is the number of the last one that is shown.
fn read(alloc: Global, eye: &mut FaceReader<Loose>, count: u64) -> bool
    ensures one { eye.new.face ≡ eye.old.face }
{
    for _ in 0..100_000_000u64 {
        let Ok(Glance { answer, length }) = eye.get(alloc, "/a") else {
            return false;
        };
        if !is_last(&answer, length) {
            return false;
        }
        if length == count {
            return true;
        }
    }
    false
}

// A thread writes and shows while another one reads: whether both went well.
fn run_beside<K: Keeper + Send + Sync, R: Threads + Wait + Sync>(
    alloc: &Global,
    node: &Shared<K>,
    place: &mut Place<K>,
    face: &SharedFace<K, Loose>,
    seat: &mut FaceSeat<K, Loose>,
    eye: &mut FaceReader<Loose>,
    rt: &R,
) -> bool
where
    K::Desk: Send,
    requires place { IsSeatOf node.now.turn place.old.seat }
    requires open { is_open (knows place.old).seen ≡ true }
    requires seat { IsSeatOf face.now.turn seat.old.seat }
    requires of { IsAt seat.old node.now.turn }
    ensures place { IsSeatOf node.now.turn place.new.seat }
    ensures open { is_open (knows place.new).seen ≡ true }
    ensures seat { IsSeatOf face.now.turn seat.new.seat }
    ensures same { (view seat.new.seat).seen ≡ (view seat.old.seat).seen }
    ensures one { eye.new.face ≡ eye.old.face }
{
    let (written, seen) = join_mut(
        rt,
        &mut || -> bool
            requires { IsSeatOf node.now.turn place.now.seat × (is_open (knows place.now).seen ≡ true)
                × IsSeatOf face.now.turn seat.now.seat × IsAt seat.now node.now.turn }
            ensures { IsSeatOf node.entry.now.turn place.exit.now.seat × (is_open (knows place.exit.now).seen ≡ true)
                × IsSeatOf face.entry.now.turn seat.exit.now.seat
                × ((view seat.exit.now.seat).seen ≡ (view seat.entry.now.seat).seen) }
        { write(*alloc, node, place, face, seat, 200, rt) },
        &mut || -> bool
            ensures { eye.exit.now.face ≡ eye.entry.now.face }
        { read(*alloc, eye, 200) },
    );
    written && seen
}

// The same. What is shown then is read once the reader is told.
fn both<K: Keeper + Send + Sync, R: Threads + Wait + Sync>(
    alloc: Global,
    node: &Shared<K>,
    place: &mut Place<K>,
    face: &SharedFace<K, Loose>,
    seat: &mut FaceSeat<K, Loose>,
    eye: &mut FaceReader<Loose>,
    rt: &R,
) -> Result<bool, CoreError>
where
    K::Desk: Send,
    requires place { IsSeatOf node.now.turn place.old.seat }
    requires open { is_open (knows place.old).seen ≡ true }
    requires seat { IsSeatOf face.now.turn seat.old.seat }
    requires of { IsAt seat.old node.now.turn }
    requires one { eye.old.face ≡ face_of seat.old }
    ensures place { IsSeatOf node.now.turn place.new.seat }
    ensures seat { IsSeatOf face.now.turn seat.new.seat }
{
    let beside = run_beside(&alloc, node, place, face, seat, eye, rt);
    let last = face.show(alloc, seat, node, place, rt)?;
    eye.tell(&last.answer);
    let found = reads(eye.get(alloc, "/a"), Some(&200u64.to_be_bytes()), 200);
    Ok(beside && found)
}

// The same over a face with one reader, which is ended.
fn over_face<K: Keeper + Send + Sync, R: Threads + Wait + Sync>(
    alloc: Global,
    node: &Shared<K>,
    place: &mut Place<K>,
    rt: &R,
) -> Result<bool, CoreError>
where
    K::Desk: Send,
    requires place { IsSeatOf node.now.turn place.old.seat }
    requires open { is_open (knows place.old).seen ≡ true }
    ensures place { IsSeatOf node.now.turn place.new.seat }
{
    let faces = match open_face::<K, Brand, Loose, R>(alloc, node, place, 1, rt) {
        Ok(faces) => faces,
        Err(_) => return Err(CoreError::Memory),
    };
    let Faces {
        face,
        mut seat,
        readers,
    } = faces;
    let mut readers = readers.into_vec();
    let passed = match readers.pop() {
        Some(mut eye) => both(alloc, node, place, &face, &mut seat, &mut eye, rt),
        None => Err(CoreError::Memory),
    };
    face.end(seat, rt);
    passed
}

// The same from a keeper on.
fn over_keeper<K: Keeper + Drop + Send + Sync, R: Threads + Wait + Sync>(
    keeper: K,
    alloc: Global,
    rt: &R,
) -> Result<bool, CoreError>
where
    K::Desk: Send,
    requires { IfSome (K.told keeper) HasSoundMark }
{
    let replica = opened(alloc, keeper)?;
    let Ok((node, mut place)) = Shared::<K>::new(alloc, replica, false, None) else {
        return Err(CoreError::Memory);
    };
    let passed = over_face(alloc, &node, &mut place, rt);
    drop(node.close(place, rt));
    passed
}

#[test]
fn a_reader_beside_a_writer_reads_what_was_put(rt: HostRuntime) -> Result<(), Fail> {
    let alloc = rt.alloc();
    assert!(rt; over_keeper(empty(alloc)?, alloc, &rt)?);
    Ok(())
}
