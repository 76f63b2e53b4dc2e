// A face of a node that threads share: what its readers see beside those that write and show.
ghost use Rattle.std.specs.Prelude.{◌≡◌, true, IfOk, IfSome};
ghost use Rattle.mc_face.specs.Words.{told_face};
ghost use Rattle.mc_turn.specs.Seats.{IsSeatOf};
ghost use Rattle.mc_model.specs.State.{HasSoundMark};
ghost use Rattle.mc_node.specs.Entries.{is_open};
ghost use Rattle.mc_node.specs.Seats.{knows};
ghost use Rattle.mc_shown.specs.Words.{IsAt, face_of};

use mc_base::Bytes;
use mc_core::CoreError;
use mc_core_tests::opened;
use mc_face::{Exactness, FaceReader, Glance, GlanceError, Told};
use mc_keep::Keeper;
use mc_keep_mem::FaultPlan;
use mc_keep_tests::{Trial, passes, passes_over};
use mc_node::{Node, NodeSeat, Seen, Stored};
use mc_shown::{FaceSeat, Faces, SharedFace, open_face};
use std::alloc::{AllocError, Global};
use std::marker::Brand;
use std::sync::Wait;
use std::test::Fail;

/// A face of which nothing is known but that its lists grow: the keepers here may tell or not.
pub(crate) struct Loose;

impl Exactness for Loose {
    ghost use Rattle.std.specs.Prelude.{false};

    ghost exact = { false };
}

pub(crate) type Shared<K> = Node<Stored<K, Brand>>;

pub(crate) type Place<K> = NodeSeat<Stored<K, Brand>, K>;

// Whether a reader answered with this value, over so many blocks.
pub(crate) fn reads(
    answer: Result<Glance<Option<Bytes>>, GlanceError>,
    value: Option<&[u8]>,
    length: u64,
) -> bool {
    let Ok(
        Glance {
            answer,
            length: found,
        },
    ) = answer
    else {
        return false;
    };
    let same = match (&answer, value) {
        (Some(bytes), Some(value)) => bytes.as_slice() == value,
        (None, None) => true,
        _ => false,
    };
    same && found == length
}

fn is_error<T>(answer: &Result<T, CoreError>, error: CoreError) -> bool {
    match answer {
        Ok(_) => false,
        Err(other) => *other == error,
    }
}

// A put and a delete are shown, and read once the reader is told of them.
fn shows_writes<K: Keeper, W: Wait>(
    alloc: Global,
    node: &Shared<K>,
    place: &mut Place<K>,
    face: &SharedFace<K, Loose>,
    seat: &mut FaceSeat<K, Loose>,
    eye: &mut FaceReader<Loose>,
    wait: &W,
) -> Result<bool, CoreError>
    requires place { IsSeatOf node.now.turn place.old.seat }
    requires open { is_open (knows place.old).seen ≡ true }
    requires seat { IsSeatOf face.now.turn seat.old.seat }
    requires of { IsAt seat.old node.now.turn }
    requires one { eye.old.face ≡ face_of seat.old }
    ensures place { IsSeatOf node.now.turn place.new.seat }
    ensures open { is_open (knows place.new).seen ≡ true }
    ensures seat { IsSeatOf face.now.turn seat.new.seat }
{
    node.put(alloc, place, "/a", b"red", wait)?;
    let unshown = reads(eye.get(alloc, "/a"), None, 0);
    let first = face.show(alloc, seat, node, place, wait)?;
    eye.tell(&first.answer);
    let held = reads(eye.get(alloc, "/a"), Some(b"red"), 1);
    node.delete(alloc, place, "/a", wait)?;
    let still = reads(eye.get(alloc, "/a"), Some(b"red"), 1);
    let second = face.show(alloc, seat, node, place, wait)?;
    eye.tell(&second.answer);
    let gone = reads(eye.get(alloc, "/a"), None, 2);
    Ok(unshown && first.length == 1 && held && still && second.answer.length == 2 && gone)
}

// A read of the keeper fails in a show: the node has stopped, and the reader sees what was shown before.
fn stops<K: Keeper, W: Wait>(
    alloc: Global,
    node: &Shared<K>,
    place: &mut Place<K>,
    face: &SharedFace<K, Loose>,
    seat: &mut FaceSeat<K, Loose>,
    eye: &mut FaceReader<Loose>,
    wait: &W,
) -> Result<bool, CoreError>
    requires place { IsSeatOf node.now.turn place.old.seat }
    requires open { is_open (knows place.old).seen ≡ true }
    requires seat { IsSeatOf face.now.turn seat.old.seat }
    requires of { IsAt seat.old node.now.turn }
    requires one { eye.old.face ≡ face_of seat.old }
    ensures place { IsSeatOf node.now.turn place.new.seat }
    ensures open { is_open (knows place.new).seen ≡ true }
    ensures seat { IsSeatOf face.now.turn seat.new.seat }
{
    let failed = face.show(alloc, seat, node, place, wait);
    let stopped = face.show(alloc, seat, node, place, wait);
    Ok(
        is_error(&failed, CoreError::KeeperFault)
            && is_error(&stopped, CoreError::Stopped)
            && reads(eye.get(alloc, "/a"), None, 0),
    )
}

// What a reader answers for a key, with its length; any refusal is want of memory here.
fn read(
    answer: Result<Glance<Option<Bytes>>, GlanceError>,
) -> Result<(Option<Bytes>, u64), CoreError> {
    match answer {
        Ok(glance) => Ok((glance.answer, glance.length)),
        Err(_) => Err(CoreError::Memory),
    }
}

fn is_red(found: &Option<Bytes>) -> bool {
    match found {
        Some(bytes) => bytes.as_slice() == b"red".as_slice(),
        None => false,
    }
}

// Shows a face, and once more where there was no memory.
fn show_again<K: Keeper, W: Wait>(
    alloc: Global,
    node: &Shared<K>,
    place: &mut Place<K>,
    face: &SharedFace<K, Loose>,
    seat: &mut FaceSeat<K, Loose>,
    wait: &W,
) -> Result<Seen<Told>, CoreError>
    requires place { IsSeatOf node.now.turn place.old.seat }
    requires open { is_open (knows place.old).seen ≡ true }
    requires seat { IsSeatOf face.now.turn seat.old.seat }
    requires of { IsAt seat.old node.now.turn }
    ensures place { IsSeatOf node.now.turn place.new.seat }
    ensures open { is_open (knows place.new).seen ≡ true }
    ensures seat { IsSeatOf face.now.turn seat.new.seat }
    ensures told { IfOk result (λ seen. told_face seen.answer ≡ face_of seat.old) }
{
    match face.show(alloc, seat, node, place, wait) {
        Err(CoreError::Memory) => face.show(alloc, seat, node, place, wait),
        shown => shown,
    }
}

// A show that gets no memory loses nothing: the next one shows all.
fn shows_later<K: Keeper, W: Wait>(
    alloc: Global,
    node: &Shared<K>,
    place: &mut Place<K>,
    face: &SharedFace<K, Loose>,
    seat: &mut FaceSeat<K, Loose>,
    eye: &mut FaceReader<Loose>,
    wait: &W,
) -> Result<bool, CoreError>
    requires place { IsSeatOf node.now.turn place.old.seat }
    requires open { is_open (knows place.old).seen ≡ true }
    requires seat { IsSeatOf face.now.turn seat.old.seat }
    requires of { IsAt seat.old node.now.turn }
    requires one { eye.old.face ≡ face_of seat.old }
    ensures place { IsSeatOf node.now.turn place.new.seat }
    ensures open { is_open (knows place.new).seen ≡ true }
    ensures seat { IsSeatOf face.now.turn seat.new.seat }
{
    node.put(alloc, place, "/a", b"red", wait)?;
    let shown = show_again(alloc, node, place, face, seat, wait)?;
    eye.tell(&shown.answer);
    let (found, length) = read(eye.get(alloc, "/a"))?;
    Ok(is_red(&found) && length == 1 && shown.length == 1)
}

// What is tried over a node with a face, and what is planned.
#[derive(Clone, Copy)]
enum Sharing {
    ShowWrites,
    Stop,
    OpenTwice,
    Refused,
}

// Opens a face with one reader, tries this over it, and ends it: then the reader is shut out.
fn tries<K: Keeper, W: Wait>(
    sharing: Sharing,
    alloc: Global,
    node: &Shared<K>,
    place: &mut Place<K>,
    wait: &W,
) -> Result<bool, CoreError>
    requires place { IsSeatOf node.now.turn place.old.seat }
    requires open { is_open (knows place.old).seen ≡ true }
    ensures place { IsSeatOf node.now.turn place.new.seat }
    ensures open { is_open (knows place.new).seen ≡ true }
{
    let faces = match open_face::<K, Brand, Loose, W>(alloc, node, place, 1, wait) {
        Ok(faces) => faces,
        Err(_) => return Err(CoreError::Memory),
    };
    let Faces {
        face,
        mut seat,
        readers,
    } = faces;
    let mut readers = readers.into_vec();
    let answer = match readers.pop() {
        Some(mut eye) => {
            let passed = match sharing {
                Sharing::Stop => stops(alloc, node, place, &face, &mut seat, &mut eye, wait),
                Sharing::Refused => {
                    shows_later(alloc, node, place, &face, &mut seat, &mut eye, wait)
                }
                _ => shows_writes(alloc, node, place, &face, &mut seat, &mut eye, wait),
            };
            (passed, Some(eye))
        }
        None => (Err(CoreError::Memory), None),
    };
    face.end(seat, wait);
    let (passed, eye) = answer;
    let shut = match eye {
        Some(mut eye) => matches!(eye.get(alloc, "/a"), Err(GlanceError::Shut)),
        None => false,
    };
    Ok(passed? && shut)
}

// The same from a keeper on, with a second face beside the first where that is asked.
fn plays<K: Keeper + Drop, W: Wait>(
    sharing: Sharing,
    keeper: K,
    alloc: Global,
    wait: &W,
) -> Result<bool, CoreError>
    requires { IfSome (K.told keeper) HasSoundMark }
{
    let replica = opened(alloc, keeper)?;
    let Ok((node, mut place)) = Shared::<K>::new(alloc, replica, false, None) else {
        return Err(CoreError::Memory);
    };
    let passed = match sharing {
        Sharing::OpenTwice => tries_beside(alloc, &node, &mut place, wait),
        _ => tries(sharing, alloc, &node, &mut place, wait),
    };
    drop(node.close(place, wait));
    passed
}

// A face beside another one of the same node: each has its own readers, and both show all.
fn tries_beside<K: Keeper, W: Wait>(
    alloc: Global,
    node: &Shared<K>,
    place: &mut Place<K>,
    wait: &W,
) -> Result<bool, CoreError>
    requires place { IsSeatOf node.now.turn place.old.seat }
    requires open { is_open (knows place.old).seen ≡ true }
    ensures place { IsSeatOf node.now.turn place.new.seat }
{
    let faces = match open_face::<K, Brand, Loose, W>(alloc, node, place, 16, wait) {
        Ok(faces) => faces,
        Err(_) => return Err(CoreError::Memory),
    };
    let Faces {
        face,
        mut seat,
        readers,
    } = faces;
    let inner = tries(Sharing::ShowWrites, alloc, node, place, wait);
    let shown = face.show(alloc, &mut seat, node, place, wait);
    face.end(seat, wait);
    Ok(inner? && shown?.answer.length == 2 && readers.len() == 16)
}

impl Trial for Sharing {
    fn passes<K: Keeper + Drop, W: Wait>(
        self,
        alloc: Global,
        keeper: K,
        wait: &W,
    ) -> Result<bool, Fail>
    where
        K::Desk: Drop,
    {
        Ok(plays(self, keeper, alloc, wait)?)
    }
}

// A plan by which the third read fails: the first two are the opening's.
fn failing(alloc: Global) -> Result<FaultPlan, AllocError> {
    let mut plan = FaultPlan::nothing(alloc);
    plan.reads.push(3)?;
    Ok(plan)
}

#[test]
fn writes_are_shown_to_readers_that_are_told(rt: HostRuntime) -> Result<(), Fail> {
    assert!(rt; passes(Sharing::ShowWrites, rt.alloc(), &rt)?);
    assert!(rt; passes(Sharing::OpenTwice, rt.alloc(), &rt)?);
    Ok(())
}

/// Here no request is refused: `bench/refused_memory/calls` runs this again and again, with another one refused in each
/// run.
#[test]
fn a_refused_show_loses_nothing(rt: HostRuntime) -> Result<(), Fail> {
    assert!(rt; passes(Sharing::Refused, rt.alloc(), &rt)?);
    Ok(())
}

#[test]
fn a_fault_stops_a_show(rt: HostRuntime) -> Result<(), Fail> {
    let alloc = rt.alloc();
    assert!(rt; passes_over(Sharing::Stop, alloc, failing(alloc)?, &rt)?);
    Ok(())
}
