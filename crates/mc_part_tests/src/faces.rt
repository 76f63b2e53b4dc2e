//! A face: what its readers see beside its writer.
ghost use Rattle.std.specs.Prelude.{◌≡◌, ℕ, All, IfOk};
ghost use Rattle.std.specs.Prelude as prelude;
ghost use Rattle.std.specs.Str.{bytes_eq};
ghost use Rattle.mc_face.specs.Exact.{names_key};
ghost use Rattle.mc_face.specs.Words.{told_face};

use mc_base::{Bytes, Cid, List, Text};
use mc_face::{Change, Exactness, FaceReader, FaceWriter, Glance, GlanceError, Told, face};
use mc_model::{Block, Delta, Element, Tomb};
use mc_query::Pair;
use std::alloc::{AllocError, Global};
use std::sync::Wait;
use std::test::Fail;
use std::thread::{Threads, join};

/// A face that isn't exact, so that its changes have no condition but that they cover the blocks.
struct Loose;

impl Exactness for Loose {
    ghost use Rattle.std.specs.Prelude.{false};

    ghost exact = { false };
}

/// A block without links that names the keys of these.
fn block_of(alloc: Global, elements: List<Element>, tombstones: List<Tomb>) -> Block
    ensures elements { result.delta.elements ≡ elements }
    ensures tombstones { result.delta.tombstones ≡ tombstones }
{
    Block {
        cid: Cid::of(b"a block"),
        links: List::new(alloc),
        delta: Delta {
            elements,
            tombstones,
            priority: 1,
        },
    }
}

/// A block that gives a key this value.
fn put_block(alloc: Global, key: &str, value: u8) -> Result<Block, AllocError>
    ensures { IfOk result (λ block. (other : prelude.List ℕ) → names_key other block ≡ bytes_eq key.now other) }
{
    let mut elements = List::with_capacity(alloc, 1)?;
    elements.push(Element {
        key: Text::from_text(alloc, key)?,
        value: Bytes::from_slice(alloc, &[value])?,
    })?;
    Ok(block_of(alloc, elements, List::new(alloc)))
}

/// A block that hides elements of a key.
fn delete_block(alloc: Global, key: &str) -> Result<Block, AllocError>
    ensures { IfOk result (λ block. (other : prelude.List ℕ) → names_key other block ≡ bytes_eq key.now other) }
{
    let mut tombstones = List::with_capacity(alloc, 1)?;
    tombstones.push(Tomb {
        key: Text::from_text(alloc, key)?,
        id: Text::new(alloc),
    })?;
    Ok(block_of(alloc, List::new(alloc), tombstones))
}

/// Appends a block that names a key alone, with what becomes of that key.
fn append_block(
    alloc: Global,
    pen: &mut FaceWriter<Loose>,
    block: Block,
    key: &str,
    value: Option<Bytes>,
) -> Result<(), AllocError>
    requires named { (other : prelude.List ℕ) → names_key other block ≡ bytes_eq key.now other }
    ensures face { pen.new.face ≡ pen.old.face }
{
    let mut blocks = List::with_capacity(alloc, 1)?;
    blocks.push(block)?;
    let mut changes = List::with_capacity(alloc, 1)?;
    changes.push(Change {
        key: Text::from_text(alloc, key)?,
        value,
    })?;
    pen.append(blocks, changes)
}

/// Appends a block that gives a key this value, or takes it away.
fn append(
    alloc: Global,
    pen: &mut FaceWriter<Loose>,
    key: &str,
    value: Option<u8>,
) -> Result<(), AllocError>
    ensures face { pen.new.face ≡ pen.old.face }
{
    match value {
        Some(value) => {
            let block = put_block(alloc, key, value)?;
            let bytes = Bytes::from_slice(alloc, &[value])?;
            append_block(alloc, pen, block, key, Some(bytes))
        }
        None => append_block(alloc, pen, delete_block(alloc, key)?, key, None),
    }
}

/// Appends and shows such a block.
fn show<W: Wait>(
    alloc: Global,
    pen: &mut FaceWriter<Loose>,
    key: &str,
    value: Option<u8>,
    wait: &W,
) -> Result<Told, AllocError>
    ensures told { IfOk result (λ told. told_face told ≡ pen.old.face) }
    ensures face { pen.new.face ≡ pen.old.face }
{
    append(alloc, pen, key, value)?;
    pen.publish(wait)
}

/// The answer of a reader with its length; any refusal is want of memory here.
fn read<A>(glance: Result<Glance<A>, GlanceError>) -> Result<(A, u64), AllocError> {
    match glance {
        Ok(glance) => Ok((glance.answer, glance.length)),
        Err(_) => Err(AllocError),
    }
}

/// Whether a get answered this value, or none, over so many blocks.
fn got(found: (Option<Bytes>, u64), value: Option<u8>, length: u64) -> bool {
    let same = match (found.0, value) {
        (Some(bytes), Some(value)) => bytes.as_slice() == [value].as_slice(),
        (None, None) => true,
        _ => false,
    };
    same && found.1 == length
}

/// Whether these are the pairs.
fn are_pairs(pairs: &[Pair], want: &[(&str, u8)]) -> bool {
    for (pair, (key, value)) in pairs.iter().zip(want) {
        if pair.key.as_str() != *key || pair.value.as_slice() != [*value].as_slice() {
            return false;
        }
    }
    pairs.len() == want.len()
}

/// What is asked of a face and one reader of it.
#[derive(Clone, Copy, Drop)]
enum Play {
    /// One block with `/a` is shown.
    OneBlock,
    /// Nothing was appended before a publish.
    NothingAppended,
    /// A key loses its value.
    Deleted,
    /// Four keys, queried by parts.
    Queried,
    /// An append or a publish that may get no memory.
    Refused,
}

/// A face with one reader.
fn open_one<W: Wait>(
    alloc: Global,
    wait: &W,
) -> Result<(FaceWriter<Loose>, FaceReader<Loose>), AllocError>
    ensures one { IfOk result (λ made. made.1.face ≡ made.0.face) }
{
    let (pen, eyes) = match face::<Loose, W>(alloc, 1, wait) {
        Ok(made) => made,
        Err(_) => return Err(AllocError),
    };
    let mut eyes = eyes.into_vec();
    match eyes.pop() {
        Some(eye) => Ok((pen, eye)),
        None => {
            pen.end(wait);
            Err(AllocError)
        }
    }
}

fn sees_one_block<W: Wait>(
    alloc: Global,
    pen: &mut FaceWriter<Loose>,
    eye: &mut FaceReader<Loose>,
    wait: &W,
) -> Result<bool, AllocError>
    requires one { eye.old.face ≡ pen.old.face }
{
    let told = show(alloc, pen, "/a", Some(1), wait)?;
    eye.tell(&told);
    let pairs = read(eye.query(alloc, "/", 0, 5))?;
    Ok(
        got(read(eye.get(alloc, "/a"))?, Some(1), 1)
            && read(eye.has("/b"))? == (false, 1)
            && are_pairs(pairs.0.as_slice(), &[("/a", 1)])
            && pairs.1 == 1
            && told.length == 1,
    )
}

fn sees_no_more<W: Wait>(
    alloc: Global,
    pen: &mut FaceWriter<Loose>,
    eye: &mut FaceReader<Loose>,
    wait: &W,
) -> Result<bool, AllocError>
    requires one { eye.old.face ≡ pen.old.face }
{
    let before = pen.publish(wait)?;
    let nothing = got(read(eye.get(alloc, "/a"))?, None, 0);
    append(alloc, pen, "/a", Some(1))?;
    let hidden = got(read(eye.get(alloc, "/a"))?, None, 0) && pen.length() == 1;
    let first = pen.publish(wait)?;
    let second = pen.publish(wait)?;
    eye.tell(&second);
    Ok(
        before.length == 0
            && nothing
            && hidden
            && first.length == 1
            && second.length == 1
            && got(read(eye.get(alloc, "/a"))?, Some(1), 1),
    )
}

fn sees_a_deletion<W: Wait>(
    alloc: Global,
    pen: &mut FaceWriter<Loose>,
    eye: &mut FaceReader<Loose>,
    wait: &W,
) -> Result<bool, AllocError>
    requires one { eye.old.face ≡ pen.old.face }
{
    let first = show(alloc, pen, "/a", Some(1), wait)?;
    let second = show(alloc, pen, "/a", None, wait)?;
    eye.tell(&second);
    let gone = got(read(eye.get(alloc, "/a"))?, None, 2) && read(eye.has("/a"))? == (false, 2);
    eye.tell(&first);
    let still = got(read(eye.get(alloc, "/a"))?, None, 2);
    let over = eye.get_at(alloc, &first, "/a")?.is_none();
    let at = matches!(eye.get_at(alloc, &second, "/a")?, Some(None));
    Ok(gone && still && over && at)
}

/// Whether a query of four keys gives these pairs.
fn gives(
    alloc: Global,
    eye: &mut FaceReader<Loose>,
    prefix: &str,
    skip: u64,
    count: u64,
    want: &[(&str, u8)],
) -> Result<bool, AllocError> {
    let (pairs, length) = read(eye.query(alloc, prefix, skip, count))?;
    Ok(are_pairs(pairs.as_slice(), want) && length == 4)
}

fn sees_four_keys<W: Wait>(
    alloc: Global,
    pen: &mut FaceWriter<Loose>,
    eye: &mut FaceReader<Loose>,
    wait: &W,
) -> Result<bool, AllocError>
    requires one { eye.old.face ≡ pen.old.face }
{
    append(alloc, pen, "/a", Some(1))?;
    append(alloc, pen, "/ab", Some(2))?;
    append(alloc, pen, "/a/c", Some(4))?;
    let told = show(alloc, pen, "/a/b", Some(3), wait)?;
    eye.tell(&told);
    let all = [("/a", 1), ("/a/b", 3), ("/a/c", 4), ("/ab", 2)];
    Ok(
        gives(alloc, eye, "", 0, 9, &all)?
            && gives(alloc, eye, "///", 0, 9, &all)?
            && gives(alloc, eye, "/", 1, 2, &all[1..3])?
            && gives(alloc, eye, "/a", 0, 9, &all[1..3])?
            && gives(alloc, eye, "/a/", 1, 9, &all[2..3])?
            && gives(alloc, eye, "/a", 2, 9, &all[..0])?
            && gives(alloc, eye, "/", 0, 0, &all[..0])?
            && gives(alloc, eye, "/b", 0, 9, &all[..0])?
            && gives(alloc, eye, "/", 4, u64::MAX, &all[..0])?,
    )
}

/// Appends such a block, and once more where there was no memory: whether a refusal has left what was appended.
fn append_again(
    alloc: Global,
    pen: &mut FaceWriter<Loose>,
    key: &str,
    value: u8,
) -> Result<bool, AllocError>
    ensures face { pen.new.face ≡ pen.old.face }
{
    let before = pen.length();
    let first = append(alloc, pen, key, Some(value));
    if first.is_err() {
        let same = pen.length() == before;
        append(alloc, pen, key, Some(value))?;
        return Ok(same);
    }
    Ok(true)
}

/// Shows what was appended, and once more where there was no memory.
fn publish_again<W: Wait>(pen: &mut FaceWriter<Loose>, wait: &W) -> Result<Told, AllocError>
    ensures told { IfOk result (λ told. told_face told ≡ pen.old.face) }
    ensures face { pen.new.face ≡ pen.old.face }
{
    match pen.publish(wait) {
        Ok(told) => Ok(told),
        Err(AllocError) => pen.publish(wait),
    }
}

fn sees_all_later<W: Wait>(
    alloc: Global,
    pen: &mut FaceWriter<Loose>,
    eye: &mut FaceReader<Loose>,
    wait: &W,
) -> Result<bool, AllocError>
    requires one { eye.old.face ≡ pen.old.face }
{
    let first = append_again(alloc, pen, "/a", 1)?;
    let second = append_again(alloc, pen, "/b", 2)?;
    let unseen = read(eye.has("/b"))? == (false, 0) && pen.length() == 2;
    let told = publish_again(pen, wait)?;
    eye.tell(&told);
    let seen = got(read(eye.get(alloc, "/b"))?, Some(2), 2);
    Ok(first && second && unseen && told.length == 2 && seen)
}

/// Whether a reader sees what this play says, and nothing once the writer is used up.
fn plays<W: Wait>(play: Play, alloc: Global, wait: &W) -> Result<bool, AllocError> {
    let (mut pen, mut eye) = open_one(alloc, wait)?;
    let seen = match play {
        Play::OneBlock => sees_one_block(alloc, &mut pen, &mut eye, wait),
        Play::NothingAppended => sees_no_more(alloc, &mut pen, &mut eye, wait),
        Play::Deleted => sees_a_deletion(alloc, &mut pen, &mut eye, wait),
        Play::Queried => sees_four_keys(alloc, &mut pen, &mut eye, wait),
        Play::Refused => sees_all_later(alloc, &mut pen, &mut eye, wait),
    };
    pen.end(wait);
    let shut = matches!(eye.has("/a"), Err(GlanceError::Shut));
    Ok(shut && seen?)
}

#[test]
fn a_reader_sees_what_is_shown(rt: HostRuntime) -> Result<(), Fail> {
    assert!(rt; plays(Play::OneBlock, rt.alloc(), &rt)?);
    assert!(rt; plays(Play::NothingAppended, rt.alloc(), &rt)?);
    assert!(rt; plays(Play::Deleted, rt.alloc(), &rt)?);
    assert!(rt; plays(Play::Queried, rt.alloc(), &rt)?);
    Ok(())
}

/// Here no request is refused: `bench/refused_memory/calls` runs this again and again, with another one refused in each
/// run.
#[test]
fn what_is_refused_is_shown_later(rt: HostRuntime) -> Result<(), Fail> {
    assert!(rt; plays(Play::Refused, rt.alloc(), &rt)?);
    Ok(())
}

/// How many of these readers see the one key of the list that they are told of.
fn seeing(eyes: List<FaceReader<Loose>>, told: &Told) -> u64
    requires one { All (λ eye. eye.face ≡ told_face told.now) eyes }
{
    let mut count = 0u64;
    for eye in eyes.into_vec() {
        if sees(eye, told) {
            count = count.wrapping_add(1);
        }
    }
    count
}

fn sees(eye: FaceReader<Loose>, told: &Told) -> bool
    requires one { eye.face ≡ told_face told.now }
{
    let mut eye = eye;
    eye.tell(told);
    matches!(read(eye.has("/a")), Ok((true, 1)))
}

/// How many of sixteen readers see one key.
fn sixteen<W: Wait>(alloc: Global, wait: &W) -> Result<u64, AllocError> {
    let (mut pen, eyes) = match face::<Loose, W>(alloc, 16, wait) {
        Ok(made) => made,
        Err(_) => return Err(AllocError),
    };
    let told = show(alloc, &mut pen, "/a", Some(1), wait);
    let count = match &told {
        Ok(told) => seeing(eyes, told),
        Err(AllocError) => 0,
    };
    pen.end(wait);
    Ok(count)
}

#[test]
fn sixteen_readers_have_places(rt: HostRuntime) -> Result<(), Fail> {
    assert_eq!(rt; sixteen(rt.alloc(), &rt)?, 16);
    Ok(())
}

/// Shows a key with this value, as often as the value is great, each time with one block more.
fn show_many<W: Wait>(alloc: Global, pen: &mut FaceWriter<Loose>, count: u8, wait: &W) -> bool {
    for value in 0..count {
        if show(alloc, pen, "/a", Some(value), wait).is_err() {
            return false;
        }
    }
    true
}

/// Whether each answer of a reader is the value that a list of its length gives, until the list has `last` blocks.
fn read_many(alloc: Global, eye: FaceReader<Loose>, last: u64, most: u64) -> bool {
    let mut eye = eye;
    for _ in 0..most {
        let Ok((found, length)) = read(eye.get(alloc, "/a")) else {
            return false;
        };
        let value = match length {
            0 => None,
            _ => u8::try_from(length - 1).ok(),
        };
        if !got((found, length), value, length) {
            return false;
        }
        if length == last {
            return true;
        }
    }
    false
}

/// Whether a reader in a thread beside a writer in another one sees whole lists, up to the last.
fn beside<R: Threads + Wait + Sync>(rt: &R, alloc: Global) -> Result<bool, AllocError> {
    let (mut pen, eye) = open_one(alloc, rt)?;
    let writer = &mut pen;
    let (shown, seen) = join(
        rt,
        || -> bool { show_many(alloc, writer, 200, rt) },
        || -> bool { read_many(alloc, eye, 200, 100_000_000) },
    );
    pen.end(rt);
    Ok(shown && seen)
}

#[test]
fn a_reader_beside_a_writer_sees_whole_lists(rt: HostRuntime) -> Result<(), Fail> {
    assert!(rt; beside(&rt, rt.alloc())?);
    Ok(())
}
