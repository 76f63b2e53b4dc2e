// Tables of calls of the wanted set with its four lists after them, and many calls beside four plain lists.
ghost use Rattle.std.specs.Prelude.{◌≤◌};
ghost use Rattle.mc_queue.specs.Views.{spare};

use mc_base::Cid;
use mc_queue::Queue;
use std::alloc::Global;
use std::test::Fail;

#[derive(Clone, Copy)]
enum Call {
    Want(u8),
    Hear(u8),
    Next,
    Done(u8),
    Missing(u8),
    Bad(u8),
    Back(u8),
    Requeue,
    Recall,
}

fn cid(name: u8) -> Cid {
    Cid([name; 32])
}

fn name_of(cid: Option<Cid>) -> u8 {
    match cid {
        Some(cid) => cid.0[0],
        None => 0,
    }
}

fn want(queue: &mut Queue, name: u8, again: bool) -> Result<bool, Fail> {
    queue.reserve(1)?;
    Ok(queue.want(cid(name), again))
}

// Makes the call, and tells what it answers: 1 where a block came to waiting, or the name of the next one.
fn make(queue: &mut Queue, call: Call) -> Result<u8, Fail> {
    match call {
        Call::Want(name) => return Ok(want(queue, name, false)? as u8),
        Call::Hear(name) => return Ok(want(queue, name, true)? as u8),
        Call::Next => return Ok(name_of(queue.next())),
        Call::Done(name) => queue.done(&cid(name)),
        Call::Missing(name) => queue.missing(&cid(name)),
        Call::Bad(name) => queue.bad(&cid(name), 4),
        Call::Back(name) => queue.back(&cid(name)),
        Call::Requeue => queue.requeue(),
        Call::Recall => queue.recall(),
    }
    Ok(0)
}

// Takes so many blocks that wait, and adds their names and a bar.
fn take(queue: &mut Queue, count: u64, out: &mut Vec<u8>) -> Result<(), Fail> {
    for _ in 0..count {
        let name = name_of(queue.next());
        queue.done(&cid(name));
        out.push(name)?;
    }
    out.push(b'|')?;
    Ok(())
}

// The four lists, which are taken out of the queue.
fn text(alloc: Global, queue: Queue) -> Result<Vec<u8>, Fail> {
    let mut queue = queue;
    let mut out = Vec::new(alloc);
    let counts = queue.counts();
    take(&mut queue, counts.waiting, &mut out)?;
    queue.recall();
    take(&mut queue, counts.flight, &mut out)?;
    queue.requeue();
    take(&mut queue, counts.missing, &mut out)?;
    take(&mut queue, counts.bad, &mut out)?;
    Ok(out)
}

// Calls, and the four lists after each.
const CALLS: [(Call, &str); 29] = [
    (Call::Want(b'1'), "1||||"),
    (Call::Want(b'2'), "12||||"),
    (Call::Want(b'1'), "12||||"),
    (Call::Want(b'3'), "123||||"),
    (Call::Next, "23|1|||"),
    (Call::Next, "3|12|||"),
    (Call::Want(b'1'), "3|12|||"),
    (Call::Missing(b'1'), "3|2|1||"),
    (Call::Want(b'1'), "3|2|1||"),
    (Call::Hear(b'1'), "31|2|||"),
    (Call::Next, "1|23|||"),
    (Call::Bad(b'2'), "1|3||2|"),
    (Call::Hear(b'3'), "1|3||2|"),
    (Call::Missing(b'9'), "1|3||2|"),
    (Call::Missing(b'1'), "1|3||2|"),
    (Call::Next, "|31||2|"),
    (Call::Missing(b'3'), "|1|3|2|"),
    (Call::Hear(b'2'), "2|1|3||"),
    (Call::Next, "|12|3||"),
    (Call::Bad(b'1'), "|2|3|1|"),
    (Call::Requeue, "31|2|||"),
    (Call::Back(b'2'), "312||||"),
    (Call::Next, "12|3|||"),
    (Call::Next, "2|31|||"),
    (Call::Recall, "231||||"),
    (Call::Done(b'3'), "21||||"),
    (Call::Next, "1|2|||"),
    (Call::Done(b'2'), "1||||"),
    (Call::Done(b'2'), "1||||"),
];

// The four lists after the first calls, so many of them.
fn after(alloc: Global, count: usize) -> Result<Vec<u8>, Fail> {
    let mut queue = Queue::new(alloc);
    for (call, _) in CALLS.iter().take(count) {
        let _answer = make(&mut queue, *call)?;
    }
    text(alloc, queue)
}

#[test]
fn calls_leave_four_lists(rt: HostRuntime) -> Result<(), Fail> {
    for (at, (_, lists)) in CALLS.iter().enumerate() {
        let left = after(rt.alloc(), at.saturating_add(1))?;
        assert!(rt; left.as_slice() == lists.as_bytes(), "{at}");
    }
    Ok(())
}

#[test]
fn places_are_used_again(rt: HostRuntime) -> Result<(), Fail> {
    let alloc = rt.alloc();
    let mut queue = Queue::new(alloc);
    assert!(rt; want(&mut queue, b'1', false)?);
    assert!(rt; want(&mut queue, b'2', false)?);
    for turn in 0..100 {
        let _first = make(&mut queue, Call::Next)?;
        let back = if turn % 2 == 0 { b'1' } else { b'2' };
        let _none = make(&mut queue, Call::Back(back))?;
    }
    assert!(rt; text(alloc, queue)?.as_slice() == "12||||".as_bytes());
    Ok(())
}

// The four lists as plain ones.
#[derive(Drop)]
struct Lists {
    waiting: Vec<u8>,
    flight: Vec<u8>,
    missing: Vec<u8>,
    bad: Vec<u8>,
}

// True where the name was there.
fn leave(list: &mut Vec<u8>, name: u8) -> bool {
    let before = list.len();
    list.retain(|it| *it != name);
    list.len() < before
}

fn shift_plain(from: &mut Vec<u8>, to: &mut Vec<u8>, name: u8) -> Result<(), Fail> {
    if leave(from, name) {
        to.push(name)?;
    }
    Ok(())
}

fn drain_plain(from: &mut Vec<u8>, to: &mut Vec<u8>) -> Result<(), Fail> {
    to.extend_from_slice(from.as_slice())?;
    from.clear();
    Ok(())
}

fn want_plain(lists: &mut Lists, name: u8) -> Result<u8, Fail> {
    for list in [&lists.waiting, &lists.flight, &lists.missing, &lists.bad] {
        if list.contains(&name) {
            return Ok(0);
        }
    }
    lists.waiting.push(name)?;
    Ok(1)
}

fn hear_plain(lists: &mut Lists, name: u8) -> Result<u8, Fail> {
    let _missing = leave(&mut lists.missing, name);
    let _bad = leave(&mut lists.bad, name);
    want_plain(lists, name)
}

fn next_plain(lists: &mut Lists) -> Result<u8, Fail> {
    match lists.waiting.first().copied() {
        Some(name) => {
            shift_plain(&mut lists.waiting, &mut lists.flight, name)?;
            Ok(name)
        }
        None => Ok(0),
    }
}

fn done_plain(lists: &mut Lists, name: u8) {
    let _waiting = leave(&mut lists.waiting, name);
    let _flight = leave(&mut lists.flight, name);
    let _missing = leave(&mut lists.missing, name);
    let _bad = leave(&mut lists.bad, name);
}

fn make_plain(lists: &mut Lists, call: Call) -> Result<u8, Fail> {
    match call {
        Call::Want(name) => return want_plain(lists, name),
        Call::Hear(name) => return hear_plain(lists, name),
        Call::Next => return next_plain(lists),
        Call::Done(name) => done_plain(lists, name),
        Call::Missing(name) => shift_plain(&mut lists.flight, &mut lists.missing, name)?,
        Call::Bad(name) => shift_plain(&mut lists.flight, &mut lists.bad, name)?,
        Call::Back(name) => shift_plain(&mut lists.flight, &mut lists.waiting, name)?,
        Call::Requeue => {
            drain_plain(&mut lists.missing, &mut lists.waiting)?;
            drain_plain(&mut lists.bad, &mut lists.waiting)?;
        }
        Call::Recall => drain_plain(&mut lists.flight, &mut lists.waiting)?,
    }
    Ok(0)
}

fn text_plain(alloc: Global, lists: &Lists) -> Result<Vec<u8>, Fail> {
    let mut out = Vec::new(alloc);
    for list in [&lists.waiting, &lists.flight, &lists.missing, &lists.bad] {
        out.extend_from_slice(list.as_slice())?;
        out.push(b'|')?;
    }
    Ok(out)
}

// A number after one, in an order that looks random.
fn next_number(number: u64) -> u64 {
    number
        .wrapping_mul(6_364_136_223_846_793_005)
        .wrapping_add(1_442_695_040_888_963_407)
}

// A call on a block with one of twelve names.
fn call_of(number: u64) -> Call {
    let name = ((number >> 33) % 12) as u8 + 1;
    match (number >> 56) % 32 {
        0..=7 => Call::Want(name),
        8..=11 => Call::Hear(name),
        12..=18 => Call::Next,
        19..=21 => Call::Done(name),
        22..=24 => Call::Missing(name),
        25..=27 => Call::Bad(name),
        28..=29 => Call::Back(name),
        30 => Call::Requeue,
        _ => Call::Recall,
    }
}

// Whether the lists of a queue are as long as these, and it has the same blocks in flight.
fn are_alike(queue: &Queue, lists: &Lists) -> bool {
    let counts = queue.counts();
    for name in 1..=12 {
        if queue.in_flight(&cid(name)) != lists.flight.contains(&name) {
            return false;
        }
    }
    let lengths = (counts.waiting, counts.flight, counts.missing, counts.bad);
    lengths
        == (
            lists.waiting.len() as u64,
            lists.flight.len() as u64,
            lists.missing.len() as u64,
            lists.bad.len() as u64,
        )
}

// Whether so many calls give the same answers, and leave lists that are alike after each and the same at the end.
fn agree(alloc: Global, calls: u64) -> Result<bool, Fail> {
    let mut queue = Queue::new(alloc);
    let mut lists = Lists {
        waiting: Vec::new(alloc),
        flight: Vec::new(alloc),
        missing: Vec::new(alloc),
        bad: Vec::new(alloc),
    };
    let mut number: u64 = 1;
    for _ in 0..calls {
        number = next_number(number);
        let call = call_of(number);
        if make(&mut queue, call)? != make_plain(&mut lists, call)? || !are_alike(&queue, &lists) {
            return Ok(false);
        }
    }
    Ok(text(alloc, queue)?.as_slice() == text_plain(alloc, &lists)?.as_slice())
}

#[test]
fn many_calls_agree(rt: HostRuntime) -> Result<(), Fail> {
    for calls in 0..100 {
        assert!(rt; agree(rt.alloc(), calls)?, "{calls}");
    }
    assert!(rt; agree(rt.alloc(), 10_000)?);
    Ok(())
}

// The block of a number.
fn block(number: u64) -> Cid {
    let word = number.to_be_bytes();
    let mut bytes = [0u8; 32];
    for index in 0..8 {
        bytes[index] = word[index];
    }
    Cid(bytes)
}

// So many blocks are wanted, for which there is room.
fn want_so_many(queue: &mut Queue, count: u64)
    requires { count ≤ spare queue.old }
{
    for number in 0..count {
        let _came = queue.want(block(number), false);
    }
}

// Whether so many blocks are wanted and taken in their order, after one call that makes room for them.
fn takes_in_order(alloc: Global, count: u64) -> Result<bool, Fail> {
    let mut queue = Queue::new(alloc);
    queue.reserve(count)?;
    want_so_many(&mut queue, count);
    if queue.counts().waiting != count {
        return Ok(false);
    }
    for number in 0..count {
        let cid = block(number);
        if queue.next() != Some(cid) || !queue.in_flight(&cid) {
            return Ok(false);
        }
        queue.done(&cid);
    }
    Ok(queue.next() == None && queue.counts().flight == 0)
}

#[test]
fn there_is_room_for_all(rt: HostRuntime) -> Result<(), Fail> {
    for count in [0, 1, 2, 10, 1_000_000] {
        assert!(rt; takes_in_order(rt.alloc(), count)?, "{count}");
    }
    Ok(())
}
