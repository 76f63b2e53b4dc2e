// Calls of the four lists with what they leave, and many calls beside a plain list of rows.
ghost use Rattle.std.specs.Prelude.{◌<◌};

use mc_list::Lists;
use std::alloc::Global;
use std::rc::Rc;
use std::test::Fail;

// An item, and the number of the list that it is in. The rows stand in the order in which they came to their lists.
#[derive(Clone, Copy, Debug, PartialEq, Eq)]
struct Row {
    list: u64,
    item: u64,
}

#[test]
fn calls_leave_four_lists(rt: HostRuntime) -> Result<(), Fail> {
    let mut lists = Lists::new(rt.alloc());
    lists.reserve(3)?;
    let first = lists.add(0, 1);
    let second = lists.add(0, 2);
    let third = lists.add(0, 3);
    assert!(rt; lists.first(0) == Some(first) && lists.len(0) == 3 && lists.spare() == 0);
    lists.shift(second, 1);
    assert!(rt;
        lists.first(1) == Some(second) && *lists.item(second) == 2 && lists.list(second) == 1
    );
    assert!(rt; lists.take(third) == 3 && lists.len(0) == 1 && lists.spare() == 1);
    let fourth = lists.add(3, 4);
    assert!(rt; lists.first(3) == Some(fourth) && lists.first(2) == None);
    Ok(())
}

fn add(lists: &mut Lists<u64>, rows: &mut Vec<Row>, row: Row) -> Result<(), Fail>
    requires { row.list < 4 }
{
    lists.reserve(1)?;
    let _place = lists.add(row.list, row.item);
    rows.push(row)?;
    Ok(())
}

// The first row of a list leaves.
fn leave(rows: &mut Vec<Row>, list: u64) -> Option<Row> {
    let at = rows.iter().position(|row| row.list == list)?;
    Some(rows.remove(at))
}

// Moves the first entry of a list, and tells whether the rows have the same.
fn shift(lists: &mut Lists<u64>, rows: &mut Vec<Row>, from: u64, to: u64) -> Result<bool, Fail>
    requires from { from < 4 }
    requires to { to < 4 }
{
    let Some(place) = lists.first(from) else {
        return Ok(leave(rows, from).is_none());
    };
    let item = *lists.item(place);
    lists.shift(place, to);
    let left = leave(rows, from);
    rows.push(Row { list: to, item })?;
    Ok(left == Some(Row { list: from, item }))
}

// Takes the first entry of a list, and tells whether the rows have the same.
fn take(lists: &mut Lists<u64>, rows: &mut Vec<Row>, list: u64) -> bool
    requires { list < 4 }
{
    let Some(place) = lists.first(list) else {
        return leave(rows, list).is_none();
    };
    let item = lists.take(place);
    leave(rows, list) == Some(Row { list, item })
}

fn make(lists: &mut Lists<u64>, rows: &mut Vec<Row>, number: u64) -> Result<bool, Fail> {
    let list = (number >> 33) % 4;
    match (number >> 56) % 8 {
        0..=2 => {
            add(lists, rows, Row { list, item: number })?;
            Ok(true)
        }
        3..=5 => shift(lists, rows, list, (number >> 43) % 4),
        _ => Ok(take(lists, rows, list)),
    }
}

// A number after one, in an order that looks random.
fn next_number(number: u64) -> u64 {
    number
        .wrapping_mul(6_364_136_223_846_793_005)
        .wrapping_add(1_442_695_040_888_963_407)
}

// Whether so many calls find in each list what the rows have.
fn agree(alloc: Global, calls: u64) -> Result<bool, Fail> {
    let mut lists = Lists::new(alloc);
    let mut rows = Vec::new(alloc);
    let mut number: u64 = 1;
    for _ in 0..calls {
        number = next_number(number);
        if !make(&mut lists, &mut rows, number)? {
            return Ok(false);
        }
    }
    for list in 0..4 {
        for _ in 0..lists.len(list) {
            if !take(&mut lists, &mut rows, list) {
                return Ok(false);
            }
        }
    }
    Ok(rows.is_empty())
}

#[test]
fn many_calls_agree(rt: HostRuntime) -> Result<(), Fail> {
    assert!(rt; agree(rt.alloc(), 10_000)?);
    Ok(())
}

// How many shares of a value there are beside entries in each list that share it, and spare nodes. All of these are
// dropped at the end.
fn shares_in_lists(alloc: Global, shared: &Rc<u64>) -> Result<usize, Fail> {
    let mut lists = Lists::new(alloc);
    for number in 0..8 {
        lists.reserve(3)?;
        let _place = lists.add(number % 4, shared.clone()?);
    }
    Ok(Rc::strong_count(shared))
}

#[test]
fn a_drop_leaves_no_item(rt: HostRuntime) -> Result<(), Fail> {
    let shared: Rc<u64> = Rc::new(rt.alloc(), 7)?;
    assert!(rt; shares_in_lists(rt.alloc(), &shared)? == 9);
    assert!(rt; Rc::strong_count(&shared) == 1);
    Ok(())
}
