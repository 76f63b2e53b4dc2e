// Reads over an empty keeper, over one whose reads fail, and over rows made by hand.
use crate::hand_made::HandMade;
use crate::trials::{Trial, passes_over};
use mc_base::{Bytes, Counted, List, Text};
use mc_keep::{KeepError, Keeper};
use mc_keep_mem::FaultPlan;
use mc_query::{Pair, get, has, query};
use std::alloc::{AllocError, Global};
use std::sync::Wait;
use std::test::Fail;

// A plan by which the reads with these numbers fail.
fn plan_of(alloc: Global, failing: &[u64]) -> Result<FaultPlan, AllocError> {
    let mut plan = FaultPlan::nothing(alloc);
    for number in failing {
        plan.reads.push(*number)?;
    }
    Ok(plan)
}

// What is tried here on a keeper without keys.
#[derive(Clone, Copy)]
enum Queries {
    HaveNoKeys,
    FailThrice,
}

impl Trial for Queries {
    fn passes<K: Keeper + Drop, W: Wait>(
        self,
        alloc: Global,
        keeper: K,
        _wait: &W,
    ) -> Result<bool, Fail>
    where
        K::Desk: Drop,
    {
        let answer = match self {
            Queries::HaveNoKeys => has_no_keys(keeper, alloc),
            Queries::FailThrice => fails_thrice(keeper, alloc),
        };
        Ok(answer?)
    }
}

fn has_no_keys<K: Keeper + Drop>(keeper: K, alloc: Global) -> Result<bool, KeepError> {
    let mut keeper = keeper;
    Ok(
        get(&mut keeper, alloc, "/a")?.is_none()
            && !has(&mut keeper, "")?
            && query(&mut keeper, alloc, "/", 0, 100)?.len() == 0
            && query(&mut keeper, alloc, "", 0, 1)?.len() == 0
            && query(&mut keeper, alloc, "/a", 3, 5)?.len() == 0
            && query(&mut keeper, alloc, "/a", 0, 0)?.len() == 0,
    )
}

#[test]
fn an_empty_keeper_has_no_keys(rt: HostRuntime) -> Result<(), Fail> {
    let alloc = rt.alloc();
    assert!(rt; passes_over(Queries::HaveNoKeys, alloc, plan_of(alloc, &[])?, &rt)?);
    Ok(())
}

// Whether the calls fail where the keeper does: at its first three reads. No row is asked for where none is to be
// given.
fn fails_thrice<K: Keeper + Drop>(keeper: K, alloc: Global) -> Result<bool, KeepError> {
    let mut keeper = keeper;
    Ok(
        get(&mut keeper, alloc, "/a").is_err()
            && has(&mut keeper, "/a").is_err()
            && query(&mut keeper, alloc, "/", 7, 0)?.len() == 0
            && query(&mut keeper, alloc, "/", 0, 7).is_err()
            && query(&mut keeper, alloc, "/", 0, 7)?.len() == 0
            && keeper.faults() == 3,
    )
}

#[test]
fn a_failing_read_fails_the_call(rt: HostRuntime) -> Result<(), Fail> {
    let alloc = rt.alloc();
    let plan = plan_of(alloc, &[1, 2, 3])?;
    assert!(rt; passes_over(Queries::FailThrice, alloc, plan, &rt)?);
    Ok(())
}

// Keys with a value, of which so many reads are answered.
fn keys_of(alloc: Global, keys: &[(&str, u8)], left: u64) -> Result<HandMade, AllocError> {
    let mut rows = List::new(alloc);
    for (key, value) in keys {
        rows.push(Pair {
            key: Text::from_text(alloc, key)?,
            value: Bytes::from_slice(alloc, &[*value])?,
        })?;
    }
    Ok(HandMade::of_values(alloc, rows, left))
}

// Four keys in ascending order of their bytes.
fn four_keys(alloc: Global, left: u64) -> Result<HandMade, AllocError> {
    keys_of(
        alloc,
        &[("/a", 1), ("/a/b", 3), ("/a/c", 4), ("/ab", 2)],
        left,
    )
}

// A prefix, how many keys are passed over and how many taken at most, the keys and values that are given, and how many
// reads that takes.
#[derive(Drop)]
struct Case {
    prefix: &'static str,
    skip: u64,
    count: u64,
    want: &'static [(&'static str, u8)],
    reads: u64,
}

fn gives<K: Keeper + Drop>(keeper: K, alloc: Global, case: &Case) -> Result<bool, KeepError> {
    let mut keeper = keeper;
    let pairs = query(&mut keeper, alloc, case.prefix, case.skip, case.count)?;
    Ok(are_pairs(pairs.as_slice(), case.want))
}

fn are_pairs(pairs: &[Pair], want: &[(&str, u8)]) -> bool {
    for (pair, (key, value)) in pairs.iter().zip(want) {
        if pair.key.as_str() != *key || pair.value.as_slice() != [*value].as_slice() {
            return false;
        }
    }
    pairs.len() == want.len()
}

fn query_of(
    prefix: &'static str,
    skip: u64,
    count: u64,
    want: &'static [(&'static str, u8)],
    reads: u64,
) -> Case {
    Case {
        prefix,
        skip,
        count,
        want,
        reads,
    }
}

#[test]
fn queries_over_four_keys(rt: HostRuntime) -> Result<(), Fail> {
    let alloc = rt.alloc();
    let cases = [
        query_of("/a", 0, 10, &[("/a/b", 3), ("/a/c", 4)], 1),
        query_of("/", 1, 2, &[("/a/b", 3), ("/a/c", 4)], 2),
        query_of("/a/", 5, 5, &[], 1),
        query_of(
            "",
            0,
            9,
            &[("/a", 1), ("/a/b", 3), ("/a/c", 4), ("/ab", 2)],
            2,
        ),
        query_of("/a//", 1, 1, &[("/a/c", 4)], 2),
        query_of("/ab", 0, 9, &[], 1),
        query_of("/a/b", 0, 9, &[], 1),
        query_of("/", 2, 0, &[], 0),
        query_of("///", 1, 2, &[("/a/b", 3), ("/a/c", 4)], 2),
        query_of("a b", 0, 9, &[], 1),
    ];
    for case in &cases {
        assert!(rt;
            gives(four_keys(alloc, case.reads)?, alloc, case)?,
            "{}",
            case.prefix
        );
        if case.reads > 0 {
            let fewer = four_keys(alloc, case.reads.saturating_sub(1))?;
            assert!(rt; gives(fewer, alloc, case).is_err(), "{}", case.prefix);
        }
    }
    Ok(())
}

#[test]
fn queries_end_at_a_key_that_is_not_past_the_last(rt: HostRuntime) -> Result<(), Fail> {
    let alloc = rt.alloc();
    let rows: [(&[(&str, u8)], Case); 4] = [
        (
            &[("/b", 1), ("/a", 2)],
            query_of("/", 0, 9, &[("/b", 1)], 9),
        ),
        (
            &[("/b", 1), ("/b", 2)],
            query_of("/", 0, 9, &[("/b", 1)], 9),
        ),
        (&[("b", 1)], query_of("", 0, 9, &[("b", 1)], 9)),
        (
            &[("a b", 1), ("a b/c", 2)],
            query_of("a b", 0, 9, &[("a b/c", 2)], 9),
        ),
    ];
    for (keys, case) in &rows {
        let keeper = keys_of(alloc, keys, case.reads)?;
        assert!(rt; gives(keeper, alloc, case)?, "{}", case.prefix);
    }
    Ok(())
}

fn has_value<K: Keeper + Drop>(keeper: K, alloc: Global) -> Result<bool, KeepError> {
    let mut keeper = keeper;
    let value = match get(&mut keeper, alloc, "/ab")? {
        Some(value) => value.as_slice() == [2].as_slice(),
        None => false,
    };
    Ok(
        value
            && get(&mut keeper, alloc, "/a/")?.is_none()
            && has(&mut keeper, "/a/b")?
            && !has(&mut keeper, "/zz")?,
    )
}

#[test]
fn a_key_has_its_value(rt: HostRuntime) -> Result<(), Fail> {
    let alloc = rt.alloc();
    assert!(rt; has_value(four_keys(alloc, 2)?, alloc)?);
    Ok(())
}
