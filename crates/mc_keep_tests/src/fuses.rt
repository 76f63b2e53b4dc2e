// Commits that a fuse lets fail, over keepers that fail by themselves too.
ghost use Rattle.std.specs.Prelude.{◌≡◌, ◌∷◌, [], IfOk};

use crate::blocks::{element, no_delta, process, store_bytes};
use crate::shown::{has_front, has_head, has_value};
use crate::trials::{Trial, passes, passes_over};
use mc_base::{Bytes, Cid, Counted, Text};
use mc_block::write_block;
use mc_keep::{Fused, KeepError, Keeper};
use mc_keep_mem::FaultPlan;
use mc_model::Element;
use std::alloc::{AllocError, Global};
use std::sync::Wait;
use std::test::Fail;

// What the keeper inside has planned for the commit of the fuse.
#[derive(Clone, Copy, Debug, PartialEq, Eq)]
enum Planned {
    Nothing,
    Before,
    After,
}

// A fuse beside a plan: whether the commit happens at which the fuse fires, whether the keeper inside fails there too,
// and whether it fails at the next one.
#[derive(Clone, Copy, Debug)]
struct Case {
    after: bool,
    planned: Planned,
    happens: bool,
    fails_inside: bool,
    fails_next: bool,
}

// A fuse before the effect asks nothing of the keeper inside, whose plan then meets the next commit.
const CASES: [Case; 6] = [
    Case {
        after: false,
        planned: Planned::Nothing,
        happens: false,
        fails_inside: false,
        fails_next: false,
    },
    Case {
        after: false,
        planned: Planned::Before,
        happens: false,
        fails_inside: false,
        fails_next: true,
    },
    Case {
        after: false,
        planned: Planned::After,
        happens: false,
        fails_inside: false,
        fails_next: true,
    },
    Case {
        after: true,
        planned: Planned::Nothing,
        happens: true,
        fails_inside: false,
        fails_next: false,
    },
    Case {
        after: true,
        planned: Planned::Before,
        happens: false,
        fails_inside: true,
        fails_next: false,
    },
    Case {
        after: true,
        planned: Planned::After,
        happens: true,
        fails_inside: true,
        fails_next: false,
    },
];

// A plan by which the keeper inside does so at this commit.
fn plan_of(alloc: Global, commit: u64, planned: Planned) -> Result<FaultPlan, AllocError> {
    let mut plan = FaultPlan::nothing(alloc);
    match planned {
        Planned::Nothing => {}
        Planned::Before => plan.commits_before.push(commit)?,
        Planned::After => plan.commits_after.push(commit)?,
    }
    Ok(plan)
}

// The bytes of a block of priority 2 that sets the key of the first one to 2 and links to it.
fn second(alloc: Global, first: Cid) -> Result<Bytes, AllocError> {
    let mut delta = no_delta(alloc, 2);
    delta.elements.push(Element {
        key: Text::from_text(alloc, "/k")?,
        value: Bytes::from_slice(alloc, &[2])?,
    })?;
    Ok(write_block(alloc, &[first], &delta)?.bytes)
}

// Stores the first block, processes it, and then the second one, each in a commit of its own, from the first of these
// four on that has not happened.
fn go_on<K: Keeper>(keeper: &mut K, alloc: Global) -> Result<(), KeepError> {
    let first = take_once(keeper, alloc, element(alloc, 1)?)?;
    take_once(keeper, alloc, second(alloc, first)?)?;
    Ok(())
}

fn take_once<K: Keeper>(keeper: &mut K, alloc: Global, bytes: Bytes) -> Result<Cid, KeepError> {
    let cid = store_bytes(keeper, alloc, bytes)?;
    if keeper.position(&cid)?.is_none() {
        process(keeper, alloc, &[cid], true)?;
    }
    Ok(cid)
}

// Whether the keeper failed on the way.
fn stops<K: Keeper>(keeper: &mut K, alloc: Global) -> bool {
    go_on(keeper, alloc) == Err(KeepError::Failed)
}

// Whether the numbers, the heads and the value are those after so many of the four commits.
fn stands_at<K: Keeper>(keeper: &mut K, alloc: Global, commits: u64) -> Result<bool, KeepError> {
    let summary = keeper.summary()?;
    let numbers = match commits {
        0 => (0, 0),
        1 => (1, 0),
        2 => (1, 1),
        3 => (2, 1),
        _ => (2, 2),
    };
    Ok(
        (summary.stored, summary.processed) == numbers
            && has_front(keeper, 0, false)?
            && has_last(keeper, alloc, numbers.1)?,
    )
}

// Whether the head and the value are those of the last of so many processed blocks.
fn has_last<K: Keeper>(keeper: &mut K, alloc: Global, processed: u64) -> Result<bool, KeepError> {
    let first = Cid::of(element(alloc, 1)?.as_slice());
    match processed {
        0 => Ok(keeper.heads(alloc)?.len() == 0 && !keeper.has("/k")?),
        1 => Ok(has_head(keeper, alloc, first, 1)? && has_value(keeper, alloc, 1, 1)?),
        _ => {
            let second = Cid::of(second(alloc, first)?.as_slice());
            Ok(has_head(keeper, alloc, second, 2)? && has_value(keeper, alloc, 2, 2)?)
        }
    }
}

// Whether the keeper inside has failed so often, and the fuse has made one commit fail besides.
fn counts<K: Keeper>(keeper: &Fused<K>, own: u64) -> bool {
    keeper.own_faults() == own
        && keeper.inside().faults() == own
        && keeper.faults() == own.saturating_add(1)
}

// One commit fails by the fuse, and where that left the plan of the keeper inside, one by the plan. Then all are made.
fn goes_on<K: Keeper>(
    keeper: &mut Fused<K>,
    alloc: Global,
    commit: u64,
    case: Case,
) -> Result<bool, KeepError> {
    if commit == 0 {
        return Ok(false);
    }
    keeper.arm(commit, case.after);
    let happened = if case.happens { commit } else { commit - 1 };
    if !stops(keeper, alloc)
        || !stands_at(keeper, alloc, happened)?
        || !counts(keeper, u64::from(case.fails_inside))
    {
        return Ok(false);
    }
    if case.fails_next && !stops(keeper, alloc) {
        return Ok(false);
    }
    go_on(keeper, alloc)?;
    Ok(counts(keeper, own_faults(case)) && stands_at(keeper, alloc, 4)?)
}

// How often the keeper inside fails.
fn own_faults(case: Case) -> u64 {
    u64::from(case.fails_inside || case.fails_next)
}

// The same from the keeper on that is inside.
fn fails_once<K: Keeper + Drop>(
    keeper: K,
    alloc: Global,
    commit: u64,
    case: Case,
) -> Result<bool, KeepError> {
    let mut keeper = Fused::wrap(keeper);
    let goes_on = goes_on(&mut keeper, alloc, commit, case);
    let ends = ends(keeper, alloc, own_faults(case));
    Ok(goes_on? && ends?)
}

// Whether the keeper that was inside has it all.
fn ends<K: Keeper + Drop>(keeper: Fused<K>, alloc: Global, own: u64) -> Result<bool, KeepError> {
    let mut keeper = keeper.end();
    Ok(keeper.faults() == own && stands_at(&mut keeper, alloc, 4)?)
}

// A fuse for the first commit, replaced at once by one for the third, which after one commit is replaced by one for the
// second from there on.
fn is_replaced<K: Keeper>(keeper: &mut Fused<K>, alloc: Global) -> Result<bool, KeepError> {
    keeper.arm(1, false);
    keeper.arm(3, false);
    store_bytes(keeper, alloc, element(alloc, 1)?)?;
    keeper.arm(2, true);
    Ok(
        stops(keeper, alloc)
            && counts(keeper, 0)
            && stands_at(keeper, alloc, 3)?
            && go_on(keeper, alloc).is_ok()
            && counts(keeper, 0),
    )
}

// The same from the keeper on that is inside.
fn takes_its_place<K: Keeper + Drop>(keeper: K, alloc: Global) -> Result<bool, KeepError> {
    let mut keeper = Fused::wrap(keeper);
    let is_replaced = is_replaced(&mut keeper, alloc);
    let ends = ends(keeper, alloc, 0);
    Ok(is_replaced? && ends?)
}

// A fuse round a keeper whose own fuse fires at the second commit, which the outer one counts too.
fn fires_after<K: Keeper>(keeper: &mut Fused<K>, alloc: Global) -> Result<bool, KeepError> {
    keeper.arm(4, true);
    let first = stops(keeper, alloc)
        && stands_at(keeper, alloc, 1)?
        && keeper.own_faults() == 1
        && keeper.faults() == 1
        && keeper.inside().own_faults() == 0;
    let next = stops(keeper, alloc) && stands_at(keeper, alloc, 3)?;
    go_on(keeper, alloc)?;
    Ok(first && next && counts(keeper, 1))
}

// The same from that keeper on, whichever it is: each call over a keeper of two given forms costs its check what both
// promise.
fn fires_round<K: Keeper + Drop>(inner: K, alloc: Global) -> Result<bool, KeepError> {
    let mut keeper = Fused::wrap(inner);
    let fires = fires_after(&mut keeper, alloc);
    let ends = ends(keeper, alloc, 1);
    Ok(fires? && ends?)
}

// A fuse round a keeper with a fuse.
fn fires_inside<K: Keeper + Drop>(keeper: K, alloc: Global) -> Result<bool, KeepError> {
    let mut inner = Fused::wrap(keeper);
    inner.arm(2, false);
    fires_round(inner, alloc)
}

// What is tried here.
#[derive(Clone, Copy)]
enum Fuses {
    FailOnce { commit: u64, case: Case },
    TakeItsPlace,
    FireInside,
}

impl Trial for Fuses {
    fn passes<K: Keeper + Drop, W: Wait>(
        self,
        alloc: Global,
        keeper: K,
        _wait: &W,
    ) -> Result<bool, Fail>
    where
        K::Desk: Drop,
    {
        let answer = match self {
            Fuses::FailOnce { commit, case } => fails_once(keeper, alloc, commit, case),
            Fuses::TakeItsPlace => takes_its_place(keeper, alloc),
            Fuses::FireInside => fires_inside(keeper, alloc),
        };
        Ok(answer?)
    }
}

#[test]
fn a_fuse_fails_one_commit(rt: HostRuntime) -> Result<(), Fail> {
    let alloc = rt.alloc();
    for case in CASES {
        for commit in 1..=4 {
            let plan = plan_of(alloc, commit, case.planned)?;
            assert!(rt;
                passes_over(Fuses::FailOnce { commit, case }, alloc, plan, &rt)?,
                "{commit} {case:?}"
            );
        }
    }
    Ok(())
}

#[test]
fn a_new_fuse_takes_the_place_of_the_old_one(rt: HostRuntime) -> Result<(), Fail> {
    assert!(rt; passes(Fuses::TakeItsPlace, rt.alloc(), &rt)?);
    Ok(())
}

#[test]
fn a_fuse_round_a_fuse(rt: HostRuntime) -> Result<(), Fail> {
    assert!(rt; passes(Fuses::FireInside, rt.alloc(), &rt)?);
    Ok(())
}
