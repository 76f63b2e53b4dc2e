// A script in a world of three replicas over any keepers.
ghost use Rattle.std.specs.Prelude.{◌≡◌, IfOk, IfSome};
ghost use Rattle.mc_model.specs.State.{HasSoundMark};
ghost use Rattle.mc_seats.specs.Openings.{AreFresh, IsFresh};

use crate::shown::note;
use mc_base::{Bytes, Counted, List};
use mc_keep::{Fused, KeepError, Keeper};
use mc_script::{read_line, write_reply};
use mc_worker::Open;
use mc_world::{NoWorld, Part, World, act, new_pasts};
use std::alloc::Global;
use std::sync::Wait;
use std::test::Fail;
use std::thread::Threads;

/// What a script came to.
#[derive(Drop)]
pub(crate) struct Played {
    /// The replies.
    pub(crate) replies: Bytes,
    /// What the keepers held at the end.
    pub(crate) shown: String,
    /// How often they failed by themselves.
    pub(crate) faults: u64,
}

impl Played {
    /// Whether two scripts came to the same.
    pub(crate) fn agrees(&self, other: &Played) -> bool {
        self.replies.as_slice() == other.replies.as_slice()
            && self.shown.as_str() == other.shown.as_str()
            && self.faults == other.faults
    }
}

// A keeper without a fuse.
fn part_of<K: Keeper>(alloc: Global, keeper: K) -> Part<Fused<K>>
    requires { IfSome (K.told keeper) HasSoundMark }
    ensures { IsFresh ⟦<Fused<K> as Keeper>⟧.told ⟦<Fused<K> as Keeper>⟧.fuse result }
{
    Part {
        keeper: Fused::wrap(keeper),
        desks: List::new(alloc),
    }
}

// Three keepers, each without a fuse.
fn parts_of<K: Keeper + Drop>(
    alloc: Global,
    first: Result<K, KeepError>,
    second: Result<K, KeepError>,
    third: Result<K, KeepError>,
) -> Result<List<Part<Fused<K>>>, KeepError>
    requires first { IfOk first (λ keeper. IfSome (K.told keeper) HasSoundMark) }
    requires second { IfOk second (λ keeper. IfSome (K.told keeper) HasSoundMark) }
    requires third { IfOk third (λ keeper. IfSome (K.told keeper) HasSoundMark) }
    ensures { IfOk result (λ parts. AreFresh ⟦<Fused<K> as Keeper>⟧.told ⟦<Fused<K> as Keeper>⟧.fuse parts) }
{
    let (first, second, third) = (first?, second?, third?);
    let mut parts = Vec::with_capacity(alloc, 3)?;
    parts.push_reserved(part_of(alloc, first));
    parts.push_reserved(part_of(alloc, second));
    parts.push_reserved(part_of(alloc, third));
    Ok(List::from_vec(parts))
}

// The world of these keepers.
fn world_of<K: Keeper + Drop>(
    alloc: Global,
    parts: List<Part<Fused<K>>>,
) -> Result<World<Fused<K>>, Fail>
where
    K::Desk: Drop,
    requires { AreFresh ⟦<Fused<K> as Keeper>⟧.told ⟦<Fused<K> as Keeper>⟧.fuse parts }
{
    match World::new(alloc, parts) {
        Ok(world) => Ok(world),
        Err(refused) => {
            let NoWorld { cause: _, parts } = refused;
            shown_of(alloc, parts);
            Err(Fail::new("keepers that fail"))
        }
    }
}

// Executes a line, and adds its reply.
fn reply_to<K: Keeper + Send + Sync, W: Threads + Wait + Sync>(
    world: &mut World<Fused<K>>,
    alloc: Global,
    line: &str,
    replies: &mut Bytes,
    wait: &W,
) -> Result<(), Fail>
where
    K::Desk: Send,
{
    let Some(command) = read_line(alloc, line.as_bytes())? else {
        return Ok(());
    };
    let mut pasts = new_pasts(world, alloc)?;
    let reply = act(
        world,
        pasts.as_mut_slice(),
        alloc,
        &command,
        &Open,
        wait,
        wait,
    )?;
    write_reply(alloc, &reply, replies)?;
    Ok(())
}

// Executes the lines of a script.
fn reply_to_all<K: Keeper + Send + Sync, W: Threads + Wait + Sync>(
    world: &mut World<Fused<K>>,
    alloc: Global,
    script: &str,
    wait: &W,
) -> Result<Bytes, Fail>
where
    K::Desk: Send,
{
    let mut replies = Bytes::new(alloc);
    for line in script.split('\n') {
        reply_to(world, alloc, line, &mut replies, wait)?;
    }
    Ok(replies)
}

// What these keepers hold, the last one first, and how often they failed by themselves.
fn shown_of<K: Keeper + Drop>(alloc: Global, parts: List<Part<Fused<K>>>) -> (String, u64)
where
    K::Desk: Drop,
{
    let mut parts = parts.into_vec();
    let mut shown = String::new(alloc);
    let mut faults: u64 = 0;
    while parts.len() > 0 {
        let Part { keeper, desks: _ } = parts.take_last();
        let keeper = keeper.end();
        faults = faults.saturating_add(keeper.faults());
        note(keeper, alloc, &mut shown);
    }
    parts.destroy_empty();
    (shown, faults)
}

/// Executes the lines of a script over the replicas of these keepers, in order of their names.
pub(crate) fn play<K: Keeper + Drop + Send + Sync, W: Threads + Wait + Sync>(
    alloc: Global,
    first: Result<K, KeepError>,
    second: Result<K, KeepError>,
    third: Result<K, KeepError>,
    script: &str,
    wait: &W,
) -> Result<Played, Fail>
where
    K::Desk: Drop + Send,
    requires first { IfOk first (λ keeper. IfSome (K.told keeper) HasSoundMark) }
    requires second { IfOk second (λ keeper. IfSome (K.told keeper) HasSoundMark) }
    requires third { IfOk third (λ keeper. IfSome (K.told keeper) HasSoundMark) }
{
    let mut world = world_of(alloc, parts_of(alloc, first, second, third)?)?;
    let replies = reply_to_all(&mut world, alloc, script, wait);
    let (shown, faults) = shown_of(alloc, world.end());
    Ok(Played {
        replies: replies?,
        shown,
        faults,
    })
}
