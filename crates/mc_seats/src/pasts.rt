// What is kept of the past of each replica of a world.
ghost use Rattle.std.specs.Prelude.{◌≡◌, ◌≤◌, ◌+◌, [], IfOk, length, vec_len, vec_capacity};
ghost use Rattle.mc_seats.specs.Pasts.{AreNew, PastsFit};
ghost use Rattle.mc_seats.specs.Words.{state};
ghost use Rattle.mc_seats.specs.Worlds.{WorldState};

use crate::World;
use mc_keep::Keeper;
use mc_past::Past;
use std::alloc::{AllocError, Global};

/// Nothing is kept of the past of the replicas of a world.
pub fn new_pasts<K: Keeper>(world: &World<K>, alloc: Global) -> Result<Vec<Past>, AllocError>
    ensures { IfOk result (λ pasts. PastsFit (state K.Keeper K.Desk.faults world.now) pasts.items) }
{
    let count = world.seats.len();
    let mut pasts = Vec::with_capacity(alloc, count)?;
    add_new(&mut pasts, alloc, count);
    Ok(pasts)
}

// Adds so many of which nothing is kept.
fn add_new(pasts: &mut Vec<Past>, alloc: Global, count: usize)
    requires none { pasts.old.items ≡ [] }
    requires room { count ≤ vec_capacity pasts.old }
    ensures new { AreNew pasts.new.items }
    ensures many { length pasts.new.items ≡ count }
{
    for _added in 0..count {
        pasts.push_reserved(Past::new(alloc));
    }
}

/// Forgets what is kept of the past of a replica. Takes no memory.
pub fn forget(pasts: &mut [Past], alloc: Global, r: u64)
    ensures { (w : WorldState) → PastsFit w pasts.old → PastsFit w pasts.new }
{
    let at = r as usize;
    if at < pasts.len() {
        pasts[at].clear(alloc);
    }
}
