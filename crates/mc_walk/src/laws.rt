// What a walk does among a replica's events.
ghost use Rattle.std.specs.Prelude.{◌≡◌, ℕ, true, List, ◌∷◌, length, Some, None};
ghost use Rattle.std.specs.List.{range_with_len};
ghost use Rattle.mc_model.specs.Wanted.{want_all};
ghost use Rattle.mc_model.specs.State.{Durable, Walk, Running};
ghost use Rattle.mc_model.specs.Events.{Event, WalkBegin, WalkVisit, WalkEnd, MayRun, links_at, with_walk_ended, runs};
ghost use Rattle.mc_walk.specs.Walks.{begun, next_of, after_visit, is_ended};
ghost use Rattle.mc_walk.specs.Visits.{running, positions, blocks, IsWalking, IsWalked, IsSoFar};

/// The calls of a walk are the walk's part of a replica's events: where a walk begins, where it visits and what it has
/// then to visit, and where it ends.
pub fn walks_are_events()
    ensures begin { (durable : Durable) (run : Running) →
        runs durable run WalkBegin ≡ running durable (record run { walk = Some (begun (length durable.order)) }) }
    ensures may_visit { (durable : Durable) (run : Running) (walk : Walk) (position : ℕ) → run.walk ≡ Some walk →
        next_of walk ≡ Some position → MayRun durable run WalkVisit }
    ensures visit { (durable : Durable) (run : Running) (walk : Walk) (position : ℕ) → run.walk ≡ Some walk →
        next_of walk ≡ Some position → runs durable run WalkVisit ≡ running durable (record run {
          queue = want_all durable.order run.queue (links_at durable position);
          walk = Some (after_visit walk);
        }) }
    ensures may_end { (durable : Durable) (run : Running) (walk : Walk) → run.walk ≡ Some walk →
        is_ended walk ≡ true → MayRun durable run WalkEnd }
    ensures end { (durable : Durable) (run : Running) →
        runs durable run WalkEnd ≡ running (with_walk_ended durable) (record run { walk = None; whole = true }) }
{}

/// Between a walk's beginning and its end the positions of the blocks that were processed at its beginning are visited
/// in order, each once, and no other, whatever is stored, processed or heard of meanwhile; and the blocks at these
/// positions are those same blocks. Before its end the first of them are.
pub fn walks_visit_each_once()
    ensures positions { (durable : Durable) (run : Running) (events : List Event) → IsWalked durable run events →
        positions (running durable run) (WalkBegin ∷ events) ≡ range_with_len 0 (length durable.order) }
    ensures blocks { (durable : Durable) (run : Running) (events : List Event) → IsWalked durable run events →
        blocks (running durable run) (WalkBegin ∷ events) ≡ durable.order }
    ensures so_far { (durable : Durable) (run : Running) (events : List Event) → IsWalking durable run events →
        IsSoFar durable run events }
{}
