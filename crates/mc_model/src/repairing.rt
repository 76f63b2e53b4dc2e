// The laws of a repair, as facts about two states.
ghost use Rattle.std.specs.Prelude.{◌≡◌, ℕ, Bool, true, false, List, Option, Some, None, is_some};
ghost use Rattle.mc_base.specs.declared.cid.Cid.{Cid};
ghost use Rattle.mc_model.specs.Drain.{IsDrained, IsClosure};
ghost use Rattle.mc_model.specs.Draining.{FoundBytes, queue_in, bytes_in, IsDraining, IsClosing, HasDrained};
ghost use Rattle.mc_model.specs.Events.{Event, MayRun, MayCome, MayComeAll, runs, happens, after};
ghost use Rattle.mc_model.specs.Found.{Offers, is_found};
ghost use Rattle.mc_model.specs.Graph.{has};
ghost use Rattle.mc_model.specs.Repairing.{with_gaps, IsRepairing, HasRepaired, is_of_walk, RepairRuns, RepairsAll};
ghost use Rattle.mc_model.specs.State.{Durable, Running, State, IsSound, IsWhole, wanted_in};
ghost use Rattle.mc_model.specs.Wanted.{Queue, wanted};

/// A repair has begun where nothing has changed, and each event of a drain or of a walk goes on with it. After the
/// walk's end, where whole is true, it is a drain of what was wanted at the start and of the gaps; and so, where
/// nothing that is wanted has a good offer, it has come to their closure.
pub fn repairs_go_on()
    ensures begins { (found : Offers) (durable : Durable) (q : Queue) → IsRepairing found durable (wanted q) durable q }
    ensures step { (found : Offers) (old : Durable) (start : List Cid) (now : Durable) (run : Running) (event : Event) →
        IsSound (record { durable = now; run = Some run }) → MayRun now run event → RepairRuns found now run event →
        IsRepairing found old start now run.queue →
        IsRepairing found old start (runs now run event).durable (queue_in (runs now run event).run) }
    ensures whole { (found : Offers) (old : Durable) (start : List Cid) (now : Durable) (run : Running) →
        IsSound (record { durable = now; run = Some run }) → run.whole ≡ true →
        IsRepairing found old start now run.queue → IsDraining found old (with_gaps old start) now run.queue }
    ensures ends { (found : Offers) (old : Durable) (start : List Cid) (now : Durable) (run : Running) →
        IsSound (record { durable = now; run = Some run }) → run.whole ≡ true →
        IsRepairing found old start now run.queue →
        ((c : Cid) → has c (wanted run.queue) ≡ true → is_found (found c) ≡ false) →
        IsClosing found old (with_gaps old start) now run.queue }
{}

/// The same where it is known which bytes are found: a drain after a repair goes on with it, so what a call promises of
/// drains serves for repairs, and so does each step of a walk.
pub fn found_repairs_go_on()
    ensures begins { (bytes_of : FoundBytes) (kept : List Cid) (state : State) →
        ((c : Cid) (bytes : List ℕ) → bytes_in state.durable.graph c ≡ Some bytes → bytes_of c ≡ Some bytes) →
        ((c : Cid) → has c kept ≡ true → is_some (bytes_in state.durable.graph c) ≡ true) →
        HasRepaired bytes_of kept state.durable (wanted (queue_in state.run)) state }
    ensures joins { (bytes_of : FoundBytes) (kept : List Cid) (old : Durable) (start : List Cid) (mid now : State) →
        IsSound mid → IsSound now → HasRepaired bytes_of kept old start mid →
        HasDrained bytes_of kept mid.durable (wanted (queue_in mid.run)) now → HasRepaired bytes_of kept old start now }
    ensures alike { (bytes_of : FoundBytes) (kept : List Cid) (old : Durable) (start other : List Cid) (state : State) →
        ((c : Cid) → has c start ≡ has c other) →
        HasRepaired bytes_of kept old start state → HasRepaired bytes_of kept old other state }
    ensures walks { (bytes_of : FoundBytes) (kept : List Cid) (old : Durable) (start : List Cid) (state : State)
        (event : Event) → IsSound state → MayCome state.durable state.run event → is_of_walk event ≡ true →
        HasRepaired bytes_of kept old start state → HasRepaired bytes_of kept old start (happens state event) }
    ensures whole { (bytes_of : FoundBytes) (kept : List Cid) (old : Durable) (start : List Cid) (state : State) →
        IsSound state → IsWhole state.run → HasRepaired bytes_of kept old start state →
        HasDrained bytes_of kept old (with_gaps old start) state }
{}

/// A drain of the wanted set beside a walk, in any order, by any number of workers, in any groups, ends with exactly
/// the closure of what was wanted and of the gaps, where the walk has ended and nothing that is wanted has a good
/// offer.
pub fn repair_is_closed()
    ensures { (found : Offers) (durable : Durable) (run : Running) (events : List Event) →
        IsSound (record { durable = durable; run = Some run }) →
        MayComeAll (record { durable = durable; run = Some run }) events →
        RepairsAll found (record { durable = durable; run = Some run }) events →
        IsWhole (after (record { durable = durable; run = Some run }) events).run →
        IsDrained found (after (record { durable = durable; run = Some run }) events) →
        IsClosure found durable (with_gaps durable (wanted run.queue))
        (after (record { durable = durable; run = Some run }) events).durable
        (wanted_in (after (record { durable = durable; run = Some run }) events).run) }
{}
