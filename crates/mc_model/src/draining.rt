// The laws of a drain of the wanted set, as facts about two states.
ghost use Rattle.std.specs.Prelude.{◌≡◌, ℕ, Bool, true, false, List, [], Option, Some, None, is_some};
ghost use Rattle.mc_base.specs.declared.cid.Cid.{Cid};
ghost use Rattle.mc_model.specs.Drain.{DrainRuns, PartsFit, IsDrained, IsClosure, IsSoFar};
ghost use Rattle.mc_model.specs.Draining.{FoundBytes, offers_of, queue_in, bytes_in, IsDraining, IsClosing, HasDrained};
ghost use Rattle.mc_model.specs.Draining.{TakesAll, AllSayRight, IsFoundFor, delivery, all_given_back};
ghost use Rattle.mc_model.specs.Events.{Event, MayRun, MayComeAll, runs, after};
ghost use Rattle.mc_model.specs.Found.{Offers, is_found};
ghost use Rattle.mc_model.specs.Graph.{times, has};
ghost use Rattle.mc_model.specs.State.{Durable, Running, State, IsSound, wanted_in};
ghost use Rattle.mc_model.specs.Wanted.{Queue, wanted, IsOnce, others, recall};

/// A drain has begun where nothing has changed, each event of a drain goes on with it, and so does another drain after
/// it; it sees only how often a block is wanted, and of the start only which blocks it has. Where nothing that is
/// wanted has a good offer, it has come to the closure.
pub fn drains_go_on()
    ensures begins { (found : Offers) (durable : Durable) (q : Queue) → IsDraining found durable (wanted q) durable q }
    ensures step { (found : Offers) (old : Durable) (start : List Cid) (now : Durable) (run : Running) (event : Event) →
        MayRun now run event → DrainRuns found now run event → IsOnce now.order run.queue →
        IsDraining found old start now run.queue →
        IsDraining found old start (runs now run event).durable (queue_in (runs now run event).run) }
    ensures joins { (found : Offers) (old : Durable) (start : List Cid) (mid : Durable) (p : Queue) (now : Durable)
        (q : Queue) → IsOnce mid.order p → IsDraining found old start mid p → IsDraining found mid (wanted p) now q →
        IsDraining found old start now q }
    ensures moved { (found : Offers) (old : Durable) (start : List Cid) (now : Durable) (p q : Queue) →
        ((c : Cid) → times c (wanted q) ≡ times c (wanted p)) →
        IsDraining found old start now p → IsDraining found old start now q }
    ensures alike { (found : Offers) (old : Durable) (start other : List Cid) (now : Durable) (q : Queue) →
        ((c : Cid) → has c start ≡ has c other) →
        IsDraining found old start now q → IsDraining found old other now q }
    ensures ends { (found : Offers) (old : Durable) (start : List Cid) (now : Durable) (q : Queue) →
        IsOnce now.order q → IsDraining found old start now q →
        ((c : Cid) → has c (wanted q) ≡ true → is_found (found c) ≡ false) → IsClosing found old start now q }
{}

/// The same where it is known which bytes are found, over whole lists of events, of which a drain asks no more than
/// that what it stores is wanted and found, and what it processes is wanted. Where nothing that is wanted has a good
/// offer, it has come to the closure, with what is stored; and before it is within it.
pub fn found_drains_go_on()
    ensures begins { (bytes_of : FoundBytes) (kept : List Cid) (state : State) →
        ((c : Cid) (bytes : List ℕ) → bytes_in state.durable.graph c ≡ Some bytes → bytes_of c ≡ Some bytes) →
        ((c : Cid) → has c kept ≡ true → is_some (bytes_in state.durable.graph c) ≡ true) →
        HasDrained bytes_of kept state.durable (wanted (queue_in state.run)) state }
    ensures goes { (bytes_of : FoundBytes) (kept : List Cid) (old : Durable) (start : List Cid) (state : State)
        (events : List Event) → IsSound state → MayComeAll state events → TakesAll bytes_of state events →
        HasDrained bytes_of kept old start state → HasDrained bytes_of kept old start (after state events) }
    ensures joins { (bytes_of : FoundBytes) (kept : List Cid) (old : Durable) (start : List Cid) (mid now : State) →
        IsSound mid → HasDrained bytes_of kept old start mid →
        HasDrained bytes_of kept mid.durable (wanted (queue_in mid.run)) now → HasDrained bytes_of kept old start now }
    ensures alike { (bytes_of : FoundBytes) (kept : List Cid) (old : Durable) (start other : List Cid) (state : State) →
        ((c : Cid) → has c start ≡ has c other) →
        HasDrained bytes_of kept old start state → HasDrained bytes_of kept old other state }
    ensures closed { (bytes_of : FoundBytes) (kept : List Cid) (old : Durable) (start : List Cid) (state : State) →
        IsSound state → IsDrained (offers_of bytes_of) state → HasDrained bytes_of kept old start state →
        IsClosure (offers_of bytes_of) old start state.durable (wanted_in state.run) }
    ensures so_far { (bytes_of : FoundBytes) (kept : List Cid) (old : Durable) (start : List Cid) (state : State) →
        IsSound state → HasDrained bytes_of kept old start state →
        IsSoFar (offers_of bytes_of) old start state.durable (wanted_in state.run) }
{}

/// Over every list of events of which each says what is right of an offer, missing and bad go on holding what their
/// names say; and then, where nothing waits and nothing is in flight, nothing that is wanted has a good offer.
pub fn parts_stay_right()
    ensures stay { (found : Offers) (state : State) (events : List Event) → AllSayRight found events →
        PartsFit found (queue_in state.run) → PartsFit found (queue_in (after state events).run) }
    ensures drained { (found : Offers) (q : Queue) → PartsFit found q → q.waiting ≡ [] → q.flight ≡ [] →
        (c : Cid) → has c (wanted q) ≡ true → is_found (found c) ≡ false }
{}

/// A delivery for a block in flight may come, asks no more than a drain where what is handed over is found for it, and
/// says what is right where this is all that is found. It takes the block alone out of flight.
pub fn deliveries_are_drains()
    ensures may { (durable : Durable) (run : Running) (c : Cid) (found : Option (List ℕ)) →
        IsSound (record { durable = durable; run = Some run }) → has c run.queue.flight ≡ true →
        MayComeAll (record { durable = durable; run = Some run }) (delivery durable.graph c found) }
    ensures takes { (bytes_of : FoundBytes) (durable : Durable) (run : Running) (c : Cid) (found : Option (List ℕ)) →
        has c run.queue.flight ≡ true → IsFoundFor bytes_of c found →
        TakesAll bytes_of (record { durable = durable; run = Some run }) (delivery durable.graph c found) }
    ensures says { (bytes_of : FoundBytes) (durable : Durable) (c : Cid) (found : Option (List ℕ)) →
        bytes_of c ≡ found → AllSayRight (offers_of bytes_of) (delivery durable.graph c found) }
    ensures flight { (durable : Durable) (run : Running) (c : Cid) (found : Option (List ℕ)) →
        let left = after (record { durable = durable; run = Some run }) (delivery durable.graph c found) in
        (queue_in left.run).flight ≡ others run.queue.flight c }
{}

/// A recall is that each block in flight is given back, in their order: these events may come, and leave the wanted set
/// so; a drain asks nothing of them.
pub fn recall_gives_back()
    ensures may { (durable : Durable) (run : Running) → IsOnce durable.order run.queue →
        MayComeAll (record { durable = durable; run = Some run }) (all_given_back run.queue.flight) }
    ensures is { (durable : Durable) (run : Running) → IsOnce durable.order run.queue →
        after (record { durable = durable; run = Some run }) (all_given_back run.queue.flight)
        ≡ record { durable = durable; run = Some (record run { queue = recall run.queue }) } }
    ensures takes { (bytes_of : FoundBytes) (durable : Durable) (run : Running) (cids : List Cid) →
        TakesAll bytes_of (record { durable = durable; run = Some run }) (all_given_back cids) }
    ensures says { (found : Offers) (cids : List Cid) → AllSayRight found (all_given_back cids) }
{}
