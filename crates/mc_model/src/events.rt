// The laws of a replica's events.
ghost use Rattle.std.specs.Prelude.{◌≡◌, ℕ, Bool, true, false, List, [], ◌∷◌, Option, Some, None, if◌then◌else◌};
ghost use Rattle.mc_base.specs.declared.cid.Cid.{Cid};
ghost use Rattle.mc_model.specs.Graph.{Vertex, has, in_graph, links_in, no_gaps, heads_in, HasNoCycle, IsReached};
ghost use Rattle.mc_model.specs.Wanted.{IsOnce, wanted, start_first, recall};
ghost use Rattle.mc_model.specs.State.{Durable, Running, State, nothing_durable, IsSound, IsWhole, wanted_in};
ghost use Rattle.mc_model.specs.Events.{Event, MayCome, MayComeAll, StaysSound, happens, after, is_commit, failed};
ghost use Rattle.mc_model.specs.Events.{Goes, GoesOn};
ghost use Rattle.mc_model.specs.Offer.{is_good, block_of};
ghost use Rattle.mc_model.specs.Found.{Offers, Nothing, Good, found_bytes, found_in, is_found, found_links};
ghost use Rattle.mc_model.specs.Drain.{IsAdded, IsClosed, DrainsAll, IsDrained, IsClosure, IsSoFar, RunFits, IsEmptied};

/// Over every list of events from a sound state the state stays sound, after each event and also where it stopped; an
/// empty replica is sound; and so it is with a commit that fails, wholly or not at all.
pub fn events_keep()
    ensures start { IsSound (record { durable = nothing_durable; run = None }) }
    ensures stays { (state : State) (events : List Event) → IsSound state → MayComeAll state events →
        StaysSound state events }
    ensures failed { (state : State) (event : Event) (wholly : Bool) → is_commit state.durable event ≡ true →
        MayCome state.durable state.run event →
        MayComeAll state (failed wholly event)
        × (after state (failed wholly event)
        ≡ record { durable = if wholly then (happens state event).durable else state.durable; run = None }) }
    ensures others { (state : State) (event : Event) → is_commit state.durable event ≡ false →
        (happens state event).durable ≡ state.durable }
{}

/// No event takes a block out of the processed ones, or changes its place; nor takes one out of the stored ones, or
/// changes its bytes.
pub fn order_and_store_grow()
    ensures { (state : State) (events : List Event) → GoesOn state.durable (after state events).durable }
{}

/// Events one after another are events.
pub fn events_join()
    ensures none { (state : State) → Goes state state }
    ensures one { (state : State) (event : Event) → MayCome state.durable state.run event →
        Goes state (happens state event) }
    ensures join { (a b c : State) → Goes a b → Goes b c → Goes a c }
    ensures sound { (old new : State) → Goes old new → IsSound old → IsSound new }
    ensures grows { (old new : State) → Goes old new → GoesOn old.durable new.durable }
{}

/// Where whole is true and no gap is left, the mark is clear; and then, where no block leads back to itself, what is
/// processed is just what the heads reach.
pub fn clean_is_reach()
    ensures mark { (state : State) → IsSound state → IsWhole state.run →
        no_gaps state.durable.graph state.durable.order ≡ true → state.durable.mark ≡ false }
    ensures reached { (state : State) → IsSound state → HasNoCycle state.durable.graph →
        (c : Cid) → has c state.durable.order ≡ true →
        IsReached state.durable.graph (heads_in state.durable.graph state.durable.order) c }
    ensures no_more { (state : State) → no_gaps state.durable.graph state.durable.order ≡ true →
        (c : Cid) → IsReached state.durable.graph (heads_in state.durable.graph state.durable.order) c →
        has c state.durable.order ≡ true }
{}

/// A drain of the wanted set, in any order, by any number of workers, in any groups, ends with exactly the closure
/// where nothing that is wanted has a good offer; and one that was cut is within it. The blocks are added in an order
/// in which each was wanted, or is linked by one before it. Where missing and bad hold what their names say, they stay
/// so, and then a drain is at its end where nothing waits and nothing is in flight.
pub fn drain_is_closed()
    ensures closed { (found : Offers) (durable : Durable) (run : Running) (events : List Event) →
        IsSound (record { durable = durable; run = Some run }) →
        MayComeAll (record { durable = durable; run = Some run }) events →
        DrainsAll found (record { durable = durable; run = Some run }) events →
        IsDrained found (after (record { durable = durable; run = Some run }) events) →
        IsClosure found durable (wanted run.queue) (after (record { durable = durable; run = Some run }) events).durable
        (wanted_in (after (record { durable = durable; run = Some run }) events).run) }
    ensures so_far { (found : Offers) (durable : Durable) (run : Running) (events : List Event) →
        IsSound (record { durable = durable; run = Some run }) →
        MayComeAll (record { durable = durable; run = Some run }) events →
        DrainsAll found (record { durable = durable; run = Some run }) events →
        IsSoFar found durable (wanted run.queue) (after (record { durable = durable; run = Some run }) events).durable
        (wanted_in (after (record { durable = durable; run = Some run }) events).run) }
    ensures parts { (found : Offers) (state : State) (events : List Event) → DrainsAll found state events →
        RunFits found state.run → RunFits found (after state events).run }
    ensures emptied { (found : Offers) (state : State) (events : List Event) → DrainsAll found state events →
        RunFits found state.run →
        IsEmptied (after state events).run → IsDrained found (after state events) }
{}

/// A start of a job, where something waits, and a recall of all that is in flight are events.
pub fn queue_moves_are_events()
    ensures start { (durable : Durable) (run : Running) →
        Goes (record { durable = durable; run = Some run })
        (record { durable = durable; run = Some (record run { queue = start_first run.queue run.queue.waiting }) }) }
    ensures recall { (durable : Durable) (run : Running) → IsOnce durable.order run.queue →
        Goes (record { durable = durable; run = Some run })
        (record { durable = durable; run = Some (record run { queue = recall run.queue }) }) }
{}

/// What the heads reach is the least set that holds them and, with each block, its links within the graph.
pub fn reached_is_least()
    ensures starts { (graph : List Vertex) (start : List Cid) (c : Cid) → has c start ≡ true → in_graph graph c
        ≡ true → IsReached graph start c }
    ensures goes { (graph : List Vertex) (start : List Cid) (m c : Cid) → IsReached graph start m →
        has c (links_in graph m) ≡ true → in_graph graph c ≡ true → IsReached graph start c }
    ensures least { (graph : List Vertex) (start : List Cid) (test : Cid → Bool) →
        ((c : Cid) → has c start ≡ true → in_graph graph c ≡ true → test c ≡ true) →
        ((m c : Cid) → test m ≡ true → has c (links_in graph m) ≡ true → in_graph graph c ≡ true → test c ≡ true) →
        (c : Cid) → IsReached graph start c → test c ≡ true }
{}

/// The closed set is the least set that holds the processed blocks, the wanted ones with a good offer and, with each
/// block added, its links with a good offer.
pub fn closed_is_least()
    ensures old { (found : Offers) (order start : List Cid) (c : Cid) → has c order ≡ true →
        IsClosed found order start c }
    ensures starts { (found : Offers) (order start : List Cid) (c : Cid) → has c start ≡ true → is_found (found c)
        ≡ true → IsClosed found order start c }
    ensures goes { (found : Offers) (order start : List Cid) (m c : Cid) →
        IsAdded found order start m → has c (found_links (found m)) ≡ true → is_found (found c) ≡ true →
        IsClosed found order start c }
    ensures least { (found : Offers) (order start : List Cid) (test : Cid → Bool) →
        ((c : Cid) → has c order ≡ true → test c ≡ true) →
        ((c : Cid) → has c start ≡ true → is_found (found c) ≡ true → test c ≡ true) →
        ((m c : Cid) → IsAdded found order start m → test m ≡ true → has c (found_links (found m)) ≡ true →
        is_found (found c) ≡ true → test c ≡ true) →
        (c : Cid) → IsClosed found order start c → test c ≡ true }
{}

/// The first offer that has the digest decides: a good block that is offered first is found, with its links, and
/// whatever bytes are found first decide by whether they are good.
pub fn first_offer_decides()
    ensures first { (cid : Cid) (bytes : List ℕ) (rest : List (List ℕ)) → is_good cid bytes ≡ true →
        found_in (bytes ∷ rest) cid ≡ Good (block_of cid bytes).links }
    ensures found { (cid : Cid) (offers : List (List ℕ)) (bytes : List ℕ) → found_bytes offers cid ≡ Some bytes →
        is_found (found_in offers cid) ≡ is_good cid bytes }
    ensures links { (cid : Cid) (offers : List (List ℕ)) (bytes : List ℕ) →
        found_bytes offers cid ≡ Some bytes → is_good cid bytes ≡ true → found_in offers cid
        ≡ Good (block_of cid bytes).links }
    ensures none { (cid : Cid) (offers : List (List ℕ)) → found_bytes offers cid ≡ None → found_in offers cid
        ≡ Nothing }
{}
