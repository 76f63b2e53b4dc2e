// What a keeper tells, as the durable state of a replica.
ghost use Rattle.std.specs.Prelude.{◌≡◌, ◌≢◌, ◌↔◌, ◌==◌, Bool, true, false, not, List, [], ◌++◌, map, length, is_some};
ghost use Rattle.std.specs.List.{list_all, list_any};
ghost use Rattle.mc_base.specs.declared.cid.Cid.{Cid};
ghost use Rattle.mc_model.specs.declared.block.Stored.{Stored};
ghost use Rattle.mc_model.specs.Ascending.{once, is_once};
ghost use Rattle.mc_model.specs.Events.{Store, Process, MayRun, processed_mark, ended_mark, with_blocks};
ghost use Rattle.mc_model.specs.Events.{with_processed, with_walk_ended};
ghost use Rattle.mc_model.specs.Found.{Good, PeerOffers, offers_from, found_in};
ghost use Rattle.mc_model.specs.Front.{Head, same_cid, is_among, is_processed, is_linked, is_gap, links, gaps, heads};
ghost use Rattle.mc_model.specs.Front.{head_at};
ghost use Rattle.mc_model.specs.Graph.{has, in_graph, links_in, all_links, no_gaps, gaps_in, heads_in, HasNoCycle};
ghost use Rattle.mc_model.specs.Graph.{IsReached};
ghost use Rattle.mc_model.specs.Kept.{Kept, IsKept, cids_of, bytes_at, is_stored, block_in, blocks_in, processed};
ghost use Rattle.mc_model.specs.Made.{head_cids};
ghost use Rattle.mc_model.specs.Offer.{is_good};
ghost use Rattle.mc_model.specs.State.{DurableHolds, Running, durable_of, kept_of, vertices};

/// What a keeper tells has, as a replica's durable state, the same links, gaps and heads; and it is sound as the one
/// where it is sound as the other.
pub fn kept_is_durable()
    ensures stored { (kept : Kept) (cid : Cid) → in_graph (durable_of kept).graph cid ≡ is_stored kept.graph cid }
    ensures processed { (kept : Kept) (cid : Cid) → has cid kept.order ≡ is_processed (processed kept) cid }
    ensures links { (kept : Kept) → IsKept kept → links (processed kept)
        ≡ all_links (durable_of kept).graph kept.order }
    ensures block_links { (kept : Kept) (cid : Cid) → is_stored kept.graph cid ≡ true →
        links_in (durable_of kept).graph cid ≡ (block_in kept.graph cid).links }
    ensures some_links { (kept : Kept) (cids : List Cid) → list_all (is_stored kept.graph) cids ≡ true →
        all_links (durable_of kept).graph cids ≡ links (blocks_in kept.graph cids) }
    ensures linked { (kept : Kept) → IsKept kept → (cid : Cid) → is_linked (processed kept) cid
        ≡ has cid (all_links (durable_of kept).graph kept.order) }
    ensures gap { (kept : Kept) → IsKept kept → (cid : Cid) → is_gap (processed kept) cid
        ≡ has cid (gaps_in (durable_of kept).graph kept.order) }
    ensures gaps { (kept : Kept) → IsKept kept → gaps (processed kept)
        ≡ once same_cid (gaps_in (durable_of kept).graph kept.order) }
    ensures no_gaps { (kept : Kept) → IsKept kept → no_gaps (durable_of kept).graph kept.order
        ≡ (length (gaps (processed kept)) == 0) }
    ensures head { (kept : Kept) → IsKept kept → (cid : Cid) → is_some (head_at (processed kept) cid)
        ≡ has cid (heads_in (durable_of kept).graph kept.order) }
    ensures heads { (kept : Kept) → IsKept kept → (cid : Cid) →
        has cid (map (λ (head : Head). head.0) (heads (processed kept)))
        ≡ has cid (heads_in (durable_of kept).graph kept.order) }
    ensures made_links { (kept : Kept) → IsKept kept → list_all (is_among kept.order) (head_cids (processed kept))
        ≡ true }
    ensures back { (kept : Kept) → kept_of (durable_of kept) ≡ kept }
    ensures holds { (kept : Kept) → IsKept kept → DurableHolds (durable_of kept) }
    ensures kept { (kept : Kept) → DurableHolds (durable_of kept) → IsKept kept }
{}

/// What is stored, processed, or marked at a walk's end in what a keeper tells is so in the replica's durable state.
pub fn kept_changes_are_events()
    ensures store { (kept : Kept) (blocks : List Stored) →
        durable_of (record { graph = kept.graph ++ blocks; order = kept.order; mark = kept.mark })
        ≡ with_blocks (durable_of kept) (vertices blocks) }
    ensures process { (kept : Kept) (whole mark : Bool) (cids : List Cid) → mark
        ≡ processed_mark whole (durable_of kept) (kept.order ++ cids) →
        durable_of (record { graph = kept.graph; order = kept.order ++ cids; mark = mark })
        ≡ with_processed whole (durable_of kept) cids }
    ensures mark { (kept : Kept) (cids : List Cid) →
        IsKept (record { graph = kept.graph; order = kept.order ++ cids; mark = kept.mark }) →
        processed_mark true (durable_of kept) (kept.order ++ cids)
        ≡ not (length (gaps (blocks_in kept.graph (kept.order ++ cids))) == 0) }
    ensures walk_end { (kept : Kept) (mark : Bool) → mark ≡ ended_mark (durable_of kept) →
        durable_of (record { graph = kept.graph; order = kept.order; mark = mark })
        ≡ with_walk_ended (durable_of kept) }
{}

/// What may be stored and processed in what a keeper tells: good blocks that aren't stored, and stored ones that aren't
/// processed, each once. What is kept stays sound.
pub fn kept_changes_may_come()
    ensures store { (kept : Kept) (blocks : List Stored) (run : Running) → IsKept kept →
        list_all (λ (stored : Stored). is_good stored.cid stored.bytes) blocks ≡ true →
        list_any (λ (stored : Stored). is_stored kept.graph stored.cid) blocks ≡ false →
        is_once same_cid (cids_of blocks) ≡ true →
        MayRun (durable_of kept) run (Store (vertices blocks)) }
    ensures process { (kept : Kept) (cids : List Cid) (run : Running) → IsKept kept → cids ≢ [] →
        list_all (is_stored kept.graph) cids ≡ true →
        list_any (is_among kept.order) cids ≡ false → is_once same_cid cids ≡ true →
        MayRun (durable_of kept) run (Process cids) }
    ensures sound { (kept : Kept) (blocks : List Stored) (cids : List Cid) (mark : Bool) → IsKept kept →
        list_all (λ (stored : Stored). is_good stored.cid stored.bytes) blocks ≡ true →
        list_any (λ (stored : Stored). is_stored kept.graph stored.cid) blocks ≡ false →
        is_once same_cid (cids_of blocks) ≡ true →
        list_all (is_stored (kept.graph ++ blocks)) cids ≡ true → list_any (is_among kept.order) cids ≡ false →
        is_once same_cid cids ≡ true →
        IsKept (record { graph = kept.graph ++ blocks; order = kept.order ++ cids; mark = mark }) }
{}

/// Where a keeper's processed blocks have no gap and no block leads back to itself, they are just what the heads reach.
pub fn kept_without_gaps_is_reach()
    ensures { (kept : Kept) → IsKept kept → length (gaps (processed kept)) ≡ 0 → HasNoCycle (durable_of kept).graph →
        (cid : Cid) → has cid kept.order
        ≡ true ↔ IsReached (durable_of kept).graph (map (λ (head : Head). head.0) (heads (processed kept))) cid }
{}

/// A stored block is what its own replica's offers come to, whatever the others offer, with the links that it has in
/// the graph.
pub fn own_block_decides()
    ensures { (kept : Kept) → IsKept kept → (cid : Cid) (peers : List PeerOffers) → is_stored kept.graph cid ≡ true →
        found_in (offers_from (bytes_at kept.graph cid) peers) cid ≡ Good (links_in (durable_of kept).graph cid) }
{}
