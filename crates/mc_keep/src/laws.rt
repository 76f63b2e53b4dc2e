// What a keeper's commits are as events of a replica, and when a fuse fires.
ghost use Rattle.std.specs.Prelude.{◌≡◌, ◌≢◌, ℕ, ◌+◌, ◌<◌, ◌≤◌, Bool, false, true, List, [], map, Option, None, Some};
ghost use Rattle.std.specs.Prelude.{unwrap_or, ◌++◌};
ghost use Rattle.std.specs.List.{list_all};
ghost use Rattle.std.specs.declared.cmp.Ordering.TheVariants.{Equal};
ghost use Rattle.mc_model.specs.declared.block.Block.{Block};
ghost use Rattle.mc_model.specs.declared.block.Stored.{Stored};
ghost use Rattle.mc_model.specs.Events.{Store, Process, WalkEnd, MayRun, runs, processed_mark};
ghost use Rattle.mc_model.specs.Graph.{no_gaps};
ghost use Rattle.mc_model.specs.Kept.{Kept, IsKept, processed, blocks_in, is_stored};
ghost use Rattle.mc_model.specs.State.{Running, durable_of, vertices};
ghost use Rattle.mc_model.specs.declared.layout.Layout.{Layout};
ghost use Rattle.mc_keep.specs.declared.changes.Changes.{Changes};
ghost use Rattle.mc_keep.specs.Burning.{burnt_by};
ghost use Rattle.mc_keep.specs.Causes.{fires};
ghost use Rattle.mc_keep.specs.Changes.{changed, newly_processed, no_changes};
ghost use Rattle.mc_keep.specs.declared.rows.ElementRow.{ElementRow};
ghost use Rattle.mc_keep.specs.ElementOrder.{element_cmp};
ghost use Rattle.mc_keep.specs.New.{AreNew};
ghost use Rattle.mc_keep.specs.Tables.{StoreFits, MarksFit, RowsFit, FrontFits, ChangesFit, MigrateFits};

use mc_model::{kept_changes_are_events, kept_changes_may_come};

/// A commit that only stores is the event that stores these blocks; one that only processes, with the mark that the
/// definitions give, is the event that processes them; and one that only clears the mark is a walk's end without a gap.
/// Each may come where the commit's needs are met, and what they leave is sound.
pub fn commits_are_events()
    ensures store { (kept : Kept) (changes : Changes) (run : Running) → IsKept kept → StoreFits kept changes →
        changes.marks ≡ [] → changes.mark ≡ None →
        MayRun (durable_of kept) run (Store (vertices changes.store))
        × ((runs (durable_of kept) run (Store (vertices changes.store))).durable ≡ durable_of (changed kept changes)) }
    ensures process { (kept : Kept) (changes : Changes) (run : Running) → IsKept kept → MarksFit kept changes →
        changes.store ≡ [] → changes.marks ≢ [] →
        unwrap_or changes.mark kept.mark ≡ processed_mark run.whole (durable_of kept) (kept.order ++ changes.marks) →
        MayRun (durable_of kept) run (Process changes.marks)
        × ((runs (durable_of kept) run (Process changes.marks)).durable ≡ durable_of (changed kept changes)) }
    ensures sound { (kept : Kept) (changes : Changes) → IsKept kept → StoreFits kept changes → MarksFit kept changes →
        IsKept (changed kept changes) }
    ensures clear { (kept : Kept) (run : Running) → no_gaps (durable_of kept).graph kept.order ≡ true →
        (runs (durable_of kept) run WalkEnd).durable
        ≡ durable_of (changed kept (record no_changes { mark = Some false })) }
{
    kept_changes_may_come();
    kept_changes_are_events();
}

/// What makes changes fit. Changes that only store good new blocks do, and leave what is processed as it was; so do
/// changes of the mark alone. Changes that only process stored and unprocessed blocks, with the rows and the front of
/// these, do. After any changes that a keeper takes the processed blocks are those before, and then the new ones.
pub fn changes_fit()
    ensures store { (kept : Kept) (stored : List Stored) → StoreFits kept (record no_changes { store = stored }) →
        ChangesFit kept (record no_changes { store = stored }) }
    ensures stored { (kept : Kept) (stored : List Stored) →
        changed kept (record no_changes { store = stored })
        ≡ record { graph = kept.graph ++ stored; order = kept.order; mark = kept.mark } }
    ensures same { (kept : Kept) (stored : List Stored) → IsKept kept →
        processed (changed kept (record no_changes { store = stored })) ≡ processed kept }
    ensures mark { (kept : Kept) (mark : Option Bool) → ChangesFit kept (record no_changes { mark = mark }) }
    ensures marked { (kept : Kept) (mark : Option Bool) →
        changed kept (record no_changes { mark = mark })
        ≡ record { graph = kept.graph; order = kept.order; mark = unwrap_or mark kept.mark } }
    ensures same_marked { (kept : Kept) (mark : Option Bool) → IsKept kept →
        processed (changed kept (record no_changes { mark = mark })) ≡ processed kept }
    ensures process { (kept : Kept) (blocks : List Block) (changes : Changes) →
        changes.store ≡ [] → changes.marks ≡ map (λ (block : Block). block.cid) blocks → AreNew kept blocks →
        list_all (is_stored kept.graph) (map (λ (block : Block). block.cid) blocks) ≡ true →
        blocks_in kept.graph (map (λ (block : Block). block.cid) blocks) ≡ blocks →
        RowsFit (processed kept) blocks changes → FrontFits (processed kept) blocks changes →
        (changes.two ≡ false) × (changes.upto ≡ None) → ChangesFit kept changes }
    ensures processed { (kept : Kept) (changes : Changes) → IsKept kept →
        processed (changed kept changes) ≡ processed kept ++ newly_processed kept changes }
{}

/// A migration's changes leave what is stored and processed, and the mark.
pub fn migrations_fit()
    ensures { (layout : Layout) (kept : Kept) (changes : Changes) → MigrateFits layout kept changes →
        changed kept changes ≡ kept }
{}

/// Element rows that tie in their order are equal.
pub fn ties_are_equal()
    ensures { (x y : ElementRow) → element_cmp x y ≡ Equal → x ≡ y }
{}

/// A fuse that is armed for the k-th commit from now on fires at that one, and neither before nor after it.
pub fn fuses_fire_once()
    ensures before { (k commits : ℕ) (after : Bool) → commits + 1 < k →
        fires (burnt_by commits (Some (record { commit = k; after = after }))) ≡ None }
    ensures at { (k : ℕ) (after : Bool) →
        fires (burnt_by k (Some (record { commit = k + 1; after = after }))) ≡ Some after }
    ensures after { (k commits : ℕ) (after : Bool) → 1 ≤ k → k ≤ commits →
        burnt_by commits (Some (record { commit = k; after = after })) ≡ None }
{}
