// What is promised of every run, by the definitions.
ghost use Rattle.std.specs.Prelude.{◌≡◌, ◌≢◌, ◌↔◌, ◌<◌, ◌-◌, ◌^◌, ℕ, Bool, List, [], Option, Some, true, false};
ghost use Rattle.std.specs.Prelude.{slice_get};
ghost use Rattle.mc_base.specs.declared.cid.Cid.{Cid};
ghost use Rattle.mc_model.specs.Made.{made_cid};
ghost use Rattle.mc_model.specs.SameMembers.{SameMembers};
ghost use Rattle.mc_model.specs.Graph.{HasNoCycle};
ghost use Rattle.mc_model.specs.Kept.{IsKept, Kept};
ghost use Rattle.mc_model.specs.State.{blocks_of, vertices};
ghost use Rattle.mc_core.specs.Events.{ReplicaState};
ghost use Rattle.mc_core.specs.Puts.{next_links, delta_of_put};
ghost use Rattle.mc_script.specs.declared.command.Command.{Command as Asked};
ghost use Rattle.mc_script.specs.declared.command.Command.TheVariants.{Put, Del, Commit, Repair, Storm, Work};
ghost use Rattle.mc_script.specs.declared.command.Command.TheVariants.{Export, GetAt, Import};
ghost use Rattle.mc_script.specs.declared.reply.Reply.{Reply as Said};
ghost use Rattle.mc_script.specs.declared.reply.Reply.TheVariants.{Priority, Deleted, Stopped, Stormed, Clean};
ghost use Rattle.mc_script.specs.declared.reply.Reply.TheVariants.{Car, FaultKeeper, FaultPeer, Imported, Worked};
ghost use Rattle.mc_seats.specs.declared.entry.LineEntry.{LineEntry as Entry};
ghost use Rattle.mc_seats.specs.declared.links.Link.{Link as LinkState};
ghost use Rattle.mc_seats.specs.Asks.{car_at, focus, is_named, may_fail};
ghost use Rattle.mc_seats.specs.Effects.{DoneAt};
ghost use Rattle.mc_runs.specs.Exports.{ExportsArrive, HasArrived, HasNoOffers, IsBare, keeps_at};
ghost use Rattle.mc_runs.specs.Promises.{AfterLine, AroundLine, FuseFired, HasCommitted, HasDeleted, HasDeletedSince, HasMore, HasProcessed};
ghost use Rattle.mc_runs.specs.Promises.{HasSettled, HasStormed, IsLineAt, OnlyGrows, SinceLine};
ghost use Rattle.mc_runs.specs.Promises.{DoneElsewhere, asks_running, fired_at, is_find, same_pair};
ghost use Rattle.mc_runs.specs.Promises.{some_stopped, tells_at};
ghost use Rattle.std.specs.List.{AllByRecursion};
ghost use Rattle.mc_script.specs.Line.{line_of};
ghost use Rattle.mc_runs.specs.OneEnd.{AreSameAt, AreTold, HasRoom, HaveSameBytes, is_end, is_worked};
ghost use Rattle.mc_runs.specs.OneText.{AreOpen, IsOne, NoneRefused, replies_in};
ghost use Rattle.mc_runs.specs.Runs.{Answer, IsWithin, Runs, own_free, owns_in};
ghost use Rattle.mc_seats.specs.Step.{Step, with_link};
ghost use Rattle.mc_seats.specs.Worlds.{Place, WorldState, is_linked, state_at};

use mc_car::cars_are_read;
use mc_core::{clean_replicas_are_reached, written_blocks_stand};
use mc_files::exports_are_one;
use mc_model::{kept_is_durable, order_and_store_grow, same_blocks_same_answers};
use mc_past::founds_are_one;

/// No line takes a block out of the processed ones of a replica, or changes its position; nor out of the stored ones,
/// or changes its bytes: whatever faults came, at whatever replica. So a block that was acknowledged stays in every
/// later state. A world has as many replicas at its end as at its start, and a keeper that tells nothing of its content
/// never tells it later.
pub fn runs_only_grow()
    ensures step { (w : WorldState) (command : Asked) (entry : Entry) (reply : Said) (w2 : WorldState) →
        Step w command entry reply w2 → OnlyGrows w w2 }
    ensures runs { (lines : List (List ℕ)) (answers : List (Option Answer)) (old new : WorldState) →
        Runs old lines answers new → OnlyGrows old new }
{
    order_and_store_grow();
}

/// A put that is answered by `ok` has processed its block, at the end of what its replica had processed before.
pub fn acknowledged_puts_are_processed()
    ensures { (w : WorldState) (r : ℕ) (key bytes : List ℕ) (entry : Entry) (priority : ℕ) (w2 : WorldState) →
        Step w (Put r key bytes) entry (Priority priority) w2 →
        HasProcessed w r (λ kept. made_cid (next_links kept) (delta_of_put kept key bytes)) w2 }
{
    written_blocks_stand();
}

/// A commit of a batch that is answered by `ok` and a number that isn't 0 has processed the block of the batch that was
/// open, at the end of what its replica had processed before.
pub fn acknowledged_commits_are_processed()
    ensures { (w : WorldState) (r : ℕ) (entry : Entry) (priority : ℕ) (w2 : WorldState) →
        Step w (Commit r) entry (Priority priority) w2 → priority ≢ 0 → HasCommitted w r w2 }
{
    order_and_store_grow();
    written_blocks_stand();
}

/// A delete that is answered by `deleted N` has processed its N blocks, and no other, at the end of what its replica
/// had processed before.
pub fn acknowledged_deletes_are_processed()
    ensures { (w : WorldState) (r : ℕ) (key : List ℕ) (entry : Entry) (count : ℕ) (w2 : WorldState) →
        Step w (Del r key) entry (Deleted count) w2 → HasDeleted w r key count w2 }
{}

/// After a storm that was answered by `stormed M S`, its replica has processed at least M blocks more, in the world
/// after it and, in a run, in the last one: they stand behind what was processed before the storm, and are those of the
/// puts of one interleaving of its writers' calls, each over the blocks that were there when it came. The line may stand
/// at any place, counted from 0.
pub fn acknowledged_storms_are_processed()
    ensures step { (w : WorldState) (r writers writes : ℕ) (entry : Entry) (made same : ℕ) (w2 : WorldState) →
        Step w (Storm r writers writes) entry (Stormed made same) w2 → HasMore w r made w2 }
    ensures line { (lines : List (List ℕ)) (answers : List (Option Answer)) (first last : WorldState)
        (k r writers writes made same : ℕ) → Runs first lines answers last →
        IsLineAt lines answers k (Storm r writers writes) (Stormed made same) → SinceLine first lines answers k last
        (λ w w2. HasMore w r made w2) }
    ensures blocks { (lines : List (List ℕ)) (answers : List (Option Answer)) (first last : WorldState)
        (k r writers writes made same : ℕ) → Runs first lines answers last →
        IsLineAt lines answers k (Storm r writers writes) (Stormed made same) → SinceLine first lines answers k last
        (λ w w2. HasStormed w r writers writes made w2) }
{
    order_and_store_grow();
}

/// In a run, the block of a put that was answered by `ok` stands in the last world, at its place in the order of the
/// blocks that its replica processed; so does that of a batch whose commit was answered by `ok` and a number that isn't
/// 0; and so do the N blocks of a delete that was answered by `deleted N`. The line may stand at any place, counted from
/// 0.
pub fn acknowledged_blocks_stand()
    ensures puts { (lines : List (List ℕ)) (answers : List (Option Answer)) (first last : WorldState)
        (k r : ℕ) (key bytes : List ℕ) (priority : ℕ) → Runs first lines answers last →
        IsLineAt lines answers k (Put r key bytes) (Priority priority) → SinceLine first lines answers k last
        (λ w w2. HasProcessed w r (λ kept. made_cid (next_links kept) (delta_of_put kept key bytes)) w2) }
    ensures commits { (lines : List (List ℕ)) (answers : List (Option Answer)) (first last : WorldState)
        (k r : ℕ) (priority : ℕ) → Runs first lines answers last →
        IsLineAt lines answers k (Commit r) (Priority priority) → priority ≢ 0 → SinceLine first lines answers k last
        (λ w w2. HasCommitted w r w2) }
    ensures deletes { (lines : List (List ℕ)) (answers : List (Option Answer)) (first last : WorldState)
        (k r : ℕ) (key : List ℕ) (count : ℕ) → Runs first lines answers last →
        IsLineAt lines answers k (Del r key) (Deleted count) → SinceLine first lines answers k last
        (λ w w2. HasDeletedSince w r key count w2) }
{
    order_and_store_grow();
    acknowledged_puts_are_processed();
    acknowledged_commits_are_processed();
    acknowledged_deletes_are_processed();
}

/// Replicas with equal processed blocks, in whatever order, give equal answers to every command whose answer is found in
/// these blocks, which are `get`, `has`, `query` and `heads`; and to `getat`: two of one world or of two worlds, whatever
/// else these hold. A feed depends on the order of processing, and is not among them.
pub fn equal_blocks_answer_equally()
    ensures found { (w w2 : WorldState) (p p2 q q2 : Place) (s t : ReplicaState) (command : Asked) (other : ℕ)
        (reply said : Said) → is_find command ≡ true → state_at p ≡ Some s → state_at q ≡ Some t →
        SameMembers (blocks_of s.state.durable) (blocks_of t.state.durable) →
        DoneAt w command p p2 reply → DoneElsewhere w2 other command q q2 said → reply ≡ said }
    ensures below { (w w2 : WorldState) (p p2 q q2 : Place) (s t : ReplicaState) (r other : ℕ) (cid : Cid)
        (key : List ℕ) (reply said : Said) → state_at p ≡ Some s → state_at q ≡ Some t →
        SameMembers (blocks_of s.state.durable) (blocks_of t.state.durable) → DoneAt w (GetAt r cid key) p p2 reply →
        DoneElsewhere w2 other (GetAt r cid key) q q2 said → reply ≡ said }
{
    same_blocks_same_answers();
    founds_are_one();
}

/// A replica that a command doesn't work on, and whose keeper can't fail in it, is as it was, over every keeper: its
/// content, its fuse, what runs, and what is planted at it.
pub fn others_stay()
    ensures { (w : WorldState) (command : Asked) (entry : Entry) (reply : Said) (w2 : WorldState) (r : ℕ) →
        Step w command entry reply w2 → focus command ≢ Some r → is_named (may_fail command) r ≡ false →
        slice_get w2.places r ≡ slice_get w.places r }
{}

/// A link has no direction: r is linked to another one exactly where that one is linked to r. Once the link of two
/// replicas is set it is up exactly where it was set up, and the link of every other pair is as it was.
pub fn links_are_mutual()
    ensures mutual { (down : List LinkState) (r other : ℕ) → is_linked down r other ≡ is_linked down other r }
    ensures set { (down : List LinkState) (r other : ℕ) (up : Bool) → r ≢ other →
        is_linked (with_link down r other up) r other ≡ up }
    ensures others { (down : List LinkState) (r other : ℕ) (up : Bool) (a b : ℕ) → same_pair r other a b ≡ false →
        is_linked (with_link down r other up) a b ≡ is_linked down a b }
{}

/// Where no desk of a peer failed, no answer is `fault peer`. Where no keeper failed by itself, an answer of
/// `fault keeper` is that of a fuse: one of the keepers that may fail in the command was armed before it, and is no
/// more. And where the fuse of a keeper that tells its content made a commit fail, the answer is `fault keeper`.
///
/// What holds of a line holds of every line of a run whose entries name no keeper and no desk that failed by itself; and
/// where the count that pays for such entries has not risen, over whatever keepers, there is none.
pub fn quiet_faults_are_fuses()
    ensures peer { (w : WorldState) (command : Asked) (entry : Entry) (reply : Said) (w2 : WorldState) →
        Step w command entry reply w2 → entry.desks ≡ [] → reply ≢ FaultPeer }
    ensures keeper { (w : WorldState) (command : Asked) (entry : Entry) (reply : Said) (w2 : WorldState) →
        Step w command entry reply w2 → entry.own ≡ [] → reply ≡ FaultKeeper → FuseFired command w w2 }
    ensures fired { (w : WorldState) (command : Asked) (entry : Entry) (reply : Said) (w2 : WorldState) (r : ℕ) →
        Step w command entry reply w2 → tells_at (slice_get w.places r) ≡ true → fired_at w w2 r ≡ true →
        reply ≡ FaultKeeper }
    ensures uncounted { (count : ℕ) (answers : List (Option Answer)) → count < 2 ^ 64 - 1 →
        IsWithin count count (owns_in answers) → own_free answers ≡ true }
    ensures no_peer { (lines : List (List ℕ)) (answers : List (Option Answer)) (first last : WorldState) (k : ℕ)
        (command : Asked) → Runs first lines answers last → own_free answers ≡ true →
        IsLineAt lines answers k command FaultPeer → ⊥ }
    ensures fuses { (lines : List (List ℕ)) (answers : List (Option Answer)) (first last : WorldState) (k : ℕ)
        (command : Asked) → Runs first lines answers last → own_free answers ≡ true →
        IsLineAt lines answers k command FaultKeeper →
        AroundLine first lines answers k last (FuseFired command) }
{}

/// A command is answered by `stopped` exactly where a replica that it works on doesn't run: that of every command of
/// one replica but `plant`, `open`, `stopat` and `stopafter`, and either of the two of `same`.
pub fn stopped_is_exact()
    ensures { (w : WorldState) (command : Asked) (entry : Entry) (reply : Said) (w2 : WorldState) →
        Step w command entry reply w2 → (reply ≡ Stopped) ↔ (some_stopped w (asks_running command) ≡ true) }
{}

/// After a repair that was answered by `clean`, no gap is left at its replica and its mark is clear, and where no stored
/// block leads back to itself, the processed blocks are exactly those that its heads reach. In a run the line may stand
/// at any place, counted from 0.
pub fn clean_repairs_are_reached()
    ensures step { (w : WorldState) (r workers : ℕ) (entry : Entry) (w2 : WorldState) →
        Step w (Repair r workers) entry Clean w2 → HasSettled w2 r }
    ensures line { (lines : List (List ℕ)) (answers : List (Option Answer)) (first last : WorldState)
        (k r workers : ℕ) → Runs first lines answers last → IsLineAt lines answers k (Repair r workers) Clean →
        AfterLine first lines answers k last (λ w. HasSettled w r) }
{
    kept_is_durable();
    clean_replicas_are_reached();
}

/// The text of a run is one: two runs of the same lines from the same first world give equal replies and come to equal
/// worlds, where each replica tells its content, and no keeper and no desk failed by itself. The commands whose workers
/// or writers take turns are not among these lines. Either no fuse is armed, at first or by a line; or fuses may be
/// `armed`, and then no reply refuses a block for its size, its priority or its identifier: a put whose block has the
/// identifier of other stored bytes may be refused, and its fuse may fire.
pub fn runs_are_one()
    ensures { (armed : Bool) (lines : List (List ℕ)) (answers answers2 : List (Option Answer))
        (first last last2 : WorldState) → AreOpen armed first →
        AllByRecursion (λ line. IsOne armed (line_of line)) lines → own_free answers ≡ true →
        own_free answers2 ≡ true → NoneRefused armed answers → NoneRefused armed answers2 →
        Runs first lines answers last → Runs first lines answers2 last2 →
        (replies_in answers ≡ replies_in answers2) × (last ≡ last2) }
{
    kept_is_durable();
    exports_are_one();
    founds_are_one();
}

/// What a work comes to does not depend on its workers, nor on their turns: two works of one replica of one world, whose
/// contents are told, that have come to their ends, by whatever budgets, are answered equally, have processed the same
/// blocks, as many, and leave the same ones missing and bad. So do two repairs, which are answered equally where the
/// processed blocks have the same bytes in both, as they have unless two different texts have one digest. Two works by
/// one budget are answered equally also where it is used, with a number below 2^64.
pub fn works_are_one()
    ensures works { (w : WorldState) (r workers workers2 : ℕ) (budget budget2 : Option ℕ) (entry entry2 : Entry)
        (reply reply2 : Said) (w2 w3 : WorldState) → AreTold w → is_end reply ≡ true → is_end reply2 ≡ true →
        Step w (Work r workers budget) entry reply w2 → Step w (Work r workers2 budget2) entry2 reply2 w3 →
        (reply ≡ reply2) × AreSameAt r w2 w3 }
    ensures answers { (w : WorldState) (r workers workers2 : ℕ) (budget : Option ℕ) (entry entry2 : Entry)
        (reply reply2 : Said) (w2 w3 : WorldState) → AreTold w → HasRoom r budget w → is_worked reply ≡ true →
        is_worked reply2 ≡ true → Step w (Work r workers budget) entry reply w2 →
        Step w (Work r workers2 budget) entry2 reply2 w3 → reply ≡ reply2 }
    ensures repairs { (w : WorldState) (r workers workers2 : ℕ) (entry entry2 : Entry) (reply reply2 : Said)
        (w2 w3 : WorldState) → AreTold w → is_end reply ≡ true → is_end reply2 ≡ true →
        Step w (Repair r workers) entry reply w2 → Step w (Repair r workers2) entry2 reply2 w3 →
        AreSameAt r w2 w3 × (HaveSameBytes r w2 w3 → reply ≡ reply2) }
{
    same_blocks_same_answers();
}

/// What a replica that has processed nothing drains to from the heads of another one, in whatever order they wait, is
/// exactly what the other one has processed: where no block leads back to itself, each of the other's processed blocks
/// is found with its links, and no gap of it is found. An export that is imported and worked comes to this.
pub fn exports_arrive()
    ensures { ExportsArrive }
{}

/// A file that a replica exported, taken in by a replica that held and wanted nothing, and worked off there, brings what
/// the exporter had processed: both have the same set of processed blocks then. Between the two lines the file may have
/// come into another world. What the exporter keeps is sound, as every keeper's content is, no stored block of it leads
/// back to itself, and all contents of the importer's world are told, where no peer has a good offer for a gap of the
/// exporter.
pub fn exported_files_arrive()
    ensures { (kept : Kept) (w w2 v v2 v3 : WorldState)
        (r number size q car stored queued workers processed missing bad : ℕ) (budget : Option ℕ)
        (entry entry2 entry3 : Entry) → keeps_at w r ≡ Some kept → IsKept kept → HasNoCycle (vertices kept.graph) →
        Step w (Export r) entry (Car number size) w2 → car_at v.around.bag car ≡ car_at w2.around.bag number →
        IsBare v q → Step v (Import q car) entry2 (Imported stored queued) v2 → AreTold v2 → HasNoOffers kept v2 q →
        Step v2 (Work q workers budget) entry3 (Worked processed missing bad) v3 → HasArrived kept v3 q }
{
    kept_is_durable();
    cars_are_read();
}
