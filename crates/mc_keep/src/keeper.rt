// Where the blocks of a replica and their rows are kept.
ghost use Rattle.std.specs.Prelude.{◌≡◌, ◌≤◌, ℕ, Bool, true, false, Option, None, is_some, slice_get};
ghost use Rattle.std.specs.Prelude.{IfSome, IfOk, IfErr, OnOk, OnErr};
ghost use Rattle.std.specs.Result.{is_err};
ghost use Rattle.std.specs.Option.{option_map};
ghost use Rattle.std.specs.List.{position};
ghost use Rattle.mc_base.specs.Causes.{Rose};
ghost use Rattle.mc_base.specs.Told.{Told};
ghost use Rattle.mc_model.specs.Ascending.{Ascends};
ghost use Rattle.mc_model.specs.Id.{id_text};
ghost use Rattle.mc_model.specs.Live.{has_tomb, value_row};
ghost use Rattle.mc_model.specs.Layouts.{winner_in};
ghost use Rattle.mc_model.specs.declared.layout.Layout.TheVariants.{Two};
ghost use Rattle.mc_model.specs.Front.{same_cid, is_linked, heads};
ghost use Rattle.mc_model.specs.Kept.{Kept, IsKept, processed, bytes_at, is_stored};
ghost use Rattle.mc_keep.specs.Causes.{IfTold, CountGoes, fires, CommitFails};
ghost use Rattle.mc_keep.specs.Frame.{ReadsAt, ReservesAt, CommitsAt};
ghost use Rattle.mc_keep.specs.Changes.{row_count, changed, laid, heads_in_rows, ranked_value};
ghost use Rattle.mc_keep.specs.Next.{AreNext, IsKeyAt};
ghost use Rattle.mc_keep.specs.ElementOrder.{element_cmp};
ghost use Rattle.mc_keep.specs.LiveRows.{live_element_rows};
ghost use Rattle.mc_keep.specs.Plan.{
  Schedule,
  DeskSchedule,
  ReadsAsPlanned,
  DeskAsPlanned,
  DeskReadsAsPlanned,
  CommitsAsPlanned,
  is_fault,
  without_desks,
};
ghost use Rattle.mc_keep.specs.Tables.{Meets, IsSummary, IsSmall};
ghost use Rattle.mc_keep.specs.declared.error.KeepError.{KeepError};

use crate::{Changes, ElementRow, HeadRow, KeepError, RankedValue, Summary, ValueRow};
use mc_base::{Bytes, Cid, Counted, Failed, List, Text};
use mc_model::Layout;
use std::alloc::{AllocError, Global};
use std::sync::Wait;

/// Where the blocks of a replica and the rows made of them are kept.
///
/// A keeper that tells stands for the stored blocks, the order of the processed ones, and the dirty mark; its tables
/// are then exactly those that the definitions give for these. A keeper that does not tell owes no content, and never
/// tells. No call but `commit` changes what is told, also where it fails. The keeper's count rises exactly in the calls
/// that answer `Failed`, until it stands at its last value.
pub trait Keeper: Counted {
    ghost use Rattle.mc_keep.specs.declared.fuse.Fuse.{Fuse};
    ghost use Rattle.mc_model.specs.declared.layout.Layout.{Layout};

    /// A place from which another thread reads blocks.
    type Desk: Counted;

    /// The stored blocks, the order of the processed ones, and the mark, where they are told.
    ghost told: { Self → Option Kept };

    /// Of which keys there are winner rows, also where nothing is told.
    ghost layout: { Self → Layout };

    /// How many rows the next commits may have without taking memory.
    ghost spare: { Self → ℕ };

    /// The commit that is to fail: none for every keeper but a fused one.
    ghost fuse: { Self → Option Fuse };

    /// The count of faults without those that a fuse made.
    ghost own: { Self → ℕ };

    /// Whether the own count is known never to rise.
    ghost quiet: { Self → Bool };

    /// Whether the count of a desk is known never to rise where it is used on a quiet keeper.
    ghost quiet_desk: { Self.Desk → Bool };

    /// Which calls are planned to fail, where that is known.
    ghost schedule: { Self → Option Schedule };

    /// Which reads through a desk are planned to fail, where that is known.
    ghost desk_schedule: { Self.Desk → Option DeskSchedule };

    /// How often the keeper has failed without its fuse, at most `u64::MAX`.
    fn own_faults(&self) -> u64
        ensures { result ≡ own self.now };

    /// Makes a desk, which has not failed yet. Nothing else changes.
    fn desk(&mut self, alloc: Global) -> Result<Self::Desk, KeepError>
        ensures fresh { IfOk result (λ desk. Self.Desk.faults desk ≡ 0) }
        ensures quiet_desk { quiet self.old ≡ true → IfOk result (λ desk. quiet_desk desk ≡ true) }
        ensures reads { ReadsAt told layout fuse spare own Self.faults quiet
            (λ keeper. without_desks (schedule keeper)) (is_fault result) self.old self.new }
        ensures planned { DeskAsPlanned desk_schedule (schedule self.old) (schedule self.new) result };

    /// The bytes of a stored block, or none where it is not stored, read by another thread beside the owner's calls.
    /// The desk's count rises exactly where it answers `Failed`.
    fn peer_block<W: Wait>(
        &self,
        alloc: Global,
        desk: &mut Self::Desk,
        cid: &Cid,
        wait: &W,
    ) -> Result<Option<Bytes>, KeepError>
        ensures row { IfTold (told self.now) result (λ kept bytes. bytes ≡ bytes_at kept.graph cid.now) }
        ensures planned { DeskReadsAsPlanned (desk_schedule desk.old) (desk_schedule desk.new) (is_fault result) }
        ensures calm { quiet self.now ≡ true → quiet_desk desk.old ≡ true →
            (quiet_desk desk.new ≡ true) × (is_fault result ≡ false) }
        ensures count { CountGoes (is_fault result) (Self.Desk.faults desk.old) (Self.Desk.faults desk.new) };

    /// How many blocks are processed and stored, how many gaps there are, and the mark.
    fn summary(&mut self) -> Result<Summary, Failed>
        ensures row { IfTold (told self.old) result (λ kept summary. IsSummary kept summary) }
        ensures below { IfOk result IsSmall }
        ensures reads { ReadsAt told layout fuse spare own Self.faults quiet schedule (is_err result)
            self.old self.new }
        ensures planned { ReadsAsPlanned (schedule self.old) (schedule self.new) (is_err result) };

    /// The bytes of a stored block, or none where it is not stored.
    fn block(&mut self, alloc: Global, cid: &Cid) -> Result<Option<Bytes>, KeepError>
        ensures row { IfTold (told self.old) result (λ kept bytes. bytes ≡ bytes_at kept.graph cid.now) }
        ensures reads { ReadsAt told layout fuse spare own Self.faults quiet schedule (is_fault result)
            self.old self.new }
        ensures planned { ReadsAsPlanned (schedule self.old) (schedule self.new) (is_fault result) };

    /// Whether the block is stored.
    fn stored(&mut self, cid: &Cid) -> Result<bool, Failed>
        ensures row { IfTold (told self.old) result (λ kept found. found ≡ is_stored kept.graph cid.now) }
        ensures reads { ReadsAt told layout fuse spare own Self.faults quiet schedule (is_err result)
            self.old self.new }
        ensures planned { ReadsAsPlanned (schedule self.old) (schedule self.new) (is_err result) };

    /// The place of the block in the order of processing, counted from 0, or none where it is not processed.
    fn position(&mut self, cid: &Cid) -> Result<Option<u64>, Failed>
        ensures row { IfTold (told self.old) result (λ kept place. place ≡ position (same_cid cid.now) kept.order) }
        ensures reads { ReadsAt told layout fuse spare own Self.faults quiet schedule (is_err result)
            self.old self.new }
        ensures planned { ReadsAsPlanned (schedule self.old) (schedule self.new) (is_err result) };

    /// The block at a place in the order of processing, or none past its end.
    fn at(&mut self, position: u64) -> Result<Option<Cid>, Failed>
        ensures row { IfTold (told self.old) result (λ kept cid. cid ≡ slice_get kept.order position) }
        ensures reads { ReadsAt told layout fuse spare own Self.faults quiet schedule (is_err result)
            self.old self.new }
        ensures planned { ReadsAsPlanned (schedule self.old) (schedule self.new) (is_err result) };

    /// Whether a processed block links to it.
    fn linked(&mut self, cid: &Cid) -> Result<bool, Failed>
        ensures row { IfTold (told self.old) result (λ kept found. found ≡ is_linked (processed kept) cid.now) }
        ensures reads { ReadsAt told layout fuse spare own Self.faults quiet schedule (is_err result)
            self.old self.new }
        ensures planned { ReadsAsPlanned (schedule self.old) (schedule self.new) (is_err result) };

    /// The heads, ascending by the digest.
    fn heads(&mut self, alloc: Global) -> Result<List<HeadRow>, KeepError>
        ensures row { IfTold (told self.old) result (λ kept rows. heads_in_rows rows ≡ heads (processed kept)) }
        ensures reads { ReadsAt told layout fuse spare own Self.faults quiet schedule (is_fault result)
            self.old self.new }
        ensures planned { ReadsAsPlanned (schedule self.old) (schedule self.new) (is_fault result) };

    /// The element rows of a key that no tombstone of a processed block hides, ascending by the priority and the block,
    /// and then by the value.
    fn live_elements(&mut self, alloc: Global, key: &str) -> Result<List<ElementRow>, KeepError>
        ensures row { IfTold (told self.old) result (λ kept rows.
            Ascends element_cmp rows (live_element_rows (processed kept) key.now)) }
        ensures reads { ReadsAt told layout fuse spare own Self.faults quiet schedule (is_fault result)
            self.old self.new }
        ensures planned { ReadsAsPlanned (schedule self.old) (schedule self.new) (is_fault result) };

    /// Whether a processed block has the tombstone of the key with the id.
    fn hidden(&mut self, key: &str, id: &str) -> Result<bool, Failed>
        ensures row { IfTold (told self.old) result (λ kept found. found ≡ has_tomb (processed kept) key.now id.now) }
        ensures reads { ReadsAt told layout fuse spare own Self.faults quiet schedule (is_err result)
            self.old self.new }
        ensures planned { ReadsAsPlanned (schedule self.old) (schedule self.new) (is_err result) };

    /// Whether a processed block has a tombstone of the key that names the block. The block's id is for the keeper to
    /// make, where it needs one.
    fn hides(&mut self, alloc: Global, key: &str, cid: &Cid) -> Result<bool, KeepError>
        ensures row { IfTold (told self.old) result (λ kept found.
            found ≡ has_tomb (processed kept) key.now (id_text cid.now.0)) }
        ensures reads { ReadsAt told layout fuse spare own Self.faults quiet schedule (is_fault result)
            self.old self.new }
        ensures planned { ReadsAsPlanned (schedule self.old) (schedule self.new) (is_fault result) };

    /// The value of a key, or none where it has none.
    fn value(&mut self, alloc: Global, key: &str) -> Result<Option<RankedValue>, KeepError>
        ensures row { IfTold (told self.old) result (λ kept value.
            ranked_value value ≡ value_row (processed kept) key.now) }
        ensures reads { ReadsAt told layout fuse spare own Self.faults quiet schedule (is_fault result)
            self.old self.new }
        ensures planned { ReadsAsPlanned (schedule self.old) (schedule self.new) (is_fault result) };

    /// Of which keys there are winner rows. Takes no memory where they are there for all.
    fn layout(&mut self, alloc: Global) -> Result<Layout, KeepError>
        ensures row { IfOk result (λ found. found ≡ layout self.old) }
        ensures no_memory { layout self.old ≡ Two → IfErr result (λ error. error ≡ KeepError.Failed) }
        ensures reads { ReadsAt told layout fuse spare own Self.faults quiet schedule (is_fault result)
            self.old self.new }
        ensures planned { ReadsAsPlanned (schedule self.old) (schedule self.new) (is_fault result) };

    /// The block that gives a key its value, or none where the key has none or its winner row is still to come. Takes
    /// no memory.
    fn winner(&mut self, key: &str) -> Result<Option<Cid>, Failed>
        ensures row { IfTold (told self.old) result (λ kept cid.
            cid ≡ winner_in (layout self.old) (processed kept) key.now) }
        ensures reads { ReadsAt told layout fuse spare own Self.faults quiet schedule (is_err result)
            self.old self.new }
        ensures planned { ReadsAsPlanned (schedule self.old) (schedule self.new) (is_err result) };

    /// Whether a key has a value.
    fn has(&mut self, key: &str) -> Result<bool, Failed>
        ensures row { IfTold (told self.old) result (λ kept found.
            found ≡ is_some (value_row (processed kept) key.now)) }
        ensures reads { ReadsAt told layout fuse spare own Self.faults quiet schedule (is_err result)
            self.old self.new }
        ensures planned { ReadsAsPlanned (schedule self.old) (schedule self.new) (is_err result) };

    /// The value rows of the next keys with a value above the bound, or from it on where `inclusive`, in the order of
    /// the keys: `most` of them, or fewer where there are no more.
    fn values_from(
        &mut self,
        alloc: Global,
        bound: &str,
        inclusive: bool,
        most: u64,
    ) -> Result<List<ValueRow>, KeepError>
        ensures rows { IfTold (told self.old) result (λ kept rows.
            AreNext (processed kept) bound.now inclusive most rows) }
        ensures reads { ReadsAt told layout fuse spare own Self.faults quiet schedule (is_fault result)
            self.old self.new }
        ensures planned { ReadsAsPlanned (schedule self.old) (schedule self.new) (is_fault result) };

    /// The key at a place, from 0, among the next keys with a value above the bound, or from it on where `inclusive`,
    /// in their order, or none where there are not so many. No row is made of those before it.
    fn key_from(
        &mut self,
        alloc: Global,
        bound: &str,
        inclusive: bool,
        place: u64,
    ) -> Result<Option<Text>, KeepError>
        ensures key { IfTold (told self.old) result (λ kept key.
            IsKeyAt (processed kept) bound.now inclusive place key) }
        ensures reads { ReadsAt told layout fuse spare own Self.faults quiet schedule (is_fault result)
            self.old self.new }
        ensures planned { ReadsAsPlanned (schedule self.old) (schedule self.new) (is_fault result) };

    /// Makes room for so many rows. Nothing else changes.
    fn reserve(&mut self, rows: u64) -> Result<(), AllocError>
        ensures ok { OnOk result (rows ≤ spare self.new) }
        ensures reserves { ReservesAt told layout fuse spare own Self.faults quiet schedule self.old self.new };

    /// Makes the changes, or fails before or after them, wholly or not at all. It takes no memory. The changes are
    /// those that the definitions give: the blocks to store are good and new, those to process are stored and not
    /// processed, and the rows turn the tables of the processed blocks into those with the new ones; or they are a
    /// migration's: nothing is stored or processed, and the winner rows become those of the new layout.
    fn commit(&mut self, changes: Changes) -> Result<(), Failed>
        requires room { row_count changes ≤ spare self.old }
        requires fits { IfSome (told self.old) (λ kept. Meets (layout self.old) kept changes) }
        ensures done { OnOk result (Told (told self.old) (told self.new) (λ kept new. new ≡ changed kept changes)) }
        ensures laid { OnOk result (layout self.new ≡ laid (layout self.old) changes) }
        ensures laid_or_not { OnErr result (CommitFails (fires (fuse self.old)) (Rose (own self.old) (own self.new))
            (layout self.old) (laid (layout self.old) changes) (layout self.new)) }
        ensures lasts { OnOk result (fires (fuse self.old) ≡ None) }
        ensures failed { OnErr result (Told (told self.old) (told self.new) (λ kept new.
            CommitFails (fires (fuse self.old)) (Rose (own self.old) (own self.new)) kept (changed kept changes) new)) }
        ensures commits { CommitsAt told fuse spare own Self.faults quiet
            (row_count changes) (is_err result) self.old self.new }
        ensures planned { fires (fuse self.old) ≡ None →
            CommitsAsPlanned (schedule self.old) (schedule self.new) (is_err result)
            (told self.old) (told self.new) (option_map (λ kept. changed kept changes) (told self.old)) };

    /// What is told is sound: no block is stored or processed twice, each stored block is good, and each processed
    /// block is stored.
    ghost sound: { (keeper : Self) → IfSome (told keeper) IsKept };
}
