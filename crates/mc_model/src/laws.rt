// What holds of every value, by the definitions.
ghost use Rattle.std.specs.Prelude.{◌≡◌, ℕ, List, length, is_some};
ghost use Rattle.std.specs.List.{IsDistinct};
ghost use Rattle.mc_base.specs.declared.cid.Cid.{Cid};
ghost use Rattle.mc_model.specs.declared.block.Block.{Block};
ghost use Rattle.mc_model.specs.Front.{same_cid, is_among, is_processed, is_linked, is_gap, gaps, heads, head_at};
ghost use Rattle.mc_model.specs.Answers.{SameAnswers, joined, processed_in_groups};
ghost use Rattle.mc_model.specs.Live.{has_tomb, value_row};
ghost use Rattle.mc_model.specs.State.{Durable, Running};
ghost use Rattle.mc_model.specs.Rank.{Ranked, greatest, IsGreatestOf};
ghost use Rattle.mc_model.specs.SameMembers.{SameMembers};
ghost use Rattle.mc_model.specs.Who.{IsWhoOf, who};

/// The greatest of values with priorities is one of them, and none of them is above it; there is none only where there
/// are no values; and it depends on the members alone, not on their order or number.
pub fn greatest_is_greatest()
    ensures greatest { (ranked : List Ranked) → IsGreatestOf ranked (greatest ranked) }
    ensures same { (xs ys : List Ranked) → SameMembers xs ys → greatest xs ≡ greatest ys }
{}

/// The same blocks, in any order and number, and processed in any groups, give the same answers: the same value to
/// every key, the same rows to every query, the same heads, and the same gaps.
pub fn same_blocks_same_answers()
    ensures answers { (xs ys : List Block) → SameMembers xs ys → SameAnswers xs ys }
    ensures groups { (durable : Durable) (run : Running) (xs ys : List (List Cid)) →
        SameMembers (joined xs) (joined ys) →
        SameAnswers (processed_in_groups durable run xs) (processed_in_groups durable run ys) }
    ensures value { (xs ys : List Block) → SameMembers xs ys → (key : List ℕ) → value_row xs key ≡ value_row ys key }
    ensures who { (xs ys : List Block) → SameMembers xs ys → (key : List ℕ) → who xs key ≡ who ys key }
    ensures hidden { (xs ys : List Block) → SameMembers xs ys → (key id : List ℕ) → has_tomb xs key id
        ≡ has_tomb ys key id }
    ensures processed { (xs ys : List Block) → SameMembers xs ys → (cid : Cid) → is_processed xs cid
        ≡ is_processed ys cid }
    ensures linked { (xs ys : List Block) → SameMembers xs ys → (cid : Cid) → is_linked xs cid ≡ is_linked ys cid }
    ensures gap { (xs ys : List Block) → SameMembers xs ys → (cid : Cid) → is_gap xs cid ≡ is_gap ys cid }
    ensures gaps { (xs ys : List Block) → SameMembers xs ys → SameMembers (gaps xs) (gaps ys) }
    ensures gap_count { (xs ys : List Block) → SameMembers xs ys → length (gaps xs) ≡ length (gaps ys) }
    ensures heads { (xs ys : List Block) → SameMembers xs ys → heads xs ≡ heads ys }
    ensures head { (xs ys : List Block) → SameMembers xs ys → (cid : Cid) → is_some (head_at xs cid)
        ≡ is_some (head_at ys cid) }
{}

/// Where a key has a value, the block that gives it holds a live element of the key with the greatest priority and, of
/// equal ones, the greatest bytes, and no block with a lesser identifier holds such a one; and there is none just where
/// the key has no value.
pub fn who_is_least()
    ensures { (blocks : List Block) (key : List ℕ) → IsWhoOf blocks key (who blocks key) }
{}

/// A list that has each gap once has as many identifiers as there are gaps.
pub fn gaps_are_counted()
    ensures { (keys : List Cid) (blocks : List Block) → IsDistinct same_cid keys →
        ((cid : Cid) → is_among keys cid ≡ is_gap blocks cid) →
        length keys ≡ length (gaps blocks) }
{}
