// What holds of every answer, by the definitions.
ghost use Rattle.std.specs.Prelude.{◌≡◌, ℕ, List};
ghost use Rattle.std.specs.List.{list_any};
ghost use Rattle.std.specs.List.Sorted.{IsStrictlySortedBy};
ghost use Rattle.std.specs.Ordering.{nat_cmp};
ghost use Rattle.std.specs.Cmp.Lexicographic.{slice_cmp};
ghost use Rattle.std.specs.Str.{bytes_eq};
ghost use Rattle.mc_model.specs.declared.block.Block.{Block};
ghost use Rattle.mc_model.specs.Answers.{has_value, valued_keys};

/// The keys that have a value ascend, each stands once, and they are exactly those to which `value` gives one.
pub fn valued_keys_are_exact()
    ensures sorted { (blocks : List Block) → IsStrictlySortedBy (slice_cmp nat_cmp) (valued_keys blocks) }
    ensures exact { (blocks : List Block) (key : List ℕ) → list_any (λ other. bytes_eq other key) (valued_keys blocks)
        ≡ has_value blocks key }
{}
