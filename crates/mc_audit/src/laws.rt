// Laws of the verdict, and of what a sweep leaves.
ghost use Rattle.mc_audit.specs.Laws.{SoundIsExact, SweepLeavesTheRest, SweepKeepsProcessed};

/// There is no first difference exactly where each sentence on sound tables holds.
pub fn sound_is_exact()
    ensures { SoundIsExact }
{}

/// A whole sweep leaves of table 1 just the rows that are of a block of table 2, or whose digest hasn't 32 bytes.
pub fn sweep_leaves_the_rest()
    ensures { SweepLeavesTheRest }
{}

/// A sweep of a keeper, or a part of one, leaves the processed blocks as they were.
pub fn sweep_keeps_processed()
    ensures { SweepKeepsProcessed }
{}
