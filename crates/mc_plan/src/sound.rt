// What every keeper tells.
ghost use Rattle.std.specs.Prelude.{IfSome};
ghost use Rattle.mc_model.specs.Kept.{IsKept};

use mc_keep::Keeper;

/// What the keeper tells is sound.
pub fn is_sound<K: Keeper>(keeper: &K)
    ensures { IfSome (K.told keeper.now) IsKept }
{}
