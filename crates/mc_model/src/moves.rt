// The laws of a replica's events together with the layout of its keeper.
ghost use Rattle.std.specs.Prelude.{◌≡◌, Bool, true, List};
ghost use Rattle.std.specs.List.{list_all};
ghost use Rattle.mc_model.specs.declared.layout.Layout.TheVariants.{Two};
ghost use Rattle.mc_model.specs.Moves.{Laid, Move, MayMoveAll, StaysSoundOver, after_moves, is_migrate};
ghost use Rattle.mc_model.specs.Moves.{failed_migrate};
ghost use Rattle.mc_model.specs.State.{IsSound};

/// Over every list of events and migrations from a sound state the state stays sound. Migrations, and such as failed,
/// change nothing but the layout; once no winner row is still to come, none ever is.
pub fn moves_keep()
    ensures stays { (laid : Laid) (moves : List Move) → IsSound laid.state → MayMoveAll laid moves →
        StaysSoundOver laid moves }
    ensures migrations { (laid : Laid) (moves : List Move) → list_all is_migrate moves ≡ true →
        (after_moves laid moves).state ≡ laid.state }
    ensures failed { (laid : Laid) (wholly : Bool) →
        (after_moves laid (failed_migrate wholly)).state ≡ laid.state }
    ensures two { (laid : Laid) (moves : List Move) → laid.layout ≡ Two → (after_moves laid moves).layout ≡ Two }
{}
