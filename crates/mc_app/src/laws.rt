// What is promised of scripts, by the definitions.
ghost use Rattle.std.specs.Prelude.{ℕ, ◌+◌, ◌<◌, ◌^◌, List, Option, length};
ghost use Rattle.mc_gen.specs.Script.{script_text};
ghost use Rattle.mc_app.specs.Generated.{AreCommandLines};
ghost use Rattle.mc_app.specs.Valid.{IsPlainScript, IsValid};
ghost use Rattle.mc_model.specs.Kept.{Kept};
ghost use Rattle.mc_seats.specs.Starts.{IsFirst};

use mc_runs::runs_only_grow;
use mc_script::commands_are_read_again;

/// Each line of a generated script is read as a command: none is bad by its form, and none is empty or a comment.
pub fn generated_lines_are_commands()
    ensures { (start count : ℕ) → count + 3 < 2 ^ 64 → AreCommandLines (script_text start count) }
{
    commands_are_read_again();
}

/// A script is valid, whatever faults and stops come, where neither it nor a line of it is too long, and each line asks
/// for nothing or is a command on some of the replicas that hears no message and imports no file. One with a `hear` is
/// valid where its message was sent by then, and one with an `import` where its file was there by then, which depends
/// on what was answered before.
pub fn plain_scripts_are_valid()
    ensures { (starts : List (Option Kept)) (script : List ℕ) →
        IsPlainScript (length starts) script → IsValid (IsFirst starts) script }
{
    runs_only_grow();
}
