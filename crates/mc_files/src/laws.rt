// What holds of the definitions, whatever is exported.
ghost use Rattle.std.specs.Prelude.{◌≡◌, ℕ, List, Ok};
ghost use Rattle.mc_model.specs.Kept.{Kept};
ghost use Rattle.mc_files.specs.Files.{IsExport};

use mc_car::cars_are_read;

/// What is kept has one file: two exports over it are the same bytes.
pub fn exports_are_one()
    ensures { (kept : Kept) (first second : List ℕ) → IsExport kept (Ok first) → IsExport kept (Ok second) →
        first ≡ second }
{
    cars_are_read();
}
