// Adding to a list.
ghost use Rattle.std.specs.Prelude.{◌≡◌, [], ◌∷◌, ◌++◌, OnOk};

use mc_base::List;
use std::alloc::AllocError;

// Adds an item at the end.
pub(crate) fn add<T: Copy>(list: &mut List<T>, item: T) -> Result<(), AllocError>
    ensures { OnOk result (list.new ≡ list.old ++ item ∷ []) }
{
    list.push(item)?;
    Ok(())
}
