// The layout that a commit leaves.
ghost use Rattle.std.specs.Prelude.{◌≡◌};
ghost use Rattle.mc_model.specs.Layouts.{is_two};
ghost use Rattle.mc_keep.specs.Changes.{laid_to};

use mc_base::Text;
use mc_model::Layout;

/// Changes a layout as the `upto` and the `two` of changes say. It takes no memory. Once all winner rows are there it
/// stays so.
pub fn lay(layout: &mut Layout, upto: Option<Text>, two: bool)
    ensures { layout.new ≡ laid_to two upto layout.old }
{
    if is_laid(layout) {
        return;
    }
    if two {
        *layout = Layout::Two;
        return;
    }
    if let Some(upto) = upto {
        *layout = Layout::One { upto: Some(upto) };
    }
}

fn is_laid(layout: &Layout) -> bool
    ensures { result ≡ is_two layout.now }
{
    match layout {
        Layout::One { upto: _ } => false,
        Layout::Two => true,
    }
}
