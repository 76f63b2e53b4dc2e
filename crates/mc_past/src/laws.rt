// What holds of every read of the past, by the definitions.
ghost use Rattle.mc_past.specs.Past.{AllChangesAreFeed, ChangesAreFeed, FoundsAreOne};
ghost use Rattle.mc_past.specs.Pasts.{PastsStayFit};

use mc_view::views_are_reach;

/// The events at some positions are those of the whole feed at these positions; at all positions they are the feed.
pub fn changes_are_the_feed()
    ensures part { ChangesAreFeed }
    ensures all { AllChangesAreFeed }
{}

/// Over blocks with distinct identifiers there is one value of a key below a block, whichever way it was reached.
pub fn founds_are_one()
    ensures { FoundsAreOne }
{
    views_are_reach();
}

/// What is kept of the past of a replica fits what its keeper tells later, where more blocks are processed and none of
/// the old ones is another or elsewhere.
pub fn pasts_stay_fit()
    ensures { PastsStayFit }
{}
