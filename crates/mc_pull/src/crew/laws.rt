// What holds of every fetch, by the definitions.

use mc_fetch::Fetch;

// A fetch follows itself, and what follows one that follows a third follows that.
pub(crate) fn fetches_follow<F: Fetch>()
    ensures itself { (fetch : F) → F.follows fetch fetch }
    ensures on { (first second third : F) → F.follows first second → F.follows second third → F.follows first third }
{}
