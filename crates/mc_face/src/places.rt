// The places from which threads read a face, and the longer of two lists.
ghost use Rattle.std.specs.Prelude.{◌≡◌, Some, IfOk, IfErr, IfSome};
ghost use Rattle.left_right.specs.Sides.{view};
ghost use Rattle.mc_face.specs.Known.{Knows};
ghost use Rattle.mc_face.specs.Rule.{Stands};
ghost use Rattle.mc_face.specs.Faces.{blocks_of};
ghost use Rattle.mc_face.specs.Lists as lists;
ghost use Rattle.mc_face.specs.Lists.{Starts};

use crate::exactness::Exactness;
use crate::front::Front;
use crate::rule::{Faced, Sees};
use crate::shown::Shown;
use left_right::reader::{Reader, Reading};

/// A place from which a thread reads a face.
pub(crate) type Place<X> = Reader<Shown, Option<Front>, Faced<X>>;

/// What is read from a place, which is taken out while it reads.
pub(crate) type Entry<X> = Reading<Shown, Option<Front>, Faced<X>>;

/// What is shown now, which begins with all that was seen and told; or none where the face gives no entry.
pub(crate) fn enter<X: Exactness>(
    place: &mut Option<Place<X>>,
    seen: &Front,
    told: &Front,
) -> Option<Entry<X>>
    requires knows { IfSome place.old (λ p. Knows (view p.place) seen.now) }
    requires one { told.now.seen.book ≡ seen.now.seen.book }
    ensures stands { IfSome result (λ entry. Stands X.exact entry.part.value) }
    ensures begins { IfSome result (λ entry. Starts (blocks_of entry.part.value.front) (blocks_of seen.now)) }
    ensures informed { IfSome result (λ entry. Starts (blocks_of entry.part.value.front) (blocks_of told.now)) }
    ensures book { IfSome result (λ entry. entry.part.value.front.seen.book ≡ seen.now.seen.book) }
    ensures view { IfSome result (λ entry. view entry.place ≡ Some entry.part.value.front) }
    ensures back { IfSome place.new (λ p. Knows (view p.place) seen.now) }
{
    let free = place.take()?;
    match enter_at(free, seen, told) {
        Ok(entry) => Some(entry),
        Err(back) => {
            *place = Some(back);
            None
        }
    }
}

// The same at a place, which comes back where the face gives no entry. What is shown is compared with what was told:
// left_right gives the newest, but its rule speaks of what its readers saw, and not of what they heard.
fn enter_at<X: Exactness>(place: Place<X>, seen: &Front, told: &Front) -> Result<Entry<X>, Place<X>>
    requires knows { Knows (view place.place) seen.now }
    requires one { told.now.seen.book ≡ seen.now.seen.book }
    ensures stands { IfOk result (λ entry. Stands X.exact entry.part.value) }
    ensures begins { IfOk result (λ entry. Starts (blocks_of entry.part.value.front) (blocks_of seen.now)) }
    ensures informed { IfOk result (λ entry. Starts (blocks_of entry.part.value.front) (blocks_of told.now)) }
    ensures book { IfOk result (λ entry. entry.part.value.front.seen.book ≡ seen.now.seen.book) }
    ensures view { IfOk result (λ entry. view entry.place ≡ Some entry.part.value.front) }
    ensures back { IfErr result (λ place. Knows (view place.place) seen.now) }
{
    let entry = match place.enter_as::<Sees<X>>() {
        Ok(entry) => entry,
        Err(place) => return Err(place),
    };
    if !entry.get().front.reaches(told) {
        return Err(entry.leave());
    }
    Ok(entry)
}

/// Of two lists of one face the longer one, which begins with the other.
pub(crate) fn longer(one: &Front, other: &Front) -> Front
    requires face { other.now.seen.book ≡ one.now.seen.book }
    ensures is { blocks_of result ≡ lists.longer (blocks_of one.now) (blocks_of other.now) }
    ensures one { Starts (blocks_of result) (blocks_of one.now) }
    ensures other { Starts (blocks_of result) (blocks_of other.now) }
    ensures face { result.seen.book ≡ one.now.seen.book }
{
    if one.reaches(other) {
        return one.again();
    }
    other.again()
}
