// How far the list of a face has come. The list is kept for contracts alone, in a book that only grows.
ghost use Rattle.std.specs.Prelude.{◌≡◌, ◌++◌, length, nat_le, MatchBool, IfSome};
ghost use Rattle.mc_model.specs.Answers.{joined};
ghost use Rattle.mc_face.specs.Book.{head_of};
ghost use Rattle.mc_face.specs.Lists.{Starts};

use logbook::{Gain, Offer, Plain, Play, Rule, Seen, Word};
use mc_base::List;
use mc_model::Block;

/// The rule of the book: its first word is the number of blocks in its list.
pub struct Growing;

impl Rule<List<Block>, u64> for Growing {
    ghost use Rattle.std.specs.Prelude.{[]};
    ghost use base.Fml.{ftrue};
    ghost use Rattle.mc_face.specs.Book.{IsKept};

    ghost holds = { λ cells log. IsKept cells log };

    ghost first = { [] };

    ghost hinted = { λ n log. Unit {0} };

    ghost shows = { λ log. [] };

    ghost keeps = { λ names log. ftrue };

    ghost moves = { λ ask before after answer. Unit {0} };
}

/// Nobody trades anything.
pub(crate) struct Nothing;

impl Gain<List<Block>, u64> for Nothing {
    ghost use base.Fml.{ftrue};

    ghost after = { λ names about answer. ftrue };
}

/// The step that adds blocks.
pub(crate) struct Add;

impl Play<List<Block>, u64> for Add {
    ghost use Rattle.mc_face.specs.Book.{Adds};

    ghost then = { Adds };
}

impl Plain<List<Block>, List<Block>, u64> for Add {
    ghost use Rattle.std.specs.Prelude.{None};

    ghost ask = { λ blocks. blocks };

    ghost state = { λ blocks. None };
}

/// The word that holds the number of blocks.
pub(crate) type Head = Word<List<Block>, u64, Growing>;

/// A beginning of a face's list. It has the bytes of its length alone.
#[derive(Drop)]
pub struct Front {
    /// How many blocks the list has.
    pub count: u64,
    pub(crate) seen: Seen<List<Block>, u64, Growing>,
    ghost counted: { count ≡ length (joined seen.log) },
}

impl Front {
    /// A copy.
    pub(crate) fn again(&self) -> Front
        ensures { result ≡ self.now }
    {
        Front {
            count: self.count,
            seen: self.seen.again(),
        }
    }

    /// Whether this list isn't shorter than another one of its face: then it begins with that, and else that with this.
    pub(crate) fn reaches(&self, other: &Front) -> bool
        requires one { other.now.seen.book ≡ self.now.seen.book }
        ensures test { result ≡ nat_le (length (joined other.now.seen.log)) (length (joined self.now.seen.log)) }
        ensures starts { MatchBool result (Starts (joined self.now.seen.log) (joined other.now.seen.log))
            (Starts (joined other.now.seen.log) (joined self.now.seen.log)) }
    {
        let mut both = self.seen.again();
        both.learn(&other.seen);
        other.count <= self.count
    }
}

/// Adds blocks to the list of a face, which is known whole, and says whether it did. It did not where there are too
/// many, or where the list is longer than it is known to be.
pub(crate) fn extend(head: &Head, front: &Front, blocks: &List<Block>) -> Option<Front>
    requires { head.now ≡ head_of front.now.seen.book }
    ensures { IfSome result (λ next. (next.seen.book ≡ front.now.seen.book)
        × (joined next.seen.log ≡ joined front.now.seen.log ++ blocks.now)) }
{
    let next = front.count.checked_add(blocks.len() as u64)?;
    let mut seen = front.seen.again();
    let mut offer: Offer<List<Block>, u64, Growing, Nothing> = seen.plain::<
        Nothing,
        List<Block>,
        Add,
    >(blocks);
    let mut pen = seen.no_pen();
    let found = head.compare_exchange::<Add, Nothing>(
        front.count,
        next,
        &mut seen,
        &mut offer,
        &mut pen,
    );
    if found != front.count {
        return None;
    }
    Some(Front { count: next, seen })
}
