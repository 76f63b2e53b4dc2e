// The rule that each step on a relay keeps, and what each kind of step tells its end.
ghost use Rattle.mc_relay.specs.Items.{LetsRight};
ghost use Rattle.mc_relay.specs.Props.{LetsRight-prop};

use crate::view::EndView;
use crossbeam_queue::RuledArrayQueue;
use crossbeam_queue::protocol::{Join, Lesson, Outcome, Protocol, Split};
use mc_block::Verified;
use mc_fetch::Naming;
use std::marker::PhantomData;

// The rule of a relay: what was popped and what the queue holds are the givers' items, of each in its order, and the
// items that the queue holds are right.
pub(crate) struct Passing<J: Naming> {
    of: PhantomData<J>,
    ghost right: { LetsRight J.found } by { LetsRight-prop J.found },
}

pub(crate) type End = EndView<Verified>;

pub(crate) type Line<J> = RuledArrayQueue<Verified, End, Passing<J>>;

impl<J: Naming> Protocol<Verified, EndView<Verified>> for Passing<J> {
    ghost use Rattle.mc_relay.specs.Passes.{Passes, first_view};
    ghost use Rattle.mc_relay.specs.Items.{IsRight};

    ghost holds = { λ items views. Passes (IsRight J.found) items views };

    ghost first = { first_view };
}

// A push.
pub(crate) struct Pushed;

impl Outcome<Verified, EndView<Verified>> for Pushed {
    ghost use Rattle.std.specs.Prelude.{◌≡◌};
    ghost use Rattle.mc_relay.specs.Passes.{with_pushed};

    ghost then = { λ v x w. w ≡ with_pushed v x };
}

impl Lesson<Verified, EndView<Verified>> for Pushed {
    ghost use Rattle.mc_relay.specs.Passes.{HasPushed};

    ghost fact = { λ v items. HasPushed v items };
}

// A pop.
pub(crate) struct Popped<J> {
    of: PhantomData<J>,
}

impl<J: Naming> Outcome<Verified, EndView<Verified>> for Popped<J> {
    ghost use Rattle.std.specs.Prelude.{◌≡◌};
    ghost use Rattle.mc_relay.specs.Passes.{with_taken};
    ghost use Rattle.mc_relay.specs.Items.{IsRight};

    ghost then = { λ v x w. (w ≡ with_taken v x) × IsRight J.found x };
}

impl<J: Naming> Lesson<Verified, EndView<Verified>> for Popped<J> {
    ghost use Rattle.mc_relay.specs.Passes.{HasTaken};

    ghost fact = { λ v items. HasTaken v items };
}

// A giver is made.
pub(crate) struct Hires;

impl Split<EndView<Verified>> for Hires {
    ghost use Rattle.mc_relay.specs.Passes.{with_made, giver_view};

    ghost left = { with_made };

    ghost right = { λ v. giver_view v.made };
}

// A giver found the relay full. The new end is spent.
pub(crate) struct NotesFull;

impl Split<EndView<Verified>> for NotesFull {
    ghost use Rattle.mc_relay.specs.Passes.{with_full, spent_view};

    ghost left = { with_full };

    ghost right = { λ v. spent_view };
}

// The taker found it empty. The new end is spent.
pub(crate) struct NotesEmpty;

impl Split<EndView<Verified>> for NotesEmpty {
    ghost use Rattle.mc_relay.specs.Passes.{with_empty, spent_view};

    ghost left = { with_empty };

    ghost right = { λ v. spent_view };
}

// The taker takes in a giver, whose end is then spent.
pub(crate) struct TakesIn;

impl Join<EndView<Verified>> for TakesIn {
    ghost use Rattle.mc_relay.specs.Passes.{with_known, spent_view};

    ghost both = { with_known };

    ghost spent = { spent_view };
}

// What the taker learns of the whole.
pub(crate) struct Whole;

impl Lesson<Verified, EndView<Verified>> for Whole {
    ghost use Rattle.mc_relay.specs.Passes.{KnowsAll};

    ghost fact = { λ v items. KnowsAll v items };
}
