//! The rule that each atomic step on a turn's table keeps, and what each kind of step tells its seat.
//! Taking the value out of the slot and putting it home are plain accesses of the holder, and have no kind here.
use crate::story::Story;
use crate::view::View;
use atomic_table::{Join, Play, Split, TableRule};
use std::snapshot::Snapshot;

/// The rule of the table under a turn, which holds between any two steps. The key is the first value.
pub(crate) struct TurnRule;

impl<T: Story> TableRule<Option<T>, View<T::Entry>, Snapshot<T>> for TurnRule {
    ghost use Rattle.std.specs.Prelude.{length};
    ghost use Rattle.mc_turn.specs.Rule.{FollowsRule};
    ghost use Rattle.mc_turn.specs.Views.{first_view};

    ghost holds = { λ key. FollowsRule T.list (length (T.list key.value)) };

    ghost first = { λ key. first_view (T.list key.value) };
}

/// A compare-exchange of word 0 from 0 to 1.
pub(crate) struct TryTake;

impl<T: Story> Play<Option<T>, View<T::Entry>> for TryTake {
    ghost use Rattle.mc_turn.specs.Steps.{tries};

    ghost then = { tries T.list };
}

/// A store of the value's length in word 1, by the holder.
pub(crate) struct Publish;

impl<T: Story> Play<Option<T>, View<T::Entry>> for Publish {
    ghost use Rattle.mc_turn.specs.Steps.{publishes};

    ghost then = { publishes T.list };
}

/// A store of 0 in word 0, by the holder.
pub(crate) struct Release;

impl<T: Story> Play<Option<T>, View<T::Entry>> for Release {
    ghost use Rattle.mc_turn.specs.Steps.{releases};

    ghost then = { releases T.list };
}

/// A load of word 1.
pub(crate) struct Look;

impl<T: Story> Play<Option<T>, View<T::Entry>> for Look {
    ghost use Rattle.mc_turn.specs.Steps.{looks};

    ghost then = { looks };
}

/// A seat's parts go to two seats.
pub(crate) struct SplitView;

impl<E> Split<View<E>> for SplitView {
    ghost use Rattle.mc_turn.specs.Views.{left_view, right_view};

    ghost left = { left_view };

    ghost right = { right_view };
}

/// A seat stays as it is, and what it has seen goes to a view without parts.
pub(crate) struct GlimpseView;

impl<E> Split<View<E>> for GlimpseView {
    ghost use Rattle.mc_turn.specs.Views.{glimpse_view};

    ghost left = { λ view. view };

    ghost right = { λ view. glimpse_view view.seen };
}

/// A seat takes in another, which is spent.
pub(crate) struct JoinViews;

impl<E> Join<View<E>> for JoinViews {
    ghost use Rattle.mc_turn.specs.Views.{joined_view, spent_view};

    ghost both = { joined_view };

    ghost spent = { spent_view };
}
