// The state of a repair walk.
ghost use Rattle.std.specs.Prelude.{◌≡◌, ◌↔◌, true, false, Some, IsSome, IsNone};
ghost use Rattle.mc_model.specs.Events.{IsVisiting, IsVisited};
ghost use Rattle.mc_walk.specs.Walks.{begun, next_of, after_visit, is_ended};

use std::marker::Model;

/// A walk over the positions from 0 on, which a contract sees as a pair: how many it visits, and the one that it visits
/// next. No call on it takes memory.
#[derive(Debug, Drop)]
pub struct Walk {
    end: u64,
    next: u64,
}

impl Model for Walk {
    ghost use Rattle.std.specs.Prelude.{◌≤◌};
    ghost use Rattle.mc_model.specs.State as state;

    ghost Value = { state.Walk };

    ghost view = { λ walk. (walk.end, walk.next) };

    ghost invariant = { λ walk. walk.next ≤ walk.end };
}

impl Walk {
    /// A walk over so many positions, the number of processed blocks at this moment. It has visited none.
    pub fn begin(length: u64) -> Walk
        ensures { result ≡ begun length }
    {
        Walk {
            end: length,
            next: 0,
        }
    }

    /// The position to visit next, and none exactly where all are visited.
    pub fn position(&self) -> Option<u64>
        ensures next { result ≡ next_of self.now }
        ensures some { IsSome result ↔ IsVisiting (Some self.now) }
        ensures none { IsNone result ↔ IsVisited (Some self.now) }
    {
        if self.next < self.end {
            Some(self.next)
        } else {
            None
        }
    }

    /// Notes that the next position is visited. There must be one.
    pub fn visit(&mut self)
        requires { IsVisiting (Some self.old) }
        ensures { self.new ≡ after_visit self.old }
    {
        self.next += 1;
    }

    /// Whether all positions are visited.
    pub fn ended(&self) -> bool
        ensures ended { result ≡ is_ended self.now }
        ensures visited { result ≡ true ↔ IsVisited (Some self.now) }
        ensures visiting { result ≡ false ↔ IsVisiting (Some self.now) }
    {
        self.next == self.end
    }
}
