// A place in a table, or none, in one word, where an `Option` takes two.
ghost use Rattle.std.specs.Prelude.{◌≡◌, ◌<◌, ◌-◌, ◌^◌, None, Some, IfSome};

use std::marker::Model;

/// A place, or none. It is kept as the number after the place, and 0 where there is none.
#[derive(Debug, Drop)]
pub struct Spot {
    after: usize,
}

impl Model for Spot {
    ghost use Rattle.std.specs.Prelude.{ℕ, nat_eq, cond, ◌-◌, None, Some};
    ghost use Rattle.std.specs.Prelude as prelude;

    ghost Value = { prelude.Option ℕ };

    ghost view = { λ spot. cond (nat_eq spot.after 0) None (Some (spot.after - 1)) };
}

impl Spot {
    /// No place.
    pub fn none() -> Spot
        ensures { result ≡ None }
    {
        Spot { after: 0 }
    }

    /// A place.
    pub fn at(place: usize) -> Spot
        requires small { place < 2 ^ 64 - 1 }
        ensures { result ≡ Some place }
    {
        Spot { after: place + 1 }
    }

    /// A place, or none.
    pub fn of(place: Option<usize>) -> Spot
        requires small { IfSome place (λ place. place < 2 ^ 64 - 1) }
        ensures { result ≡ place }
    {
        match place {
            Some(place) => Spot::at(place),
            None => Spot::none(),
        }
    }

    /// A copy.
    pub fn copy(&self) -> Spot
        ensures { result ≡ self.now }
    {
        Spot { after: self.after }
    }

    /// The place, or none.
    pub fn place(&self) -> Option<usize>
        ensures { result ≡ self.now }
    {
        if self.after == 0 {
            return None;
        }
        Some(self.after - 1)
    }
}
