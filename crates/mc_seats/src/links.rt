// The links between the replicas of a world.
ghost use Rattle.std.specs.Prelude.{◌≡◌, OnOk, OnErr, false, filter, not};
ghost use Rattle.std.specs.List.{list_any};
ghost use Rattle.mc_seats.specs.Step.{with_link};
ghost use Rattle.mc_seats.specs.Worlds.{is_linked, joins};

use std::alloc::AllocError;

/// A link between two replicas, by their numbers.
#[derive(Clone, Copy, Debug, PartialEq, Eq)]
pub struct Link {
    /// The one.
    pub first: u64,
    /// The other.
    pub second: u64,
}

// Whether the link is that of these two, in either order.
fn joins(r: u64, other: u64, link: &Link) -> bool
    ensures { result ≡ joins r other link.now }
{
    (r == link.first && other == link.second) || (r == link.second && other == link.first)
}

// Whether one of these links is that of the two.
fn has_link(down: &[Link], r: u64, other: u64) -> bool
    ensures { result ≡ list_any (joins r other) down.now }
{
    for link in down {
        if joins(r, other, link) {
            return true;
        }
    }
    false
}

// Whether two replicas, which are not one, have their link up, where these are down.
pub(crate) fn is_linked(down: &[Link], r: u64, other: u64) -> bool
    ensures { result ≡ is_linked down.now r other }
{
    r != other && !has_link(down, r, other)
}

/// Sets the link of two replicas up or down. Where memory is wanting nothing changes.
pub fn set_link(down: &mut Vec<Link>, r: u64, other: u64, up: bool) -> Result<(), AllocError>
    ensures ok { OnOk result (down.new.items ≡ with_link down.old.items r other up) }
    ensures err { OnErr result (down.new.items ≡ down.old.items) }
{
    if up {
        remove_link(down, r, other);
        return Ok(());
    }
    add_link(down, r, other)
}

// Takes the link of two replicas out.
fn remove_link(down: &mut Vec<Link>, r: u64, other: u64)
    ensures { down.new.items ≡ filter (λ link. not (joins r other link)) down.old.items }
{
    down.retain(|link| !joins(r, other, link));
}

// Adds the link of two replicas, unless it is there.
fn add_link(down: &mut Vec<Link>, r: u64, other: u64) -> Result<(), AllocError>
    ensures ok { OnOk result (down.new.items ≡ with_link down.old.items r other false) }
    ensures err { OnErr result (down.new.items ≡ down.old.items) }
{
    if has_link(down.as_slice(), r, other) {
        return Ok(());
    }
    down.push(Link {
        first: r,
        second: other,
    })?;
    Ok(())
}
