// What a command names.
ghost use Rattle.std.specs.Prelude.{◌≡◌, Some, unwrap_or, length};
ghost use Rattle.mc_seats.specs.Asks.{focus, has_text, is_among, is_there};
ghost use Rattle.mc_seats.specs.Words.{state};

use mc_base::{Bytes, List};
use mc_keep::Keeper;
use mc_script::Command;
use mc_seats::{Bag, World};

/// Whether all that a command names is there.
pub fn is_there<K: Keeper>(world: &World<K>, command: &Command) -> bool
    ensures { result ≡ is_there (state K.Keeper K.Desk.faults world.now) command.now }
{
    is_among(world.seats.as_slice().len() as u64, &world.bag, command)
}

// The same of so many replicas and these messages and files.
fn is_among(count: u64, bag: &Bag, command: &Command) -> bool
    ensures { result ≡ is_among count bag.now command.now }
{
    match command {
        Command::Wire { .. } | Command::CarIn { .. } => true,
        Command::Hear { r, message } => *r < count && has_text(&bag.messages, *message),
        Command::Import { r, car } => *r < count && has_text(&bag.cars, *car),
        Command::Link { r, other, .. } => *r < count && *other < count,
        Command::Same { r, other } => *r < count && *other < count,
        _ => replica_of(command) < count,
    }
}

fn has_text(texts: &List<Bytes>, number: u64) -> bool
    ensures { result ≡ has_text texts.now number }
{
    0 < number && number <= texts.as_slice().len() as u64
}

// The replica that a command of one replica works on, and else 0.
pub(crate) fn replica_of(command: &Command) -> u64
    ensures { result ≡ unwrap_or (focus command.now) 0 }
{
    match command {
        Command::Link { .. } | Command::Same { .. } => 0,
        _ => command.replica(),
    }
}
