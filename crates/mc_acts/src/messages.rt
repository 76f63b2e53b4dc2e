// Messages: what replicas send and hear.
ghost use Rattle.std.specs.Prelude.{◌≡◌, ◌<◌, ◌+◌, ◌++◌, ◌∷◌, [], true, OnErr, IfOk, length, vec_len};
ghost use Rattle.mc_script.specs.declared.command.Command.TheVariants.{Cast, Hear, Wire};
ghost use Rattle.mc_script.specs.declared.reply.Reply.TheVariants.{Message};
ghost use Rattle.mc_seats.specs.Asks.{is_there};
ghost use Rattle.mc_seats.specs.Words.{ActsOn, state};

use mc_base::{Bytes, List};
use mc_keep::Keeper;
use mc_script::Reply;
use mc_seats::{ActError, World, cast_at, hear_at};
use std::alloc::{AllocError, Global};

/// Sends the heads of a replica.
pub fn cast_in<K: Keeper>(world: &mut World<K>, alloc: Global, r: u64) -> Result<Reply, ActError>
    requires there { r < vec_len world.old.seats }
    ensures acts { ActsOn K.Keeper K.Desk.faults (Cast r) result world.old world.new }
{
    match cast_at(&mut world.seats[r as usize], alloc) {
        Ok(Ok(text)) => match send(&mut world.bag.messages, text) {
            Ok(reply) => Ok(reply),
            Err(AllocError) => Err(ActError::Memory),
        },
        Ok(Err(reply)) => Ok(reply),
        Err(error) => Err(error),
    }
}

/// Sends these bytes.
pub fn send_in<K: Keeper>(
    world: &mut World<K>,
    alloc: Global,
    bytes: &[u8],
) -> Result<Reply, ActError>
    ensures acts { ActsOn K.Keeper K.Desk.faults (Wire bytes.now) result world.old world.new }
{
    match Bytes::from_slice(alloc, bytes) {
        Ok(text) => match send(&mut world.bag.messages, text) {
            Ok(reply) => Ok(reply),
            Err(AllocError) => Err(ActError::Memory),
        },
        Err(AllocError) => Err(ActError::Memory),
    }
}

/// A replica hears a message that was sent.
pub fn hear_in<K: Keeper>(
    world: &mut World<K>,
    alloc: Global,
    r: u64,
    message: u64,
) -> Result<Reply, ActError>
    requires there { is_there (state K.Keeper K.Desk.faults world.old) (Hear r message) ≡ true }
    ensures acts { ActsOn K.Keeper K.Desk.faults (Hear r message) result world.old world.new }
{
    let text = world.bag.messages.as_slice()[(message - 1) as usize].as_slice();
    hear_at(&mut world.seats[r as usize], alloc, text)
}

// A message behind others: its number, counted from 1.
fn send(messages: &mut List<Bytes>, text: Bytes) -> Result<Reply, AllocError>
    ensures ok { IfOk result (λ reply. (messages.new ≡ messages.old ++ text ∷ [])
        × (reply ≡ Message (length messages.old + 1))) }
    ensures err { OnErr result (messages.new ≡ messages.old) }
{
    let number = messages.as_slice().len() as u64 + 1;
    messages.push(text)?;
    Ok(Reply::Message { number })
}
