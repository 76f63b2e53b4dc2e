// CARv1 files: what replicas export and import.
ghost use Rattle.std.specs.Prelude.{◌≡◌, ◌<◌, ◌+◌, ◌++◌, ◌∷◌, [], true, OnErr, IfOk, length, vec_len};
ghost use Rattle.mc_script.specs.declared.command.Command.TheVariants.{CarIn, Export, Import};
ghost use Rattle.mc_script.specs.declared.reply.Reply.TheVariants.{Car};
ghost use Rattle.mc_seats.specs.Asks.{is_there};
ghost use Rattle.mc_seats.specs.Words.{ActsOn, state};

use mc_base::{Bytes, List};
use mc_keep::Keeper;
use mc_script::Reply;
use mc_seats::{ActError, World, export_at, import_at};
use std::alloc::{AllocError, Global};

/// Makes a file of what a replica has processed.
pub fn export_in<K: Keeper>(world: &mut World<K>, alloc: Global, r: u64) -> Result<Reply, ActError>
    requires there { r < vec_len world.old.seats }
    ensures acts { ActsOn K.Keeper K.Desk.faults (Export r) result world.old world.new }
{
    match export_at(&mut world.seats[r as usize], alloc) {
        Ok(Ok(Ok(file))) => match load(&mut world.bag.cars, file) {
            Ok(reply) => Ok(reply),
            Err(AllocError) => Err(ActError::Memory),
        },
        Ok(Ok(Err(number))) => Ok(Reply::RefusedRoots { number }),
        Ok(Err(reply)) => Ok(reply),
        Err(error) => Err(error),
    }
}

/// Takes these bytes for a file, whatever they are.
pub fn load_in<K: Keeper>(
    world: &mut World<K>,
    alloc: Global,
    bytes: &[u8],
) -> Result<Reply, ActError>
    ensures acts { ActsOn K.Keeper K.Desk.faults (CarIn bytes.now) result world.old world.new }
{
    match Bytes::from_slice(alloc, bytes) {
        Ok(file) => match load(&mut world.bag.cars, file) {
            Ok(reply) => Ok(reply),
            Err(AllocError) => Err(ActError::Memory),
        },
        Err(AllocError) => Err(ActError::Memory),
    }
}

/// A replica takes a file in.
pub fn import_in<K: Keeper>(
    world: &mut World<K>,
    alloc: Global,
    r: u64,
    car: u64,
) -> Result<Reply, ActError>
    requires there { is_there (state K.Keeper K.Desk.faults world.old) (Import r car) ≡ true }
    ensures acts { ActsOn K.Keeper K.Desk.faults (Import r car) result world.old world.new }
{
    let file = world.bag.cars.as_slice()[(car - 1) as usize].as_slice();
    import_at(&mut world.seats[r as usize], alloc, file)
}

// A file behind others: its number, counted from 1, and its length.
fn load(cars: &mut List<Bytes>, file: Bytes) -> Result<Reply, AllocError>
    ensures ok { IfOk result (λ reply. (cars.new ≡ cars.old ++ file ∷ [])
        × (reply ≡ Car (length cars.old + 1) (length file))) }
    ensures err { OnErr result (cars.new ≡ cars.old) }
{
    let number = cars.as_slice().len() as u64 + 1;
    let len = file.as_slice().len() as u64;
    cars.push(file)?;
    Ok(Reply::Car { number, len })
}
