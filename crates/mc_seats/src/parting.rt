// How the replica of a part is opened, and its desks are made.
ghost use Rattle.std.specs.Prelude.{◌≡◌, ◌≤◌, ◌+◌, [], None, IfOk, IfErr, OnOk, vec_len, vec_capacity, length};
ghost use Rattle.mc_keep.specs.Causes.{is_fault_kind};
ghost use Rattle.mc_core.specs.Openings.{is_fault_cause};
ghost use Rattle.mc_core.specs.Refusals.{kind_of};
ghost use Rattle.mc_seats.specs.Desked.{AreDesksOf, desks_each};
ghost use Rattle.mc_seats.specs.Openings.{
  AreNewDesks,
  IsBack,
  IsFresh,
  IsOpened,
  IsSeated,
  MakesDesks,
  is_open_fault,
};

use crate::Part;
use crate::seat::{Held, Seat};
use mc_base::List;
use mc_core::{CoreError, OpenCause, OpenError, Replica};
use mc_fetch::Plants;
use mc_keep::Keeper;
use std::alloc::Global;

// How many desks a replica has in a world.
const DESKS: usize = 16;

// A replica in its seat, and its desks.
pub(crate) struct Opened<K: Keeper> {
    pub(crate) seat: Seat<K>,
    pub(crate) desks: List<K::Desk>,
}

// A part of which no replica was opened: why, and the part, with the desks that were made.
pub(crate) struct NoPart<K: Keeper> {
    pub(crate) cause: OpenCause,
    pub(crate) part: Part<K>,
}

// Opens the replica of a part, whose keeper migrates first, and makes its desks.
#[tactic(auto, using(crate::proofs::StayFacts::of_none))]
pub(crate) fn open_part<K: Keeper>(alloc: Global, part: Part<K>) -> Result<Opened<K>, NoPart<K>>
    requires fresh { IsFresh K.told K.fuse part }
    ensures opened { IfOk result (λ opened. IsOpened K.Keeper K.Desk.faults part opened.seat opened.desks) }
    ensures back { IfErr result (λ refused. IsBack K.Keeper refused.cause part.keeper refused.part.keeper) }
    ensures few { IfErr result (λ refused. length refused.part.desks ≤ desks_each) }
    ensures own { IfErr result (λ refused.
        AreDesksOf K.desk_schedule (K.schedule part.keeper) refused.part.desks) }
{
    let Part { keeper, desks } = part;
    match Replica::open(alloc, keeper) {
        Ok(replica) => add_desks(alloc, replica, desks),
        Err(refused) => {
            let OpenError { cause, keeper } = refused;
            let part = Part { keeper, desks };
            Err(NoPart { cause, part })
        }
    }
}

// Makes the desks of a replica that runs, and seats it.
fn add_desks<K: Keeper>(
    alloc: Global,
    replica: Replica<K>,
    desks: List<K::Desk>,
) -> Result<Opened<K>, NoPart<K>>
    requires no_desks { desks ≡ [] }
    requires no_fuse { K.fuse replica.keeper ≡ None }
    ensures seated { IfOk result (λ opened. IsSeated K.Keeper K.Desk.faults replica opened.seat opened.desks) }
    ensures back { IfErr result (λ refused. IsBack K.Keeper refused.cause replica.keeper refused.part.keeper) }
    ensures few { IfErr result (λ refused. length refused.part.desks ≤ desks_each) }
    ensures own { IfErr result (λ refused.
        AreDesksOf K.desk_schedule (K.schedule replica.keeper) refused.part.desks) }
{
    let mut replica = replica;
    let mut desks = desks.into_vec();
    let made = make_desks(&mut replica, alloc, &mut desks);
    let desks = List::from_vec(desks);
    match made {
        Ok(()) => {
            let held = Held::Up(replica);
            let planted = Plants::new(alloc);
            let seat = Seat { held, planted };
            Ok(Opened { seat, desks })
        }
        Err(cause) => {
            let keeper = replica.stop();
            let part = Part { keeper, desks };
            Err(NoPart { cause, part })
        }
    }
}

// Makes the desks of a replica in a list, which has none, and says why it could not.
#[tactic(auto, using(crate::proofs::StayFacts::of_none))]
fn make_desks<K: Keeper>(
    replica: &mut Replica<K>,
    alloc: Global,
    desks: &mut Vec<K::Desk>,
) -> Result<(), OpenCause>
    requires no_desks { desks.old.items ≡ [] }
    ensures makes { MakesDesks K.Keeper (is_open_fault result) replica.old replica.new }
    ensures new_desks { AreNewDesks K.Keeper K.Desk.faults replica.old.keeper desks.new.items }
    ensures own { AreDesksOf K.desk_schedule (K.schedule replica.old.keeper) desks.new.items }
    ensures many { OnOk result (length desks.new.items ≡ desks_each) }
    ensures few { length desks.new.items ≤ desks_each }
{
    match desks.reserve(DESKS) {
        Ok(()) => fill_desks(replica, alloc, desks),
        Err(_) => Err(OpenCause::Memory),
    }
}

// The same in a list that has the room for them.
fn fill_desks<K: Keeper>(
    replica: &mut Replica<K>,
    alloc: Global,
    desks: &mut Vec<K::Desk>,
) -> Result<(), OpenCause>
    requires no_desks { desks.old.items ≡ [] }
    requires room { vec_len desks.old + DESKS ≤ vec_capacity desks.old }
    ensures makes { MakesDesks K.Keeper (is_open_fault result) replica.old replica.new }
    ensures new_desks { AreNewDesks K.Keeper K.Desk.faults replica.old.keeper desks.new.items }
    ensures own { AreDesksOf K.desk_schedule (K.schedule replica.old.keeper) desks.new.items }
    ensures many { OnOk result (length desks.new.items ≡ desks_each) }
    ensures few { length desks.new.items ≤ desks_each }
{
    for _made in 0..DESKS {
        match replica.desk(alloc) {
            Ok(desk) => desks.push_reserved(desk),
            Err(error) => return Err(cause_of(error)),
        }
    }
    Ok(())
}

// Why a replica that was just opened, and so refuses none, made no desk.
fn cause_of(error: CoreError) -> OpenCause
    ensures { is_fault_cause result ≡ is_fault_kind (kind_of error) }
{
    match error {
        CoreError::KeeperFault => OpenCause::KeeperFault,
        _ => OpenCause::Memory,
    }
}
