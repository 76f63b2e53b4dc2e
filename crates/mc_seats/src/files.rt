// CARv1 files of the replica in a seat.
ghost use Rattle.std.specs.Prelude.{◌≡◌};
ghost use Rattle.mc_seats.specs.Effects.{import_reply};
ghost use Rattle.mc_seats.specs.Words.{ExportActs, ImportActs};

use crate::ActError;
use crate::calls::early_answer;
use crate::replies::answer;
use crate::seat::{Held, Seat};
use mc_base::Bytes;
use mc_files::{Imported, export, import};
use mc_keep::Keeper;
use mc_script::Reply;
use std::alloc::Global;

/// The file of what the replica in a seat has processed, or how many heads it has, where a file can't have so many
/// roots.
pub fn export_at<K: Keeper>(
    seat: &mut Seat<K>,
    alloc: Global,
) -> Result<Result<Result<Bytes, u64>, Reply>, ActError>
    ensures acts { ExportActs K.Keeper result seat.old seat.new }
{
    match &mut seat.held {
        Held::Up(replica) => match export(replica, alloc) {
            Ok(said) => Ok(Ok(said)),
            Err(error) => early_answer(error),
        },
        Held::Down(_) => Ok(Err(Reply::Stopped)),
    }
}

/// The replica in a seat takes a file in: its blocks are stored, and its roots heard.
pub fn import_at<K: Keeper>(
    seat: &mut Seat<K>,
    alloc: Global,
    file: &[u8],
) -> Result<Reply, ActError>
    ensures acts { ImportActs K.Keeper file.now result seat.old seat.new }
{
    match &mut seat.held {
        Held::Up(replica) => match import(replica, alloc, file) {
            Ok(said) => Ok(import_reply(said)),
            Err(error) => answer(error),
        },
        Held::Down(_) => Ok(Reply::Stopped),
    }
}

// The reply to an import that was not cut short.
fn import_reply(said: Result<Imported, u64>) -> Reply
    ensures { result ≡ import_reply said }
{
    match said {
        Ok(imported) => Reply::Imported {
            stored: imported.stored,
            queued: imported.queued,
        },
        Err(number) => Reply::RefusedCar { number },
    }
}
