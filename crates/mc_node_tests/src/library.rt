// The worked example of docs/LIBRARY.md: one replica writes, and a second one hears of it, fetches the block and reads the
// value.
ghost use Rattle.std.specs.Prelude.{IfOk, IfSome};
ghost use Rattle.mc_model.specs.State.{HasSoundMark};
ghost use Rattle.mc_keep_mem.specs.Fits.{kept_in};

use mc_base::{Bytes, List};
use mc_core::{CoreError, Replica};
use mc_drain::{WorkError, work};
use mc_fetch::{PeerFetch, PeerView, Plants};
use mc_keep::Keeper;
use mc_keep_mem::{FaultPlan, MemKeeper};
use std::alloc::{AllocError, Global};
use std::sync::Wait;
use std::test::Fail;

// A value goes from one replica to another, over any keepers.
fn replicate<K: Keeper + Drop, W: Wait>(
    alloc: Global,
    first: K,
    second: K,
    wait: &W,
) -> Result<Option<Bytes>, Failed>
where
    K::Desk: Drop,
    requires first { IfSome (K.told first) HasSoundMark }
    requires second { IfSome (K.told second) HasSoundMark }
{
    let mut writer = open(alloc, first)?;
    let mut reader = open(alloc, second)?;
    writer.put(alloc, "/fruit/apple", b"red")?;
    reader.hear(alloc, writer.cast(alloc)?.as_slice())?;
    pull(alloc, &mut reader, &mut writer, wait)?;
    Ok(reader.get(alloc, "/fruit/apple")?)
}

// Fetches what the reader wants from the writer, and processes it.
fn pull<K: Keeper + Drop, W: Wait>(
    alloc: Global,
    reader: &mut Replica<K>,
    writer: &mut Replica<K>,
    wait: &W,
) -> Result<(), Failed>
where
    K::Desk: Drop,
{
    let planted = Plants::new(alloc);
    let desk = writer.desk(alloc)?;
    let mut peers = Vec::with_capacity(alloc, 1)?;
    peers.push_reserved(PeerView {
        keeper: writer.keeper(),
        desk,
        planted: &planted,
    });
    let mut fetch = PeerFetch::new(List::from_vec(peers));
    work(alloc, reader, &mut fetch, 100, wait)?;
    Ok(())
}

// A replica over a keeper.
fn open<K: Keeper + Drop>(alloc: Global, keeper: K) -> Result<Replica<K>, Failed>
    requires { IfSome (K.told keeper) HasSoundMark }
{
    match Replica::open(alloc, keeper) {
        Ok(replica) => Ok(replica),
        Err(_refused) => Err(Failed),
    }
}

// Any of the calls was refused.
#[derive(Clone, Copy)]
struct Failed;

impl From<CoreError> for Failed {
    fn from(_: CoreError) -> Failed {
        Failed
    }
}

impl From<WorkError> for Failed {
    fn from(_: WorkError) -> Failed {
        Failed
    }
}

impl From<AllocError> for Failed {
    fn from(_: AllocError) -> Failed {
        Failed
    }
}

// Whether the value is read so over two keepers, where there was memory for both.
fn reads<K: Keeper + Drop, W: Wait>(
    alloc: Global,
    first: Result<K, AllocError>,
    second: Result<K, AllocError>,
    value: &[u8],
    wait: &W,
) -> Result<bool, Failed>
where
    K::Desk: Drop,
    requires first { IfOk first (λ keeper. IfSome (K.told keeper) HasSoundMark) }
    requires second { IfOk second (λ keeper. IfSome (K.told keeper) HasSoundMark) }
{
    match replicate(alloc, first?, second?, wait)? {
        Some(read) => Ok(read.as_slice() == value),
        None => Ok(false),
    }
}

// A keeper in memory that never fails.
fn in_memory(alloc: Global) -> Result<MemKeeper, AllocError>
    ensures { IfOk result (λ keeper. HasSoundMark (kept_in keeper.store.tables)) }
{
    Ok(MemKeeper::new(alloc, FaultPlan::nothing(alloc))?)
}

#[test]
fn a_value_goes_from_one_replica_to_another(rt: HostRuntime) {
    let alloc = rt.alloc();
    let read = reads(alloc, in_memory(alloc), in_memory(alloc), b"red", &rt);
    assert!(rt; matches!(read, Ok(true)));
}
