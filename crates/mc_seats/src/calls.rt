// What a command does at a replica in its seat.
ghost use Rattle.std.specs.Prelude.{◌≡◌, None, true, Ok, IfSome};
ghost use Rattle.mc_core.specs.Counted.{run_of};
ghost use Rattle.mc_core.specs.Replica.{running_of};
ghost use Rattle.mc_model.specs.State.{HasSoundMark};
ghost use Rattle.mc_model.specs.declared.layout.Layout.TheVariants.{Two};
ghost use Rattle.mc_past.specs.Pasts.{PastFits};
ghost use Rattle.mc_script.specs.declared.command.Command.TheVariants.{Plant, State as StateOf};
ghost use Rattle.mc_script.specs.declared.command.Command.TheVariants.{Stop as StopOf, Open as OpenOf};
ghost use Rattle.mc_seats.specs.Calls.{is_call};
ghost use Rattle.mc_seats.specs.Holds.{Opening, SaysState, early_answer, run_in, stop_answer};
ghost use Rattle.mc_seats.specs.Keepers.{keeper_in};
ghost use Rattle.mc_seats.specs.Effects.{answer_of};
ghost use Rattle.mc_seats.specs.Words.{CastActs, HearActs, SeatActs, place};
ghost use Rattle.mc_seats.specs.Worlds.{is_up};

use crate::ActError;
use crate::replies::{answer, call};
use crate::seat::{Held, Seat, rest, wake};
use mc_base::{Bytes, Cid};
use mc_core::{CoreError, OpenError, Replica};
use mc_fetch::Planted;
use mc_keep::Keeper;
use mc_past::Past;
use mc_script::{Command, Reply};
use std::alloc::Global;

/// The numbers of the replica in a seat.
pub fn state_at<K: Keeper>(seat: &mut Seat<K>, r: u64) -> Result<Reply, ActError>
    ensures acts { SeatActs K.Keeper (StateOf r) result seat.old seat.new }
{
    Ok(state_of(&seat.held))
}

// The numbers of what is held at a seat.
fn state_of<K: Keeper>(held: &Held<K>) -> Reply
    ensures { SaysState (K.told (keeper_in held.now)) (run_in held.now) result }
{
    match held {
        Held::Up(replica) => numbers_of(replica),
        Held::Down(_) => Reply::Stopped,
    }
}

// The numbers of a replica.
fn numbers_of<K: Keeper>(replica: &Replica<K>) -> Reply
    ensures { SaysState (K.told replica.now.keeper) (run_of replica.now.stopped (running_of replica.now)) result }
{
    match replica.report() {
        Ok(report) => Reply::State {
            processed: report.processed,
            stored: report.stored,
            waiting: report.counts.waiting,
            missing: report.counts.missing,
            bad: report.counts.bad,
            mark: report.mark,
            whole: report.whole,
        },
        Err(_) => Reply::Stopped,
    }
}

/// A call of the replica in a seat, of whose past `past` is kept.
pub fn call_at<K: Keeper>(
    seat: &mut Seat<K>,
    past: &mut Past,
    alloc: Global,
    command: &Command,
) -> Result<Reply, ActError>
    requires call { is_call command.now ≡ true }
    requires fits { PastFits (place K.Keeper seat.old).content past.old }
    ensures acts { SeatActs K.Keeper command.now result seat.old seat.new }
    ensures fits { PastFits (place K.Keeper seat.old).content past.new }
{
    match &mut seat.held {
        Held::Up(replica) => match call(replica, past, alloc, command) {
            Ok(reply) => Ok(reply),
            Err(error) => answer(error),
        },
        Held::Down(_) => Ok(Reply::Stopped),
    }
}

/// The message of the heads of the replica in a seat.
pub fn cast_at<K: Keeper>(
    seat: &mut Seat<K>,
    alloc: Global,
) -> Result<Result<Bytes, Reply>, ActError>
    ensures acts { CastActs K.Keeper result seat.old seat.new }
{
    match &mut seat.held {
        Held::Up(replica) => match replica.cast(alloc) {
            Ok(bytes) => Ok(Ok(bytes)),
            Err(error) => early_answer(error),
        },
        Held::Down(_) => Ok(Err(Reply::Stopped)),
    }
}

// The reply in place of what was asked for.
pub(crate) fn early_answer<T>(error: CoreError) -> Result<Result<T, Reply>, ActError>
    ensures { result ≡ early_answer (answer_of error) }
{
    match answer(error) {
        Ok(reply) => Ok(Err(reply)),
        Err(error) => Err(error),
    }
}

/// The replica in a seat hears a message.
pub fn hear_at<K: Keeper>(
    seat: &mut Seat<K>,
    alloc: Global,
    message: &[u8],
) -> Result<Reply, ActError>
    ensures acts { HearActs K.Keeper message.now result seat.old seat.new }
{
    match &mut seat.held {
        Held::Up(replica) => match replica.hear(alloc, message) {
            Ok(heard) => Ok(Reply::Queued {
                count: heard.queued,
            }),
            Err(refused) => answer(refused),
        },
        Held::Down(_) => Ok(Reply::Stopped),
    }
}

/// Plants an offer at a seat.
pub fn plant_at<K: Keeper>(
    seat: &mut Seat<K>,
    alloc: Global,
    r: u64,
    cid: &Cid,
    bytes: &[u8],
) -> Result<Reply, ActError>
    ensures acts { SeatActs K.Keeper (Plant r cid.now bytes.now) result seat.old seat.new }
{
    let bytes = Bytes::from_slice(alloc, bytes)?;
    seat.planted.plant(Planted { cid: *cid, bytes })?;
    Ok(Reply::Done)
}

/// Stops the replica in a seat.
pub fn stop_at<K: Keeper>(seat: Seat<K>, r: u64) -> (Seat<K>, Reply)
    ensures acts { SeatActs K.Keeper (StopOf r) (Ok result.1) seat result.0 }
{
    let Seat { held, planted } = seat;
    let reply = stop_answer(&held);
    let held = put_down(held);
    (Seat { held, planted }, reply)
}

// What a stop is answered.
fn stop_answer<K: Keeper>(held: &Held<K>) -> Reply
    ensures { result ≡ stop_answer (run_in held.now) }
{
    if runs(held) {
        return Reply::Done;
    }
    Reply::Stopped
}

// Whether a replica runs.
fn runs<K: Keeper>(held: &Held<K>) -> bool
    ensures { result ≡ is_up (run_in held.now) }
{
    match held {
        Held::Up(replica) => match replica.report() {
            Ok(_) => true,
            Err(_) => false,
        },
        Held::Down(_) => false,
    }
}

// The keeper of what is held, at rest.
fn put_down<K: Keeper>(held: Held<K>) -> Held<K>
    ensures run { run_in result ≡ None }
    ensures keeper { keeper_in result ≡ keeper_in held }
{
    Held::Down(rest(take_out(held)))
}

// The keeper of what is held, whose mark is sound and which has all winner rows.
fn take_out<K: Keeper>(held: Held<K>) -> K
    ensures keeper { result ≡ keeper_in held }
    ensures marked { IfSome (K.told result) HasSoundMark }
    ensures laid { K.layout result ≡ Two }
{
    match held {
        Held::Up(replica) => replica.stop(),
        Held::Down(idle) => wake(idle),
    }
}

/// Opens the replica in a seat, which may run.
pub fn open_at<K: Keeper>(seat: Seat<K>, alloc: Global, r: u64) -> (Seat<K>, Reply)
    ensures acts { SeatActs K.Keeper (OpenOf r) (Ok result.1) seat result.0 }
{
    let Seat { held, planted } = seat;
    if runs(&held) {
        return (Seat { held, planted }, Reply::RefusedOpen);
    }
    let (held, reply) = open_keeper(alloc, take_out(held));
    (Seat { held, planted }, reply)
}

// Opens the replica of a keeper that has all winner rows.
fn open_keeper<K: Keeper>(alloc: Global, keeper: K) -> (Held<K>, Reply)
    requires marked { IfSome (K.told keeper) HasSoundMark }
    requires laid { K.layout keeper ≡ Two }
    ensures { Opening K.Keeper keeper result.0 result.1 }
{
    match Replica::open(alloc, keeper) {
        Ok(replica) => (Held::Up(replica), Reply::Done),
        Err(refused) => {
            let OpenError { cause: _, keeper } = refused;
            (Held::Down(rest(keeper)), Reply::FaultKeeper)
        }
    }
}
