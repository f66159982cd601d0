// Which function a call has: the one that finds its first refusal, and the one that carries it out.
ghost use Rattle.std.specs.Prelude.{◌≤◌, ◌≡◌};
ghost use Rattle.model.specs.Number.{maybe_task};
ghost use Rattle.model.specs.World.{running};
ghost use Rattle.model.specs.Refusal.{first_refusal, refusals};
ghost use Rattle.model.specs.Effect.{perform};
ghost use Rattle.model.specs.Errors.{refusal_of};
ghost use Rattle.model.specs.Words.{kernel};
ghost use Rattle.act.specs.Held.{areas};
ghost use Rattle.reply.specs.Replies.{Carries};
ghost use Rattle.call.specs.Steps.{Allowed, is_tick};

use buffer::create::{cre_mbf, refuse_cre_mbf};
use buffer::delete::{del_mbf, refuse_del_mbf};
use buffer::receive::{rcv_mbf, refuse_rcv_mbf};
use buffer::send::{refuse_snd_mbf, snd_mbf};
use model::call::Call;
use model::code::Error;
use model::number::TaskNumber;
use mutex::create::{cre_mtx, refuse_cre_mtx};
use mutex::delete::{del_mtx, refuse_del_mtx};
use mutex::lock::{loc_mtx, refuse_loc_mtx};
use mutex::unlock::{refuse_unl_mtx, unl_mtx};
use pool::create::{cre_mpf, refuse_cre_mpf};
use pool::delete::{del_mpf, refuse_del_mpf};
use pool::get::{get_mpf, refuse_get_mpf};
use pool::release::{refuse_rel_mpf, rel_mpf};
use reply::Reply;
use state::layout::Words;
use task::change::{chg_pri, refuse_chg_pri};
use task::create::{cre_tsk, del_tsk, refuse_cre_tsk, refuse_not_dormant};
use task::run::{ext_tsk, refuse_ter_tsk, sta_tsk, ter_tsk};
use time::tick;

// The refusals of a call where a task runs. A function for each call, so it is as long as the table.
fn refuse_made(state: &Words, caller: TaskNumber, call: Call, message: &[u8]) -> Result<(), Error>
    requires caller_value { caller.0 ≡ running (kernel state.now) }
    requires le_caller { 1 ≤ caller.0 }
    ensures { refusal_of result ≡ first_refusal (refusals (kernel state.now) call message.now) }
{
    match call {
        Call::CreTsk { priority } => refuse_cre_tsk(state, priority),
        Call::DelTsk { task } => refuse_not_dormant(state, task),
        Call::StaTsk { task } => refuse_not_dormant(state, task),
        Call::ExtTsk => Ok(()),
        Call::TerTsk { task } => refuse_ter_tsk(state, caller, task),
        Call::ChgPri { task, priority } => refuse_chg_pri(state, caller, task, priority),
        Call::CreMtx { attribute, ceiling } => refuse_cre_mtx(state, attribute, ceiling),
        Call::DelMtx { mutex } => refuse_del_mtx(state, mutex),
        Call::LocMtx { mutex, timeout } => refuse_loc_mtx(state, caller, mutex, timeout),
        Call::UnlMtx { mutex } => refuse_unl_mtx(state, caller, mutex),
        Call::CreMbf {
            attribute,
            bufsz,
            maxmsz,
        } => refuse_cre_mbf(state, attribute, bufsz, maxmsz),
        Call::DelMbf { buffer } => refuse_del_mbf(state, buffer),
        Call::SndMbf {
            buffer,
            msgsz,
            timeout,
        } => refuse_snd_mbf(state, caller, buffer, msgsz, timeout, message),
        Call::RcvMbf { buffer, timeout } => refuse_rcv_mbf(state, buffer, timeout),
        Call::CreMpf {
            attribute,
            count,
            size,
        } => refuse_cre_mpf(state, attribute, count, size),
        Call::DelMpf { pool } => refuse_del_mpf(state, pool),
        Call::GetMpf { pool, timeout } => refuse_get_mpf(state, pool, timeout),
        Call::RelMpf { pool, block } => refuse_rel_mpf(state, pool, block),
        Call::Tick => Ok(()),
    }
}

// Whether a call is a tick, which no task makes.
fn is_tick(call: Call) -> bool
    ensures { result ≡ is_tick call }
{
    match call {
        Call::Tick => true,
        _ => false,
    }
}

// Order 2: "no task runs and the call is not tick"; then the call's own.
pub(crate) fn refuse(
    state: &Words,
    caller: Option<TaskNumber>,
    call: Call,
    message: &[u8],
) -> Result<(), Error>
    requires { caller ≡ maybe_task (running (kernel state.now)) }
    ensures { refusal_of result ≡ first_refusal (refusals (kernel state.now) call message.now) }
{
    let Some(t) = caller else {
        if is_tick(call) {
            return Ok(());
        }
        return Err(Error::Ctx);
    };
    refuse_made(state, t, call, message)
}

// The effect of a call where a task runs. It is as long as the table of calls.
fn perform_made(
    state: &mut Words,
    store: &mut [u8],
    outbox: &mut [u8],
    log: &mut [u8],
    caller: TaskNumber,
    call: Call,
    message: &[u8],
) -> Reply
    requires allowed { Allowed (areas state.old store.old outbox.old log.old) call message.now }
    requires caller_value { caller.0 ≡ running (kernel state.old) }
    requires le_caller { 1 ≤ caller.0 }
    ensures { Carries caller.0 (λ w. perform w call message.now) (areas state.old store.old outbox.old log.old) 0 (areas state.new store.new outbox.new log.new) result }
{
    match call {
        Call::CreTsk { priority } => cre_tsk(state, log, 0, caller, priority),
        Call::DelTsk { task } => del_tsk(state, log, 0, caller, task),
        Call::StaTsk { task } => sta_tsk(state, log, 0, caller, task),
        Call::ExtTsk => ext_tsk(state, outbox, log, 0, caller),
        Call::TerTsk { task } => ter_tsk(state, outbox, log, 0, caller, task),
        Call::ChgPri { task, priority } => chg_pri(state, log, 0, caller, task, priority),
        Call::CreMtx { attribute, ceiling } => cre_mtx(state, log, 0, caller, attribute, ceiling),
        Call::DelMtx { mutex } => del_mtx(state, outbox, log, 0, caller, mutex),
        Call::LocMtx { mutex, timeout } => loc_mtx(state, log, 0, caller, mutex, timeout),
        Call::UnlMtx { mutex } => unl_mtx(state, outbox, log, 0, caller, mutex),
        Call::CreMbf {
            attribute,
            bufsz,
            maxmsz,
        } => cre_mbf(state, log, 0, caller, attribute, bufsz, maxmsz),
        Call::DelMbf { buffer } => del_mbf(state, store, outbox, log, 0, caller, buffer),
        Call::SndMbf {
            buffer,
            msgsz,
            timeout,
        } => snd_mbf(
            state, store, outbox, log, 0, caller, buffer, msgsz, timeout, message,
        ),
        Call::RcvMbf { buffer, timeout } => rcv_mbf(
            state, store, outbox, log, 0, caller, buffer, timeout,
        ),
        Call::CreMpf {
            attribute,
            count,
            size,
        } => cre_mpf(state, log, 0, caller, attribute, count, size),
        Call::DelMpf { pool } => del_mpf(state, outbox, log, 0, caller, pool),
        Call::GetMpf { pool, timeout } => get_mpf(state, log, 0, caller, pool, timeout),
        Call::RelMpf { pool, block } => rel_mpf(state, outbox, log, 0, caller, pool, block),
        Call::Tick => tick(state, outbox, log, 0),
    }
}

// Where no task runs, the call is a tick: every other is refused.
pub(crate) fn carry_out(
    state: &mut Words,
    store: &mut [u8],
    outbox: &mut [u8],
    log: &mut [u8],
    caller: Option<TaskNumber>,
    call: Call,
    message: &[u8],
) -> Reply
    requires allowed { Allowed (areas state.old store.old outbox.old log.old) call message.now }
    requires caller_value { caller ≡ maybe_task (running (kernel state.old)) }
    ensures { Carries (running (kernel state.old)) (λ w. perform w call message.now) (areas state.old store.old outbox.old log.old) 0 (areas state.new store.new outbox.new log.new) result }
{
    let Some(t) = caller else {
        return tick(state, outbox, log, 0);
    };
    perform_made(state, store, outbox, log, t, call, message)
}
