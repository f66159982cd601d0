// Records written to a lent area, by the same table as they are read.
ghost use Rattle.std.specs.Prelude.{◌≡◌};
ghost use Rattle.script.specs.Write.{call_head, head_bytes, Writes};

use super::body::body_parts;
use super::field::field_bytes;
use super::place::{put_two, room};
use model::call::Call;
use model::kind::{
    CHG_PRI, CRE_MBF, CRE_MPF, CRE_MTX, CRE_TSK, DEL_MBF, DEL_MPF, DEL_MTX, DEL_TSK, EXT_TSK,
    GET_MPF, LOC_MTX, RCV_MBF, REL_MPF, SND_MBF, STA_TSK, TER_TSK, TICK, UNL_MTX,
};

// Why a record is refused. Nothing is written then.
#[derive(Clone, Copy)]
pub enum WriteError {
    NoRoom,
    // the message is not as long as the kind has it
    WrongMessage,
}

// The place after the record.
pub fn write_record(
    area: &mut [u8],
    at: usize,
    call: Call,
    message: &[u8],
) -> Result<usize, WriteError>
    ensures { Writes area.old at call message.now area.new result }
{
    let head = call_head(call);
    // every call's kind is in the table
    let body = body_parts(head.0).ok_or(WriteError::WrongMessage)?;
    if message.len() != body.message {
        return Err(WriteError::WrongMessage);
    }
    let length = 1 + body.fields;
    if !room(area.len(), at, length + message.len()) {
        return Err(WriteError::NoRoom);
    }
    let bytes = head_bytes(head);
    Ok(put_two(area, at, &bytes[..length], message))
}

// A call's kind and fields, 0 for each field fewer than three.
#[derive(Clone, Copy)]
struct Head(u8, i32, i32, i32);

#[tactic(auto, unfolding(crate::specs::Write::call_head, model::specs::Record::kind_of, model::specs::Record::fields_of))]
fn call_head(call: Call) -> Head
    ensures { result ≡ call_head call }
{
    match call {
        Call::CreTsk { priority } => Head(CRE_TSK, priority, 0, 0),
        Call::DelTsk { task } => Head(DEL_TSK, task, 0, 0),
        Call::StaTsk { task } => Head(STA_TSK, task, 0, 0),
        Call::ExtTsk => Head(EXT_TSK, 0, 0, 0),
        Call::TerTsk { task } => Head(TER_TSK, task, 0, 0),
        Call::ChgPri { task, priority } => Head(CHG_PRI, task, priority, 0),
        Call::CreMtx { attribute, ceiling } => Head(CRE_MTX, attribute, ceiling, 0),
        Call::DelMtx { mutex } => Head(DEL_MTX, mutex, 0, 0),
        Call::LocMtx { mutex, timeout } => Head(LOC_MTX, mutex, timeout, 0),
        Call::UnlMtx { mutex } => Head(UNL_MTX, mutex, 0, 0),
        Call::CreMbf {
            attribute,
            bufsz,
            maxmsz,
        } => Head(CRE_MBF, attribute, bufsz, maxmsz),
        Call::DelMbf { buffer } => Head(DEL_MBF, buffer, 0, 0),
        Call::SndMbf {
            buffer,
            msgsz,
            timeout,
        } => Head(SND_MBF, buffer, msgsz, timeout),
        Call::RcvMbf { buffer, timeout } => Head(RCV_MBF, buffer, timeout, 0),
        Call::CreMpf {
            attribute,
            count,
            size,
        } => Head(CRE_MPF, attribute, count, size),
        Call::DelMpf { pool } => Head(DEL_MPF, pool, 0, 0),
        Call::GetMpf { pool, timeout } => Head(GET_MPF, pool, timeout, 0),
        Call::RelMpf { pool, block } => Head(REL_MPF, pool, block, 0),
        Call::Tick => Head(TICK, 0, 0, 0),
    }
}

// The kind and three fields as bytes. A record begins with as many of them as its kind has fields.
fn head_bytes(head: Head) -> [u8; 13]
    ensures { result ≡ head_bytes head }
{
    let a = field_bytes(head.1);
    let b = field_bytes(head.2);
    let c = field_bytes(head.3);
    [
        head.0, a[0], a[1], a[2], a[3], b[0], b[1], b[2], b[3], c[0], c[1], c[2], c[3],
    ]
}
