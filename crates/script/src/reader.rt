// Records read from a script, wherever a cursor stands in whatever bytes.
ghost use Rattle.std.specs.Prelude.{◌≡◌, [], ◌∷◌};
ghost use Rattle.model.specs.Record.{kinds, read_record, record_message};
ghost use Rattle.script.specs.Body.{call_in, from_mutexes, from_buffers, from_pools};

use super::body::body_parts;
use super::field::field;
use super::place::part;
use model::call::{Call, Cursor, Record, Stop};
use model::kind::{
    CHG_PRI, CRE_MBF, CRE_MPF, CRE_MTX, CRE_TSK, DEL_MBF, DEL_MPF, DEL_MTX, DEL_TSK, EXT_TSK,
    GET_MPF, LOC_MTX, RCV_MBF, REL_MPF, SND_MBF, STA_TSK, TER_TSK, UNL_MTX, body_length,
};

// The record at a cursor: the call, and the place after the record. Where its kind is unknown or its body is cut, or where no byte
// is left, the script stops.
pub fn read_record(script: &[u8], c: Cursor) -> Result<Record, Stop>
    ensures { result ≡ read_record script.now c.at }
{
    let at = c.at;
    let stop = Stop { offset: at };
    let kind = *script.get(at).ok_or(stop)?;
    let length = body_length(kind).ok_or(stop)?;
    let start = at + 1;
    if script.len() - start < length {
        return Err(stop);
    }
    let end = start + length;
    // a field that the body does not have reads as 0, and the kind's call has no use for it
    let body = &script[start..end];
    let call = call_of(kind, field(body, 0), field(body, 1), field(body, 2));
    Ok(Record {
        call,
        next: Cursor { at: end },
    })
}

// The message of the record at a cursor, as it lies in the script: empty where it has none.
pub fn message<'a>(script: &'a [u8], c: Cursor) -> &'a [u8]
    ensures { result.now ≡ record_message script.now c.at }
{
    let Some(&kind) = script.get(c.at) else {
        return &[];
    };
    let Some(body) = body_parts(kind) else {
        return &[];
    };
    part(script, c.at + 1 + body.fields, body.message)
}

// A call by its kind and fields, of which it takes as many as it has; tick where no record has the kind. Here those of tasks, the others
// below: one match of all kinds would be longer than a function may be.
#[tactic(auto, unfolding(crate::specs::Body::call_in, crate::specs::Body::from_mutexes))]
pub fn call_of(kind: u8, a: i32, b: i32, c: i32) -> Call
    ensures { result ≡ call_in kinds kind (a ∷ b ∷ c ∷ []) }
{
    match kind {
        CRE_TSK => Call::CreTsk { priority: a },
        DEL_TSK => Call::DelTsk { task: a },
        STA_TSK => Call::StaTsk { task: a },
        EXT_TSK => Call::ExtTsk,
        TER_TSK => Call::TerTsk { task: a },
        CHG_PRI => Call::ChgPri {
            task: a,
            priority: b,
        },
        _ => mutex_call(kind, a, b, c),
    }
}

#[tactic(auto, unfolding(crate::specs::Body::call_in, crate::specs::Body::from_buffers))]
fn mutex_call(kind: u8, a: i32, b: i32, c: i32) -> Call
    ensures { result ≡ call_in from_mutexes kind (a ∷ b ∷ c ∷ []) }
{
    match kind {
        CRE_MTX => Call::CreMtx {
            attribute: a,
            ceiling: b,
        },
        DEL_MTX => Call::DelMtx { mutex: a },
        LOC_MTX => Call::LocMtx {
            mutex: a,
            timeout: b,
        },
        UNL_MTX => Call::UnlMtx { mutex: a },
        _ => buffer_call(kind, a, b, c),
    }
}

#[tactic(auto, unfolding(crate::specs::Body::call_in, crate::specs::Body::from_pools))]
fn buffer_call(kind: u8, a: i32, b: i32, c: i32) -> Call
    ensures { result ≡ call_in from_buffers kind (a ∷ b ∷ c ∷ []) }
{
    match kind {
        CRE_MBF => Call::CreMbf {
            attribute: a,
            bufsz: b,
            maxmsz: c,
        },
        DEL_MBF => Call::DelMbf { buffer: a },
        SND_MBF => Call::SndMbf {
            buffer: a,
            msgsz: b,
            timeout: c,
        },
        RCV_MBF => Call::RcvMbf {
            buffer: a,
            timeout: b,
        },
        _ => pool_call(kind, a, b, c),
    }
}

#[tactic(auto, unfolding(crate::specs::Body::call_in, crate::specs::Body::from_pools))]
fn pool_call(kind: u8, a: i32, b: i32, c: i32) -> Call
    ensures { result ≡ call_in from_pools kind (a ∷ b ∷ c ∷ []) }
{
    match kind {
        CRE_MPF => Call::CreMpf {
            attribute: a,
            count: b,
            size: c,
        },
        DEL_MPF => Call::DelMpf { pool: a },
        GET_MPF => Call::GetMpf {
            pool: a,
            timeout: b,
        },
        REL_MPF => Call::RelMpf { pool: a, block: b },
        _ => Call::Tick,
    }
}
