// The calls of document 01, a variant each, with the fields of its table. The 32 message bytes of snd_mbf stay beside the
// call, where they lie.
#[derive(Clone, Copy)]
pub enum Call {
    CreTsk {
        priority: i32,
    },
    DelTsk {
        task: i32,
    },
    StaTsk {
        task: i32,
    },
    ExtTsk,
    TerTsk {
        task: i32,
    },
    ChgPri {
        task: i32,
        priority: i32,
    },
    CreMtx {
        attribute: i32,
        ceiling: i32,
    },
    DelMtx {
        mutex: i32,
    },
    LocMtx {
        mutex: i32,
        timeout: i32,
    },
    UnlMtx {
        mutex: i32,
    },
    CreMbf {
        attribute: i32,
        bufsz: i32,
        maxmsz: i32,
    },
    DelMbf {
        buffer: i32,
    },
    SndMbf {
        buffer: i32,
        msgsz: i32,
        timeout: i32,
    },
    RcvMbf {
        buffer: i32,
        timeout: i32,
    },
    CreMpf {
        attribute: i32,
        count: i32,
        size: i32,
    },
    DelMpf {
        pool: i32,
    },
    GetMpf {
        pool: i32,
        timeout: i32,
    },
    RelMpf {
        pool: i32,
        block: i32,
    },
    Tick,
}

// What a call is answered with: a code, that the caller waits, or nothing more, since the caller has exited.
#[derive(Clone, Copy)]
pub enum Answer {
    Code(i32),
    Waits,
    Exits,
}

// A place in a script.
#[derive(Clone, Copy)]
pub struct Cursor {
    pub at: usize,
}

// A record: the call, and the place after the record.
#[derive(Clone, Copy)]
pub struct Record {
    pub call: Call,
    pub next: Cursor,
}

// Where a script stops, since no record can be read there.
#[derive(Clone, Copy)]
pub struct Stop {
    pub offset: usize,
}

// What comes of a script at a place: its record was answered, and the next one stands there; the script is over, at its end or where it
// stops; or nothing was done, because the area for the log has another length than a log's.
#[derive(Clone, Copy)]
pub enum Progress {
    Answered { answer: Answer, next: Cursor },
    Over,
    NoArea,
}
