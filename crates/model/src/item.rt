// The byte that each item of a log begins with. specs/Log.antt has the same for the definitions.
// What the call is answered with: a code, that the caller waits, or that it has exited.
pub const ANSWER: u8 = 0x80;

pub const WAITS: u8 = 0x81;

pub const EXITS: u8 = 0x82;

// A wait that has ended, with its task and code; a message and a block that a task got.
pub const ENDED: u8 = 0x83;

pub const MESSAGE: u8 = 0x84;

pub const BLOCK: u8 = 0x85;

// A script that is too long, and one that stops at an offset.
pub const TOO_LONG: u8 = 0x8d;

pub const STOPS: u8 = 0x8e;

// The task that runs.
pub const RUNS: u8 = 0x8f;
