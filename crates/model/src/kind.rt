// The kinds of records, and the table of body lengths by the kind byte. Reader and writer cite both.
ghost use Rattle.std.specs.Prelude.{◌≡◌, ◌<◌};
ghost use Rattle.model.specs.Record.{kind_count, body_length, body_entry};

// The kind byte of each call.
pub const CRE_TSK: u8 = 0x01;

pub const DEL_TSK: u8 = 0x02;

pub const STA_TSK: u8 = 0x03;

pub const EXT_TSK: u8 = 0x04;

pub const TER_TSK: u8 = 0x05;

pub const CHG_PRI: u8 = 0x06;

pub const CRE_MTX: u8 = 0x10;

pub const DEL_MTX: u8 = 0x11;

pub const LOC_MTX: u8 = 0x12;

pub const UNL_MTX: u8 = 0x13;

pub const CRE_MBF: u8 = 0x20;

pub const DEL_MBF: u8 = 0x21;

pub const SND_MBF: u8 = 0x22;

pub const RCV_MBF: u8 = 0x23;

pub const CRE_MPF: u8 = 0x30;

pub const DEL_MPF: u8 = 0x31;

pub const GET_MPF: u8 = 0x32;

pub const REL_MPF: u8 = 0x33;

pub const TICK: u8 = 0x40;

// The entry of a kind that no record has.
const NO: u8 = 255;

// The table goes up to the last kind.
const KINDS: u8 = TICK + 1;

const BODIES: [u8; KINDS as usize] = [
    // CRE_TSK, DEL_TSK, STA_TSK, EXT_TSK, TER_TSK and CHG_PRI, behind kind 0
    NO, 4, 4, 4, 0, 4, 8, NO, NO, NO, NO, NO, NO, NO, NO, NO,
    // CRE_MTX, DEL_MTX, LOC_MTX and UNL_MTX
    8, 4, 8, 4, NO, NO, NO, NO, NO, NO, NO, NO, NO, NO, NO, NO,
    // CRE_MBF, DEL_MBF, SND_MBF and RCV_MBF
    12, 4, 44, 8, NO, NO, NO, NO, NO, NO, NO, NO, NO, NO, NO, NO,
    // CRE_MPF, DEL_MPF, GET_MPF and REL_MPF
    12, 4, 8, 8, NO, NO, NO, NO, NO, NO, NO, NO, NO, NO, NO, NO,
    // TICK
    0,
];

fn entry(kind: usize) -> u8
    requires { kind < kind_count }
    ensures { result ≡ body_entry (body_length kind) }
{
    BODIES[kind]
}

// None where no record has the kind.
pub fn body_length(kind: u8) -> Option<usize>
    ensures { result ≡ body_length kind }
{
    if KINDS <= kind {
        return None;
    }
    let n = entry(kind as usize);
    if n == NO { None } else { Some(n as usize) }
}
