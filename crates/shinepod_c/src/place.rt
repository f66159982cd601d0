// Where a message lies, as numbers for C: specs/Shown.antt has the number of each case.
ghost use Rattle.std.specs.Prelude.{◌≡◌, pred};
ghost use Rattle.shinepod_c.specs.Shown.{area_of, start_of};

use message::next::Location;
use model::sizes::{MESSAGE_BYTES, REGION_BYTES};

// There is no message.
pub const NOWHERE: u32 = 0;

// It lies in the store.
pub const IN_STORE: u32 = 1;

// It lies in the outbox.
pub const IN_OUTBOX: u32 = 2;

// A stored message lies behind the bytes of its length.
const LENGTH_BYTES: usize = 4;

pub fn area_of(at: Location) -> u32
    ensures { result ≡ area_of at }
{
    match at {
        Location::Stored(b) => IN_STORE,
        Location::Sent(t, n) => IN_OUTBOX,
        Location::Nowhere => NOWHERE,
    }
}

// How many parts of an area lie before part n.
fn parts_before(n: u32) -> usize
    ensures { result ≡ pred n }
{
    if n == 0 { 0 } else { (n - 1) as usize }
}

pub fn start_of(at: Location) -> usize
    ensures { result ≡ start_of at }
{
    match at {
        Location::Stored(b) => parts_before(b.word()) * REGION_BYTES + LENGTH_BYTES,
        Location::Sent(t, n) => parts_before(t.word()) * MESSAGE_BYTES,
        Location::Nowhere => 0,
    }
}
