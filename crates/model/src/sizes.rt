// The sizes of document 01's first table. specs/Sizes.antt has the same numbers for the definitions: a function whose
// contract cites a size there and whose code uses another one here is refused.

// Objects are numbered from 1; 0 stands for none.
pub const TASKS: u32 = 16;

pub const MUTEXES: u32 = 8;

pub const BUFFERS: u32 = 4;

pub const POOLS: u32 = 4;

// A queue has a place for every task.
pub const PLACES: usize = TASKS as usize;

// Priorities are 1 to this, 1 the most urgent.
pub const PRIORITIES: u32 = 16;

// A message is 1 to this many bytes; a send's record always carries as many.
pub const MESSAGE_BYTES: usize = 32;

// A buffer's region of the store, and the store: the regions in order.
pub const REGION_BYTES: usize = 256;

pub const STORE_BYTES: usize = BUFFERS as usize * REGION_BYTES;

// The outbox: a part for each task, in order.
pub const OUTBOX_BYTES: usize = TASKS as usize * MESSAGE_BYTES;

// A pool has 1 to BLOCKS blocks of 1 to BLOCK_BYTES bytes; all live pools together at most POOL_BYTES.
pub const BLOCKS: u32 = 16;

pub const BLOCK_BYTES: u32 = 256;

pub const POOL_BYTES: u32 = 4096;

// The area for the log of one record, and the longest script.
pub const LOG_BYTES: usize = 512;

pub const SCRIPT_BYTES: usize = 16384;

// The largest signed number of 32 bits, the most milliseconds that a timeout can ask for; and the word of the state for a wait without
// end, the largest word.
pub const LONGEST: u32 = 0x7fff_ffff;

pub const LARGEST_WORD: u32 = 0xffff_ffff;

pub const ENDLESS: u32 = LARGEST_WORD;
