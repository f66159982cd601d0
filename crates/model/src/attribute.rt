// Attributes of objects: of a mutex one of the first four, of a buffer one of the first two, of a pool one of these and a protection level.
ghost use Rattle.std.specs.Prelude.{◌≡◌, [], ◌∷◌};
ghost use Rattle.model.specs.Lists.{member};
ghost use Rattle.model.specs.Refusal.{mutex_attributes, buffer_attributes, pool_attributes};

// The queue is in the order of arrival.
pub const BY_ARRIVAL: u32 = 0;

// The queue, of a buffer that of its senders, is by current priority; so are those of the attributes below.
pub const BY_PRIORITY: u32 = 1;

// A mutex: its holder inherits the priorities of those that wait for it.
pub const INHERITS: u32 = 2;

// A mutex: it has a ceiling.
pub const CEILINGED: u32 = 3;

// A pool's protection levels are 0 to 3 times this. They have no effect.
pub const PROTECTION: u32 = 256;

const LEVEL_2: u32 = 2 * PROTECTION;

const LEVEL_3: u32 = 3 * PROTECTION;

// The same, each with a queue by priority.
const LEVEL_1_BY_PRIORITY: u32 = PROTECTION + BY_PRIORITY;

const LEVEL_2_BY_PRIORITY: u32 = LEVEL_2 + BY_PRIORITY;

const LEVEL_3_BY_PRIORITY: u32 = LEVEL_3 + BY_PRIORITY;

// Whether a number is one of four.
fn among(x: u32, a: u32, b: u32, c: u32, d: u32) -> bool
    ensures { result ≡ member x (a ∷ b ∷ c ∷ d ∷ []) }
{
    (x == a) | (x == b) | (x == c) | (x == d)
}

// Whether a mutex, a buffer and a pool can be created with an attribute, and so can have it.
pub fn of_mutex(a: u32) -> bool
    ensures { result ≡ member a mutex_attributes }
{
    among(a, BY_ARRIVAL, BY_PRIORITY, INHERITS, CEILINGED)
}

pub fn of_buffer(a: u32) -> bool
    ensures { result ≡ member a buffer_attributes }
{
    (a == BY_ARRIVAL) | (a == BY_PRIORITY)
}

pub fn of_pool(a: u32) -> bool
    ensures { result ≡ member a pool_attributes }
{
    let low = among(a, BY_ARRIVAL, BY_PRIORITY, PROTECTION, LEVEL_1_BY_PRIORITY);
    let high = among(
        a,
        LEVEL_2,
        LEVEL_2_BY_PRIORITY,
        LEVEL_3,
        LEVEL_3_BY_PRIORITY,
    );
    low | high
}
