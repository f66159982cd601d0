// What a message costs in a buffer, and how much room there is for it.
ghost use Rattle.std.specs.Prelude.{◌≡◌, ◌-◌};
ghost use Rattle.model.specs.Code.{saturated};
ghost use Rattle.model.specs.Message.{rounded_up, cost, room};

// How many zeros follow a message of n bytes.
pub(crate) fn padding(n: usize) -> usize
    ensures { result ≡ rounded_up n - n }
{
    (4 - n % 4) % 4
}

// Any length that can stand before a message has a cost, so a damaged region has one too.
#[tactic(auto, unfolding(model::specs::Message::cost))]
pub fn cost(n: u32) -> usize
    ensures { result ≡ cost n }
{
    let length = n as usize;
    4 + length + padding(length)
}

// How many bytes are over, or lacking (below zero), for a message of n bytes behind those used of a buffer: the one place where this is asked.
// Of words that no kernel made the number may need more than 32 bits: the answer is then the nearest, which has its sign.
pub fn room(bufsz: u32, used: u32, n: u32) -> i32
    ensures { result ≡ saturated (room bufsz used n) }
{
    let need = used as usize + cost(n);
    let over = bufsz as i64 - need as i64;
    over.clamp(i32::MIN as i64, i32::MAX as i64) as i32
}
