// The items of a log, each appended whole at a place of a lent area; the answer is the next place. An item that does not fit
// is left out, and the place stays. These print by themselves: the contracts say each byte, in fixed memory, which Display does not.
ghost use Rattle.std.specs.Prelude.{◌≡◌};
ghost use Rattle.model.specs.Sizes.{message_bytes};
ghost use Rattle.model.specs.Lists.{padded};
ghost use Rattle.model.specs.World.{Message, Block};
ghost use Rattle.model.specs.Number.{task_word};
ghost use Rattle.model.specs.Log.{answer_bytes, ended_bytes, delivery_bytes, runs_bytes, stop_bytes, too_long_bytes};
ghost use Rattle.script.specs.Place.{Appends};
ghost use Rattle.script.specs.Item.{ended_with};

use super::field::{field_bytes, number_bytes};
use super::place::{part, put, put_two};
use model::call::Answer;
use model::item;
use model::number::{TaskNumber, task_byte};
use model::sizes::MESSAGE_BYTES;

// What the call is answered with.
#[tactic(auto, unfolding(model::specs::Log::answer_bytes))]
pub fn log_answer(area: &mut [u8], at: usize, answer: Answer) -> usize
    ensures { Appends area.old at (answer_bytes answer) area.new result }
{
    match answer {
        Answer::Code(code) => put_two(area, at, &[item::ANSWER], &field_bytes(code)),
        Answer::Waits => put(area, at, &[item::WAITS]),
        Answer::Exits => put(area, at, &[item::EXITS]),
    }
}

// A wait that has ended with a code, before what it delivers.
#[tactic(auto, unfolding(model::specs::Log::ended_bytes, model::specs::Log::delivery_bytes))]
pub fn log_ended(area: &mut [u8], at: usize, task: TaskNumber, code: i32) -> usize
    ensures { Appends area.old at (ended_bytes (ended_with task.0 code)) area.new result }
{
    put_two(area, at, &[item::ENDED, task.byte()], &field_bytes(code))
}

// A message in as many bytes as a send's record has, zeros behind it.
fn filled(message: &[u8]) -> [u8; MESSAGE_BYTES]
    ensures { result ≡ padded message_bytes message.now }
{
    let mut bytes = [0u8; MESSAGE_BYTES];
    put(&mut bytes, 0, part(message, 0, MESSAGE_BYTES));
    bytes
}

// A message that a task received.
#[tactic(auto, unfolding(model::specs::Log::delivery_bytes))]
pub fn log_message(area: &mut [u8], at: usize, task: TaskNumber, message: &[u8]) -> usize
    ensures { Appends area.old at (delivery_bytes task.0 (Message message.now)) area.new result }
{
    put_two(area, at, &[item::MESSAGE, task.byte()], &filled(message))
}

// A block that a task got.
#[tactic(auto, unfolding(model::specs::Log::delivery_bytes))]
pub fn log_block(area: &mut [u8], at: usize, task: TaskNumber, block: u32) -> usize
    ensures { Appends area.old at (delivery_bytes task.0 (Block block)) area.new result }
{
    put_two(
        area,
        at,
        &[item::BLOCK, task.byte()],
        &number_bytes(block as usize),
    )
}

// The task that runs, 0 for none.
#[tactic(auto, unfolding(model::specs::Log::runs_bytes))]
pub fn log_runs(area: &mut [u8], at: usize, task: Option<TaskNumber>) -> usize
    ensures { Appends area.old at (runs_bytes (task_word task)) area.new result }
{
    put(area, at, &[item::RUNS, task_byte(task)])
}

// A script that stops at an offset.
pub fn log_stop(area: &mut [u8], at: usize, offset: usize) -> usize
    ensures { Appends area.old at (stop_bytes offset) area.new result }
{
    put_two(area, at, &[item::STOPS], &number_bytes(offset))
}

// A script that is too long.
pub fn log_too_long(area: &mut [u8], at: usize) -> usize
    ensures { Appends area.old at too_long_bytes area.new result }
{
    put(area, at, &[item::TOO_LONG])
}
