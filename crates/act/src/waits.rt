// Several waits end with one code, in an order that was put down before: a deletion ends its object's waits "in the line order that stood
// when the call began".
ghost use Rattle.model.specs.Sizes.{tasks};
ghost use Rattle.model.specs.Valid.{From};
ghost use Rattle.model.specs.World.{Nothing};
ghost use Rattle.model.specs.Act.{end_wait, end_waits};
ghost use Rattle.order.specs.Order.{Tasks};
ghost use Rattle.act.specs.Held.{DoesInLog};

use super::wait::end_wait;
use model::number::TaskNumber;
use state::layout::Words;

// Ends the wait of the task of a number. Each number that is asked for names one, so the log never goes on for want of one.
fn end_numbered(
    state: &mut Words,
    outbox: &mut [u8],
    log: &mut [u8],
    at: usize,
    n: u32,
    code: i32,
) -> usize
    requires { From 1 tasks n }
    ensures { DoesInLog (λ w. end_wait w n code Nothing) state.old outbox.old log.old at state.new outbox.new log.new result }
{
    let found = TaskNumber::from_word(n);
    let Some(t) = found else {
        return at;
    };
    end_wait(state, outbox, log, at, t, code)
}

pub fn end_waits(
    state: &mut Words,
    outbox: &mut [u8],
    log: &mut [u8],
    at: usize,
    order: &[u32],
    code: i32,
) -> usize
    requires { Tasks order.now }
    ensures { DoesInLog (λ w. end_waits w order.now code) state.old outbox.old log.old at state.new outbox.new log.new result }
{
    let mut next = at;
    for &n in order {
        next = end_numbered(state, outbox, log, next, n, code);
    }
    next
}
