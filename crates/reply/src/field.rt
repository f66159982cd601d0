// Conditions of the table of refusals that the fields of a call decide, and numbers as answers.
ghost use Rattle.std.specs.Prelude.{◌<◌, ◌^◌, ◌≡◌, pos};
ghost use Rattle.model.specs.declared.call.Answer.TheVariants.{Code};
ghost use Rattle.model.specs.Refusal.{outside as is_outside, bad_timeout, no_time};

use model::call::Answer;

// A field is below the first number or above the second.
pub fn outside(low: i32, high: i32, field: i32) -> bool
    ensures { result ≡ is_outside low high field }
{
    (field < low) | (high < field)
}

// Order 4: "timeout ≤ -2".
pub fn bad_timeout(timeout: i32) -> bool
    ensures { result ≡ (bad_timeout timeout).applies }
{
    timeout <= -2
}

// Order 11: "timeout 0 and the call would wait".
pub fn no_time(timeout: i32, waits: bool) -> bool
    ensures { result ≡ (no_time timeout waits).applies }
{
    (timeout <= 0) & (0 <= timeout) & waits
}

// A number as a code.
pub fn code(n: u32) -> i32
    requires { n < 2 ^ 31 }
    ensures { result ≡ pos n }
{
    n as i32
}

// "Creations answer the new number, receives the length".
pub fn answer_number(n: u32) -> Answer
    requires { n < 2 ^ 31 }
    ensures { result ≡ Code (pos n) }
{
    Answer::Code(code(n))
}
