// What a call comes to: what refuses one, and, where it is carried out, its answer and where the log goes on.
#![tactic(auto)]

pub mod deletion;
pub mod field;

use model::call::Answer;

// The answer of a call that is carried out, and the place behind the waits that it has ended.
#[derive(Clone, Copy)]
pub struct Reply {
    pub answer: Answer,
    pub next: usize,
}
