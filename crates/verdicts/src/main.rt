// Reads lent states from standard input and writes for each a line that says whether it is valid. The independent
// program in reference/ makes the states and tells the same.
#![tactic(auto)]

mod frame;
mod words;

// A proved loop has to end, and nothing says that the input does. So its turns are counted, up to a number that no run
// uses up.
fn main() {
    for _ in 0..u64::MAX {
        if !frame::judge() {
            return;
        }
    }
}
