// A text, line by line.
ghost use Rattle.std.specs.Prelude.{◌≡◌, length};
ghost use Rattle.model.specs.Sizes.{script_bytes};
ghost use Rattle.assemble.specs.Assembled.{assembled, Assembles};

use super::line::assemble_line;
use super::reason::Reason;

// A line that is wrong, counted from 1, and why.
#[derive(Clone, Copy)]
pub struct WrongLine {
    pub line: usize,
    pub reason: Reason,
}

// How long the script is that stands in front of the area.
pub(crate) fn assemble(text: &[u8], script: &mut [u8]) -> Result<usize, WrongLine>
    requires { length script.old ≡ script_bytes }
    ensures { Assembles (assembled text.now) script.new result }
{
    let mut end = 0;
    for (i, line) in text.split(|c| *c == b'\n').enumerate() {
        end = assemble_line(script, end, line).map_err(|reason| WrongLine {
            line: i + 1,
            reason,
        })?;
    }
    Ok(end)
}
