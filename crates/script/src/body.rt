// A record's body by its kind: the fields, and then the message. The lengths are those of the table of kinds.
ghost use Rattle.std.specs.Prelude.{◌≡◌};
ghost use Rattle.script.specs.Body.{body_parts};

use model::kind::{SND_MBF, body_length};
use model::sizes::MESSAGE_BYTES;

// How many bytes of a body are fields, and how many are the message.
#[derive(Clone, Copy)]
pub struct Body {
    pub fields: usize,
    pub message: usize,
}

// None where no record has the kind.
pub fn body_parts(kind: u8) -> Option<Body>
    ensures { result ≡ body_parts kind }
{
    let length = body_length(kind)?;
    // the one kind that carries a message
    let message = if kind == SND_MBF { MESSAGE_BYTES } else { 0 };
    Some(Body {
        fields: length - message,
        message,
    })
}
