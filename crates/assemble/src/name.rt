// Calls by their names.
ghost use Rattle.std.specs.Prelude.{◌≡◌, bytes_eq};
ghost use Rattle.assemble.specs.Calls.{call_name, kind_named};

use super::word::word;
use model::kind::TICK;
use text::names::template;

#[tactic(auto, unfolding(crate::specs::Calls::call_name))]
fn has_name(name: &[u8], kind: u8) -> bool
    ensures { result ≡ bytes_eq (call_name kind) name.now }
{
    word(template(kind), 0) == name
}

// The kind that a word names.
pub(crate) fn kind_named(name: &[u8]) -> Option<u8>
    ensures { result ≡ kind_named name.now }
{
    (1..=TICK).find(|kind| has_name(name, *kind))
}
