// What refuses the deletion of an object of any kind.
ghost use Rattle.std.specs.Prelude.{ℕ, ◌≡◌, List};
ghost use Rattle.model.specs.Lists.{◌!◌};
ghost use Rattle.model.specs.Number.{numbered_as};
ghost use Rattle.model.specs.Errors.{refusal_of};
ghost use Rattle.model.specs.Refusal.{first_refusal, deletion_refusals};

use model::code::Error;
use model::number::{Number, Object};

// Orders 5 and 6: the field names no object, or none that exists, by the entries that are 0 where there is none.
pub fn refuse_deletion<K: Object, F: Fn(Number<K>) -> u32>(n: i32, exists: F) -> Result<(), Error>
    ghost entries: { List ℕ }
    requires can { (m : ℕ) → F.pre exists (numbered_as m) }
    requires tells { (m r : ℕ) → F.post exists (numbered_as m) r → r ≡ entries ! m }
    ensures { refusal_of result ≡ first_refusal (deletion_refusals K.LAST entries n) }
{
    let Some(number) = Number::from_field(n) else {
        return Err(Error::Id);
    };
    if exists(number) == 0 {
        return Err(Error::Noexs);
    }
    Ok(())
}
