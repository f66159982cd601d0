// Fields: signed numbers of 32 bits, the least byte first.
ghost use Rattle.std.specs.Prelude.{◌≡◌};
ghost use Rattle.model.specs.Code.{bytes4, code_bytes};
ghost use Rattle.model.specs.Record;

use model::bytes::byte;

// A field of a body by its number. A byte beyond the end reads as 0, so that every body has every field.
pub fn field(body: &[u8], i: usize) -> i32
    ensures { result ≡ Record.field body.now i }
{
    // 4 * i has no room in a usize where i is far beyond the end
    if body.len() / 4 < i {
        return 0;
    }
    let at = 4 * i;
    let low = byte(body, at);
    let second = byte(body, at + 1);
    let third = byte(body, at + 2);
    let high = byte(body, at + 3);
    i32::from_le_bytes([low, second, third, high])
}

// The lowest four bytes of a number.
pub fn number_bytes(n: usize) -> [u8; 4]
    ensures { result ≡ bytes4 n }
{
    let [low, second, third, high, ..] = n.to_le_bytes();
    [low, second, third, high]
}

// The four bytes of a signed number.
pub fn field_bytes(z: i32) -> [u8; 4]
    ensures { result ≡ code_bytes z }
{
    z.to_le_bytes()
}
