// Numbers in bytes, the least byte first, wherever they lie.
ghost use Rattle.std.specs.Prelude.{◌≡◌};
ghost use Rattle.model.specs.Lists.{◌!◌};
ghost use Rattle.model.specs.Code.{number4};

// The byte at a place, 0 beyond the end.
pub fn byte(s: &[u8], at: usize) -> u8
    ensures { result ≡ s.now ! at }
{
    if at < s.len() { s[at] } else { 0 }
}

// Four bytes as a number.
pub fn number4(a: u8, b: u8, c: u8, d: u8) -> u32
    ensures { result ≡ number4 a b c d }
{
    a as u32 + b as u32 * 256 + c as u32 * 65536 + d as u32 * 16777216
}
