// Bytes that are looked at where they lie. What would lie beyond a slice's end is left out, so nothing is asked of the places.
ghost use Rattle.std.specs.Prelude.{◌≡◌, take, drop};
ghost use Rattle.model.specs.Lists.{all_zero};

// Every byte is looked at, also behind one that is not zero: without a way out of the loop many are compared at once.
pub fn all_zero(bytes: &[u8]) -> bool
    ensures { result ≡ all_zero bytes.now }
{
    let mut zero = true;
    for byte in bytes {
        zero &= *byte == 0;
    }
    zero
}

// The first n bytes, and those behind them. `part` of `script` is both in one, but this crate is not built on that one.
pub fn first<'a>(bytes: &'a [u8], n: usize) -> &'a [u8]
    ensures { result.now ≡ take n bytes.now }
{
    &bytes[..n.min(bytes.len())]
}

pub fn behind<'a>(bytes: &'a [u8], n: usize) -> &'a [u8]
    ensures { result.now ≡ drop n bytes.now }
{
    &bytes[n.min(bytes.len())..]
}
