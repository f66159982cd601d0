// Bytes written into a lent slice. What lies beyond its end is left out, so nothing is asked of the places.
ghost use Rattle.std.specs.Prelude.{◌≡◌, take, drop};
ghost use Rattle.std.proofs.lemmas.List.Edits.{sets};
ghost use Rattle.model.specs.Lists.{zeros};
ghost use Rattle.model.specs.Code.{bytes4};

// A length as it stands before a message: four bytes, the least first.
pub(crate) fn put_length(r: &mut [u8], n: usize)
    ensures { r.new ≡ sets r.old 0 (bytes4 n) }
{
    copy_in(r, 0, &n.to_le_bytes(), 4);
}

// The first n bytes of m from a place on.
pub(crate) fn copy_in(r: &mut [u8], at: usize, m: &[u8], n: usize)
    ensures { r.new ≡ sets r.old at (take n m.now) }
{
    if at < r.len() {
        let count = n.min(m.len()).min(r.len() - at);
        // byte by byte, as `put` of `script` does, for the same reason
        for (i, byte) in m[..count].iter().enumerate() {
            r[at + i] = *byte;
        }
    }
}

// Zeros from a place on.
pub(crate) fn fill_zero(r: &mut [u8], at: usize, n: usize)
    ensures { r.new ≡ sets r.old at (zeros n) }
{
    if at < r.len() {
        let end = at + n.min(r.len() - at);
        r[at..end].fill(0);
    }
}

// The bytes from a place on, moved to the front; those at the end stay as they are.
pub(crate) fn shift(r: &mut [u8], by: usize)
    ensures { r.new ≡ sets r.old 0 (drop by r.old) }
{
    if by < r.len() {
        r.copy_within(by.., 0);
    }
}
