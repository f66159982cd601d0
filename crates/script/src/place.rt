// A part of a slice at a place, wherever the place is, and bytes written there, whole or not at all.
ghost use Rattle.std.specs.Prelude.{◌≡◌, ◌++◌, take, drop};
ghost use Rattle.script.specs.Place;

// At most n bytes from a place on: fewer near the end, none beyond it.
pub fn part(s: &[u8], at: usize, n: usize) -> &[u8]
    ensures { result.now ≡ take n (drop at s.now) }
{
    let start = at.min(s.len());
    let end = start + n.min(s.len() - start);
    &s[start..end]
}

// There is room for n bytes from a place on.
pub fn room(size: usize, at: usize, n: usize) -> bool
    ensures { result ≡ Place.room size at n }
{
    n <= size && at <= size - n
}

// The bytes at a place, where there is room for all of them; the answer is the place after them.
pub fn put(area: &mut [u8], at: usize, bytes: &[u8]) -> usize
    ensures { Place.Appends area.old at bytes.now area.new result }
{
    if !room(area.len(), at, bytes.len()) {
        return at;
    }
    // byte by byte: `copy_from_slice` becomes a call of memmove, which the archives for C do without
    for (i, byte) in bytes.iter().enumerate() {
        area[at + i] = *byte;
    }
    at + bytes.len()
}

// Two runs of bytes as one: where there is no room for both, neither is written.
pub fn put_two(area: &mut [u8], at: usize, first: &[u8], second: &[u8]) -> usize
    ensures { Place.Appends area.old at (first.now ++ second.now) area.new result }
{
    if !room(area.len(), at, first.len() + second.len()) {
        return at;
    }
    let next = put(area, at, first);
    put(area, next, second)
}
