//! Parts of a slice of bytes.

ghost use Rattle.std.specs.Prelude.{◌≡◌, ◌+◌, ◌++◌, ◌≤◌, length, take, drop};

/// The bytes after the first `count`.
pub fn after(bytes: &[u8], count: usize) -> &[u8]
    requires { count ≤ length bytes.now }
    ensures { result.now ≡ drop count bytes.now }
{
    &bytes[count..]
}

/// The first `count` bytes.
pub fn before(bytes: &[u8], count: usize) -> &[u8]
    requires { count ≤ length bytes.now }
    ensures { result.now ≡ take count bytes.now }
{
    &bytes[..count]
}

/// The bytes from an offset on, at most `len` of them; none if the offset is past the end.
pub fn part(bytes: &[u8], at: usize, len: usize) -> &[u8]
    ensures value { result.now ≡ take len (drop at bytes.now) }
    ensures short { length result.now ≤ len }
{
    if at > bytes.len() {
        return &[];
    }
    let tail = &bytes[at..];
    if len < tail.len() { &tail[..len] } else { tail }
}

/// Writes a piece over the bytes from `start` on.
#[inline]
pub fn put_over(bytes: &mut [u8], start: usize, piece: &[u8])
    requires { start + length piece.now ≤ length bytes.old }
    ensures { bytes.new ≡ take start bytes.old ++ (piece.now ++ drop (start + length piece.now) bytes.old) }
{
    let over = &mut bytes[start..start + piece.len()];
    over.copy_from_slice(piece);
}
