//! The front of a caller's buffer.
ghost use Rattle.std.specs.Prelude.{◌≡◌, length, take, drop};

/// Copies a list to the front of a buffer, as far as it fits.
pub fn put_front<T: Copy>(buffer: &mut [T], whole: &[T])
    ensures front { take (length whole.now) buffer.new ≡ take (length buffer.old) whole.now }
    ensures rest { drop (length whole.now) buffer.new ≡ drop (length whole.now) buffer.old }
{
    let n = whole.len().min(buffer.len());
    buffer[..n].copy_from_slice(&whole[..n]);
}
