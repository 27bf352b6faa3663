ghost use Rattle.std.specs.Prelude.{◌≡◌, min, length, take};

/// Fills the front of `buffer` with the first of `bytes`, and answers how many.
pub fn fill(buffer: &mut [u8], bytes: &[u8]) -> usize
    ensures count { result ≡ min (length buffer.old) (length bytes.now) }
    ensures prefix { take result buffer.new ≡ take result bytes.now }
{
    let count = buffer.len().min(bytes.len());
    let (prefix, _) = buffer.split_at_mut(count);
    let (given, _) = bytes.split_at(count);
    prefix.copy_from_slice(given);
    count
}
