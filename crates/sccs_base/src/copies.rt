ghost use Rattle.std.specs.Prelude.{◌≡◌, ◌≤◌, ◌⊎◌, ◌++◌, length, take, drop};

// Copies as long a prefix of one slice as fits into the other, and answers how much.
pub fn copy_front(from: &[u8], into: &mut [u8]) -> usize
    ensures bound { result ≤ length into.old }
    ensures all { (result ≡ length from.now) ⊎ (result ≡ length into.old) }
    ensures within { result ≤ length from.now }
    ensures moved { into.new ≡ take result from.now ++ drop result into.old }
{
    let n = from.len().min(into.len());
    into[..n].copy_from_slice(&from[..n]);
    n
}
