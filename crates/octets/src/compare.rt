// Comparisons of numbers and of bytes.
ghost use Rattle.std.specs.Prelude.{◌≡◌, min, length, drop};
ghost use Rattle.octets.specs.Slices.{same, zeros};

// The smaller of two numbers.
pub fn min(a: usize, b: usize) -> usize
    ensures { result ≡ min a b }
{
    a.min(b)
}

// Whether two slices of the same length hold the same bytes.
pub fn is_same(a: &[u8], b: &[u8]) -> bool
    requires { length a.now ≡ length b.now }
    ensures { result ≡ same a.now b.now }
{
    a == b
}

// Whether every byte from k on is zero.
pub fn zero_from(bytes: &[u8], k: usize) -> bool
    ensures { result ≡ zeros (drop k bytes.now) }
{
    bytes.iter().skip(k).all(|b| *b == 0)
}
