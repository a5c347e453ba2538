// Bytes copied over a part of an output.
ghost use Rattle.std.specs.Prelude.{◌≡◌, ◌++◌, ◌+◌, ◌≤◌, length, take, drop};
ghost use Rattle.octets.specs.Slices.{written_at};

// The bytes over the output from a place on. Answers the place after them.
pub fn write_bytes(bytes: &[u8], out: &mut [u8], at: usize) -> usize
    requires { at + length bytes.now ≤ length out.old }
    ensures out_after { out.new ≡ written_at at bytes.now out.old }
    ensures value { result ≡ at + length bytes.now }
{
    let end = at + bytes.len();
    out[at..end].copy_from_slice(bytes);
    end
}

// The first n bytes of s over the front of the output.
pub fn copy_front(s: &[u8], n: usize, out: &mut [u8])
    requires { (n ≤ length s.now) × (n ≤ length out.old) }
    ensures { out.new ≡ take n s.now ++ drop n out.old }
{
    out[..n].copy_from_slice(&s[..n]);
}
