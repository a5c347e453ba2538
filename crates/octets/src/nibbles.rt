// The nibbles of bytes: the upper one of a byte comes first.
ghost use Rattle.std.specs.Prelude.{◌≡◌, cond, ◌++◌, ◌*◌, ◌%◌, ◌<◌, eqb, length};
ghost use Rattle.standard.specs.Bits.{high_first, bits_of, pack, unpack};
ghost use Rattle.octets.specs.Nibbles.{nibble_of};

// The nibble n of bytes, whose byte n / 2 is x.
pub fn nibble_of(x: u8, n: usize) -> u8
    ensures { result ≡ nibble_of x n }
{
    if n % 2 == 0 { x / 16 } else { x % 16 }
}

// A nibble moved to the place that the nibble n of bytes has in its byte: the upper one if n is even.
fn shifted_nibble(x: u8, n: usize) -> u8
    requires { x < 16 }
    ensures { result ≡ cond (eqb (n % 2) 0) (x * 16) x }
{
    if n % 2 == 0 { x * 16 } else { x }
}

// The nibble x after the first p nibbles, which are all that the bytes hold.
pub fn put_nibble(out: &mut [u8], p: usize, x: u8)
    requires p_bound { (p < 2 * length out.old) × (x < 16) }
    requires out_value { out.old ≡ pack high_first (length out.old) (unpack high_first (4 * p) out.old) }
    ensures { out.new ≡ pack high_first (length out.old)
        (unpack high_first (4 * p) out.old ++ bits_of high_first 4 x) }
{
    out[p / 2] ^= shifted_nibble(x, p);
}
