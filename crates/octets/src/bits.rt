// Tests of the bits of bytes.
ghost use Rattle.std.specs.Prelude.{◌≡◌, drop};
ghost use Rattle.standard.specs.Bits.{high_first, bits_in};
ghost use Rattle.standard.specs.Layout.{clear};

use crate::compare;

// Whether no bit from bit c on is set, a byte's highest bit first.
pub fn clear_from(bytes: &[u8], c: usize) -> bool
    ensures { result ≡ clear (drop c (bits_in high_first bytes.now)) }
{
    let k = c / 8;
    let Some(&first) = bytes.get(k) else {
        return true;
    };
    u32::from(first) % (1 << (8 - c % 8)) == 0 && compare::zero_from(bytes, k + 1)
}
