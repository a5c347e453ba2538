// A bit string as the code holds it: held nibbles, a piece and a last byte after it, with zeros past that. The last byte
// is what a caller makes of bits that end inside a byte and of the padding's 1 bit.
ghost use Rattle.std.specs.Prelude.{◌≤◌};

use crate::sizes::BLOCK_BYTES;

// Bits of a message that wait for a block: the first nibbles of the bytes.
#[derive(Clone, Copy)]
pub struct Held {
    pub bytes: [u8; BLOCK_BYTES],
    pub nibbles: usize,
}

#[derive(Clone, Copy)]
pub struct Stretch<'a> {
    pub held: Held,
    pub piece: &'a [u8],
    pub last: u8,
    ghost held_fits: { held.nibbles ≤ 32 },
}
