// Padding: the 1 bit after a message's bits, the blocks that a padded message has, and in Lesamnta-LW the last one,
// which has the length.
ghost use Rattle.std.specs.Prelude.{◌≡◌, true, false, cond, [], ◌∷◌, ◌++◌, ◌+◌, ◌-◌, ◌*◌, ◌/◌, ◌%◌, ◌^◌, ◌≤◌, ◌<◌, eqb, length, take, get_or, replicate};
ghost use Rattle.standard.specs.Bits.{high_first, bits_of};
ghost use Rattle.standard.specs.Families.{state_in};
ghost use Rattle.standard.specs.Chain.{run, block_count};
ghost use Rattle.standard.specs.Messages.{given_bits};
ghost use Rattle.standard.specs.Variants.{variant, known};
ghost use Rattle.standard.specs.Layout.{block_room, packed_state, packed_block};
ghost use Rattle.answers.specs.Refusals.{Done};
ghost use Rattle.answers.specs.Checks.{first_refusal};
ghost use Rattle.answers.specs.Outputs.{max_bytes, max_bits};
ghost use Rattle.chain.specs.Holding.{Holds};
ghost use Rattle.chain.specs.Messages.{number_checks};
ghost use Rattle.chain.specs.MessageBytes.{given};
ghost use Rattle.chain.specs.Splits.{message_held};
ghost use Rattle.chain.specs.Padding.{Padded, data_blocks, length_block, length_blocks};

use crate::message::Ending;
use crate::sizes::{BLOCK_BYTES, STATE_BYTES};
use crate::split::Split;
use crate::stretch::{Held, Stretch};
use crate::{message, outcome, sizes};

// The byte after whole bytes: the padding's 1 bit, and zeros.
pub const PADDING_BYTE: u8 = 0x80;

// The k bits of a number at the high end of a byte, the padding's 1 bit, and zeros.
pub fn with_padding_bit(n: u32, k: usize) -> u8
    requires { (k ≤ 7) × (n < 2 ^ k) }
    ensures { bits_of high_first 8 result ≡ bits_of high_first k n ++ true ∷ replicate (7 - k) false }
{
    ((n << (8 - k)) + (1 << (7 - k))) as u8
}

// The byte in which c held bits end, with the padding's 1 bit after them.
pub fn last_byte(held: [u8; BLOCK_BYTES], c: usize) -> u8
    requires { c < 8 * block_room }
    ensures { bits_of high_first 8 result
        ≡ take (c % 8) (bits_of high_first 8 (get_or held (c / 8) 0)) ++ true ∷ replicate (7 - c % 8) false }
{
    let k = c % 8;
    let x = u32::from(held[c / 8]);
    with_padding_bit(x >> (8 - k), k)
}

// A message taken apart at its last byte.
pub fn split_of<'a>(v: u8, message: &'a [u8], ending: Ending) -> Split<'a>
    requires { (known v ≡ true) × (first_refusal (number_checks (given message.now ending)) ≡ Done)
        × (length message.now ≤ max_bytes) }
    ensures front_value { (result.front.now ≡ take (length result.front.now) message.now)
        × (result.bits ≡ length (given_bits (variant v) (given message.now ending))) }
    ensures message_value { message_held result
        ≡ given_bits (variant v) (given message.now ending) }
{
    let n = message.len();
    let k = message::count_of(ending) as usize;
    // A whole last byte leaves no room for the 1 bit, which stands after it.
    if k == 8 {
        return Split {
            front: message,
            last: PADDING_BYTE,
            bits: 8 * n,
        };
    }
    Split {
        front: &message[..n - 1],
        last: with_padding_bit(message::counted(v, message[n - 1], k), k),
        bits: 8 * (n - 1) + k,
    }
}

// The number of blocks up to and including the padding's 1 bit, after `bits` bits. In Lesamnta-LW, if the bits end at a
// block's end, the 1 bit opens the block that has the length and is not counted here.
pub fn data_blocks(v: u8, bits: usize) -> usize
    requires v_value { known v ≡ true }
    requires bits_le_max_bits { bits ≤ max_bits }
    ensures { (result ≡ data_blocks (variant v) bits) × (result ≤ bits + 1) }
{
    if sizes::is_sponge(v) {
        return bits / (sizes::block_bits(v) as usize) + 1;
    }
    bits.div_ceil(128)
}

// The number of blocks of a message of `bits` bits once it is padded.
pub fn block_count(v: u8, bits: usize) -> usize
    requires v_value { known v ≡ true }
    requires bits_le_max_bits { bits ≤ max_bits }
    ensures { result ≡ block_count (variant v) bits }
{
    if sizes::is_sponge(v) {
        return data_blocks(v, bits);
    }
    data_blocks(v, bits) + 1
}

// The padding's 1 bit if a message of `bits` bits fills its blocks, so that no block before the length's has it.
fn first_byte(bits: u32) -> u8
    ensures { result ≡ cond (eqb (bits % 128) 0) 128 0 }
{
    if bits % 128 == 0 {
        return PADDING_BYTE;
    }
    0
}

// The block that has a message's length in bits.
fn length_block(bits: u32) -> [u8; BLOCK_BYTES]
    ensures { result ≡ packed_block (length_block bits) }
{
    let mut out = [0u8; BLOCK_BYTES];
    out[0] = first_byte(bits);
    out[8..].copy_from_slice(&u64::from(bits).to_be_bytes());
    out
}

// The end state of a message of `bits` bits, from the state after the blocks of its bits and the padding's 1 bit.
pub fn ended(v: u8, s: [u8; STATE_BYTES], bits: u32) -> [u8; STATE_BYTES]
    requires v_value { known v ≡ true }
    requires holds { Holds v s }
    ensures { result ≡ packed_state (variant v)
        (run (variant v) (state_in (variant v) s) (length_blocks (variant v) bits)) }
{
    if sizes::is_sponge(v) {
        return s;
    }
    let stretch = Stretch {
        held: Held {
            bytes: length_block(bits),
            nibbles: 32,
        },
        piece: b"",
        last: 0,
    };
    outcome::run_blocks(v, s, stretch, 1)
}
