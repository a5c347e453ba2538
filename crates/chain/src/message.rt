// A message that may end inside a byte: whether it may be taken, and which bits of its last byte count.
ghost use Rattle.std.specs.Prelude.{◌≡◌, true, false, ◌++◌, ◌-◌, ◌^◌, ◌≤◌, ◌<◌, replicate};
ghost use Rattle.standard.specs.Bits.{high_first, bits_of};
ghost use Rattle.standard.specs.Messages.{counted_of};
ghost use Rattle.standard.specs.Variants.{variant, known};
ghost use Rattle.answers.specs.Checks.{first_refusal};
ghost use Rattle.chain.specs.Messages.{is_bit_number, number_checks, message_checks};
ghost use Rattle.chain.specs.MessageBytes.{given, count_of};

use crate::sizes;
use crate::sizes::Family;
use answers::{MAX_MESSAGE_BYTES, Refusal};

// Whether the last of n bytes may be said to contribute `bits` bits.
pub fn is_bit_number(bits: u32, n: usize) -> bool
    ensures { result ≡ is_bit_number bits n }
{
    n > 0 && matches!(bits, 1..=8)
}

// Which bits of a message's last byte count: all of them, or as many as are said. It has the shape of an Option, but a
// `None` would read as if no bit counted.
#[derive(Clone, Copy, PartialEq, Eq)]
pub enum Ending {
    Whole,
    Bits(u32),
}

// Whether the bit number, if one is given, fits the bytes: refusal 15.
pub fn check_number(message: &[u8], ending: Ending) -> Result<(), Refusal>
    ensures { result ≡ first_refusal (number_checks (given message.now ending)) }
{
    match ending {
        Ending::Bits(k) if !is_bit_number(k, message.len()) => Err(Refusal::BadBitNumber),
        Ending::Whole | Ending::Bits(_) => Ok(()),
    }
}

// Whether a whole message may be taken: refusals 1, 15, 4.
pub fn check_message(variant: u32, message: &[u8], ending: Ending) -> Result<(), Refusal>
    ensures { result ≡ first_refusal (message_checks variant (given message.now ending)) }
{
    if !sizes::is_known(variant) {
        return Err(Refusal::UnknownVariant);
    }
    check_number(message, ending)?;
    // Bits pass their limit exactly when bytes pass theirs.
    if MAX_MESSAGE_BYTES < message.len() {
        return Err(Refusal::TooLong);
    }
    Ok(())
}

// The number that the k counting bits of a byte make: the low ones in SPONGENT, the high ones in the others.
pub fn counted(v: u8, b: u8, k: usize) -> u32
    requires { (known v ≡ true) × (k ≤ 8) }
    ensures { (result ≡ counted_of (variant v).family k b) × (result < 2 ^ k) }
{
    let x = u32::from(b);
    match sizes::family_of(v) {
        Family::Spongent => x % (1 << k),
        Family::Photon | Family::Lesamnta => x >> (8 - k),
    }
}

// A byte with its counting bits at the high end, and zeros after them.
pub fn counted_byte(v: u8, b: u8, k: usize) -> u8
    requires { (known v ≡ true) × (k ≤ 8) }
    ensures { bits_of high_first 8 result
        ≡ bits_of high_first k (counted_of (variant v).family k b) ++ replicate (8 - k) false }
{
    (counted(v, b, k) << (8 - k)) as u8
}

// How many bits of the last byte count.
pub fn count_of(ending: Ending) -> u32
    ensures { result ≡ count_of ending }
{
    match ending {
        Ending::Whole => 8,
        Ending::Bits(k) => k,
    }
}
