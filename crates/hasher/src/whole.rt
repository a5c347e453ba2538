// A message that is there whole, in one call.
ghost use Rattle.std.specs.Prelude.{◌≡◌, true, ◌≤◌, length, take};
ghost use Rattle.standard.specs.Chain.{end_state};
ghost use Rattle.standard.specs.Messages.{bytes, partial, given_bits};
ghost use Rattle.standard.specs.Variants.{variant, known};
ghost use Rattle.answers.specs.Refusals.{Done};
ghost use Rattle.answers.specs.Checks.{first_refusal};
ghost use Rattle.answers.specs.Outputs.{max_bytes};
ghost use Rattle.chain.specs.Messages.{number_checks};
ghost use Rattle.chain.specs.MessageBytes.{given};
ghost use Rattle.chain.specs.Splits.{message_held};
ghost use Rattle.hasher.specs.Reading.{result_of, result_size, hash_status, hash_into};

use crate::{checks, results};
use answers::Refusal;
use chain::message::Ending;
use chain::split::Split;
use chain::stretch::Stretch;
use chain::{STATE_BYTES, outcome, padding, sizes, state};
use standard::Wanted;

// What is wanted of a message's end state, at the front of bytes that have room for either. A sponge's padded blocks are
// one run, for which a table is made but once; Lesamnta-LW has a block more after them, and gives its end state out as
// it is.
fn end_of(v: u8, message: Split, wanted: Wanted) -> [u8; STATE_BYTES]
    requires { known v ≡ true }
    ensures { take (result_size (variant v) wanted) result
        ≡ result_of (variant v) wanted
        (end_state (variant v) (message_held message.entry)) }
{
    let count = padding::data_blocks(v, message.bits);
    let start = state::start(v);
    let stretch = Stretch::of(message);
    if sizes::is_sponge(v) {
        return outcome::outcome_after(v, start, stretch, count, wanted);
    }
    let padded = outcome::run_blocks(v, start, stretch, count);
    padding::ended(v, padded, message.bits as u32)
}

// The same of a message as a caller gives it.
fn end_of_given(v: u8, message: &[u8], ending: Ending, wanted: Wanted) -> [u8; STATE_BYTES]
    requires { (known v ≡ true) × (first_refusal (number_checks (given message.now ending)) ≡ Done)
        × (length message.now ≤ max_bytes) }
    ensures { take (result_size (variant v) wanted) result
        ≡ result_of (variant v) wanted
        (end_state (variant v) (given_bits (variant v) (given message.now ending))) }
{
    end_of(v, padding::split_of(v, message, ending), wanted)
}

// What is wanted of a whole message's end state: refusals 1, 15, 4, 5.
pub fn hash_with(
    variant: u32,
    message: &[u8],
    ending: Ending,
    wanted: Wanted,
    out: &mut [u8],
) -> Result<(), Refusal>
    ensures { (result ≡ hash_status variant (given message.now ending) wanted (length out.old))
        × (out.new ≡ hash_into variant (given message.now ending) wanted out.old) }
{
    checks::check_hash(variant, message, ending, wanted, out.len())?;
    let v = variant as u8;
    let result = end_of_given(v, message, ending, wanted);
    octets::copies::copy_front(&result, results::result_size(v, wanted), out);
    Ok(())
}

// A whole message all of whose bits count: refusals 1, 4, 5.
pub fn hash(variant: u32, message: &[u8], wanted: Wanted, out: &mut [u8]) -> Result<(), Refusal>
    ensures { (result ≡ hash_status variant (bytes message.now) wanted (length out.old))
        × (out.new ≡ hash_into variant (bytes message.now) wanted out.old) }
{
    hash_with(variant, message, Ending::Whole, wanted, out)
}

// A whole message whose last byte contributes `bits` bits: refusals 1, 15, 4, 5.
pub fn hash_bits(
    variant: u32,
    message: &[u8],
    bits: u32,
    wanted: Wanted,
    out: &mut [u8],
) -> Result<(), Refusal>
    ensures { (result ≡ hash_status variant (partial message.now bits) wanted (length out.old))
        × (out.new ≡ hash_into variant (partial message.now bits) wanted out.old) }
{
    hash_with(variant, message, Ending::Bits(bits), wanted, out)
}
