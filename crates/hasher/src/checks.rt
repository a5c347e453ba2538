// The rows of checks of a running hash and of a whole message.
ghost use Rattle.std.specs.Prelude.{◌≡◌, ◌*◌, ◌≤◌};
ghost use Rattle.standard.specs.Variants.{variant};
ghost use Rattle.answers.specs.Checks.{first_refusal};
ghost use Rattle.answers.specs.Outputs.{max_bits};
ghost use Rattle.chain.specs.MessageBytes.{given};
ghost use Rattle.hasher.specs.Running.{open_checks, follow_checks, update_checks};
ghost use Rattle.hasher.specs.Reading.{room_checks, read_status, hash_status};

use crate::{Hasher, results};
use answers::{MAX_MESSAGE_BITS, Refusal};
use chain::message;
use chain::message::Ending;
use standard::Wanted;

// Whether a running hash is open: refusals 2, 3.
pub fn check_open(h: Hasher) -> Result<(), Refusal>
    ensures { result ≡ first_refusal (open_checks h) }
{
    if !crate::is_well_formed(h) {
        return Err(Refusal::Malformed);
    }
    if h.stage == 1 {
        return Err(Refusal::WrongStage);
    }
    Ok(())
}

// Whether `bytes` bytes may follow what was taken: refusals 16, 4.
fn check_follow(h: Hasher, bytes: usize) -> Result<(), Refusal>
    requires { h.total ≤ max_bits }
    ensures { result ≡ first_refusal (follow_checks h (8 * bytes)) }
{
    if h.total % 8 != 0 {
        return Err(Refusal::InsideByte);
    }
    // In bytes: eight times any number of them could pass the word's end.
    let left = (MAX_MESSAGE_BITS - h.total) / 8;
    if (left as usize) < bytes {
        return Err(Refusal::TooLong);
    }
    Ok(())
}

// Whether a piece may come: refusals 2, 3, 15, 16, 4.
pub fn check_update(h: Hasher, piece: &[u8], ending: Ending) -> Result<(), Refusal>
    ensures { result ≡ first_refusal (update_checks h (given piece.now ending)) }
{
    check_open(h)?;
    message::check_number(piece, ending)?;
    // The room left is a multiple of 8, so a partial byte fits exactly when a whole one does.
    check_follow(h, piece.len())
}

// Whether a result has room in `room` bytes: refusal 5.
pub fn check_room(v: u8, wanted: Wanted, room: usize) -> Result<(), Refusal>
    ensures { result ≡ first_refusal (room_checks (variant v) wanted room) }
{
    if room < results::result_size(v, wanted) {
        return Err(Refusal::OutputTooShort);
    }
    Ok(())
}

// Whether a result may be read into n bytes: refusals 2, 3, 5.
pub fn check_read(h: Hasher, wanted: Wanted, n: usize) -> Result<(), Refusal>
    ensures { result ≡ read_status h wanted n }
{
    if !crate::is_well_formed(h) {
        return Err(Refusal::Malformed);
    }
    if h.stage != 1 {
        return Err(Refusal::WrongStage);
    }
    check_room(h.variant, wanted, n)
}

// Whether a message may be hashed into `room` bytes: refusals 1, 15, 4, 5.
pub fn check_hash(
    variant: u32,
    message: &[u8],
    ending: Ending,
    wanted: Wanted,
    room: usize,
) -> Result<(), Refusal>
    ensures { result ≡ hash_status variant (given message.now ending) wanted room }
{
    message::check_message(variant, message, ending)?;
    check_room(variant as u8, wanted, room)
}
