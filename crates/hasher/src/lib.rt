// The running hash by value: start, update, finish, digest and end state, and the whole message in one call.
#![tactic(auto)]

ghost use Rattle.std.specs.Prelude.{◌≡◌, true};
ghost use Rattle.standard.specs.Variants.{known};
ghost use Rattle.hasher.specs.Running.{held_count, well_formed};

use answers::{MAX_MESSAGE_BITS, Refusal};
use chain::{BLOCK_BYTES, STATE_BYTES};

pub mod checks; // checks.rt: the rows of checks
pub mod results; // results.rt: what is read of a running hash that is closed
pub mod running; // running.rt: start, update and finish
pub mod whole; // whole.rt: a message that is there whole

pub use checks::{check_hash, check_open, check_read, check_room, check_update};
pub use results::{digest, end_state, read, result_size};
pub use running::{finish, start, started_over, update, update_bits, update_with};
pub use whole::{hash, hash_bits, hash_with};

// Any bytes are one. Stage 0 is open, 1 is closed: a number and no enum, since a C caller's bytes may hold any
// (`well_formed`). The total counts bits. The state is an image at the front of its bytes; the held bits are those of
// the message so far that fill no block.
#[repr(C)]
#[derive(Clone, Copy)]
pub struct Hasher {
    pub total: u32,
    pub variant: u8,
    pub stage: u8,
    pub state: [u8; STATE_BYTES],
    pub held: [u8; BLOCK_BYTES],
}

// The answer of a call that gives a running hash: with a refusal, the one that it was given. A running hash comes with
// either answer (`UpdateUnchanged`, `WholeIsPieces`), so that it stands beside the answer and not in its Ok.
#[derive(Clone, Copy)]
pub struct Advanced {
    pub status: Result<(), Refusal>,
    pub hasher: Hasher,
}

// How many bits are held.
fn held_count(h: Hasher) -> usize
    requires { known h.variant ≡ true }
    ensures { result ≡ held_count h }
{
    if h.stage == 1 {
        return 0;
    }
    (h.total % chain::sizes::block_bits(h.variant)) as usize
}

pub fn is_well_formed(h: Hasher) -> bool
    ensures { result ≡ well_formed h }
{
    if !chain::sizes::is_known(u32::from(h.variant)) || 1 < h.stage || MAX_MESSAGE_BITS < h.total {
        return false;
    }
    octets::bits::clear_from(&h.state, chain::sizes::state_bits(h.variant))
        && octets::bits::clear_from(&h.held, held_count(h))
}
