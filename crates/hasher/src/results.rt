// What is read of a running hash that is closed.
ghost use Rattle.std.specs.Prelude.{◌≡◌, true, ◌≤◌, length};
ghost use Rattle.standard.specs.declared.Wanted.TheVariants.{Digest, EndState};
ghost use Rattle.standard.specs.Families.{state_in};
ghost use Rattle.standard.specs.Variants.{variant, known};
ghost use Rattle.answers.specs.Refusals.{Done};
ghost use Rattle.answers.specs.Outputs.{written};
ghost use Rattle.chain.specs.Holding.{Holds};
ghost use Rattle.hasher.specs.Reading.{result_of, result_size, read_status, read_into};

use crate::{Hasher, checks};
use answers::Refusal;
use chain::{STATE_BYTES, outcome, sizes};
use standard::Wanted;

// The bytes of a result.
pub fn result_size(v: u8, wanted: Wanted) -> usize
    ensures { result ≡ result_size (variant v) wanted }
{
    match wanted {
        Wanted::Digest => sizes::digest_bytes(v),
        Wanted::EndState => sizes::image_bytes(v),
    }
}

// The result for an end state over the front of an output that is long enough.
fn write_result(v: u8, wanted: Wanted, state: [u8; STATE_BYTES], out: &mut [u8])
    requires v_value { known v ≡ true }
    requires holds { Holds v state }
    requires wanted_in_bounds { result_size (variant v) wanted ≤ length out.old }
    ensures { out.new
        ≡ written Done (result_of (variant v) wanted (state_in (variant v) state)) out.old }
{
    let n = result_size(v, wanted);
    match wanted {
        Wanted::Digest => octets::copies::copy_front(&outcome::digest_of(v, state), n, out),
        Wanted::EndState => octets::copies::copy_front(&state, n, out),
    }
}

// The digest, or the image of the end state: refusals 2, 3, 5. Reading changes nothing of the running hash.
pub fn read(h: Hasher, wanted: Wanted, out: &mut [u8]) -> Result<(), Refusal>
    ensures { (result ≡ read_status h wanted (length out.old))
        × (out.new ≡ read_into h wanted out.old) }
{
    checks::check_read(h, wanted, out.len())?;
    write_result(h.variant, wanted, h.state, out);
    Ok(())
}

pub fn digest(h: Hasher, out: &mut [u8]) -> Result<(), Refusal>
    ensures { (result ≡ read_status h Digest (length out.old))
        × (out.new ≡ read_into h Digest out.old) }
{
    read(h, Wanted::Digest, out)
}

pub fn end_state(h: Hasher, out: &mut [u8]) -> Result<(), Refusal>
    ensures { (result ≡ read_status h EndState (length out.old))
        × (out.new ≡ read_into h EndState out.old) }
{
    read(h, Wanted::EndState, out)
}
