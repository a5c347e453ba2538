// The block step of a sponge taken back, by the standard's steps on bytes.
ghost use Rattle.std.specs.Prelude.{◌≡◌, true, ◌≤◌, length};
ghost use Rattle.standard.specs.Bits.{Order, bits_in, xor_into};
ghost use Rattle.standard.specs.Families.{is_sponge, state_in};
ghost use Rattle.standard.specs.Variants.{variant, known};
ghost use Rattle.standard.specs.Layout.{state_room, packed_state};
ghost use Rattle.chain.specs.Holding.{block_in, Holds, HoldsBlock};
ghost use Rattle.chain.specs.TakenBack.{unstep};

use crate::sizes::{BLOCK_BYTES, STATE_BYTES};
use crate::state;
use standard::Direction;

// The bytes xored into the first bytes of the state.
pub fn xored(s: [u8; STATE_BYTES], b: &[u8]) -> [u8; STATE_BYTES]
    requires { length b.now ≤ state_room }
    ensures { (o : Order) → bits_in o result ≡ xor_into (bits_in o s) (bits_in o b.now) }
{
    let mut out = s;
    // Not `out.iter_mut().zip(b)`: a proof would know nothing of what such a loop writes.
    for (i, x) in b.iter().enumerate() {
        out[i] ^= *x;
    }
    out
}

// The block step of a sponge taken back.
pub fn unstepped(v: u8, s: [u8; STATE_BYTES], b: [u8; BLOCK_BYTES]) -> [u8; STATE_BYTES]
    requires v_value { (known v ≡ true) × (is_sponge (variant v) ≡ true) }
    requires holds { Holds v s }
    requires holds_block { HoldsBlock v b }
    ensures { result
        ≡ packed_state (variant v) (unstep (variant v) (state_in (variant v) s) (block_in (variant v) b)) }
{
    let before = state::permuted(v, s, Direction::Backward);
    xored(before, &b)
}
