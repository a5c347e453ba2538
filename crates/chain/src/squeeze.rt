// The digest out of an end state in words.
ghost use Rattle.std.specs.Prelude.{◌≡◌, true, ◌++◌, ◌+◌, ◌-◌, ◌*◌, ◌≤◌, ◌<◌, length, take};
ghost use Rattle.standard.specs.Bits.{high_first, bits_in, pack, unpack};
ghost use Rattle.standard.specs.Rounds.{iterate};
ghost use Rattle.standard.specs.declared.Direction.TheVariants.{Forward};
ghost use Rattle.standard.specs.Sponge.{output_count};
ghost use Rattle.standard.specs.Families.{is_sponge};
ghost use Rattle.standard.specs.Chain.{given_out};
ghost use Rattle.standard.specs.ForCode.{output_bits};
ghost use Rattle.standard.specs.Variants.{variant, known};
ghost use Rattle.standard.specs.Layout.{state_room};
ghost use Rattle.chain.specs.TakenBack.{permuted_state};
ghost use Rattle.chain.specs.Words.{state_in_words, TableOf};

use crate::sizes::{BLOCK_BYTES, STATE_BYTES};
use crate::{sizes, state};

// The first q nibbles of s after the first p nibbles.
fn put_front(out: &mut [u8], p: usize, s: &[u8], q: usize)
    requires out_len { (length out.old ≡ state_room) × (length s.now ≡ state_room) × (p + q ≤ 64) }
    requires out_value { out.old ≡ pack high_first state_room (unpack high_first (4 * p) out.old) }
    ensures { out.new
        ≡ pack high_first state_room (unpack high_first (4 * p) out.old
        ++ take (4 * q) (bits_in high_first s.now)) }
{
    for i in 0..q {
        octets::nibbles::put_nibble(out, p + i, octets::nibbles::nibble_of(s[i / 2], i));
    }
}

// The digest squeezed out of the state of the words, zeros after it: whole output blocks with the permutation after
// each, which is the step of a block of zeros, and what the last has to give. The words hold the state that gave the
// last.
pub fn squeezed(v: u8, w: &mut [u64; 8], table: &[u64]) -> [u8; STATE_BYTES]
    requires v_value { (known v ≡ true) × (is_sponge (variant v) ≡ true) }
    requires table_of { TableOf v table.now }
    ensures value { result ≡ pack high_first state_room
        (given_out (variant v).family (variant v) (state_in_words (variant v) w.old)) }
    ensures w_after { state_in_words (variant v) w.new
        ≡ iterate (output_count (output_bits (variant v)) (variant v).n - 1) (permuted_state (variant v) Forward)
        (state_in_words (variant v) w.old) }
{
    let n = sizes::digest_bytes(v) * 2;
    let q = sizes::output_nibbles(v);
    let none = [0u8; BLOCK_BYTES];
    let mut out = [0u8; STATE_BYTES];
    let whole = (n - 1) / q;
    for i in 0..whole {
        let s = state::front_of(v, w);
        put_front(&mut out, i * q, &s, q);
        state::step_words(v, w, &none, 0, table);
    }
    let s = state::front_of(v, w);
    put_front(&mut out, whole * q, &s, n - whole * q);
    out
}
