// The state of a variant: its start, its two forms (bytes and words), the block step on words, and the permutation on
// bytes. Here are the choices by family, and each only hands on to the family's crate.
ghost use Rattle.std.specs.Prelude.{◌≡◌, true, ◌+◌, ◌*◌, ◌%◌, ◌≤◌, length, take, drop};
ghost use Rattle.standard.specs.Bits.{high_first, bits_in};
ghost use Rattle.standard.specs.Families.{is_sponge, state_in};
ghost use Rattle.standard.specs.Chain.{start_state, step};
ghost use Rattle.standard.specs.Variants.{variant, known};
ghost use Rattle.standard.specs.ForCode.{output_bits};
ghost use Rattle.standard.specs.Layout.{packed_state};
ghost use Rattle.chain.specs.Holding.{Holds};
ghost use Rattle.chain.specs.TakenBack.{permuted_state};
ghost use Rattle.chain.specs.Words.{state_in_words, TableOf};

use crate::sizes;
use crate::sizes::{Family, STATE_BYTES};
use standard::Direction;

// ---- the start

// The last four bytes of PHOTON's start images: n/4, r and r' in their last 24 bits.
const START_ENDS: [[u8; 4]; 6] = [
    [0, 0, 0, 0],
    [0x01, 0x41, 0x41, 0x00],
    [0x00, 0x20, 0x10, 0x10],
    [0x02, 0x82, 0x42, 0x40],
    [0x00, 0x38, 0x20, 0x20],
    [0x00, 0x40, 0x20, 0x20],
];

// The start value of Lesamnta-LW, and zeros after it.
const CHAIN_START: [u8; STATE_BYTES] = *b"\
\x00\x00\x02\x56\x00\x00\x02\x56\x00\x00\x02\x56\x00\x00\x02\x56\
\x00\x00\x02\x56\x00\x00\x02\x56\x00\x00\x02\x56\x00\x00\x02\x56\
\x00\x00\x00\x00\
";

// PHOTON's start image: zeros, and the last four bytes.
fn photon_start(v: u8) -> [u8; STATE_BYTES]
    requires { (1 ≤ v) × (v ≤ 5) }
    ensures { result ≡ packed_state (variant v) (start_state (variant v)) }
{
    let mut out = [0u8; STATE_BYTES];
    let end = sizes::image_bytes(v);
    out[end - 4..end].copy_from_slice(&START_ENDS[usize::from(v)]);
    out
}

// The bytes that hold the start state. SPONGENT starts from zeros.
pub fn start(v: u8) -> [u8; STATE_BYTES]
    requires { known v ≡ true }
    ensures { result ≡ packed_state (variant v) (start_state (variant v)) }
{
    match sizes::family_of(v) {
        Family::Photon => photon_start(v),
        Family::Spongent => [0u8; STATE_BYTES],
        Family::Lesamnta => CHAIN_START,
    }
}

// ---- bytes and words

// The words that hold the state of the bytes.
pub fn words_of(v: u8, s: [u8; STATE_BYTES]) -> [u64; 8]
    requires { known v ≡ true }
    ensures { state_in_words (variant v) result ≡ state_in (variant v) s }
{
    match sizes::family_of(v) {
        Family::Photon => photon::words::words_of(v, &s),
        Family::Spongent => spongent::words::words_of(v, &s),
        Family::Lesamnta => lesamnta::words::words_of(&s),
    }
}

// The bytes that hold the state of the words.
pub fn bytes_of(v: u8, w: &[u64; 8]) -> [u8; STATE_BYTES]
    requires { known v ≡ true }
    ensures { result ≡ packed_state (variant v) (state_in_words (variant v) w.now) }
{
    match sizes::family_of(v) {
        Family::Photon => photon::words::image(v, w),
        Family::Spongent => spongent::words::image(v, w),
        Family::Lesamnta => lesamnta::words::image(w),
    }
}

// Bytes whose first bits, as many as a sponge gives out, are those of the state. Lesamnta-LW gives out none so.
pub fn front_of(v: u8, w: &[u64; 8]) -> [u8; STATE_BYTES]
    requires { (known v ≡ true) × (is_sponge (variant v) ≡ true) }
    ensures { take (output_bits (variant v)) (bits_in high_first result)
        ≡ take (output_bits (variant v)) (bits_in high_first
        (packed_state (variant v) (state_in_words (variant v) w.now))) }
{
    match sizes::family_of(v) {
        Family::Photon => photon::words::front(v, w),
        Family::Spongent => spongent::words::front(v, w),
        Family::Lesamnta => [0u8; STATE_BYTES],
    }
}

// ---- the block step and the permutation

// The block step, for a block from the nibble m on of the bytes; blocks of whole bytes begin at a byte.
pub fn step_words(v: u8, w: &mut [u64; 8], bytes: &[u8], m: usize, table: &[u64])
    requires v_value { (known v ≡ true) × (4 * m + (variant v).r ≤ 8 * length bytes.now)
        × ((variant v).r % 8 ≡ 0 → m % 2 ≡ 0) }
    requires table_of { TableOf v table.now }
    ensures { state_in_words (variant v) w.new
        ≡ step (variant v) (state_in_words (variant v) w.old)
        (take (variant v).r (drop (4 * m) (bits_in high_first bytes.now))) }
{
    match sizes::family_of(v) {
        Family::Photon => photon::words::step(v, w, bytes, m, table),
        Family::Spongent => spongent::words::step(v, w, bytes, m, table),
        Family::Lesamnta => lesamnta::words::step(w, bytes, m, table),
    }
}

// The permutation of a sponge, or its inverse, by the standard's steps on the bytes that hold a state. Lesamnta-LW has
// none.
pub fn permuted(v: u8, s: [u8; STATE_BYTES], way: Direction) -> [u8; STATE_BYTES]
    requires v_value { (known v ≡ true) × (is_sponge (variant v) ≡ true) }
    requires holds { Holds v s }
    ensures { result ≡ packed_state (variant v) (permuted_state (variant v) way (state_in (variant v) s)) }
{
    match sizes::family_of(v) {
        Family::Photon => photon::steps::permuted(v, s, way),
        Family::Spongent => spongent::steps::permuted(v, s, way),
        Family::Lesamnta => s,
    }
}
