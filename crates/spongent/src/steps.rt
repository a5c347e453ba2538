// The internal permutation of SPONGENT (5.3.4) and its inverse by the standard's steps, on the 36 bytes that hold a
// state: its t bits, the lowest bit of each byte first, and zeros after them.
ghost use Rattle.std.specs.Prelude.{◌≡◌, false, ◌++◌, ℕ, ◌+◌, ◌-◌, ◌*◌, ◌/◌, ◌%◌, ◌^◌, ◌<◌, ◌≤◌, get_or, take, drop, replicate};
ghost use Rattle.standard.specs.Bits.{low_first, bits_in, low_bits, low_value, pack};
ghost use Rattle.standard.specs.Spongent.{s_box_layer, p_layer, c_addition, next_counter, spongent_round};
ghost use Rattle.standard.specs.Counters.{previous_counter, reversal, next_reversed, previous_reversed};
ghost use Rattle.standard.specs.Counters.{stepped_counter, stepped_reversed, counter_in};
ghost use Rattle.standard.specs.Families.{spongent, order, state_in};
ghost use Rattle.standard.specs.Sponge.{permutation};
ghost use Rattle.standard.specs.Variants.{variant};
ghost use Rattle.spongent.specs.Parameters.{spongent_of, taps_of};
ghost use Rattle.spongent.specs.Pairs.{Joined, pair_at, plane_pair};

use standard::Direction;

// The byte with its bits in the reverse order.
pub fn in_reverse(b: u8) -> u8
    ensures { result ≡ reversal 8 b }
{
    b.reverse_bits()
}

// l_counter has w bits, in the first byte of the state. retnuo_cl is the same in reverse, from the top bit of the state
// down, so it has the w upper bits of the last byte. From round to round each steps from its own bits alone: l_counter
// shifts left and retnuo_cl right, and in the inverse the other way.

// The counter of w bits after c.
pub fn next_counter(w: usize, c: u8) -> u8
    requires { (6 ≤ w) × (w ≤ 8) }
    ensures { result ≡ next_counter w (taps_of w) c }
{
    match w {
        6 => c % 32 * 2 + (c / 32 ^ c / 16) % 2,
        7 => c % 64 * 2 + (c / 64 ^ c / 32) % 2,
        _ => c % 128 * 2 + (c / 128 ^ (c / 8 ^ (c / 4 ^ c / 2))) % 2,
    }
}

// The counter of w bits before c.
fn previous_counter(w: usize, c: u8) -> u8
    requires { (6 ≤ w) × ((w ≤ 8) × (c < 2 ^ w)) }
    ensures { result ≡ previous_counter w (taps_of w) c }
{
    match w {
        6 => (c ^ c / 32) % 2 * 32 + c / 2,
        7 => (c ^ c / 64) % 2 * 64 + c / 2,
        _ => (c ^ (c / 16 ^ (c / 8 ^ c / 4))) % 2 * 128 + c / 2,
    }
}

// The reversed counter of w bits after d.
pub fn next_reversed(w: usize, d: u8) -> u8
    requires { (6 ≤ w) × (w ≤ 8) }
    ensures { result ≡ next_reversed 8 w (taps_of w) d }
{
    match w {
        6 => (d / 4 ^ d / 8) % 2 * 128 + d / 8 * 4,
        7 => (d / 2 ^ d / 4) % 2 * 128 + d / 4 * 2,
        _ => (d ^ (d / 16 ^ (d / 32 ^ d / 64))) % 2 * 128 + d / 2,
    }
}

// The reversed counter of w bits before d.
fn previous_reversed(w: usize, d: u8) -> u8
    requires { (6 ≤ w) × ((w ≤ 8) × (d % 2 ^ (8 - w) ≡ 0)) }
    ensures { result ≡ previous_reversed 8 w (taps_of w) d }
{
    match w {
        6 => d % 128 * 2 + (d / 128 ^ d / 4) % 2 * 4,
        7 => d % 128 * 2 + (d / 128 ^ d / 2) % 2 * 2,
        _ => d % 128 * 2 + (d / 128 ^ (d / 8 ^ (d / 16 ^ d / 32))) % 2,
    }
}

// The counter of the round after the one with c.
pub fn stepped_counter(w: usize, c: u8, way: Direction) -> u8
    requires { (6 ≤ w) × ((w ≤ 8) × (c < 2 ^ w)) }
    ensures { result ≡ stepped_counter way w (taps_of w) c }
{
    match way {
        Direction::Forward => next_counter(w, c),
        Direction::Backward => previous_counter(w, c),
    }
}

// The reversed counter of the round after the one with d.
pub fn stepped_reversed(w: usize, d: u8, way: Direction) -> u8
    requires { (6 ≤ w) × ((w ≤ 8) × (d % 2 ^ (8 - w) ≡ 0)) }
    ensures { result ≡ stepped_reversed way 8 w (taps_of w) d }
{
    match way {
        Direction::Forward => next_reversed(w, d),
        Direction::Backward => previous_reversed(w, d),
    }
}

// c_addition on the first n bytes. The counter fits a byte, so its reverse lies in the last byte.
pub fn c_addition(s: [u8; 36], n: usize, counter: u8, reversed: u8) -> [u8; 36]
    requires { (0 < n) × ((n ≤ 36) × (reversed ≡ reversal 8 counter)) }
    ensures { bits_in low_first result
        ≡ c_addition (8 * n) counter (take (8 * n) (bits_in low_first s)) ++ drop (8 * n) (bits_in low_first s) }
{
    let mut out = s;
    out[0] ^= counter;
    let last = n - 1;
    out[last] ^= reversed;
    out
}

// Both nibbles of a byte by the table. The table is lent: by value it would be copied for each byte.
fn s_box_byte(b: u8, table: &[u8; 16]) -> u8
    requires { (x : ℕ) → x < 16 → get_or table.now x 0 < 16 }
    ensures { result ≡ low_value (s_box_layer table.now (low_bits 8 b)) }
{
    table[(b % 16) as usize] + 16 * table[(b / 16) as usize]
}

// s_box_layer on the first n bytes, by a table of nibbles.
pub fn s_box_layer(s: [u8; 36], n: usize, table: &[u8; 16]) -> [u8; 36]
    requires { (n ≤ 36) × ((x : ℕ) → x < 16 → get_or table.now x 0 < 16) }
    ensures { bits_in low_first result
        ≡ s_box_layer table.now (take (8 * n) (bits_in low_first s)) ++ drop (8 * n) (bits_in low_first s) }
{
    let mut out = s;
    for i in 0..n {
        out[i] = s_box_byte(out[i], table);
    }
    out
}

// p_layer takes bit b of each nibble to plane b, a quarter of the state, so a byte gives each plane two bits that stay
// side by side. They are moved as pairs, a byte for each: bit by bit, the move would take most of the time of a round.

// The pair that a byte gives to plane b.
fn pair(x: u8, b: u8) -> u8
    requires { b < 4 }
    ensures { result ≡ plane_pair b x }
{
    let y = x >> b;
    y % 2 + y / 16 % 2 * 2
}

// The pairs with those of plane b from a place on, for all 36 bytes: a fixed number of turns is quicker, and the next
// plane is written over those past the state.
fn with_plane(pairs: [u8; 144], s: [u8; 36], from: usize, b: u8) -> [u8; 144]
    requires { (from ≤ 108) × (b < 4) }
    ensures { ((i : ℕ) → i < 36 → get_or result (from + i) 0 ≡ plane_pair b (get_or s i 0))
        × ((j : ℕ) → j < from → get_or result j 0 ≡ get_or pairs j 0) }
{
    let mut out = pairs;
    for i in 0..36 {
        out[from + i] = pair(s[i], b);
    }
    out
}

// The four planes of n bytes.
fn planes(s: [u8; 36], n: usize) -> [u8; 144]
    requires { n ≤ 36 }
    ensures { (j : ℕ) → j < 4 * n → get_or result j 0 ≡ plane_pair (j / n) (get_or s (j % n) 0) }
{
    let none = [0u8; 144];
    let one = with_plane(none, s, 0, 0);
    let two = with_plane(one, s, n, 1);
    let three = with_plane(two, s, 2 * n, 2);
    with_plane(three, s, 3 * n, 3)
}

// The byte of four pairs. They are read as one number, and one product brings all four side by side.
fn joined(w: u8, x: u8, y: u8, z: u8) -> u8
    requires { (w < 4) × ((x < 4) × ((y < 4) × (z < 4))) }
    ensures { (result % 4 ≡ w) × ((result / 4 % 4 ≡ x) × ((result / 16 % 4 ≡ y) × (result / 64 % 4 ≡ z))) }
{
    let all = u64::from(w)
        + u64::from(x) * 0x100
        + u64::from(y) * 0x10000
        + u64::from(z) * 0x1000000;
    (all * 0x1041040 / 0x1000000 % 0x100) as u8
}

// Byte k of the n that the pairs make, and zero past them.
fn joined_at(pairs: &[u8; 144], n: usize, k: usize) -> u8
    requires { (k < 36) × ((j : ℕ) → j < 4 * n → get_or pairs.now j 0 < 4) }
    ensures { (k < n → Joined pairs.now k result) × (n ≤ k → result ≡ 0) }
{
    if n <= k {
        return 0;
    }
    let j = 4 * k;
    joined(pairs[j], pairs[j + 1], pairs[j + 2], pairs[j + 3])
}

// The n bytes of pairs, and zeros after them. All 36 are made, in a fixed number of turns.
fn all_joined(pairs: [u8; 144], n: usize) -> [u8; 36]
    requires { (n ≤ 36) × ((j : ℕ) → j < 4 * n → get_or pairs j 0 < 4) }
    ensures { ((j : ℕ) → j < 4 * n → pair_at result j ≡ get_or pairs j 0)
        × ((k : ℕ) → n ≤ k → get_or result k 0 ≡ 0) }
{
    let mut out = [0u8; 36];
    for (k, byte) in out.iter_mut().enumerate() {
        *byte = joined_at(&pairs, n, k);
    }
    out
}

// p_layer on the first t bits, with zeros after them.
pub fn p_layer(s: [u8; 36], t: usize) -> [u8; 36]
    requires { (8 ≤ t) × ((t ≤ 288) × (t % 8 ≡ 0)) }
    ensures { bits_in low_first result
        ≡ p_layer t (t / 4) (take t (bits_in low_first s)) ++ replicate (288 - t) false }
{
    let n = t / 8;
    let pairs = planes(s, n);
    all_joined(pairs, n)
}

// The pairs of n bytes, one after the other.
fn pairs_in(s: [u8; 36], n: usize) -> [u8; 144]
    requires { n ≤ 36 }
    ensures { (j : ℕ) → j < 4 * n → get_or result j 0 ≡ pair_at s j }
{
    let mut out = [0u8; 144];
    for k in 0..n {
        let x = s[k];
        let j = 4 * k;
        out[j] = x % 4;
        out[j + 1] = x / 4 % 4;
        out[j + 2] = x / 16 % 4;
        out[j + 3] = x / 64 % 4;
    }
    out
}

// The byte that gives four pairs to the planes.
fn gathered(w: u8, x: u8, y: u8, z: u8) -> u8
    requires { (w < 4) × ((x < 4) × ((y < 4) × (z < 4))) }
    ensures { (plane_pair 0 result ≡ w) × ((plane_pair 1 result ≡ x) × ((plane_pair 2 result ≡ y) × (plane_pair 3 result ≡ z))) }
{
    w % 2 + x % 2 * 2 + y % 2 * 4 + z % 2 * 8 + w / 2 * 16 + x / 2 * 32 + y / 2 * 64 + z / 2 * 128
}

// The n bytes that give the pairs to the planes, and zeros after them.
fn all_gathered(pairs: [u8; 144], n: usize) -> [u8; 36]
    requires { (n ≤ 36) × ((j : ℕ) → j < 4 * n → get_or pairs j 0 < 4) }
    ensures { ((j : ℕ) → j < 4 * n → plane_pair (j / n) (get_or result (j % n) 0) ≡ get_or pairs j 0)
        × ((k : ℕ) → n ≤ k → get_or result k 0 ≡ 0) }
{
    let mut out = [0u8; 36];
    for i in 0..n {
        out[i] = gathered(pairs[i], pairs[n + i], pairs[2 * n + i], pairs[3 * n + i]);
    }
    out
}

// The inverse of p_layer on the first t bits, with zeros after them. It shares no loop with p_layer: there a byte gives
// to the planes, here the planes give to a byte.
pub fn p_layer_back(s: [u8; 36], t: usize) -> [u8; 36]
    requires { (8 ≤ t) × ((t ≤ 288) × (t % 8 ≡ 0)) }
    ensures { bits_in low_first result ≡ p_layer t 4 (take t (bits_in low_first s)) ++ replicate (288 - t) false }
{
    let n = t / 8;
    let pairs = pairs_in(s, n);
    all_gathered(pairs, n)
}

// One round with a counter and its reverse, or that round taken back.
fn round(s: [u8; 36], t: usize, counter: u8, reversed: u8, way: Direction) -> [u8; 36]
    requires le_t { (8 ≤ t) × ((t ≤ 288) × (t % 8 ≡ 0)) }
    requires reversed_value { reversed ≡ reversal 8 counter }
    requires s_value { drop t (bits_in low_first s) ≡ replicate (288 - t) false }
    ensures { bits_in low_first result
        ≡ spongent_round t way (take t (bits_in low_first s)) counter ++ replicate (288 - t) false }
{
    let n = t / 8;
    match way {
        Direction::Forward => {
            let added = c_addition(s, n, counter, reversed);
            let replaced = s_box_layer(added, n, &crate::S_BOX);
            p_layer(replaced, t)
        }
        Direction::Backward => {
            let put = p_layer_back(s, t);
            let replaced = s_box_layer(put, n, &crate::S_BOX_BACK);
            c_addition(replaced, n, counter, reversed)
        }
    }
}

// The counter of the first round of the permutation of the variant v, or of its inverse.
pub fn start_counter(v: u8, way: Direction) -> u8
    requires { (6 ≤ v) × (v ≤ 10) }
    ensures { result ≡ counter_in (spongent_of v) way 0 }
{
    let i = (v - 6) as usize;
    match way {
        Direction::Forward => crate::FIRST_COUNTERS[i],
        Direction::Backward => crate::LAST_COUNTERS[i],
    }
}

// The permutation of the variant v, or its inverse, on the bytes that hold a state.
pub fn permuted(v: u8, s: [u8; 36], way: Direction) -> [u8; 36]
    requires le_v { (6 ≤ v) × (v ≤ 10) }
    requires s_value { s ≡ pack (order (variant v)) 36 (state_in (variant v) s) }
    ensures { result
        ≡ pack (order (variant v)) 36 (permutation (spongent (spongent_of v)) way (state_in (variant v) s)) }
{
    let i = (v - 6) as usize;
    let t = crate::STATE_BITS[i];
    let w = crate::COUNTER_WIDTHS[i];
    let n = crate::ROUND_COUNTS[i];
    let mut out = s;
    let mut counter = start_counter(v, way);
    let mut reversed = in_reverse(counter);
    for _k in 0..n {
        let after = round(out, t, counter, reversed, way);
        out = after;
        counter = stepped_counter(w, counter, way);
        reversed = stepped_reversed(w, reversed, way);
    }
    out
}
