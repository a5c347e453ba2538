// The block step of SPONGENT on a state in eight words, for hashing, which needs no inverse. A table look-up replaces
// the nibbles of a byte and moves its bits at once. What lies in the words past the state is never read.
ghost use Rattle.std.specs.Prelude.{◌≡◌, ◌++◌, ℕ, ◌+◌, ◌-◌, ◌*◌, ◌/◌, ◌%◌, ◌^◌, ◌<◌, ◌≤◌, length, get_or, set, take, drop, replicate};
ghost use Rattle.std.specs.Int.Bits.{bit_xor};
ghost use Rattle.standard.specs.Bits.{low_first, high_first, bits_in, pack, unpack, xor_into};
ghost use Rattle.standard.specs.declared.Direction.TheVariants.{Forward};
ghost use Rattle.standard.specs.Spongent.{nibbles, spongent_round};
ghost use Rattle.standard.specs.Counters.{reversal};
ghost use Rattle.standard.specs.Families.{order, state_in};
ghost use Rattle.standard.specs.Chain.{step};
ghost use Rattle.standard.specs.ForCode.{output_bits};
ghost use Rattle.standard.specs.Variants.{variant};
ghost use Rattle.spongent.specs.Parameters.{spongent_of};
ghost use Rattle.spongent.specs.Words.{bytes_in, state_of_bytes, Permuted, pair_in, spread_word, lanes_into};
ghost use Rattle.spongent.specs.Words.{ByteTable, word_table_size, WordTable};

use crate::tables::SPREAD;

// The words of the table that the block step looks up: 256 for each of the eight bytes of a word.
pub const TABLE_WORDS: usize = 2048;

// ---- the state in words

// Byte k of a word.
fn byte_of(w: u64, k: usize) -> u8
    requires { k < 8 }
    ensures { result ≡ w / 2 ^ (8 * k) % 256 }
{
    ((w >> (8 * k)) % 256) as u8
}

// A byte as byte k of a word. That it is below 256 is known here, and not to a caller that read it from an array.
fn byte_at(x: u8, k: usize) -> u64
    requires { k < 8 }
    ensures { (result ≡ x * 2 ^ (8 * k)) × (x < 256) }
{
    u64::from(x) << (8 * k)
}

// The words that hold the state of the bytes.
pub fn words_of(v: u8, s: &[u8; 36]) -> [u64; 8]
    requires { (6 ≤ v) × (v ≤ 10) }
    ensures { state_of_bytes (spongent_of v) result ≡ state_in (variant v) s.now }
{
    let mut out = [0u64; 8];
    for (i, x) in s.iter().enumerate() {
        out[i / 8] ^= byte_at(*x, i % 8);
    }
    out
}

// The first n bytes of the words, and zeros after them.
fn first_bytes(w: &[u64; 8], n: usize) -> [u8; 36]
    requires { n ≤ 36 }
    ensures { result ≡ take n (bytes_in w.now) ++ replicate (36 - n) 0 }
{
    let mut out = [0u8; 36];
    for i in 0..n {
        out[i] = byte_of(w[i / 8], i % 8);
    }
    out
}

// The bytes that hold the state of the words.
pub fn image(v: u8, w: &[u64; 8]) -> [u8; 36]
    requires { (6 ≤ v) × (v ≤ 10) }
    ensures { result ≡ pack (order (variant v)) 36 (state_of_bytes (spongent_of v) w.now) }
{
    let i = (v - 6) as usize;
    first_bytes(w, crate::STATE_BITS[i] / 8)
}

// Bytes whose first r' bits are those of the image: no variant gives out more than two bytes at once.
pub fn front(v: u8, w: &[u64; 8]) -> [u8; 36]
    requires { (6 ≤ v) × (v ≤ 10) }
    ensures { take (output_bits (variant v)) (bits_in high_first result)
        ≡ take (output_bits (variant v)) (bits_in high_first
        (pack (order (variant v)) 36 (state_of_bytes (spongent_of v) w.now))) }
{
    first_bytes(w, 2)
}

// ---- the table

// The look-ups of each of the eight bytes of a word: shifted here, once, and not at each look-up.
// It stays a function of its own. Put into its caller, its loop may end on a border of 32 bytes, where the linker decides,
// and then a call that makes a table was measured to take up to a quarter longer.
#[inline(never)]
fn put_copies(out: &mut [u64], table: &[u64; 256])
    requires { (length out.old ≡ word_table_size) × ByteTable nibbles table.now }
    ensures { WordTable nibbles out.new }
{
    for (i, entry) in out.iter_mut().enumerate() {
        *entry = table[i % 256] << (2 * (i / 256));
    }
}

// The table for `step`, the same for every variant. A caller makes it once for a message.
pub fn fill_table(out: &mut [u64])
    requires { length out.old ≡ word_table_size }
    ensures { WordTable nibbles out.new }
{
    put_copies(out, &SPREAD);
}

// ---- the rounds

// A round is fast where it stands in the loop over the rounds, with n a number: its loops unroll, and the words stay in
// registers. So its functions are marked to be put into their caller.

// The first n bytes of a word looked up.
#[inline]
fn spread_word(w: u64, n: usize, table: &[u64]) -> u64
    requires { (n ≤ 8) × WordTable nibbles table.now }
    ensures { result ≡ spread_word nibbles n w }
{
    let mut sum: u64 = 0;
    for k in 0..n {
        sum ^= table[256 * k + usize::from(byte_of(w, k))];
    }
    sum
}

// A lane xored in from the bit p on, which may reach into the next word. There it is shifted down in two steps: by all
// 64 bits at once is no shift.
#[inline]
fn put(out: &mut [u64; 8], p: usize, lane: u64)
    requires { (p % 2 ≡ 0) × ((p < 448) × (lane < 65536)) }
    ensures { (m : ℕ) → pair_in out.new m ≡ bit_xor (pair_in out.old m) (lane * 2 ^ p / 2 ^ (2 * m) % 4) }
{
    out[p / 64] ^= lane << (p % 64);
    out[p / 64 + 1] ^= lane >> 1 >> (63 - p % 64);
}

// Four lanes xored in, each into its plane, which is n pairs of bits after the one before.
// The loop stays a `while`: with `for p in (at..8 * n).step_by(2 * n)` a byte of SPONGENT-240 takes 6 % longer, and with
// `for b in 0..4`, which is unrolled before the loop of `round`, four times as long.
#[inline]
fn put_lanes(out: &mut [u64; 8], lanes: u64, at: usize, n: usize)
    requires { (at % 2 ≡ 0) × ((at < 2 * n) × (n ≤ 36)) }
    ensures { (m : ℕ) → pair_in out.new m ≡ lanes_into lanes at n m 4 (pair_in out.old m) }
{
    let mut rest = lanes;
    let mut p = at;
    while p < 8 * n {
        put(out, p, rest % 65536);
        rest /= 65536;
        p += 2 * n;
    }
}

// One round on the first n bytes, with a counter and its reverse: the words are looked up one after the other, and what
// they give is written into zeros.
#[inline]
fn round(w: &mut [u64; 8], n: usize, counter: u8, reversed: u8, table: &[u64])
    requires n_bytes { (0 < n) × (n ≤ 36) }
    requires reversed_value { reversed ≡ reversal 8 counter }
    requires word_table { WordTable nibbles table.now }
    ensures { unpack low_first (8 * n) (bytes_in w.new)
        ≡ spongent_round (8 * n) Forward (unpack low_first (8 * n) (bytes_in w.old)) counter }
{
    w[0] ^= u64::from(counter);
    w[(n - 1) / 8] ^= byte_at(reversed, (n - 1) % 8);
    let mut out = [0u64; 8];
    for j in 0..n.div_ceil(8) {
        let lanes = spread_word(w[j], (n - 8 * j).min(8), table);
        put_lanes(&mut out, lanes, 16 * j, n);
    }
    *w = out;
}

// The rounds of the variant V, which are compiled for each variant with its row of Table 9.
fn rounds<const V: u8>(w: &mut [u64; 8], table: &[u64])
    requires le_v { (6 ≤ V) × (V ≤ 10) }
    requires word_table { WordTable nibbles table.now }
    ensures { Permuted V w.old w.new }
{
    let i = (V - 6) as usize;
    let n = crate::STATE_BITS[i] / 8;
    let width = crate::COUNTER_WIDTHS[i];
    let mut counter = crate::FIRST_COUNTERS[i];
    let mut reversed = crate::steps::in_reverse(counter);
    for _k in 0..crate::ROUND_COUNTS[i] {
        round(w, n, counter, reversed, table);
        counter = crate::steps::next_counter(width, counter);
        reversed = crate::steps::next_reversed(width, reversed);
    }
}

// The permutation of the variant v.
fn permute(v: u8, w: &mut [u64; 8], table: &[u64])
    requires le_v { (6 ≤ v) × (v ≤ 10) }
    requires word_table { WordTable nibbles table.now }
    ensures { Permuted v w.old w.new }
{
    match v {
        6 => rounds::<6>(w, table),
        7 => rounds::<7>(w, table),
        8 => rounds::<8>(w, table),
        9 => rounds::<9>(w, table),
        _ => rounds::<10>(w, table),
    }
}

// ---- the block step

// A byte xored into byte k of the state.
fn xor_byte(w: &mut [u64; 8], k: usize, x: u8)
    requires { k < 8 }
    ensures { bytes_in w.new ≡ set (bytes_in w.old) k (bit_xor (get_or (bytes_in w.old) k 0) x) }
{
    w[0] ^= byte_at(x, k);
}

// A block of the variant v, from the byte `at` on, xored into the front of the state: one byte or two.
fn xor_block(v: u8, w: &mut [u64; 8], bytes: &[u8], at: usize)
    requires { (6 ≤ v) × (v ≤ 10) × (at + (variant v).r / 8 ≤ length bytes.now) }
    ensures { state_of_bytes (spongent_of v) w.new
        ≡ xor_into (state_of_bytes (spongent_of v) w.old)
        (bits_in low_first (take ((variant v).r / 8) (drop at bytes.now))) }
{
    xor_byte(w, 0, bytes[at]);
    if v > 7 {
        xor_byte(w, 1, bytes[at + 1]);
    }
}

// The block step, for a block from the nibble m on of the bytes; it begins at a byte.
pub fn step(v: u8, w: &mut [u64; 8], bytes: &[u8], m: usize, table: &[u64])
    requires le_v { (6 ≤ v) × (v ≤ 10) × (4 * m + (variant v).r ≤ 8 * length bytes.now)
        × ((variant v).r % 8 ≡ 0 → m % 2 ≡ 0) }
    requires word_table { WordTable nibbles table.now }
    ensures { state_of_bytes (spongent_of v) w.new
        ≡ step (variant v) (state_of_bytes (spongent_of v) w.old)
        (take (variant v).r (drop (4 * m) (bits_in high_first bytes.now))) }
{
    // A copy, which the compiler keeps in registers through the rounds: words that are lent would stay in memory.
    let mut s = *w;
    xor_block(v, &mut s, bytes, m / 2);
    permute(v, &mut s, table);
    *w = s;
}
