// Lesamnta-LW by look-ups, on words: the rounds of its block cipher (6.2.5), the state in words, and the block step.
ghost use Rattle.std.specs.Prelude.{◌≡◌, ◌++◌, ℕ, ◌+◌, ◌*◌, ◌/◌, ◌%◌, ◌^◌, ◌≤◌, ◌<◌, length, get_or, take, drop};
ghost use Rattle.standard.specs.Bits.{high_first, bits_of, value_of, bits_in, pack};
ghost use Rattle.standard.specs.Rounds.{rounds};
ghost use Rattle.standard.specs.declared.Direction.TheVariants.{Forward, Backward};
ghost use Rattle.standard.specs.Lesamnta.{bytes_of, word_of, four_words, bits_of_words, word_q, bytes_r, word_g, mixing};
ghost use Rattle.standard.specs.Lesamnta.{scheduled, round_keys, cipher_constants, lesamnta_step};
ghost use Rattle.standard.specs.Families.{order, state_in};
ghost use Rattle.standard.specs.Chain.{step};
ghost use Rattle.standard.specs.Variants.{variant};
ghost use Rattle.lesamnta.specs.CipherTables.{BoxTable, ConstantTable, cipher_table_size, CipherTable};
ghost use Rattle.lesamnta.specs.Words.{state_of_four};

use crate::tables::{BOXES, CONSTANTS};

// The words of the table that the rounds look up: 256 for bytes, and a constant for each of 64 rounds.
pub const TABLE_WORDS: usize = 320;

// ---- the table

// Numbers times a factor, from a place on.
fn put(out: &mut [u64], at: usize, numbers: &[u32], factor: u64)
    requires { (at + length numbers.now ≤ length out.old) × (factor ≤ 2 ^ 32 + 1) }
    ensures written { (k : ℕ) → k < length numbers.now → get_or out.new (at + k) 0 ≡ get_or numbers.now k 0 * factor }
    ensures before { (k : ℕ) → k < at → get_or out.new k 0 ≡ get_or out.old k 0 }
{
    for (k, number) in numbers.iter().enumerate() {
        out[at + k] = u64::from(*number) * factor;
    }
}

// The table for the rounds. A caller makes it once for a message.
pub fn fill_table(out: &mut [u64])
    requires { length out.old ≡ cipher_table_size }
    ensures { CipherTable 64 out.new }
{
    // An entry twice in a word, so that a turn by whole bytes is a shift.
    put(out, 0, &BOXES, 0x100000001);
    put(out, 256, &CONSTANTS, 1);
}

// ---- the round function

// Q, of the lower half of a word: what each of its four bytes gives.
pub fn word_q(x: u64, table: &[u64]) -> u64
    requires { CipherTable 64 table.now }
    ensures { (result ≡ word_q x) × (result < 2 ^ 32) }
{
    let first = table[((x >> 24) % 256) as usize];
    let second = table[((x >> 16) % 256) as usize] >> 8;
    let third = table[((x >> 8) % 256) as usize] >> 16;
    let fourth = table[(x % 256) as usize] >> 24;
    (first ^ second ^ third ^ fourth) % 0x100000000
}

// R, of two words of 32 bits: their upper halves change places.
fn word_r(a: u64, b: u64) -> u64
    requires { (a < 2 ^ 32) × (b < 2 ^ 32) }
    ensures { result ≡ word_of (bytes_r (bytes_of 4 a ++ bytes_of 4 b)) }
{
    let upper = b - b % 0x10000 + a % 0x10000;
    let lower = a - a % 0x10000 + b % 0x10000;
    upper * 0x100000000 + lower
}

pub fn word_g(y: u64, key: u64, table: &[u64]) -> u64
    requires { CipherTable 64 table.now }
    ensures { result ≡ word_g y key }
{
    word_r(word_q((y >> 32) ^ key, table), word_q(y, table))
}

// ---- a round

// A round of the cipher with its round key.
fn round(x: [u64; 4], key: u64, table: &[u64]) -> [u64; 4]
    requires { CipherTable 64 table.now }
    ensures { result ≡ mixing Forward x key }
{
    [x[3] ^ word_g(x[2], key, table), x[0], x[1], x[2]]
}

// That round taken back: a function of its own, since each way is one expression, and they share no part but `word_g`.
fn round_back(x: [u64; 4], key: u64, table: &[u64]) -> [u64; 4]
    requires { CipherTable 64 table.now }
    ensures { result ≡ mixing Backward x key }
{
    [x[1], x[2], x[3], x[0] ^ word_g(x[3], key, table)]
}

// The key state after a round with its constant.
fn schedule_round(key: [u64; 4], constant: u64, table: &[u64]) -> [u64; 4]
    requires { CipherTable 64 table.now }
    ensures { result ≡ scheduled key constant }
{
    [
        key[3] ^ word_q(constant ^ key[2], table),
        key[0],
        key[1],
        key[2],
    ]
}

// ---- the rounds

// All rounds, each with its round key as the schedule comes to it.
pub fn enciphered(x: [u64; 4], key: [u64; 4], table: &[u64]) -> [u64; 4]
    requires { CipherTable 64 table.now }
    ensures { result ≡ rounds mixing Forward (round_keys cipher_constants key) x }
{
    let mut words = x;
    let mut schedule = key;
    for r in 0..64 {
        let next_words = round(words, schedule[0], table);
        let next_schedule = schedule_round(schedule, table[256 + r], table);
        words = next_words;
        schedule = next_schedule;
    }
    words
}

// The round keys, which the inverse needs from the last on.
pub fn round_keys(key: [u64; 4], table: &[u64]) -> [u64; 64]
    requires { CipherTable 64 table.now }
    ensures { result ≡ round_keys cipher_constants key }
{
    let mut out = [0u64; 64];
    let mut schedule = key;
    for r in 0..64 {
        out[r] = schedule[0];
        let next_schedule = schedule_round(schedule, table[256 + r], table);
        schedule = next_schedule;
    }
    out
}

// All rounds taken back, the last first.
pub fn deciphered(x: [u64; 4], keys: [u64; 64], table: &[u64]) -> [u64; 4]
    requires { CipherTable 64 table.now }
    ensures { result ≡ rounds mixing Backward keys x }
{
    let mut words = x;
    for r in (0..64).rev() {
        let before = round_back(words, keys[r], table);
        words = before;
    }
    words
}

// ---- words and bytes

// The word of eight bytes, the first the highest.
fn u64_at(bytes: &[u8], at: usize) -> u64
    requires { at + 8 ≤ length bytes.now }
    ensures { result ≡ value_of high_first (take 64 (drop (8 * at) (bits_in high_first bytes.now))) }
{
    let mut word = [0u8; 8];
    word.copy_from_slice(&bytes[at..at + 8]);
    u64::from_be_bytes(word)
}

// Two words as four of half the size.
fn halves(a: u64, b: u64) -> [u64; 4]
    ensures { result ≡ four_words 32 (bits_of high_first 64 a ++ bits_of high_first 64 b) }
{
    [a >> 32, a % 0x100000000, b >> 32, b % 0x100000000]
}

// The words of the state at the front of bytes.
pub fn state_words(bytes: &[u8]) -> [u64; 4]
    requires { 32 ≤ length bytes.now }
    ensures { result ≡ four_words 64 (bits_in high_first bytes.now) }
{
    [
        u64_at(bytes, 0),
        u64_at(bytes, 8),
        u64_at(bytes, 16),
        u64_at(bytes, 24),
    ]
}

// The words of the key at the front of bytes.
pub fn key_words(key: &[u8]) -> [u64; 4]
    requires { 16 ≤ length key.now }
    ensures { result ≡ four_words 32 (bits_in high_first key.now) }
{
    halves(u64_at(key, 0), u64_at(key, 8))
}

// The bytes of a state over the front of others.
pub fn put_state(out: &mut [u8], x: [u64; 4])
    requires { 32 ≤ length out.old }
    ensures { out.new ≡ pack high_first 32 (bits_of_words 64 x) ++ drop 32 out.old }
{
    for i in 0..32 {
        out[i] = ((x[i / 8] >> (56 - 8 * (i % 8))) % 256) as u8;
    }
}

// The words that hold the state of the bytes: its four, and zeros.
pub fn words_of(s: &[u8; 36]) -> [u64; 8]
    ensures { state_of_four result ≡ state_in (variant 11) s.now }
{
    let x = state_words(s);
    [x[0], x[1], x[2], x[3], 0, 0, 0, 0]
}

// The bytes that hold the state of the words.
pub fn image(w: &[u64; 8]) -> [u8; 36]
    ensures { result ≡ pack (order (variant 11)) 36 (state_of_four w.now) }
{
    let mut out = [0u8; 36];
    put_state(&mut out, [w[0], w[1], w[2], w[3]]);
    out
}

// ---- the block step

// The state after a block, 16 bytes from `at` on: the state's first half is the key, the block and the second half are
// what is enciphered.
fn take_block(w: &mut [u64; 8], bytes: &[u8], at: usize, table: &[u64])
    requires at_in_bounds { at + 16 ≤ length bytes.now }
    requires cipher_table { CipherTable 64 table.now }
    ensures { state_of_four w.new
        ≡ lesamnta_step (state_of_four w.old) (take 128 (drop (8 * at) (bits_in high_first bytes.now))) }
{
    let key = halves(w[0], w[1]);
    let x = enciphered(
        [u64_at(bytes, at), u64_at(bytes, at + 8), w[2], w[3]],
        key,
        table,
    );
    *w = [x[0], x[1], x[2], x[3], 0, 0, 0, 0];
}

// The block step, for a block from the nibble m on of the bytes; it begins at a byte.
pub fn step(w: &mut [u64; 8], bytes: &[u8], m: usize, table: &[u64])
    requires variant_bound { (4 * m + (variant 11).r ≤ 8 * length bytes.now) × ((variant 11).r % 8 ≡ 0 → m % 2 ≡ 0) }
    requires cipher_table { CipherTable 64 table.now }
    ensures { state_of_four w.new
        ≡ step (variant 11) (state_of_four w.old)
        (take (variant 11).r (drop (4 * m) (bits_in high_first bytes.now))) }
{
    take_block(w, bytes, m / 2, table);
}
