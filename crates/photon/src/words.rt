// The state in words, a column of the matrix in each; the block step by look-ups, in which one entry of a table has the
// S-box and the column step of a byte; and the tables. The number of a variant stands in each call from outside, so that
// its sizes are known and these loops are compiled for each variant, without a loop or a division. That holds as long as
// the compiler finds them cheap enough to put them into their caller: it gives up at a little more code than is here, and
// all is eight times slower then.
ghost use Rattle.std.specs.Prelude.{◌≡◌, cond, ℕ, ◌+◌, ◌*◌, ◌/◌, ◌%◌, ◌^◌, ◌≤◌, ◌<◌, eqb, length, get_or, take, drop};
ghost use mathlib.Core.List.{◌++◌, flat_map};
ghost use Rattle.std.specs.Int.Bits.{bit_xor};
ghost use Rattle.standard.specs.Bits.{high_first, bits_of, bits_in, pack, unpack};
ghost use Rattle.standard.specs.declared.Direction.TheVariants.{Forward};
ghost use Rattle.standard.specs.Grid.{tab};
ghost use Rattle.standard.specs.Photon.{matrix_of, bits_of_matrix, photon_rounds};
ghost use Rattle.standard.specs.Families.{state_in};
ghost use Rattle.standard.specs.Chain.{step};
ghost use Rattle.standard.specs.Variants.{variant};
ghost use Rattle.standard.specs.ForCode.{output_bits};
ghost use Rattle.standard.specs.Layout.{state_room, packed_state};
ghost use Rattle.octets.specs.Cells.{cell_in};
ghost use Rattle.photon_tables.specs.Columns.{place_in, place_of};
ghost use Rattle.photon_tables.specs.Tables.{Entries, Pairs};
ghost use Rattle.photon.specs.Parameters.{photon_of, width};
ghost use Rattle.photon.specs.Words.{matrix_in, round_then, state_of_columns, TableFor};

use crate::{Cell, STATE_BYTES};

// ---- rows of cells into columns

// The lowest bit of row i in the word of a column of d cells of four bits.
fn row_bit(i: usize, d: usize) -> usize
    requires { (i < d) × (5 ≤ d) × (d ≤ 8) }
    ensures { (result ≡ place_in d 4 i) × (result ≤ 28) }
{
    if i / 2 + 1 == (d + 1) / 2 {
        24 + 4 * (i % 2)
    } else {
        4 * i
    }
}

// The lowest bit of row i in the word of a column of six cells of eight bits.
fn byte_bit(i: usize) -> usize
    requires { i < 6 }
    ensures { (result ≡ place_in 6 8 i) × (result ≤ 56) }
{
    if i % 3 == 2 {
        32 * (i / 3) + 24
    } else {
        32 * (i / 3) + 8 * (i % 3)
    }
}

// The lowest bit of row i in the word of a column of d cells.
fn place(cell: Cell, i: usize, d: usize) -> usize
    requires { (i < d) × (5 ≤ d) × (d ≤ 8) × (width cell ≡ 8 → d ≡ 6) }
    ensures { (result ≡ place_in d (width cell) i) × (result + width cell ≤ 64) }
{
    match cell {
        Cell::Nibble => row_bit(i, d),
        Cell::Byte => byte_bit(i),
    }
}

// n cells added to a row, a column each: those from the cell `first` of the bytes on.
fn add_cells(cell: Cell, w: &mut [u64; 8], n: usize, bit: usize, bytes: &[u8], first: usize)
    requires { (n ≤ 8) × (bit + width cell ≤ 64) × (width cell * (first + n) ≤ 8 * length bytes.now) }
    ensures { ((j : ℕ) → j < n
        → get_or w.new j 0
        ≡ bit_xor (get_or w.old j 0) (cell_in (width cell) bytes.now (first + j) * 2 ^ bit))
        × ((j : ℕ) → n ≤ j → get_or w.new j 0 ≡ get_or w.old j 0) }
{
    for j in 0..n {
        w[j] ^= u64::from(crate::cell_of(cell, bytes, first + j)) << bit;
    }
}

// The columns of the matrix that the bytes hold.
fn columns(v: usize, s: &[u8; STATE_BYTES]) -> [u64; 8]
    requires { (1 ≤ v) × (v ≤ 5) }
    ensures { matrix_in v result ≡ matrix_of (photon_of v).d (photon_of v).s (bits_in high_first s.now) }
{
    let d = crate::size_of(v);
    let cell = crate::cell_kind(v);
    let mut out = [0u64; 8];
    for i in 0..d {
        add_cells(cell, &mut out, d, place(cell, i, d), s, i * d);
    }
    out
}

// The words that hold the state of the bytes.
pub fn words_of(v: u8, s: &[u8; STATE_BYTES]) -> [u64; 8]
    requires { (1 ≤ v) × (v ≤ 5) }
    ensures { state_of_columns (photon_of v) result ≡ state_in (variant v) s.now }
{
    match v {
        1 => columns(1, s),
        2 => columns(2, s),
        3 => columns(3, s),
        4 => columns(4, s),
        _ => columns(5, s),
    }
}

// ---- columns into bytes

// The cell in a word from the bit `bit` on.
fn cut(cell: Cell, w: u64, bit: usize) -> u8
    requires { bit < 64 }
    ensures { (result ≡ w / 2 ^ bit % 2 ^ width cell) × (result < 2 ^ width cell) }
{
    match cell {
        Cell::Nibble => ((w >> bit) % 16) as u8,
        Cell::Byte => ((w >> bit) % 256) as u8,
    }
}

// A cell after the first n cells.
fn put(cell: Cell, out: &mut [u8], n: usize, x: u8)
    requires out_len { (length out.old ≡ state_room) × (width cell * (n + 1) ≤ 288) × (x < 2 ^ width cell) }
    requires out_value { out.old ≡ pack high_first state_room (unpack high_first (width cell * n) out.old) }
    ensures { out.new ≡ pack high_first state_room
        (unpack high_first (width cell * n) out.old ++ bits_of high_first (width cell) x) }
{
    match cell {
        Cell::Nibble => octets::nibbles::put_nibble(out, n, x),
        Cell::Byte => {
            octets::nibbles::put_nibble(out, 2 * n, x / 16);
            octets::nibbles::put_nibble(out, 2 * n + 1, x % 16);
        }
    }
}

// A row of d cells after the first n cells.
fn put_row(cell: Cell, out: &mut [u8], w: &[u64; 8], d: usize, bit: usize, n: usize)
    requires out_len { (length out.old ≡ state_room) × (d ≤ 8) × (bit < 64) × (width cell * (n + d) ≤ 288) }
    requires out_value { out.old ≡ pack high_first state_room (unpack high_first (width cell * n) out.old) }
    ensures { out.new ≡ pack high_first state_room (unpack high_first (width cell * n) out.old
        ++ flat_map (bits_of high_first (width cell)) (tab d (λ j. get_or w.now j 0 / 2 ^ bit % 2 ^ width cell))) }
{
    for j in 0..d {
        put(cell, out, n + j, cut(cell, w[j], bit));
    }
}

// The bytes of the first rows of a matrix.
fn image_of(v: usize, w: &[u64; 8], rows: usize) -> [u8; STATE_BYTES]
    requires { (1 ≤ v) × (v ≤ 5) × (rows ≤ (photon_of v).d) }
    ensures { result
        ≡ pack high_first state_room (bits_of_matrix (photon_of v).s (take rows (matrix_in v w.now))) }
{
    let d = crate::size_of(v);
    let cell = crate::cell_kind(v);
    let mut out = [0u8; STATE_BYTES];
    for i in 0..rows {
        put_row(cell, &mut out, w, d, place(cell, i, d), i * d);
    }
    out
}

// The bytes that hold the state of the words.
pub fn image(v: u8, w: &[u64; 8]) -> [u8; STATE_BYTES]
    requires { (1 ≤ v) × (v ≤ 5) }
    ensures { result ≡ packed_state (variant v) (state_of_columns (photon_of v) w.now) }
{
    match v {
        1 => image_of(1, w, 5),
        2 => image_of(2, w, 6),
        3 => image_of(3, w, 7),
        4 => image_of(4, w, 8),
        _ => image_of(5, w, 6),
    }
}

// The bytes of the state's first bits, as many as are given out: the rows that have them, and zeros for the others.
pub fn front(v: u8, w: &[u64; 8]) -> [u8; STATE_BYTES]
    requires { (1 ≤ v) × (v ≤ 5) }
    ensures { take (output_bits (variant v)) (bits_in high_first result)
        ≡ take (output_bits (variant v)) (bits_in high_first
        (packed_state (variant v) (state_of_columns (photon_of v) w.now))) }
{
    match v {
        1 => image_of(1, w, 1),
        2 => image_of(2, w, 1),
        3 => image_of(3, w, 2),
        4 => image_of(4, w, 1),
        _ => image_of(5, w, 1),
    }
}

// ---- bytes of a word

// Byte k of a column of n bytes lies at byte k of its word, the last of three at byte 3.
fn spot(k: usize, n: usize) -> usize
    requires { k < 4 }
    ensures { (result ≡ cond (eqb (k + 1) n) 3 k) × (result < 4) }
{
    if k + 1 == n { 3 } else { k }
}

// The lower half of the word is cut out first: then its highest byte is read off without a mask.
fn byte_of(w: u64, k: usize) -> usize
    requires { k < 4 }
    ensures { result ≡ w / 2 ^ (8 * k) % 256 }
{
    ((w % 0x100000000 >> (8 * k)) % 256) as usize
}

// ---- cells of four bits

// What byte k of each column gives, added to the sums: its lower row lies 2 k columns on.
fn add_pairs(f: &mut [u64; 9], w: &[u64; 8], d: usize, k: usize, table: &[u64])
    requires { (0 < d) × (d ≤ 8) × (2 * k < d)
        × (16 + 256 * ((d + 1) / 2) ≤ length table.now) }
    ensures { (m : ℕ) → m < d → get_or f.new m 0 ≡ bit_xor (get_or f.old m 0)
        (get_or table.now (16 + 256 * k
        + get_or w.now ((m + 2 * k) % d) 0 / 2 ^ (8 * cond (eqb (k + 1) ((d + 1) / 2)) 3 k) % 256) 0) }
{
    for m in 0..d {
        f[m] ^= table[16 + 256 * k + byte_of(w[(m + 2 * k) % d], spot(k, (d + 1) / 2))];
    }
}

// The upper half of a sum belongs to the column before.
fn join(w: &mut [u64; 8], f: &[u64; 9], d: usize)
    requires { d ≤ 8 }
    ensures { (j : ℕ) → j < d → get_or w.new j 0
        ≡ bit_xor (get_or f.now j 0) (get_or f.now (j + 1) 0 / 2 ^ 32) }
{
    for j in 0..d {
        w[j] = f[j] ^ (f[j + 1] >> 32);
    }
}

// A round but for its own constants, which are there already: those of the next are the beginning of the first column's
// sum. Added to a word that is made, they would be one step more on the way from round to round.
fn round4(v: usize, w: &mut [u64; 8], c: u64, table: &[u64])
    requires le_v { (1 ≤ v) × (v ≤ 4) × (c < 2 ^ 32) }
    requires pairs { Pairs (photon_of v) table.now }
    ensures { matrix_in v w.new ≡ round_then v c (matrix_in v w.old) }
{
    let d = crate::size_of(v);
    let mut f = [0u64; 9];
    f[0] = c;
    for k in 0..(d + 1) / 2 {
        add_pairs(&mut f, w, d, k, table);
    }
    f[d] = f[0];
    join(w, &f, d);
}

// The twelve rounds of the variants 1 to 4.
fn rounds4(v: usize, w: &mut [u64; 8], table: &[u64])
    requires le_v { (1 ≤ v) × (v ≤ 4) }
    requires pairs { Pairs (photon_of v) table.now }
    ensures { matrix_in v w.new ≡ photon_rounds (photon_of v) Forward (matrix_in v w.old) }
{
    w[0] ^= table[0];
    for r in 0..12 {
        round4(v, w, table[r + 1], table);
    }
}

// ---- cells of eight bits

// Their rounds are not those above with other numbers: an entry has the share of one row and not of two, six bytes lie
// in both halves of a word, and no half goes to another column. Alike is only the loop over the rounds.

// Byte k of six lies in its half as in a column of three.
fn byte_of_six(w: u64, k: usize) -> usize
    requires { k < 6 }
    ensures { result ≡ w / 2 ^ (place_of (photon_of 5) k) % 256 }
{
    if k < 3 {
        return byte_of(w, spot(k, 3));
    }
    byte_of(w >> 32, spot(k - 3, 3))
}

fn add_shares(f: &mut [u64; 8], w: &[u64; 8], k: usize, table: &[u64])
    requires { (k < 6) × (length table.now ≡ 1552) }
    ensures { (m : ℕ) → m < 6 → get_or f.new m 0 ≡ bit_xor (get_or f.old m 0)
        (get_or table.now (16 + 256 * k
        + get_or w.now ((m + k) % 6) 0 / 2 ^ (place_of (photon_of 5) k) % 256) 0) }
{
    for m in 0..6 {
        f[m] ^= table[16 + 256 * k + byte_of_six(w[(m + k) % 6], k)];
    }
}

fn round8(w: &mut [u64; 8], c: u64, table: &[u64])
    requires { Entries 1552 (photon_of 5) table.now }
    ensures { matrix_in 5 w.new ≡ round_then 5 c (matrix_in 5 w.old) }
{
    let mut f = [0u64; 8];
    f[0] = c;
    for k in 0..6 {
        add_shares(&mut f, w, k, table);
    }
    *w = f;
}

// The twelve rounds of the variant 5.
fn rounds8(w: &mut [u64; 8], table: &[u64])
    requires { Entries 1552 (photon_of 5) table.now }
    ensures { matrix_in 5 w.new ≡ photon_rounds (photon_of 5) Forward (matrix_in 5 w.old) }
{
    w[0] ^= table[0];
    for r in 0..12 {
        round8(w, table[r + 1], table);
    }
}

// ---- the block step

// The block step, for a block from the nibble m on of the bytes; blocks of whole bytes begin at a byte. The words are
// copied, so that they stay in registers through the rounds, and each variant's numbers stand in its calls. One
// function for all five: apart, the compiler keeps fewer of the words in registers. Each arm writes its words back: done
// once, after the `match`, a block takes up to 12 % longer.
pub fn step(v: u8, w: &mut [u64; 8], bytes: &[u8], m: usize, table: &[u64])
    requires le_v { (1 ≤ v) × (v ≤ 5) × (4 * m + (variant v).r ≤ 8 * length bytes.now)
        × ((variant v).r % 8 ≡ 0 → m % 2 ≡ 0) }
    requires table_for { TableFor v table.now }
    ensures { state_of_columns (photon_of v) w.new
        ≡ step (variant v) (state_of_columns (photon_of v) w.old)
        (take (variant v).r (drop (4 * m) (bits_in high_first bytes.now))) }
{
    let block = &bytes[m / 2..];
    let mut s = *w;
    match v {
        1 => {
            add_cells(Cell::Nibble, &mut s, 5, 0, block, m % 2);
            rounds4(1, &mut s, table);
            *w = s;
        }
        2 => {
            add_cells(Cell::Nibble, &mut s, 4, 0, block, 0);
            rounds4(2, &mut s, table);
            *w = s;
        }
        3 => {
            add_cells(Cell::Nibble, &mut s, 7, 0, block, m % 2);
            add_cells(Cell::Nibble, &mut s, 2, 4, block, m % 2 + 7);
            rounds4(3, &mut s, table);
            *w = s;
        }
        4 => {
            add_cells(Cell::Nibble, &mut s, 8, 0, block, 0);
            rounds4(4, &mut s, table);
            *w = s;
        }
        _ => {
            add_cells(Cell::Byte, &mut s, 4, 0, block, 0);
            rounds8(&mut s, table);
            *w = s;
        }
    }
}

// ---- tables

// The words of the tables: pairs of shares for the variants 1 to 4, shares for the variant 5.
pub const PAIR_WORDS: usize = 1040;

pub const SHARE_WORDS: usize = 1552;

// Sixteen entries from the place `at` on: the sixteen shares from `from` on, with `above` over each.
fn fill(out: &mut [u64], at: usize, shares: &[u32; 144], from: usize, above: u64)
    requires { (at + 16 ≤ length out.old) × (from ≤ 128) × (at ≤ 2 ^ 32) }
    ensures { (length out.new ≡ length out.old)
        × ((x : ℕ) → x < 16 → get_or out.new (at + x) 0
        ≡ bit_xor (get_or shares.now (from + x) 0) above)
        × ((k : ℕ) → k < at → get_or out.new k 0 ≡ get_or out.old k 0) }
{
    for x in 0..16 {
        out[at + x] = u64::from(shares[from + x]) ^ above;
    }
}

// The table of a variant, 1 to 4: pairs of shares, after its constants.
pub fn fill_pairs(v: usize, out: &mut [u64])
    requires { (1 ≤ v) × (v ≤ 4) × (length out.old ≡ 1040) }
    ensures { Pairs (photon_of v) out.new }
{
    let shares = photon_tables::shares_of(v);
    let n = (crate::size_of(v) + 1) / 2;
    fill(out, 0, shares, 0, 0);
    for h in 0..16 * n {
        let k = h / 16;
        let y = h % 16;
        fill(
            out,
            16 + 16 * h,
            shares,
            16 + 32 * k,
            u64::from(shares[32 + 32 * k + y]) << 32,
        );
    }
}

// The table of the variant 5.
pub fn entries_288() -> [u64; SHARE_WORDS]
    ensures { Entries 1552 (photon_of 5) result }
{
    photon_tables::shares_288()
}
