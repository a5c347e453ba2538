// The PHOTON permutation and its inverse by the standard's steps (5.2.4): on a matrix of at most eight rows and
// columns, held in eight rows of eight cells, and on the bytes that hold a state.
ghost use Rattle.std.specs.Prelude.{◌≡◌, cond, reverse, ◌⊎◌, ℕ, ◌+◌, ◌-◌, ◌*◌, ◌%◌, ◌^◌, ◌≤◌, ◌<◌, get_or, eqb};
ghost use Rattle.std.specs.Int.Bits.{bit_xor};
ghost use Rattle.standard.specs.Bits.{high_first, bits_in, pack};
ghost use Rattle.standard.specs.ForCode.{cells, window, Small, Modulus};
ghost use Rattle.standard.specs.Grid.{at};
ghost use Rattle.standard.specs.Field.{double, dot};
ghost use Rattle.standard.specs.Photon.{in_first, shift_rows, mix_columns, unmix_columns};
ghost use Rattle.standard.specs.Photon.{photon_round, photon_rounds, matrix_of, bits_of_matrix, photon_permutation};
ghost use Rattle.standard.specs.Families.{state_in};
ghost use Rattle.standard.specs.Variants.{variant};
ghost use Rattle.standard.specs.Layout.{state_room, packed_state};
ghost use Rattle.octets.specs.Cells.{cell_in};
ghost use Rattle.photon.specs.Parameters.{photon_of, box_of, width, rotation_from, distance, shift_factor};
ghost use Rattle.photon.specs.Rows.{lane, lanes, column_from, odd_sum, nth, Mixing, NoneFrom, SmallRows};

use crate::{Cell, STATE_BYTES, UNZ, Z};
use standard::Direction;

// The steps work on all eight rows and columns, whatever the size of the matrix: a loop of a fixed number of turns is
// compiled without a loop, and the rows stay in registers.

fn sub_row(table: &[u8; 256], row: [u8; 8]) -> [u8; 8]
    ensures { (j : ℕ) → j < 8 → get_or result j 0 ≡ get_or table.now (get_or row j 0) 0 }
{
    let mut out = row;
    for cell in out.iter_mut() {
        *cell = table[usize::from(*cell)];
    }
    out
}

fn sub_cells(table: &[u8; 256], g: [[u8; 8]; 8]) -> [[u8; 8]; 8]
    ensures { (i j : ℕ) → i < 8 → j < 8 → at result i j ≡ get_or table.now (at g i j) 0 }
{
    let mut out = g;
    for row in out.iter_mut() {
        *row = sub_row(table, *row);
    }
    out
}

// A row with x added to its first cell.
fn with_first(row: [u8; 8], x: u8) -> [u8; 8]
    ensures { (j : ℕ) → j < 8 → get_or result j 0 ≡ in_first j (bit_xor (get_or row 0 0) x) (get_or row j 0) }
{
    unpacked(packed(row) ^ u64::from(x))
}

fn add_constants(g: [[u8; 8]; 8], rc: u8, ic: [u8; 8]) -> [[u8; 8]; 8]
    ensures { (i j : ℕ) → i < 8 → j < 8 → at result i j
        ≡ in_first j (bit_xor (at g i 0) (bit_xor rc (get_or ic i 0))) (at g i j) }
{
    let mut out = g;
    for (i, row) in out.iter_mut().enumerate() {
        *row = with_first(*row, rc ^ ic[i]);
    }
    out
}

// A row as one number, so that a sum or a doubling works on its eight cells at once.
fn packed(row: [u8; 8]) -> u64
    ensures { (j : ℕ) → j < 8 → lane j result ≡ get_or row j 0 }
{
    u64::from_le_bytes(row)
}

fn unpacked(x: u64) -> [u8; 8]
    ensures { (j : ℕ) → j < 8 → get_or result j 0 ≡ lane j x }
{
    x.to_le_bytes()
}

// The first d cells of a row rotated left by `by` places.
fn rotated(x: u64, d: usize, by: usize) -> u64
    requires by_nonzero { (0 < by) × (by < d) }
    requires d_bound { d ≤ 8 }
    ensures { (j : ℕ) → j < d → lane j result ≡ lane ((j + by) % d) x }
{
    let top = x << (8 * (8 - d));
    (top >> (8 * (8 - d + by))) ^ (x << (8 * (d - by)))
}

fn rotate_row(row: [u8; 8], d: usize, by: usize) -> [u8; 8]
    requires by_nonzero { (0 < by) × (by < d) }
    requires d_bound { d ≤ 8 }
    ensures { (j : ℕ) → j < d → get_or result j 0 ≡ get_or row ((j + by) % d) 0 }
{
    unpacked(rotated(packed(row), d, by))
}

// The row from which the others count how far they rotate: row 0 or, for the inverse, the row past the last.
fn rotation_from(d: usize, way: Direction) -> usize
    ensures { result ≡ rotation_from d way }
{
    match way {
        Direction::Forward => 0,
        Direction::Backward => d,
    }
}

// By how many places row i rotates. A row past the matrix rotates by one, and nothing reads it. As a distance, and not
// by a `match` here, it leaves the loop over the rows short enough for the compiler to put it into its caller.
fn rotation_of(d: usize, i: usize, from: usize) -> usize
    requires le_d { (2 ≤ d) × (0 < i) }
    requires fact { (from ≡ 0) ⊎ (from ≡ d) }
    ensures { ((0 < result) × (result < d)) × (i < d → result ≡ distance i from) }
{
    if d <= i {
        return 1;
    }
    if from <= i { i - from } else { from - i }
}

// Row 0 stays as it is.
fn shift_rows(g: [[u8; 8]; 8], d: usize, way: Direction) -> [[u8; 8]; 8]
    requires { (2 ≤ d) × (d ≤ 8) }
    ensures { window d result ≡ shift_rows d (shift_factor d way) (window d g) }
{
    let from = rotation_from(d, way);
    let mut out = g;
    for i in 1..8 {
        let by = rotation_of(d, i, from);
        out[i] = rotate_row(out[i], d, by);
    }
    out
}

fn reduction(poly: u16) -> u64
    ensures { result ≡ poly % 256 }
{
    (poly % 256) as u64
}

// Each cell of a row times the variable: shifted by one bit and, if its highest bit was set, reduced by the polynomial.
// It does not branch on a cell: such a branch is guessed wrong half of the time.
fn doubled(x: u64, s: u8, poly: u16) -> u64
    requires le_s { (1 ≤ s) × (s ≤ 8) }
    requires modulus { Modulus (2 ^ s) poly }
    ensures { (j : ℕ) → j < 8 → lane j x < 2 ^ s → lane j result ≡ double (2 ^ s) poly (lane j x) }
{
    let over = (x >> (s - 1)) & 0x0101010101010101;
    ((x & 0x7f7f7f7f7f7f7f7f) * 2) ^ (over * reduction(poly))
}

// x if a is odd, else 0.
fn low_bit(a: u64, x: u64) -> u64
    ensures { result ≡ cond (eqb (a % 2) 1) x 0 }
{
    if a % 2 == 1 { x } else { 0 }
}

// The sum of those of the eight rows from row n on whose cell of y is odd.
fn bit_sum(rows: &[u64; 16], n: usize, y: u64) -> u64
    requires { n ≤ 8 }
    ensures { result ≡ odd_sum (λ i. lane i y) (λ i. get_or rows.now (n + i) 0) 8 }
{
    let mut sum: u64 = 0;
    let mut rest = y;
    for i in 0..8 {
        sum ^= low_bit(rest, rows[n + i]);
        rest /= 256;
    }
    sum
}

// The sum of coefficient times row, over the rows from row n on, as many as there are coefficients. From the highest
// bit of the coefficients down, the sum is doubled and the rows whose coefficient has the bit are added.
fn row_sum(rows: &[u64; 16], n: usize, s: u8, poly: u16, z: u64) -> u64
    requires n_bound { (n ≤ 8) × ((1 ≤ s) × (s ≤ 8)) }
    requires modulus { Modulus (2 ^ s) poly }
    ensures { (d j : ℕ) → Mixing d s poly → NoneFrom d z → SmallRows d (2 ^ s) rows.now n → j < d
        → lane j result ≡ dot (2 ^ s) poly (lanes d z) (column_from d rows.now n j) }
{
    let mut sum: u64 = 0;
    for b in (0u8..8).rev() {
        let twice = doubled(sum, s, poly);
        sum = bit_sum(rows, n, z >> b) ^ twice;
    }
    sum
}

fn packed_rows(g: [[u8; 8]; 8]) -> [u64; 16]
    ensures { (i j : ℕ) → i < 8 → j < 8 → lane j (get_or result i 0) ≡ at g i j }
{
    let mut out = [0u64; 16];
    for i in 0..8 {
        out[i] = packed(g[i]);
    }
    out
}

// The rows from row d on.
fn unpacked_rows(rows: [u64; 16], d: usize) -> [[u8; 8]; 8]
    requires { d ≤ 8 }
    ensures { (i j : ℕ) → i < 8 → j < 8 → at result i j ≡ lane j (get_or rows (d + i) 0) }
{
    let mut out = [[0u8; 8]; 8];
    for i in 0..8 {
        out[i] = unpacked(rows[d + i]);
    }
    out
}

// The first d rows from the bottom up.
fn flipped(g: [[u8; 8]; 8], d: usize) -> [[u8; 8]; 8]
    requires { d ≤ 8 }
    ensures { window d result ≡ reverse (window d g) }
{
    let mut out = g;
    for i in 0..d {
        out[i] = g[d - 1 - i];
    }
    out
}

// After the d rows of the matrix come those of the steps: each step moves the rows up by one, so its last row is the
// only new one.
fn mix_columns(g: [[u8; 8]; 8], d: usize, s: u8, poly: u16, z: u64) -> [[u8; 8]; 8]
    requires mixing { Mixing d s poly }
    requires none_from { NoneFrom d z }
    requires small { Small d (2 ^ s) g }
    ensures { window d result ≡ mix_columns (2 ^ s) poly d (lanes d z) (window d g) }
{
    let mut rows = packed_rows(g);
    for n in 0..d {
        rows[n + d] = row_sum(&rows, n, s, poly, z);
    }
    unpacked_rows(rows, d)
}

// MixColumnsSerial of a variant. Its numbers stand in each call: the step is then compiled for each variant, and
// nothing is left of the bits that its coefficients do not have.
fn mix_columns_of(v: usize, g: [[u8; 8]; 8]) -> [[u8; 8]; 8]
    requires le_v { (1 ≤ v) × (v ≤ 5) }
    requires small { Small (photon_of v).d (2 ^ (photon_of v).s) g }
    ensures { window (photon_of v).d result
        ≡ mix_columns (2 ^ (photon_of v).s) (photon_of v).poly (photon_of v).d (photon_of v).z
        (window (photon_of v).d g) }
{
    match v {
        1 => mix_columns(g, 5, 4, 0x13, Z[0]),
        2 => mix_columns(g, 6, 4, 0x13, Z[1]),
        3 => mix_columns(g, 7, 4, 0x13, Z[2]),
        4 => mix_columns(g, 8, 4, 0x13, Z[3]),
        _ => mix_columns(g, 6, 8, 0x11b, Z[4]),
    }
}

// The same with the coefficients of the inverse.
fn mix_back_of(v: usize, g: [[u8; 8]; 8]) -> [[u8; 8]; 8]
    requires le_v { (1 ≤ v) × (v ≤ 5) }
    requires small { Small (photon_of v).d (2 ^ (photon_of v).s) g }
    ensures { window (photon_of v).d result
        ≡ mix_columns (2 ^ (photon_of v).s) (photon_of v).poly (photon_of v).d (photon_of v).unz
        (window (photon_of v).d g) }
{
    match v {
        4 => mix_columns(g, 8, 4, 0x13, UNZ[0]),
        5 => mix_columns(g, 6, 8, 0x11b, UNZ[1]),
        _ => mix_columns_of(v, g),
    }
}

// The inverse of MixColumnsSerial: the same on the rows from the bottom up, with its own coefficients.
fn unmix_columns_of(v: usize, g: [[u8; 8]; 8]) -> [[u8; 8]; 8]
    requires le_v { (1 ≤ v) × (v ≤ 5) }
    requires small { Small (photon_of v).d (2 ^ (photon_of v).s) g }
    ensures { window (photon_of v).d result
        ≡ unmix_columns (2 ^ (photon_of v).s) (photon_of v).poly (photon_of v).d (photon_of v).unz
        (window (photon_of v).d g) }
{
    let d = crate::size_of(v);
    let m = mix_back_of(v, flipped(g, d));
    flipped(m, d)
}

// A round of a variant with its size, row constants and S-box looked up, or that round taken back.
fn round_with(
    v: usize,
    d: usize,
    ic: [u8; 8],
    table: &[u8; 256],
    g: [[u8; 8]; 8],
    rc: u8,
    way: Direction,
) -> [[u8; 8]; 8]
    requires le_v { (1 ≤ v) × (v ≤ 5) }
    requires d_value { d ≡ (photon_of v).d }
    requires ic_value { cells (photon_of v).d ic ≡ (photon_of v).ic }
    requires by_index { (k : ℕ) → get_or table.now k 0 ≡ get_or (box_of (photon_of v) way) k 0 }
    requires small { Small (photon_of v).d (2 ^ (photon_of v).s) g }
    requires rc_bound { rc < 16 }
    ensures { window (photon_of v).d result ≡ photon_round (photon_of v) way (window (photon_of v).d g) rc }
{
    match way {
        Direction::Forward => {
            let a = add_constants(g, rc, ic);
            let b = sub_cells(table, a);
            let s = shift_rows(b, d, Direction::Forward);
            mix_columns_of(v, s)
        }
        Direction::Backward => {
            let m = unmix_columns_of(v, g);
            let s = shift_rows(m, d, Direction::Backward);
            let b = sub_cells(table, s);
            add_constants(b, rc, ic)
        }
    }
}

// The twelve rounds of a variant, or all of them taken back.
fn rounds(v: usize, g: [[u8; 8]; 8], way: Direction) -> [[u8; 8]; 8]
    requires le_v { (1 ≤ v) × (v ≤ 5) }
    requires small { Small (photon_of v).d (2 ^ (photon_of v).s) g }
    ensures { window (photon_of v).d result ≡ photon_rounds (photon_of v) way (window (photon_of v).d g) }
{
    let d = crate::size_of(v);
    let ic = crate::row_constants(v);
    let table = crate::box_of(v, way);
    let mut out = g;
    for n in 0..12 {
        let rc = crate::round_constant(n, way);
        // By a name of its own: `out = round_with(..)` gets no proof, since the borrow checker does not cover a result that
        // is laid in an array.
        let next = round_with(v, d, ic, &table, out, rc, way);
        out = next;
    }
    out
}

// ---- the matrix in bytes

// d cells from the cell `base` on.
fn read_row(cell: Cell, s: [u8; STATE_BYTES], d: usize, base: usize) -> [u8; 8]
    requires { (d ≤ 8) × (width cell * (base + d) ≤ 288) }
    ensures { (j : ℕ) → j < d → get_or result j 0 ≡ cell_in (width cell) s (base + j) }
{
    let mut out = [0u8; 8];
    for j in 0..d {
        out[j] = crate::cell_of(cell, &s, base + j);
    }
    out
}

// The matrix of d rows and columns that the bytes hold.
fn grid_of(cell: Cell, s: [u8; STATE_BYTES], d: usize) -> [[u8; 8]; 8]
    requires { (d ≤ 8) × (width cell * (d * d) ≤ 288) }
    ensures { window d result ≡ matrix_of d (width cell) (bits_in high_first s) }
{
    let mut out = [[0u8; 8]; 8];
    for i in 0..d {
        out[i] = read_row(cell, s, d, i * d);
    }
    out
}

// The n-th cell of a matrix, row by row, and 0 past its last.
fn cell_at(g: [[u8; 8]; 8], d: usize, n: usize) -> u8
    requires { (0 < d) × (d ≤ 8) }
    ensures { result ≡ nth d (window d g) n }
{
    if d * d <= n {
        return 0;
    }
    let i = n / d;
    let j = n % d;
    g[i][j]
}

// The k-th byte of a matrix's image.
fn byte_of(cell: Cell, g: [[u8; 8]; 8], d: usize, k: usize) -> u8
    requires d_nonzero { (0 < d) × (d ≤ 8) }
    requires small { Small d (2 ^ width cell) g }
    requires k_lt_state_room { k < state_room }
    ensures { result ≡ get_or (pack high_first state_room (bits_of_matrix (width cell) (window d g))) k 0 }
{
    match cell {
        Cell::Nibble => cell_at(g, d, k * 2) * 16 + cell_at(g, d, k * 2 + 1),
        Cell::Byte => cell_at(g, d, k),
    }
}

// The bytes that hold the matrix of d rows and columns.
fn bytes_of(cell: Cell, g: [[u8; 8]; 8], d: usize) -> [u8; STATE_BYTES]
    requires d_nonzero { (0 < d) × (d ≤ 8) }
    requires small { Small d (2 ^ width cell) g }
    ensures { result ≡ pack high_first state_room (bits_of_matrix (width cell) (window d g)) }
{
    let mut out = [0u8; STATE_BYTES];
    for (k, byte) in out.iter_mut().enumerate() {
        *byte = byte_of(cell, g, d, k);
    }
    out
}

// The permutation of a variant, or its inverse, on the bytes that hold a state: as a matrix, permuted, and back.
pub fn permuted(v: u8, s: [u8; STATE_BYTES], way: Direction) -> [u8; STATE_BYTES]
    requires { (1 ≤ v) × (v ≤ 5) }
    ensures { result ≡ packed_state (variant v) (photon_permutation (photon_of v) way (state_in (variant v) s)) }
{
    let n = v as usize;
    let d = crate::size_of(n);
    let cell = crate::cell_kind(n);
    let g = grid_of(cell, s, d);
    let h = rounds(n, g, way);
    bytes_of(cell, h, d)
}
