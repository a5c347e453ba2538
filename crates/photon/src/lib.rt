// PHOTON (5.2): its parameters by a variant's number, 1 to 5. The permutation by the standard's steps is in `steps`,
// the block step by look-ups in `words`.
#![tactic(auto)]

ghost use Rattle.std.specs.Prelude.{◌≡◌, ℕ, ◌+◌, ◌-◌, ◌*◌, ◌^◌, ◌≤◌, ◌<◌, length, get_or};
ghost use Rattle.standard.specs.Rounds.{in_turn};
ghost use Rattle.standard.specs.ForCode.{cells};
ghost use Rattle.standard.specs.Photon.{round_constants};
ghost use Rattle.octets.specs.Cells.{cell_in};
ghost use Rattle.photon.specs.Parameters.{photon_of, box_of, width};

pub mod steps;
pub mod words;
mod tables; // tables.rt: the S-boxes and their inverses

use standard::Direction;
use tables::{AES, PRESENT, UNAES, UNPRESENT};

// Room for a state of any variant of any family, as all of them hold one: the state's bits at the front, and zeros
// after them.
pub const STATE_BYTES: usize = 36;

// How wide a cell is: two cells to a byte, the first high, or one.
#[derive(Clone, Copy)]
enum Cell {
    Nibble,
    Byte,
}

// The tables below have an entry for each variant, 1 to 5. A row of fewer than eight cells is filled with zeros.
const ROW: [[u8; 8]; 5] = [
    [0, 1, 3, 6, 4, 0, 0, 0],
    [0, 1, 3, 7, 6, 4, 0, 0],
    [0, 1, 2, 5, 3, 6, 4, 0],
    [0, 1, 3, 7, 15, 14, 12, 8],
    [0, 1, 3, 7, 6, 4, 0, 0],
];

// The coefficients Z of each variant, a byte for each in one number, the first lowest.
const Z: [u64; 5] = [
    0x02_09_09_02_01,
    0x02_08_05_08_02_01,
    0x04_06_01_01_06_04_01,
    0x06_05_08_02_0b_02_04_02,
    0x04_01_02_01_03_02,
];

// Those of the inverses of variants 4 and 5. The inverses of the others have the same as forward.
const UNZ: [u64; 2] = [0x02_01_0c_01_04_0b_03_09, 0x8c_8d_01_8d_02_8d];

const CONSTANTS: [u8; 12] = [1, 3, 7, 14, 13, 11, 6, 12, 9, 2, 5, 10];

// The number of rows and of columns.
pub fn size_of(v: usize) -> usize
    requires { (1 ≤ v) × (v ≤ 5) }
    ensures { result ≡ (photon_of v).d }
{
    match v {
        1 => 5,
        2 => 6,
        3 => 7,
        4 => 8,
        _ => 6,
    }
}

// How wide the cells of a variant are.
fn cell_kind(v: usize) -> Cell
    requires { (1 ≤ v) × (v ≤ 5) }
    ensures { width result ≡ (photon_of v).s }
{
    if v == 5 { Cell::Byte } else { Cell::Nibble }
}

// The n-th cell of the bytes.
fn cell_of(cell: Cell, bytes: &[u8], n: usize) -> u8
    requires { width cell * (n + 1) ≤ 8 * length bytes.now }
    ensures { (result ≡ cell_in (width cell) bytes.now n) × (result < 2 ^ width cell) }
{
    match cell {
        Cell::Nibble => octets::nibbles::nibble_of(bytes[n / 2], n),
        Cell::Byte => bytes[n],
    }
}

// The entries of a nibble's table, and zeros after them: a table that any byte can index.
fn widened(table: [u8; 16]) -> [u8; 256]
    ensures { (k : ℕ) → get_or result k 0 ≡ get_or table k 0 }
{
    let mut out = [0u8; 256];
    out[..16].copy_from_slice(&table);
    out
}

// The S-box of a variant, or its inverse.
fn box_of(v: usize, way: Direction) -> [u8; 256]
    requires { (1 ≤ v) × (v ≤ 5) }
    ensures { (k : ℕ) → get_or result k 0 ≡ get_or (box_of (photon_of v) way) k 0 }
{
    match (way, v) {
        (Direction::Forward, 5) => AES,
        (Direction::Forward, _) => widened(PRESENT),
        (Direction::Backward, 5) => UNAES,
        (Direction::Backward, _) => widened(UNPRESENT),
    }
}

fn row_constants(v: usize) -> [u8; 8]
    requires { (1 ≤ v) × (v ≤ 5) }
    ensures { cells (photon_of v).d result ≡ (photon_of v).ic }
{
    ROW[v - 1]
}

// The constant of round n: the inverse begins with the last.
fn round_constant(n: usize, way: Direction) -> u8
    requires { n < 12 }
    ensures { result ≡ get_or (in_turn way round_constants) n 0 }
{
    match way {
        Direction::Forward => CONSTANTS[n],
        Direction::Backward => CONSTANTS[11 - n],
    }
}
