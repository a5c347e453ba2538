// SPONGENT (5.3), the variants 6 to 10: its parameters. `steps` has the permutation and its inverse by the standard's
// steps, `words` the block step by look-ups, for hashing.
#![tactic(auto)]

pub mod steps;
mod tables; // what a byte gives through the S-box, written by scripts/tables
pub mod words;

// Table 9, the variants 6 to 10 in order.
pub const STATE_BITS: [usize; 5] = [88, 136, 176, 240, 272];

pub const ROUND_COUNTS: [usize; 5] = [45, 70, 90, 120, 140];

pub const COUNTER_WIDTHS: [usize; 5] = [6, 7, 7, 7, 8];

pub const FIRST_COUNTERS: [u8; 5] = [0x05, 0x7A, 0x45, 0x01, 0x9E];

// The counters of the last rounds, with which the inverses begin.
pub const LAST_COUNTERS: [u8; 5] = [0x1F, 0x3F, 0x3F, 0x3F, 0x7F];

// Table 10, and its inverse.
pub const S_BOX: [u8; 16] = [14, 13, 11, 0, 2, 1, 4, 15, 7, 10, 8, 5, 9, 12, 3, 6];

pub const S_BOX_BACK: [u8; 16] = [3, 5, 4, 14, 6, 11, 15, 8, 10, 12, 9, 2, 13, 1, 0, 7];
