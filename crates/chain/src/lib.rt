// The chain of every variant on bytes: sizes, states, rows of blocks, padding, messages and the squeezed digest; and
// the permutation on an image that a caller lends.
#![tactic(auto)]

pub mod blocks;
pub mod images;
pub mod message;
pub mod outcome;
pub mod padding;
pub mod plain;
pub mod sizes;
pub mod split;
pub mod squeeze;
pub mod state;
pub mod stretch;

pub use images::{permute, unpermute};
pub use sizes::{BLOCK_BYTES, DIGEST_BYTES, STATE_BYTES};
