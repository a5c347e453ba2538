// Bytes: numbers and text in them, their nibbles and bits, copies and comparisons. Lemmas about arrays and the loops
// that fill them, which the proofs of several crates share, are in proofs/.
#![tactic(auto)]

pub mod bits;
pub mod compare;
pub mod copies;
pub mod nibbles;
pub mod numbers;
pub mod text;
