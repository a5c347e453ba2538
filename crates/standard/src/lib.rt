// The two choices that definitions and code share. Everything else here is definitions and theorems.
#![tactic(auto)]

// A permutation or a cipher itself, or its inverse.
#[derive(Clone, Copy)]
pub enum Direction {
    Forward,
    Backward,
}

// What is read off an end state.
#[derive(Clone, Copy)]
pub enum Wanted {
    Digest,
    EndState,
}
