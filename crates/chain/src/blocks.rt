// The blocks of a stretch of bits.
ghost use Rattle.std.specs.Prelude.{◌≡◌, true, IfSome, [], ◌∷◌, ◌++◌, ◌+◌, ◌-◌, ◌*◌, ◌%◌, ◌^◌, ◌≤◌, ◌<◌, length, get_or};
ghost use Rattle.standard.specs.Chain.{step};
ghost use Rattle.standard.specs.Variants.{variant, known};
ghost use Rattle.standard.specs.Layout.{packed_block};
ghost use Rattle.octets.specs.Nibbles.{nibble_in};
ghost use Rattle.chain.specs.Blocks.{bits_after, bytes_in, block_from, none_held, after_blocks};
ghost use Rattle.chain.specs.Words.{state_in_words, TableOf};

use crate::sizes::BLOCK_BYTES;
use crate::split::Split;
use crate::stretch::{Held, Stretch};
use crate::{sizes, state};

impl Held {
    pub fn none() -> Held
        ensures { result ≡ none_held }
    {
        Held {
            bytes: [0u8; BLOCK_BYTES],
            nibbles: 0,
        }
    }
}

impl<'a> Stretch<'a> {
    // No bits.
    pub fn none() -> Stretch<'a>
        ensures { (result.held ≡ none_held) × (bytes_in result ≡ 0 ∷ []) }
    {
        Stretch {
            held: Held::none(),
            piece: b"",
            last: 0,
        }
    }

    // The bits of a whole message, and the padding's 1 bit.
    pub fn of(message: Split<'a>) -> Stretch<'a>
        ensures { (result.held ≡ none_held) × (bytes_in result ≡ message.entry.front.now ++ message.entry.last ∷ []) }
    {
        Stretch {
            held: Held::none(),
            piece: message.front,
            last: message.last,
        }
    }

    // The nibble n of all of it.
    fn nibble_at(self, n: usize) -> u8
        ensures { result ≡ nibble_in (bits_after self.entry.held (bytes_in self.entry)) n }
    {
        let p = self.held.nibbles;
        if n < p {
            let i = n / 2;
            return octets::nibbles::nibble_of(self.held.bytes[i], n);
        }
        let m = n - p;
        let k = m / 2;
        if k < self.piece.len() {
            return octets::nibbles::nibble_of(self.piece[k], m);
        }
        if self.piece.len() < k {
            return 0;
        }
        octets::nibbles::nibble_of(self.last, m)
    }

    // The byte k of q nibbles from the nibble `first` on.
    fn byte_at(self, first: usize, q: usize, k: usize) -> u8
        requires { (q ≤ 32) × (first ≤ 2 ^ 40) × (2 * k < q) }
        ensures { result ≡ get_or (packed_block (block_from self.entry.held (bytes_in self.entry) first q)) k 0 }
    {
        let n = first + 2 * k;
        let upper = self.nibble_at(n) * 16;
        if q == 2 * k + 1 {
            return upper;
        }
        upper + self.nibble_at(n + 1)
    }

    // q nibbles from the nibble `first` on, at the front of a block's bytes.
    pub fn block_at(self, first: usize, q: usize) -> [u8; BLOCK_BYTES]
        requires { (q ≤ 32) × (first ≤ 2 ^ 40) }
        ensures { result ≡ packed_block (block_from self.entry.held (bytes_in self.entry) first q) }
    {
        let n = q.div_ceil(2);
        let mut out = [0u8; BLOCK_BYTES];
        for k in 0..n {
            out[k] = self.byte_at(first, q, k);
        }
        out
    }

    // Where in the piece q nibbles from the nibble `first` on begin, if they lie wholly in it and, if they are whole
    // bytes, begin at a byte of it.
    fn place_in_piece(self, first: usize, q: usize) -> Option<usize>
        requires { (q ≤ 32) × (first ≤ 2 ^ 40) }
        ensures { IfSome result (λ m. (first ≡ self.entry.held.nibbles + m)
            × (m + q ≤ 2 * length self.entry.piece.now) × (q % 2 ≡ 0 → m % 2 ≡ 0)) }
    {
        let m = first.checked_sub(self.held.nibbles)?;
        if self.piece.len() < (m + q).div_ceil(2) {
            return None;
        }
        if q % 2 == 0 && m % 2 == 1 {
            return None;
        }
        Some(m)
    }

    // The block step for q nibbles from the nibble `first` on: straight from the piece if they are all there, else from
    // the bytes that they make.
    fn step_at(self, v: u8, w: &mut [u64; 8], first: usize, q: usize, table: &[u64])
        requires v_value { (known v ≡ true) × (4 * q ≡ (variant v).r) × (first ≤ 2 ^ 40) }
        requires table_of { TableOf v table.now }
        ensures { state_in_words (variant v) w.new
            ≡ step (variant v) (state_in_words (variant v) w.old) (block_from self.entry.held (bytes_in self.entry) first q) }
    {
        match self.place_in_piece(first, q) {
            Some(m) => state::step_words(v, w, self.piece, m, table),
            None => {
                let block = self.block_at(first, q);
                state::step_words(v, w, &block, 0, table)
            }
        }
    }

    // The first `count` blocks run through the state of the words.
    pub fn run_words(self, v: u8, w: &mut [u64; 8], count: usize, table: &[u64])
        requires v_value { (known v ≡ true) × (count ≤ 2 ^ 32) }
        requires table_of { TableOf v table.now }
        ensures { state_in_words (variant v) w.new
            ≡ after_blocks (variant v) (state_in_words (variant v) w.old) self.entry.held (bytes_in self.entry) count }
    {
        let q = (sizes::block_bits(v) / 4) as usize;
        for j in 0..count {
            self.step_at(v, w, j * q, q, table);
        }
    }
}
