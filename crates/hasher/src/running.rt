// The running hash from its start to its end: pieces, and the padding.
ghost use Rattle.std.specs.Prelude.{◌≡◌, true, [], ◌∷◌, ◌++◌, ◌+◌, ◌*◌, ◌≤◌, length, drop};
ghost use Rattle.standard.specs.Bits.{high_first, bits_in};
ghost use Rattle.standard.specs.Messages.{message_bits, bytes, partial, given_bits};
ghost use Rattle.standard.specs.Variants.{known};
ghost use Rattle.standard.specs.Layout.{clear};
ghost use Rattle.answers.specs.Refusals.{Done};
ghost use Rattle.answers.specs.Checks.{first_refusal};
ghost use Rattle.answers.specs.Outputs.{max_bits};
ghost use Rattle.chain.specs.Messages.{is_bit_number};
ghost use Rattle.chain.specs.MessageBytes.{given, message_in};
ghost use Rattle.hasher.specs.Running.{variant_of, whole_so_far, blank, fresh, grown, ended, update_checks, started_over, started, updated, finished};
ghost use Rattle.hasher.specs.ForCode.{Open};

use crate::{Advanced, Hasher, checks};
use answers::Refusal;
use chain::message::Ending;
use chain::stretch::{Held, Stretch};
use chain::{BLOCK_BYTES, STATE_BYTES, message, outcome, padding, sizes, state};

// A variant's number, open, and all else zero.
fn blank(v: u8) -> Hasher
    ensures { result ≡ blank v }
{
    Hasher {
        total: 0,
        variant: v,
        stage: 0,
        state: [0u8; STATE_BYTES],
        held: [0u8; BLOCK_BYTES],
    }
}

// The running hash of no bits yet.
fn fresh(v: u8) -> Hasher
    requires { known v ≡ true }
    ensures { result ≡ fresh v }
{
    Hasher {
        state: state::start(v),
        ..blank(v)
    }
}

// A start over a running hash that is there, which a refusal leaves: refusal 1.
pub fn started_over(h: Hasher, variant: u32) -> Advanced
    ensures { result ≡ started_over h variant }
{
    if !sizes::is_known(variant) {
        return Advanced {
            status: Err(Refusal::UnknownVariant),
            hasher: h,
        };
    }
    Advanced {
        status: Ok(()),
        hasher: fresh(variant as u8),
    }
}

// Refusal 1, which yields variant 0.
pub fn start(variant: u32) -> Advanced
    ensures { result ≡ started variant }
{
    started_over(blank(0), variant)
}

// The message goes on with the piece and with the first k bits of a last byte, which has zeros after them: the whole
// blocks of the held bits and these run through the state, and what is left is held. That the running hash is open is
// asked for in a clause here and in two functions below: a struct would be made and taken apart for each.
fn grown(h: Hasher, piece: &[u8], last: u8, k: usize) -> Hasher
    requires fact { Open h }
    requires h_value { (whole_so_far h ≡ true) × (k ≤ 8) × (h.total + (8 * length piece.now + k) ≤ max_bits) }
    requires last_value { clear (drop (8 * length piece.now + k) (bits_in high_first (piece.now ++ last ∷ []))) ≡ true }
    ensures { result ≡ grown h (message_in piece.now last (8 * length piece.now + k)) }
{
    let r = sizes::block_bits(h.variant) as usize;
    let c = crate::held_count(h);
    let added = 8 * piece.len() + k;
    let count = (c + added) / r;
    let left = (c + added) % r;
    // In nibbles: every block is a number of them, and so is what is held after whole bytes.
    // A copy, since a literal takes no array out of a field here.
    let bytes = h.held;
    let stretch = Stretch {
        held: Held {
            bytes,
            nibbles: c / 4,
        },
        piece,
        last,
    };
    Hasher {
        total: h.total + added as u32,
        state: outcome::run_blocks(h.variant, h.state, stretch, count),
        held: stretch.block_at(count * (r / 4), left.div_ceil(4)),
        ..h
    }
}

// The message goes on with a piece whose last byte contributes k bits.
fn grown_bits(h: Hasher, piece: &[u8], k: usize) -> Hasher
    requires fact { Open h }
    requires h_value { (whole_so_far h ≡ true) × (is_bit_number k (length piece.now) ≡ true) }
    requires k_bound { h.total + length (message_bits (variant_of h) piece.now k) ≤ max_bits }
    ensures { result ≡ grown h (message_bits (variant_of h) piece.now k) }
{
    let n = piece.len() - 1;
    let last = message::counted_byte(h.variant, piece[n], k);
    grown(h, &piece[..n], last, k)
}

// The message goes on with a piece.
fn grown_by(h: Hasher, piece: &[u8], ending: Ending) -> Hasher
    requires { first_refusal (update_checks h (given piece.now ending)) ≡ Done }
    ensures { result ≡ grown h (given_bits (variant_of h) (given piece.now ending)) }
{
    match ending {
        Ending::Whole => grown(h, piece, 0, 0),
        Ending::Bits(k) => grown_bits(h, piece, k as usize),
    }
}

// A piece, of whose last byte all bits count or as many as are said: refusals 2, 3, 15, 16, 4.
pub fn update_with(h: Hasher, piece: &[u8], ending: Ending) -> Advanced
    ensures { result ≡ updated h (given piece.now ending) }
{
    let status = checks::check_update(h, piece, ending);
    let hasher = match status {
        Ok(()) => grown_by(h, piece, ending),
        Err(_) => h,
    };
    Advanced { status, hasher }
}

// A piece all of whose bits count: refusals 2, 3, 16, 4.
pub fn update(h: Hasher, piece: &[u8]) -> Advanced
    ensures { result ≡ updated h (bytes piece.now) }
{
    update_with(h, piece, Ending::Whole)
}

// A piece whose last byte contributes `bits` bits: refusals 2, 3, 15, 16, 4.
pub fn update_bits(h: Hasher, piece: &[u8], bits: u32) -> Advanced
    ensures { result ≡ updated h (partial piece.now bits) }
{
    update_with(h, piece, Ending::Bits(bits))
}

// The message has ended: the held bits and the padding make the last blocks, one or two.
fn ended(h: Hasher) -> Hasher
    requires { Open h }
    ensures { result ≡ ended h }
{
    let c = crate::held_count(h);
    let last = padding::last_byte(h.held, c);
    let count = padding::data_blocks(h.variant, c);
    // A copy, since a literal takes no array out of a field here.
    let bytes = h.held;
    let stretch = Stretch {
        held: Held {
            bytes,
            nibbles: 2 * (c / 8),
        },
        piece: b"",
        last,
    };
    let padded = outcome::run_blocks(h.variant, h.state, stretch, count);
    Hasher {
        stage: 1,
        state: padding::ended(h.variant, padded, h.total),
        held: [0u8; BLOCK_BYTES],
        ..h
    }
}

// Refusals 2, 3.
pub fn finish(h: Hasher) -> Advanced
    ensures { result ≡ finished h }
{
    let status = checks::check_open(h);
    let hasher = match status {
        Ok(()) => ended(h),
        Err(_) => h,
    };
    Advanced { status, hasher }
}
