// The block of a message that leads to a given end state: the state is run forward to its place, the end state of a
// sponge back to it.
#![tactic(auto)]

ghost use Rattle.std.specs.Prelude.{◌≡◌, true, ◌++◌, ◌<◌, length, drop, replicate};
ghost use Rattle.standard.specs.Families.{is_sponge, state_in};
ghost use Rattle.standard.specs.Chain.{blocks_of, block_count};
ghost use Rattle.standard.specs.Messages.{bytes, partial};
ghost use Rattle.standard.specs.Variants.{variant, known};
ghost use Rattle.answers.specs.Refusals.{Done};
ghost use Rattle.answers.specs.Checks.{first_refusal};
ghost use Rattle.answers.specs.Outputs.{written};
ghost use Rattle.standard.specs.Layout.{packed_state};
ghost use Rattle.chain.specs.Holding.{Holds};
ghost use Rattle.chain.specs.MessageBytes.{given};
ghost use Rattle.chain.specs.Splits.{message_held};
ghost use Rattle.recover.specs.Difference.{state_behind, between, difference};
ghost use Rattle.recover.specs.Recovering.{block_size, searchable, placed_checks, found_checks, recovered_block, recover_status, recover_into};

use answers::Refusal;
use chain::message::Ending;
use chain::split::Split;
use chain::stretch::Stretch;
use chain::{STATE_BYTES, images, message, outcome, padding, plain, sizes, state};
use standard::Direction;

// The bytes of a block.
pub fn block_bytes(v: u8) -> usize
    ensures { result ≡ block_size (variant v) }
{
    (sizes::block_bits(v) as usize).div_ceil(8)
}

// The second half of a state of Lesamnta-LW, after zeros.
fn second_half(s: [u8; STATE_BYTES]) -> [u8; STATE_BYTES]
    ensures { result ≡ replicate 16 0 ++ drop 16 s }
{
    let mut out = s;
    out[..16].fill(0);
    out
}

// What lies between two states of Lesamnta-LW: what was enciphered under the key in the first, with the half of it that
// went in beside the block xored out.
fn cipher_difference(s: [u8; STATE_BYTES], end: [u8; STATE_BYTES]) -> [u8; STATE_BYTES]
    requires { Holds 11 s }
    ensures { result ≡ packed_state (variant 11)
        (between (variant 11).family (variant 11) (state_in (variant 11) s) (state_in (variant 11) end)) }
{
    let enciphered = images::at_front(&lesamnta::decrypt_front(&s, &end));
    let half = second_half(s);
    plain::xored(enciphered, &half)
}

// Whether a place among `count` blocks may be searched: of Lesamnta-LW the last alone, since no block after it can be
// taken back.
fn is_searchable(v: u8, count: usize, place: usize) -> bool
    requires { place < count }
    ensures { result ≡ searchable (variant v) count place }
{
    sizes::is_sponge(v) || place + 1 == count
}

// Whether the place is among `count` blocks and may be searched, the image is one, and n bytes of output hold a block:
// refusals 7, 17, 6, 5.
fn check_place(v: u8, count: usize, place: usize, image: &[u8], n: usize) -> Result<(), Refusal>
    requires { known v ≡ true }
    ensures { result ≡ first_refusal (placed_checks (variant v) count place image.now n) }
{
    if count <= place {
        return Err(Refusal::OutOfRange);
    }
    if !is_searchable(v, count, place) {
        return Err(Refusal::NotSponge);
    }
    if !images::is_image(v, image) {
        return Err(Refusal::BadImage);
    }
    if n < block_bytes(v) {
        return Err(Refusal::OutputTooShort);
    }
    Ok(())
}

// A place among the blocks of a message within the limit. Whether it is one, `check_place` tells.
#[derive(Clone, Copy)]
struct Place<'a> {
    v: u8,
    message: Split<'a>,
    index: usize,
    ghost named: { known v ≡ true },
}

impl<'a> Place<'a> {
    // The state of a sponge after the block here if the message ends in the state `end`: the blocks after it taken back,
    // the last first.
    fn run_back(self, end: [u8; STATE_BYTES]) -> [u8; STATE_BYTES]
        requires sponge { is_sponge (variant self.v) ≡ true }
        requires place_in_bounds { self.index < length (blocks_of (variant self.v) (message_held self.message)) }
        requires holds { Holds self.v end }
        ensures { result ≡ packed_state (variant self.entry.v)
            (state_behind (variant self.entry.v) (message_held self.entry.message) self.entry.index
            (state_in (variant self.entry.v) end)) }
    {
        let q = (sizes::block_bits(self.v) / 4) as usize;
        let n = padding::block_count(self.v, self.message.bits);
        let stretch = Stretch::of(self.message);
        let mut s = end;
        for j in (self.index + 1..n).rev() {
            // In two steps, since what a call gives is not laid over an array that it was given.
            let before = plain::unstepped(self.v, s, stretch.block_at(j * q, q));
            s = before;
        }
        s
    }

    // What lies between the states on both sides of the place. For a sponge it is the state before the block, and the
    // one that the permutation has to take to the state after it, xored.
    fn difference(self, end: [u8; STATE_BYTES]) -> [u8; STATE_BYTES]
        requires place_in_bounds { self.index < length (blocks_of (variant self.v) (message_held self.message)) }
        requires place_value { searchable (variant self.v)
            (length (blocks_of (variant self.v) (message_held self.message))) self.index ≡ true }
        requires holds { Holds self.v end }
        ensures { result ≡ packed_state (variant self.entry.v)
            (difference (variant self.entry.v) (message_held self.entry.message) self.entry.index
            (state_in (variant self.entry.v) end)) }
    {
        let start = state::start(self.v);
        let before = outcome::run_blocks(self.v, start, Stretch::of(self.message), self.index);
        if !sizes::is_sponge(self.v) {
            return cipher_difference(before, end);
        }
        let after = self.run_back(end);
        let wanted = state::permuted(self.v, after, Direction::Backward);
        plain::xored(before, &wanted)
    }

    // The block that leads to the state of an image, written over the front of the output: refusal 8 if none does.
    fn put_block(self, image: &[u8], out: &mut [u8]) -> Result<(), Refusal>
        requires { first_refusal (placed_checks (variant self.v)
            (block_count (variant self.v) (length (message_held self.message))) self.index image.now
            (length out.old))
            ≡ Done }
        ensures { (result ≡ first_refusal (found_checks self.entry.v (message_held self.entry.message)
            self.entry.index image.now))
            × (out.new
            ≡ written result
            (recovered_block self.entry.v (message_held self.entry.message) self.entry.index image.now)
            out.old) }
    {
        let end = images::at_front(image);
        let block = self.difference(end);
        if !octets::bits::clear_from(&block, sizes::block_bits(self.v) as usize) {
            return Err(Refusal::NoBlock);
        }
        octets::copies::copy_front(&block, block_bytes(self.v), out);
        Ok(())
    }

    // The block here: refusals 7, 17, 6, 5, 8.
    fn recover_at(self, image: &[u8], out: &mut [u8]) -> Result<(), Refusal>
        ensures { (result ≡ first_refusal (placed_checks (variant self.entry.v)
            (block_count (variant self.entry.v) (length (message_held self.entry.message))) self.entry.index
            image.now (length out.old)
            ++ found_checks self.entry.v (message_held self.entry.message) self.entry.index image.now))
            × (out.new
            ≡ written result
            (recovered_block self.entry.v (message_held self.entry.message) self.entry.index image.now)
            out.old) }
    {
        let count = padding::block_count(self.v, self.message.bits);
        check_place(self.v, count, self.index, image, out.len())?;
        self.put_block(image, out)
    }
}

// Refusals 1, 15, 4, 7, 17, 6, 5, 8. The message's own block at the place is ignored.
pub fn recover_with(
    variant: u32,
    message: &[u8],
    ending: Ending,
    place: usize,
    image: &[u8],
    out: &mut [u8],
) -> Result<(), Refusal>
    ensures { (result ≡ recover_status variant (given message.now ending) place image.now
        (length out.old))
        × (out.new
        ≡ recover_into variant (given message.now ending) place image.now out.old) }
{
    message::check_message(variant, message, ending)?;
    let v = variant as u8;
    let message = padding::split_of(v, message, ending);
    let place = Place {
        v,
        message,
        index: place,
    };
    place.recover_at(image, out)
}

// In a message all of whose bits count: refusals 1, 4, 7, 17, 6, 5, 8.
pub fn recover(
    variant: u32,
    message: &[u8],
    place: usize,
    image: &[u8],
    out: &mut [u8],
) -> Result<(), Refusal>
    ensures { (result ≡ recover_status variant (bytes message.now) place image.now
        (length out.old))
        × (out.new
        ≡ recover_into variant (bytes message.now) place image.now out.old) }
{
    recover_with(variant, message, Ending::Whole, place, image, out)
}

// In a message whose last byte contributes `bits` bits: refusals 1, 15, 4, 7, 17, 6, 5, 8.
pub fn recover_bits(
    variant: u32,
    message: &[u8],
    bits: u32,
    place: usize,
    image: &[u8],
    out: &mut [u8],
) -> Result<(), Refusal>
    ensures { (result ≡ recover_status variant (partial message.now bits) place image.now
        (length out.old))
        × (out.new
        ≡ recover_into variant (partial message.now bits) place image.now out.old) }
{
    recover_with(variant, message, Ending::Bits(bits), place, image, out)
}
