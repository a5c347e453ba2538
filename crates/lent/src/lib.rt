// Calls over a running hash that the caller lends and finds advanced, and the cursor that carries a lent segment list.
#![tactic(auto)]

ghost use Rattle.std.specs.Prelude.{◌≡◌, length};
ghost use Rattle.standard.specs.Messages.{bytes, partial};
ghost use Rattle.hasher.specs.Running.{started_over, updated, finished};
ghost use Rattle.hasher.specs.Reading.{read_status, read_into};
ghost use Rattle.standard.specs.declared.Wanted.TheVariants.{Digest, EndState};
ghost use Rattle.segments.specs.Steps.{found_at};
ghost use Rattle.lent.specs.Cursors.{moved_on};

use answers::Refusal;
use hasher::{Advanced, Hasher};
use segments::Entry;

// Leaves in a running hash what a call made of it, and gives the call's answer.
fn advanced(h: &mut Hasher, a: Advanced) -> Result<(), Refusal>
    ensures { (result ≡ a.status)
        × (h.new ≡ a.hasher) }
{
    *h = a.hasher;
    a.status
}

// Begins a message: refusal 1.
pub fn start(h: &mut Hasher, variant: u32) -> Result<(), Refusal>
    ensures { (result ≡ (started_over h.old variant).status)
        × (h.new ≡ (started_over h.old variant).hasher) }
{
    advanced(h, hasher::started_over(*h, variant))
}

// Takes a piece: refusals 2, 3, 16, 4.
pub fn update(h: &mut Hasher, piece: &[u8]) -> Result<(), Refusal>
    ensures { (result ≡ (updated h.old (bytes piece.now)).status)
        × (h.new ≡ (updated h.old (bytes piece.now)).hasher) }
{
    advanced(h, hasher::update(*h, piece))
}

// Takes a piece whose last byte contributes `bits` bits: refusals 2, 3, 15, 16, 4.
pub fn update_bits(h: &mut Hasher, piece: &[u8], bits: u32) -> Result<(), Refusal>
    ensures { (result ≡ (updated h.old (partial piece.now bits)).status)
        × (h.new ≡ (updated h.old (partial piece.now bits)).hasher) }
{
    advanced(h, hasher::update_bits(*h, piece, bits))
}

// Ends the message: refusals 2, 3.
pub fn finish(h: &mut Hasher) -> Result<(), Refusal>
    ensures { (result ≡ (finished h.old).status)
        × (h.new ≡ (finished h.old).hasher) }
{
    advanced(h, hasher::finish(*h))
}

// Writes the digest: refusals 2, 3, 5.
pub fn digest(h: &Hasher, out: &mut [u8]) -> Result<(), Refusal>
    ensures { (result ≡ read_status h.now Digest (length out.old))
        × (out.new ≡ read_into h.now Digest out.old) }
{
    hasher::digest(*h, out)
}

// Writes the image of the end state: refusals 2, 3, 5.
pub fn end_state(h: &Hasher, out: &mut [u8]) -> Result<(), Refusal>
    ensures { (result ≡ read_status h.now EndState (length out.old))
        × (out.new ≡ read_into h.now EndState out.old) }
{
    hasher::end_state(*h, out)
}

// A lent segment list and the number of its next entry.
#[repr(C)]
#[derive(Drop)]
pub struct Cursor<'a> {
    pub list: &'a [u8],
    pub next: usize,
}

// Gives the next entry and moves the cursor on, or refuses with 9 or 7 and leaves the cursor unchanged. It is no
// Iterator, whose None would not tell 9 from 7, as wickslate_advance does.
pub fn advance(c: &mut Cursor) -> Result<Entry, Refusal>
    ensures { (result ≡ (found_at c.old.list.now c.old.next).step)
        × (c.new ≡ moved_on c.old) }
{
    let found = segments::entry_at(c.list, c.next);
    c.next = found.next;
    found.step
}
