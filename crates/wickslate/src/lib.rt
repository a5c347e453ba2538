// The functions that other languages call, with numbers, slices and the running hash.
// Each answers with one number: 0 if it is done, otherwise the number of the refusal in the low byte, and above it the
// entry that the refusal names. The two functions of the cipher are never refused, and answer nothing.
#![tactic(auto)]

ghost use Rattle.std.specs.Prelude.{◌≡◌, length};
ghost use Rattle.standard.specs.declared.Direction.TheVariants.{Forward, Backward};
ghost use Rattle.lesamnta.specs.Cipher.{ciphered};
ghost use Rattle.answers.specs.Refusals.{answer};
ghost use Rattle.chain.specs.Images.{image_status, permuted_image};
ghost use Rattle.standard.specs.Messages.{bytes, partial};
ghost use Rattle.hasher.specs.Running.{started_over, updated, finished};
ghost use Rattle.standard.specs.declared.Wanted.TheVariants.{Digest, EndState};
ghost use Rattle.hasher.specs.Reading.{read_status, read_into, hash_status, hash_into};
ghost use Rattle.recover.specs.Recovering.{recover_status, recover_into};
ghost use Rattle.segments.specs.Entries.{segment_status};
ghost use Rattle.segments.specs.Steps.{step_answer, found_at};
ghost use Rattle.segments.specs.Digests.{list_status, list_into};
ghost use Rattle.manifest.specs.Records.{manifest_status};
ghost use Rattle.lent.specs.Cursors.{moved_on};
ghost use Rattle.wickslate.specs.Exports.{wanted_of, offset_given, length_given};

use answers::Refusal;
use hasher::Hasher;
use lent::Cursor;
use segments::Entry;
use standard::Wanted;

// Begins a message: refusal 1.
#[unsafe(no_mangle)]
pub extern "C" fn wickslate_start(h: &mut Hasher, variant: u32) -> u32
    ensures { (result ≡ answer (started_over h.old variant).status)
        × (h.new ≡ (started_over h.old variant).hasher) }
{
    answers::answer_of(lent::start(h, variant))
}

// Takes a piece: refusals 2, 3, 16, 4.
#[unsafe(no_mangle)]
pub extern "C" fn wickslate_update(h: &mut Hasher, piece: &[u8]) -> u32
    ensures { (result ≡ answer (updated h.old (bytes piece.now)).status)
        × (h.new ≡ (updated h.old (bytes piece.now)).hasher) }
{
    answers::answer_of(lent::update(h, piece))
}

// Takes a piece whose last byte contributes `bits` bits: refusals 2, 3, 15, 16, 4.
#[unsafe(no_mangle)]
pub extern "C" fn wickslate_update_bits(h: &mut Hasher, piece: &[u8], bits: u32) -> u32
    ensures { (result ≡ answer (updated h.old (partial piece.now bits)).status)
        × (h.new ≡ (updated h.old (partial piece.now bits)).hasher) }
{
    answers::answer_of(lent::update_bits(h, piece, bits))
}

// Ends the message: refusals 2, 3.
#[unsafe(no_mangle)]
pub extern "C" fn wickslate_finish(h: &mut Hasher) -> u32
    ensures { (result ≡ answer (finished h.old).status)
        × (h.new ≡ (finished h.old).hasher) }
{
    answers::answer_of(lent::finish(h))
}

// Writes the digest: refusals 2, 3, 5.
#[unsafe(no_mangle)]
pub extern "C" fn wickslate_digest(h: &Hasher, out: &mut [u8]) -> u32
    ensures { (result ≡ answer (read_status h.now Digest (length out.old)))
        × (out.new ≡ read_into h.now Digest out.old) }
{
    answers::answer_of(lent::digest(h, out))
}

// Writes the image of the end state: refusals 2, 3, 5.
#[unsafe(no_mangle)]
pub extern "C" fn wickslate_end_state(h: &Hasher, out: &mut [u8]) -> u32
    ensures { (result ≡ answer (read_status h.now EndState (length out.old)))
        × (out.new ≡ read_into h.now EndState out.old) }
{
    answers::answer_of(lent::end_state(h, out))
}

// 0 asks for the digest, any other number for the end state. It stays a number: the C interface gives one to
// wickslate_hash, wickslate_hash_bits and wickslate_hash_list.
fn wanted_of(n: u32) -> Wanted
    ensures { result ≡ wanted_of n }
{
    match n {
        0 => Wanted::Digest,
        _ => Wanted::EndState,
    }
}

// The digest of a whole message or, if `wanted` is not 0, its end state: refusals 1, 4, 5.
#[unsafe(no_mangle)]
pub extern "C" fn wickslate_hash(variant: u32, message: &[u8], wanted: u32, out: &mut [u8]) -> u32
    ensures { (result ≡ answer (hash_status variant (bytes message.now) (wanted_of wanted)
        (length out.old)))
        × (out.new ≡ hash_into variant (bytes message.now) (wanted_of wanted)
        out.old) }
{
    answers::answer_of(hasher::hash(variant, message, wanted_of(wanted), out))
}

// The same for a message whose last byte contributes `bits` bits: refusals 1, 15, 4, 5.
#[unsafe(no_mangle)]
pub extern "C" fn wickslate_hash_bits(
    variant: u32,
    message: &[u8],
    bits: u32,
    wanted: u32,
    out: &mut [u8],
) -> u32
    ensures { (result ≡ answer (hash_status variant (partial message.now bits) (wanted_of wanted)
        (length out.old)))
        × (out.new ≡ hash_into variant (partial message.now bits) (wanted_of wanted)
        out.old) }
{
    answers::answer_of(hasher::hash_bits(variant, message, bits, wanted_of(wanted), out))
}

// The permutation on an image: refusals 1, 17, 6.
#[unsafe(no_mangle)]
pub extern "C" fn wickslate_permute(variant: u32, image: &mut [u8]) -> u32
    ensures { (result ≡ answer (image_status variant image.old))
        × (image.new ≡ permuted_image variant Forward image.old) }
{
    answers::answer_of(chain::permute(variant, image))
}

// Its inverse: refusals 1, 17, 6.
#[unsafe(no_mangle)]
pub extern "C" fn wickslate_unpermute(variant: u32, image: &mut [u8]) -> u32
    ensures { (result ≡ answer (image_status variant image.old))
        × (image.new ≡ permuted_image variant Backward image.old) }
{
    answers::answer_of(chain::unpermute(variant, image))
}

// The block cipher of Lesamnta-LW: a state enciphered under a key, in place. No call is refused.
#[unsafe(no_mangle)]
pub extern "C" fn wickslate_lesamnta_encrypt(key: &[u8; 16], state: &mut [u8; 32])
    ensures { state.new ≡ ciphered Forward key.now state.old }
{
    *state = lesamnta::encrypt(*key, *state);
}

// Its inverse under the key.
#[unsafe(no_mangle)]
pub extern "C" fn wickslate_lesamnta_decrypt(key: &[u8; 16], state: &mut [u8; 32])
    ensures { state.new ≡ ciphered Backward key.now state.old }
{
    *state = lesamnta::decrypt(*key, *state);
}

// The block that, at that place among the blocks of the padded message, leads to the end state of the image:
// refusals 1, 4, 7, 17, 6, 5, 8.
#[unsafe(no_mangle)]
pub extern "C" fn wickslate_recover(
    variant: u32,
    message: &[u8],
    place: usize,
    image: &[u8],
    out: &mut [u8],
) -> u32
    ensures { (result ≡ answer (recover_status variant (bytes message.now) place image.now
        (length out.old)))
        × (out.new ≡ recover_into variant (bytes message.now) place image.now
        out.old) }
{
    answers::answer_of(recover::recover(variant, message, place, image, out))
}

// The same for a message whose last byte contributes `bits` bits: refusals 1, 15, 4, 7, 17, 6, 5, 8.
#[unsafe(no_mangle)]
pub extern "C" fn wickslate_recover_bits(
    variant: u32,
    message: &[u8],
    bits: u32,
    place: usize,
    image: &[u8],
    out: &mut [u8],
) -> u32
    ensures { (result ≡ answer (recover_status variant (partial message.now bits) place image.now
        (length out.old)))
        × (out.new ≡ recover_into variant (partial message.now bits) place image.now
        out.old) }
{
    answers::answer_of(recover::recover_bits(variant, message, bits, place, image, out))
}

// Whether entry k names a segment of the buffer: refusals 9, 7, 10, 11.
#[unsafe(no_mangle)]
pub extern "C" fn wickslate_check_entry(list: &[u8], buffer: &[u8], k: usize) -> u32
    ensures { result ≡ answer (segment_status list.now (length buffer.now) k) }
{
    answers::answer_of(segments::check_entry(list, buffer, k))
}

// Writes a step's entry through two lent numbers, and gives its answer; a refusal leaves both unchanged.
fn give(s: Result<Entry, Refusal>, offset: &mut u32, length: &mut u32) -> u32
    ensures { (result ≡ step_answer s)
        × (offset.new ≡ offset_given s offset.old)
        × (length.new ≡ length_given s length.old) }
{
    match s {
        Ok(entry) => {
            *offset = entry.offset;
            *length = entry.length;
            0
        }
        Err(refusal) => answers::answer_of(Err(refusal)),
    }
}

// Reads the offset and length of entry k: refusals 9, 7.
#[unsafe(no_mangle)]
pub extern "C" fn wickslate_entry(list: &[u8], k: usize, offset: &mut u32, length: &mut u32) -> u32
    ensures { (result ≡ step_answer (found_at list.now k).step)
        × (offset.new ≡ offset_given (found_at list.now k).step offset.old)
        × (length.new ≡ length_given (found_at list.now k).step length.old) }
{
    give(segments::entry_at(list, k).step, offset, length)
}

// A step of a cursor: refusals 9, 7. It gives the next entry's offset and length and moves on; if it is refused, all
// three are unchanged.
#[unsafe(no_mangle)]
pub extern "C" fn wickslate_advance(c: &mut Cursor, offset: &mut u32, length: &mut u32) -> u32
    ensures { (result ≡ step_answer (found_at c.old.list.now c.old.next).step)
        × (c.new ≡ moved_on c.old)
        × (offset.new
        ≡ offset_given (found_at c.old.list.now c.old.next).step offset.old)
        × (length.new
        ≡ length_given (found_at c.old.list.now c.old.next).step length.old) }
{
    give(lent::advance(c), offset, length)
}

// The digest over a list and its segments or, if `wanted` is not 0, the end state: refusals 1, 9, 10, 11, 4, 5.
#[unsafe(no_mangle)]
pub extern "C" fn wickslate_hash_list(
    variant: u32,
    list: &[u8],
    buffer: &[u8],
    wanted: u32,
    out: &mut [u8],
) -> u32
    ensures { (result ≡ answer (list_status variant list.now buffer.now (wanted_of wanted)
        (length out.old)))
        × (out.new ≡ list_into variant list.now buffer.now (wanted_of wanted)
        out.old) }
{
    answers::answer_of(segments::hash_list(variant, list, buffer, wanted_of(wanted), out))
}

// Whether a report can be made with a manifest: refusals 12, 13, 14.
#[unsafe(no_mangle)]
pub extern "C" fn wickslate_check_manifest(manifest: &[u8]) -> u32
    ensures { result ≡ answer (manifest_status manifest.now) }
{
    answers::answer_of(manifest::check(manifest))
}
