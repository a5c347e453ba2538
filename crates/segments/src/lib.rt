// Lists of segments of a buffer: an entry by its number, its check, the segment that it names, and the digest over all
// of them.
#![tactic(auto)]

ghost use Rattle.std.specs.Prelude.{◌≡◌, true, ◌+◌, ◌*◌, ◌≤◌, ◌<◌, length};
ghost use Rattle.standard.specs.Messages.{bytes};
ghost use Rattle.answers.specs.Refusals.{Done};
ghost use Rattle.answers.specs.Checks.{first_refusal};
ghost use Rattle.answers.specs.Outputs.{max_bits};
ghost use Rattle.hasher.specs.Running.{whole_so_far, updated};
ghost use Rattle.hasher.specs.ForCode.{Open};
ghost use Rattle.segments.specs.Entries.{offset_of, length_of, end_of, former_end, is_list, count, entry_checks, segment_status, segment_of, segment_at, further, entries_status, segments_of, header_of};
ghost use Rattle.segments.specs.Steps.{step_status, found_at};
ghost use Rattle.segments.specs.Cuts.{total_of};
ghost use Rattle.segments.specs.Digests.{list_status, list_into};

use answers::{MAX_MESSAGE_BYTES, Refusal};
use hasher::Hasher;
use standard::Wanted;

pub fn offset_at(list: &[u8], k: usize) -> u32
    requires { k < count list.now }
    ensures { result ≡ offset_of list.now k }
{
    octets::numbers::u32_at(list, 8 * k)
}

pub fn length_at(list: &[u8], k: usize) -> u32
    requires { k < count list.now }
    ensures { result ≡ length_of list.now k }
{
    octets::numbers::u32_at(list, 8 * k + 4)
}

// Where entry k ends.
fn end_at(list: &[u8], k: usize) -> u64
    requires { k < count list.now }
    ensures { result ≡ end_of list.now k }
{
    u64::from(offset_at(list, k)) + u64::from(length_at(list, k))
}

// Where the entry before entry k ends: 0 for entry 0.
fn former_end(list: &[u8], k: usize) -> u64
    requires { k < count list.now }
    ensures { result ≡ former_end list.now k }
{
    if k == 0 {
        return 0;
    }
    end_at(list, k - 1)
}

// Whole entries, and no more than 512 of them. It stays a test, which private functions ask for: a type that holds it
// would be made anew in each public call, since C gives bytes, and each clause would have one word more for them.
pub fn is_list(list: &[u8]) -> bool
    ensures { result ≡ is_list list.now }
{
    list.len() % 8 == 0 && list.len() <= 4096
}

// How many entries a list has.
fn count(list: &[u8]) -> usize
    ensures { result ≡ count list.now }
{
    list.len() / 8
}

// Whether there is an entry k: refusals 9, 7.
fn check_step(list: &[u8], k: usize) -> Result<(), Refusal>
    ensures { result ≡ step_status list.now k }
{
    if !is_list(list) {
        return Err(Refusal::BadList);
    }
    if count(list) <= k {
        return Err(Refusal::OutOfRange);
    }
    Ok(())
}

// An entry: where its segment begins in the buffer, and how many bytes it has.
#[derive(Clone, Copy, PartialEq, Eq)]
pub struct Entry {
    pub offset: u32,
    pub length: u32,
}

// What a step gives, and the number of the entry that is next after it. Not the step alone: which entry is next is
// promised on a refusal too, and lent::advance and the theorem refused-stays read it.
#[derive(Clone, Copy)]
pub struct Found {
    pub step: Result<Entry, Refusal>,
    pub next: usize,
}

// Entry k of a list: refusals 9, 7.
pub fn entry_at(list: &[u8], k: usize) -> Found
    ensures { result ≡ found_at list.now k }
{
    match check_step(list, k) {
        Ok(()) => Found {
            step: Ok(Entry {
                offset: offset_at(list, k),
                length: length_at(list, k),
            }),
            next: k + 1,
        },
        Err(refusal) => Found {
            step: Err(refusal),
            next: k,
        },
    }
}

// Refusals 10, 11 of one entry.
fn check_bounds(list: &[u8], buffer: &[u8], k: usize) -> Result<(), Refusal>
    requires list_value { is_list list.now ≡ true }
    requires k_bound { k < count list.now }
    ensures { result ≡ first_refusal (entry_checks list.now (length buffer.now) k) }
{
    if u64::from(offset_at(list, k)) < former_end(list, k) {
        return Err(Refusal::Misordered(k as u16));
    }
    if (buffer.len() as u64) < end_at(list, k) {
        return Err(Refusal::PastEnd(k as u16));
    }
    Ok(())
}

// Whether entry k names a segment of the buffer: refusals 9, 7, 10, 11.
pub fn check_entry(list: &[u8], buffer: &[u8], k: usize) -> Result<(), Refusal>
    ensures { result ≡ segment_status list.now (length buffer.now) k }
{
    check_step(list, k)?;
    check_bounds(list, buffer, k)
}

// The bytes that entry k names, where they lie in the buffer; none where the check refuses.
pub fn segment<'a>(list: &[u8], buffer: &'a [u8], k: usize) -> &'a [u8]
    ensures { (result.now ≡ segment_of list.now buffer.now k)
        × (result.ref_ptr ≡ further (segment_at list.now (length buffer.now) k) buffer.entry.ref_ptr) }
{
    match check_entry(list, buffer, k) {
        Ok(()) => {
            let begin = offset_at(list, k) as usize;
            let end = end_at(list, k) as usize;
            &buffer[begin..end]
        }
        Err(_) => &buffer[0..0],
    }
}

// The first refusal that an entry gives.
fn check_all(list: &[u8], buffer: &[u8]) -> Result<(), Refusal>
    requires { is_list list.now ≡ true }
    ensures { result ≡ entries_status list.now (length buffer.now) }
{
    for k in 0..count(list) {
        check_bounds(list, buffer, k)?;
    }
    Ok(())
}

// The bytes of the message: two of count, the list, and what the entries name. No sum wraps: 512 lengths of four bytes
// stay far below a usize.
fn message_length(list: &[u8]) -> usize
    requires { is_list list.now ≡ true }
    ensures { result ≡ length (header_of list.now) + total_of list.now }
{
    let mut sum: usize = 2 + list.len();
    for k in 0..count(list) {
        sum += length_at(list, k) as usize;
    }
    sum
}

// Refusals 1, 9, 10, 11, 4, 5, for an output of n bytes.
fn check_list(
    variant: u32,
    list: &[u8],
    buffer: &[u8],
    wanted: Wanted,
    n: usize,
) -> Result<(), Refusal>
    ensures { result ≡ list_status variant list.now buffer.now wanted n }
{
    if !chain::sizes::is_known(variant) {
        return Err(Refusal::UnknownVariant);
    }
    if !is_list(list) {
        return Err(Refusal::BadList);
    }
    check_all(list, buffer)?;
    if MAX_MESSAGE_BYTES < message_length(list) {
        return Err(Refusal::TooLong);
    }
    hasher::check_room(variant as u8, wanted, n)
}

// The running hash after the number of entries and the list.
fn update_header(h: Hasher, list: &[u8]) -> Hasher
    requires fact { Open h }
    requires list_value { is_list list.now ≡ true }
    requires h_value { (whole_so_far h ≡ true) × (h.total + 8 * length (header_of list.now) ≤ max_bits) }
    ensures { result ≡ (updated h (bytes (header_of list.now))).hasher }
{
    let front = octets::numbers::u16_bytes(count(list) as u16);
    let counted = hasher::update(h, &front);
    let listed = hasher::update(counted.hasher, list);
    listed.hasher
}

// The running hash after every segment in turn, each read where it lies in the buffer.
fn update_all(h: Hasher, list: &[u8], buffer: &[u8]) -> Hasher
    requires fact { Open h }
    requires list_value { (is_list list.now ≡ true) × (entries_status list.now (length buffer.now) ≡ Done) }
    requires h_value { (whole_so_far h ≡ true) × (h.total + 8 * length (segments_of list.now buffer.now) ≤ max_bits) }
    ensures { result ≡ (updated h (bytes (segments_of list.now buffer.now))).hasher }
{
    let mut g = h;
    for k in 0..count(list) {
        g = hasher::update(g, segment(list, buffer, k)).hasher;
    }
    g
}

// The digest over a list and its segments, or the image of the end state: refusals 1, 9, 10, 11, 4, 5. A refusal leaves
// every byte.
pub fn hash_list(
    variant: u32,
    list: &[u8],
    buffer: &[u8],
    wanted: Wanted,
    out: &mut [u8],
) -> Result<(), Refusal>
    ensures { (result ≡ list_status variant list.now buffer.now wanted
        (length out.old))
        × (out.new ≡ list_into variant list.now buffer.now wanted out.old) }
{
    check_list(variant, list, buffer, wanted, out.len())?;
    let begun = hasher::start(variant);
    let led = update_header(begun.hasher, list);
    let h = update_all(led, list, buffer);
    let ended = hasher::finish(h);
    hasher::read(ended.hasher, wanted, out)
}
