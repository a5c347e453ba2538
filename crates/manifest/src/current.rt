// The table that is being read.
ghost use Rattle.std.specs.Prelude.{◌≡◌, ◌+◌, ◌*◌, ◌≤◌, ◌<◌, length};
ghost use mathlib.Core.List.{foldl};
ghost use Rattle.answers.specs.Outputs.{max_bits};
ghost use Rattle.hasher.specs.Pieces.{with_byte};
ghost use Rattle.manifest.specs.Tables.{header_bytes, axis_in, length_in};
ghost use Rattle.manifest.specs.Progress.{unread, variant_for, opened_table, header_byte, table_byte, is_complete};
ghost use Rattle.manifest.specs.Strides.{Stride};

use crate::ordered::Ordered;
use crate::records;
use answers::{MAX_MESSAGE_BITS, MAX_MESSAGE_BYTES};
use hasher::Hasher;

// Two bytes of axis number and four of length.
const HEADER_BYTES: usize = 6;

// The table that is being read: its header and how many bytes of it came; after the last of them, the number of bytes
// of the contents that are still to come, and the running hash of those that came. A table that need not be hashed has
// one of variant 0, which takes nothing.
// The header is a buffer with its length beside it, since nothing here has memory of its own to grow into.
#[derive(Clone, Copy)]
pub struct Current {
    pub header: [u8; HEADER_BYTES],
    pub got: u8,
    pub left: u32,
    pub hasher: Hasher,
}

// No byte of it read yet.
pub fn unread() -> Current
    ensures { result ≡ unread }
{
    Current {
        header: [0; HEADER_BYTES],
        got: 0,
        left: 0,
        hasher: hasher::start(0).hasher,
    }
}

// The variant under which a table of n bytes is hashed: 0, under which nothing is, if it need not be. It is no Option,
// since a start that is refused yields a running hash of variant 0, which is what a table then has.
fn variant_for(manifest: &Ordered, axis: u16, n: u32) -> u32
    ensures { result ≡ variant_for manifest.now axis n }
{
    let Some(k) = manifest.record_for(axis) else {
        return 0;
    };
    if MAX_MESSAGE_BYTES < n as usize {
        return 0;
    }
    u32::from(records::variant_at(manifest.bytes(), k))
}

pub fn axis_in(header: [u8; HEADER_BYTES]) -> u16
    ensures { result ≡ axis_in header }
{
    octets::numbers::u16_at(&header, 0)
}

fn length_in(header: [u8; HEADER_BYTES]) -> u32
    ensures { result ≡ length_in header }
{
    octets::numbers::u32_at(&header, 2)
}

// The header is there, and the contents are to come.
fn open_table(manifest: &Ordered, header: [u8; HEADER_BYTES]) -> Current
    ensures { result ≡ opened_table manifest.now header }
{
    let n = length_in(header);
    Current {
        header,
        got: HEADER_BYTES as u8,
        left: n,
        hasher: hasher::start(variant_for(manifest, axis_in(header), n)).hasher,
    }
}

// One byte more of the header.
fn header_byte(manifest: &Ordered, c: Current, b: u8) -> Current
    requires { c.got < header_bytes }
    ensures { result ≡ header_byte manifest.now c b }
{
    let mut header = c.header;
    header[usize::from(c.got)] = b;
    if usize::from(c.got) + 1 < HEADER_BYTES {
        return Current {
            header,
            got: c.got + 1,
            ..c
        };
    }
    open_table(manifest, header)
}

// The number of bytes that a running hash of `total` bits can still take; any number if it can take none, since it then
// refuses them all.
fn room(total: u32) -> usize
    ensures { (1 ≤ result) × (total + 8 ≤ max_bits → total + 8 * result ≤ max_bits) }
{
    if total <= MAX_MESSAGE_BITS - 8 {
        ((MAX_MESSAGE_BITS - total) / 8) as usize
    } else {
        MAX_MESSAGE_BYTES
    }
}

// The number of the available bytes that are read at once: one of a header; of contents all that the table has and its
// running hash can take.
pub fn stride(c: Current, available: usize) -> usize
    requires { 1 ≤ available }
    ensures { (result ≤ available) × Stride c result }
{
    if usize::from(c.got) < HEADER_BYTES {
        return 1;
    }
    // No stream leads to a table with nothing left, but the next byte must move even that one on.
    if c.left == 0 {
        return 1;
    }
    available.min(c.left as usize).min(room(c.hasher.total))
}

// The running hash after some bytes more, which it takes whole or not at all.
fn with_bytes(h: Hasher, part: &[u8]) -> Hasher
    requires in_bounds { 1 ≤ length part.now }
    requires part_bound { h.total + 8 ≤ max_bits → h.total + 8 * length part.now ≤ max_bits }
    ensures { result ≡ foldl with_byte h part.now }
{
    hasher::update(h, part).hasher
}

// A stride more of the table.
pub fn advance(manifest: &Ordered, c: Current, part: &[u8]) -> Current
    requires { Stride c (length part.now) }
    ensures { result ≡ foldl (table_byte manifest.now) c part.now }
{
    if usize::from(c.got) < HEADER_BYTES {
        return header_byte(manifest, c, part[0]);
    }
    Current {
        left: c.left.saturating_sub(part.len() as u32),
        hasher: with_bytes(c.hasher, part),
        ..c
    }
}

// Whether its last byte was read.
pub fn is_complete(c: Current) -> bool
    ensures { result ≡ is_complete c }
{
    HEADER_BYTES <= usize::from(c.got) && c.left == 0
}
