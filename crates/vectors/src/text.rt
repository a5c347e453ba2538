// The words of a line, which single spaces part, and what a word says: a number, bytes in hexadecimal, or a dash for
// none.
ghost use Rattle.std.specs.Prelude.{◌≡◌, ◌++◌, ◌%◌, ◌≤◌, length, take, drop};
ghost use Rattle.octets.specs.Text.{from_decimal};
ghost use Rattle.vectors.specs.Words.{digit_value, pair_value, said_bytes};
ghost use Rattle.io.specs.Counts.{IsPrefixLen};

use chain::message::Ending;

// The maximum number of bytes that a word says.
pub const ROOM: usize = 512;

// What a word of a call says.
#[derive(Clone, Copy)]
pub enum Kind {
    // Nothing: a dash.
    Dash,
    // A number, and one that fits a byte.
    Number,
    Small,
    // How many bits the last byte contributes; a dash for all.
    Ending,
    // Bytes, a dash for none, and as many bytes as are said.
    Bytes,
    Exactly(usize),
}

// Word k of a line; no bytes if there is none.
pub fn word<'a>(line: &'a [u8], k: usize) -> &'a [u8] {
    line.split(|b| *b == b' ').nth(k).unwrap_or(b"")
}

// What a digit says in a base of at most 16.
#[tactic(auto, unfolding(crate::specs::Words::digit_value))]
fn digit(c: u8) -> Option<u8>
    ensures { result ≡ digit_value c }
{
    match c {
        b'0'..=b'9' => Some(c - b'0'),
        b'a'..=b'f' => Some(c - b'a' + 10),
        _ => None,
    }
}

// Whether a word has digits of this base alone, one at least and at most `max`.
fn has_digits(word: &[u8], base: u8, max: usize) -> bool {
    0 < word.len() && word.len() <= max && word.iter().all(|c| digit(*c).is_some_and(|d| d < base))
}

fn has_bytes(word: &[u8]) -> bool {
    has_digits(word, 16, 2 * ROOM) && word.len() % 2 == 0
}

fn is_dash(word: &[u8]) -> bool {
    word == b"-".as_slice()
}

impl Kind {
    fn is_of(self, word: &[u8]) -> bool {
        match self {
            Kind::Dash => is_dash(word),
            Kind::Number => has_digits(word, 10, 9),
            Kind::Small => has_digits(word, 10, 2),
            Kind::Ending => is_dash(word) || has_digits(word, 10, 9),
            Kind::Bytes => is_dash(word) || has_bytes(word),
            Kind::Exactly(n) => has_bytes(word) && word.len() / 2 == n,
        }
    }
}

// Whether a line has a word of each kind after its name, and no word after them. A space at its end begins no word.
pub fn has_form(line: &[u8], form: &[Kind]) -> bool {
    let mut words = line.split_inclusive(|b| *b == b' ').skip(1);
    for kind in form {
        let Some(word) = words.next() else {
            return false;
        };
        if !kind.is_of(word.strip_suffix(b" ").unwrap_or(word)) {
            return false;
        }
    }
    words.next().is_none()
}

// The number that decimal digits say, in 32 bits.
fn number_in(word: &[u8]) -> u32
    ensures { result ≡ from_decimal word.now % 4294967296 }
{
    let mut n = 0u32;
    for c in word {
        n = n
            .wrapping_mul(10)
            .wrapping_add(u32::from(c.saturating_sub(b'0')));
    }
    n
}

pub fn number(line: &[u8], k: usize) -> u32 {
    number_in(word(line, k))
}

// A number that fits a byte.
pub fn small(line: &[u8], k: usize) -> u8 {
    (number(line, k) % 256) as u8
}

fn byte_of(upper: u8, lower: u8) -> u8
    ensures { result ≡ pair_value upper lower }
{
    digit(upper).unwrap_or(0) * 16 + digit(lower).unwrap_or(0)
}

fn bytes_in(word: &[u8], out: &mut [u8]) -> usize
    ensures { (out.new ≡ take result (said_bytes word.now) ++ drop result out.old)
        × IsPrefixLen result out.new }
{
    let n = (word.len() / 2).min(out.len());
    for i in 0..n {
        out[i] = byte_of(word[2 * i], word[2 * i + 1]);
    }
    n
}

// The bytes that a word says in hexadecimal, at the front of the room that is lent for them.
pub fn bytes<'a>(line: &[u8], k: usize, room: &'a mut [u8]) -> &'a mut [u8]
    ensures { length result.now ≤ length room.old }
{
    let n = bytes_in(word(line, k), room);
    &mut room[..n]
}

// The same in an array, with zeros after them.
pub fn array<const N: usize>(line: &[u8], k: usize) -> [u8; N] {
    let mut out = [0u8; N];
    bytes_in(word(line, k), &mut out);
    out
}

// How a message or a piece ends.
pub fn ending(line: &[u8], k: usize) -> Ending {
    if is_dash(word(line, k)) {
        return Ending::Whole;
    }
    Ending::Bits(number(line, k))
}
