// The line that is printed.
ghost use Rattle.std.specs.Prelude.{◌≡◌, ◌≤◌, length};
ghost use Rattle.octets.specs.Slices.{written_at};
ghost use Rattle.digest.specs.Answers.{digest_line, closed_line, answer_line};

use answers::text::write_refusal;
use hasher::{Advanced, Hasher};
use octets::copies::write_bytes;
use octets::text::write_hex;

// The maximum length of a line: two digits for each of a digest's 32 bytes, and a line end.
pub const MAX_BYTES: usize = 65;

fn write_digest(digest: &[u8], out: &mut [u8]) -> usize
    requires { (length digest.now ≤ 32) × (65 ≤ length out.old) }
    ensures out_after { out.new ≡ written_at 0 (digest_line digest.now) out.old }
    ensures value { (result ≡ length (digest_line digest.now)) × (result ≤ 65) }
{
    let end = write_hex(digest, out, 0);
    write_bytes(b"\n", out, end)
}

// Closes the running hash, and writes the line of its digest or of a refusal.
#[tactic(auto, unfolding(crate::specs::Answers::closed_line))]
fn write_closed(h: Hasher, out: &mut [u8]) -> usize
    requires { 65 ≤ length out.old }
    ensures out_after { out.new ≡ written_at 0 (closed_line h) out.old }
    ensures value { (result ≡ length (closed_line h)) × (result ≤ 65) }
{
    let closed = hasher::finish(h).hasher;
    let mut digest = [0u8; 32];
    match hasher::digest(closed, &mut digest) {
        Ok(()) => write_digest(&digest[..chain::sizes::digest_bytes(closed.variant)], out),
        Err(r) => write_refusal(r, out),
    }
}

// The line for the answer of the last call that took input. Answers the number of its bytes.
pub fn write_answer(answer: Advanced, out: &mut [u8]) -> usize
    requires { 65 ≤ length out.old }
    ensures out_after { out.new ≡ written_at 0 (answer_line answer) out.old }
    ensures value { (result ≡ length (answer_line answer)) × (result ≤ 65) }
{
    match answer.status {
        Ok(()) => write_closed(answer.hasher, out),
        Err(why) => write_refusal(why, out),
    }
}
