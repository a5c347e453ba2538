// What each read of the input makes of the running hash, and whether a further read follows.
ghost use Rattle.std.specs.Prelude.{◌≡◌};
ghost use Rattle.digest.specs.Input.{goes_on, standing, variant_read, after_first, after_piece};

use answers::Refusal;
use hasher::{Advanced, Hasher};
use reads::Fed;

// Whether a further read follows one that brought n bytes, by the answer of the call that took them: 0 is the end of the
// input.
fn goes_on(status: Result<(), Refusal>, n: usize) -> bool
    ensures { result ≡ goes_on status n }
{
    0 < n && status.is_ok()
}

fn standing(answer: Advanced, n: usize) -> Fed<Advanced>
    ensures { result ≡ standing answer n }
{
    if goes_on(answer.status, n) {
        Fed::More(answer)
    } else {
        Fed::Ended(answer)
    }
}

// The byte that a first read brought, by the number of bytes that it brought.
fn variant_read(byte: u8, n: usize) -> u8
    ensures { result ≡ variant_read byte n }
{
    if 0 < n { byte } else { 0 }
}

// The first read, which asked for one byte.
pub fn after_first(byte: u8, read: std::io::Result<usize>) -> Fed<Advanced>
    ensures { result ≡ after_first byte read }
{
    match read {
        Ok(n) => standing(hasher::start(u32::from(variant_read(byte, n))), n),
        Err(_) => Fed::Failed,
    }
}

// A later read, into a buffer: what came stands at its front. No read brings more than the buffer holds; whatever is
// said, no byte past its end is looked at.
pub fn after_piece(h: Hasher, buffer: &[u8], read: std::io::Result<usize>) -> Fed<Advanced>
    ensures { result ≡ after_piece h buffer.now read }
{
    match read {
        Ok(n) => standing(hasher::update(h, &buffer[..n.min(buffer.len())]), n),
        Err(_) => Fed::Failed,
    }
}
