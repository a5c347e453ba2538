// Reads a variant byte and then a message from standard input to its end, and prints the message's digest in lower-case
// hexadecimal or, if a call is refused, "refused" and the number. The message is read in pieces and never held.
// What is read and what is printed is up to these functions; all else is in `input` and `text`, under equations.
#![tactic(auto)]

mod input;
mod text;

ghost use Rattle.std.specs.Prelude.{◌≡◌, false};
ghost use Rattle.digest.specs.Reads.{has_more, Longer};

use hasher::{Advanced, Hasher};
use reads::Fed;
use std::io::{Read, Result};

// Reads once. The program `report` has its own: a common one would take the step as a closure with its contract.
fn feed_some<R: Read>(source: &mut R, h: Hasher) -> Fed<Advanced>
    ensures { Longer h result }
{
    let mut buffer = io::large_buffer();
    let read = source.read(&mut buffer);
    input::after_piece(h, &buffer, read)
}

// Reads for as long as there is more. The message grows with each read, and the hash refuses one that is too long.
fn feed_all<R: Read>(source: &mut R, begun: Fed<Advanced>) -> Fed<Advanced>
    ensures { has_more result ≡ false }
{
    let mut fed = begun;
    while let Fed::More(answer) = fed {
        fed = feed_some(source, answer.hasher);
    }
    fed
}

// Nothing but a complaint is printed if the input cannot be read.
fn show(rt: &(impl Print + Eprint), fed: Fed<Advanced>) -> Result<()> {
    match fed {
        Fed::More(answer) | Fed::Ended(answer) => {
            let mut line = [0u8; text::MAX_BYTES];
            let n = text::write_answer(answer, &mut line);
            rt.write_all(&line[..n])
        }
        Fed::Failed => rt.eprintln("digest: standard input cannot be read"),
    }
}

fn main(rt: HostRuntime) -> Result<()> {
    let mut source = rt.stdin();
    let mut first = [0u8; 1];
    let read = source.read(&mut first);
    show(
        &rt,
        feed_all(&mut source, input::after_first(first[0], read)),
    )
}
