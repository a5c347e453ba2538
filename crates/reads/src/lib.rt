// What the programs share: how an input stands after a read of it, and a buffer filled from a reader.
#![tactic(auto)]

ghost use Rattle.std.specs.Prelude.{◌<◌, length, take, OnOk};
ghost use Rattle.std.specs.Io.KnownBytes.{Consumes, IsAtEnd};
ghost use Rattle.io.specs.Counts.{IsPrefixLen};

use std::io::{Read, Result};

// How an input stands after a read of it, with what was made of all that was read: a further read follows, none does, or
// this one failed.
#[derive(Clone, Copy)]
pub enum Fed<T> {
    More(T),
    Ended(T),
    Failed,
}

// Reads until the buffer is full, the input ends or a read fails. Answers the number of bytes that came, also before a
// failure, and the failure. The library's `read_exact` does not tell the number.
pub fn read_full<R: Read>(source: &mut R, buffer: &mut [u8]) -> (usize, Result<()>)
    ensures in_bounds { IsPrefixLen result.0 buffer.new }
    ensures bytes { Consumes (R.remaining source.old) (R.remaining source.new) (take result.0 buffer.new) }
    ensures end { OnOk result.1 (result.0 < length buffer.new → IsAtEnd (R.remaining source.new)) }
{
    let mut done = 0;
    while done < buffer.len() {
        match source.read(&mut buffer[done..]) {
            Ok(0) => break,
            Ok(n) => done += n,
            Err(e) => return (done, Err(e)),
        }
    }
    (done, Ok(()))
}
