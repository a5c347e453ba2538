// What is printed after a line: an arrow, then the words of the answer, each with a space before it.
use answers::Refusal;
use hasher::Advanced;
use std::io;

// Bytes in hexadecimal as they lie in memory; a dash stands for no bytes.
pub fn bytes(rt: &impl Print, s: &[u8]) -> io::Result<()> {
    if s.is_empty() {
        return print!(rt; " -");
    }
    print!(rt; " ")?;
    for b in s {
        print!(rt; "{b:02x}")?;
    }
    Ok(())
}

// The answer's number, 0 for Done, with the entry that a refusal names.
pub fn status(rt: &impl Print, s: Result<(), Refusal>) -> io::Result<()> {
    match s {
        Ok(()) => print!(rt; " 0"),
        Err(r @ (Refusal::Misordered(k) | Refusal::PastEnd(k))) => print!(rt;
            " {}@{k}",
            r.number()
        ),
        Err(r) => print!(rt; " {}", r.number()),
    }
}

// An answer with the bytes that came of the call.
pub fn result(rt: &impl Print, s: Result<(), Refusal>, out: &[u8]) -> io::Result<()> {
    status(rt, s)?;
    bytes(rt, out)
}

// An answer with the running hash that came of the call: its variant, stage, total, state and held bits.
pub fn running(rt: &impl Print, answer: Advanced) -> io::Result<()> {
    status(rt, answer.status)?;
    let h = answer.hasher;
    print!(rt; " {} {} {}", h.variant, h.stage, h.total)?;
    bytes(rt, &h.state)?;
    bytes(rt, &h.held)
}
