// Makes the calls that standard input lists, one a line, and prints each line with an arrow and the answer after it.
#![tactic(auto)]

mod calls;
mod show;
mod text;

use std::io::Result;

// A line that begins with # is a heading.
fn answer(rt: &impl Print, line: &[u8]) -> Result<()> {
    rt.write_all(line)?;
    if !line.starts_with(b"#") {
        print!(rt; " ->")?;
        calls::answer(rt, line)?;
    }
    print!(rt; "\n")
}

fn answer_all(rt: &impl Print, input: &[u8]) -> Result<()> {
    for line in input.split_inclusive(|b| *b == b'\n') {
        answer(rt, line.strip_suffix(b"\n").unwrap_or(line))?;
    }
    Ok(())
}

// The input has to have fewer bytes than the buffer, so that none is left over.
fn main(rt: HostRuntime) -> Result<()> {
    let mut input = io::large_buffer();
    let (n, read) = reads::read_full(&mut rt.stdin(), &mut input);
    read?;
    if n == input.len() {
        return rt.print("the input is too long\n");
    }
    answer_all(&rt, &input[..n])
}
