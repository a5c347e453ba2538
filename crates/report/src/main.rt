// Reads the manifest in the file `rig` of the current folder and then tables from standard input, and prints the six
// counts of the report, a line each, or, if the manifest is refused, "refused" and the number. The tables are read in
// pieces and never held. These functions open, read and write; what they make of it is in `input` and `text`, under
// equations.
#![tactic(auto)]

mod input;
mod text;

ghost use Rattle.std.specs.Prelude.{◌≡◌, ◌≤◌, length, Err, IfErr};

use answers::Refusal;
use manifest::{MAX_RECORDS, RECORD_BYTES, Report};
use reads::Fed;
use std::fs::File;
use std::io::Read;
use std::rt::Files;

// The maximum number of bytes of 65,535 tables. A read that is followed by a further one brings at least one byte, so
// the last table is told before these are used up.
const MAX_READS: u64 = 65535 * (6 + 4294967295);

// Reads the file as far as there is room, and answers what it has, with what a read after it answered, or the opening if
// it failed. A read that fails takes no byte: the next one goes on from the same place, and so the last one tells whether
// all was read, also if one failed before.
fn read_manifest<'a>(rt: &impl Files, room: &'a mut [u8]) -> (&'a [u8], std::io::Result<usize>)
    ensures { length result.0.now ≤ length room.old }
{
    // Were standard input closed, the file would have its number: left open, it would be read as the tables. It is
    // closed at the end of this function.
    let mut file = match File::open(rt, "rig") {
        Ok(file) => file,
        Err(e) => return (&room[..0], Err(e)),
    };
    let (n, _) = reads::read_full(&mut file, room);
    let past = file.read(&mut [0u8; 1]);
    (&room[..n], past)
}

// Reads the tables once. With `digest` this and the loop below share no function: it would take the step as a closure
// with its contract, and be longer than these lines.
fn feed_some<R: Read>(source: &mut R, manifest: &[u8], report: Report) -> Fed<Report> {
    let mut buffer = io::large_buffer();
    let read = source.read(&mut buffer);
    input::after_piece(manifest, report, &buffer, read)
}

// Reads the tables for as long as there is more.
fn feed_all<R: Read>(source: &mut R, manifest: &[u8], begun: Report) -> Fed<Report> {
    let mut fed = Fed::More(begun);
    for _ in 0..MAX_READS {
        let Fed::More(report) = fed else {
            break;
        };
        fed = feed_some(source, manifest, report);
    }
    fed
}

fn show(rt: &impl Print, report: Result<Report, Refusal>) -> std::io::Result<()> {
    let mut lines = [0u8; text::MAX_BYTES];
    let n = text::write_report(report, &mut lines);
    rt.write_all(&lines[..n])
}

// The report of the tables in the input, if one was begun: for a manifest that was refused no byte of it is read.
fn feed<R: Read>(
    source: &mut R,
    manifest: &[u8],
    begun: Result<Report, Refusal>,
) -> Result<Fed<Report>, Refusal>
    ensures { IfErr begun (λ r. (result ≡ Err r) × (R.remaining source.new ≡ R.remaining source.old)) }
{
    Ok(feed_all(source, manifest, begun?))
}

// Nothing but a complaint is printed if the input cannot be read.
fn report_on<R: Read>(
    rt: &(impl Print + Eprint),
    source: &mut R,
    manifest: &[u8],
    past: std::io::Result<usize>,
) -> std::io::Result<()> {
    match feed(source, manifest, input::after_manifest(manifest, past)) {
        Ok(Fed::More(report) | Fed::Ended(report)) => show(rt, Ok(report)),
        Ok(Fed::Failed) => rt.eprintln("report: standard input cannot be read"),
        Err(r) => show(rt, Err(r)),
    }
}

fn main(rt: HostRuntime) -> std::io::Result<()> {
    let mut room = [0u8; MAX_RECORDS * RECORD_BYTES];
    let (manifest, past) = read_manifest(&rt, &mut room);
    report_on(&rt, &mut rt.stdin(), manifest, past)
}
