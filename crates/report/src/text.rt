// A report as text: its six lines, or the line of a refusal.
ghost use Rattle.std.specs.Prelude.{◌≡◌, ◌≤◌, length};
ghost use Rattle.octets.specs.Slices.{written_at};
ghost use Rattle.report.specs.Lines.{lines_of, lines_for};

use answers::Refusal;
use answers::text::write_refusal;
use manifest::{Report, Summary};
use octets::text::write_line;

// The maximum length of the six lines: 50 bytes of names, spaces and line ends, and ten digits in each.
pub const MAX_BYTES: usize = 110;

// The lines over the front of the output. Answers the number of their bytes.
fn write_summary(s: Summary, out: &mut [u8]) -> usize
    requires { 110 ≤ length out.old }
    ensures out_after { out.new ≡ written_at 0 (lines_of s) out.old }
    ensures value { (result ≡ length (lines_of s)) × (result ≤ 110) }
{
    // An array of names and counts with a loop over it would be no shorter.
    let listed = write_line(b"listed", s.listed, out, 0);
    let tables = write_line(b"tables", s.tables, out, listed);
    let equal = write_line(b"equal", s.equal, out, tables);
    let unequal = write_line(b"unequal", s.unequal, out, equal);
    let untold = write_line(b"untold", s.untold, out, unequal);
    write_line(b"unlisted", s.unlisted, out, untold)
}

// What is printed over the front of the output. Answers the number of its bytes.
pub fn write_report(report: Result<Report, Refusal>, out: &mut [u8]) -> usize
    requires { 110 ≤ length out.old }
    ensures out_after { out.new ≡ written_at 0 (lines_for report) out.old }
    ensures value { (result ≡ length (lines_for report)) × (result ≤ 110) }
{
    match report {
        Ok(report) => write_summary(manifest::summary_of(report), out),
        Err(r) => write_refusal(r, out),
    }
}
