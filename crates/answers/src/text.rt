// The line that is printed for a refusal.
ghost use Rattle.std.specs.Prelude.{◌≡◌, ◌≤◌, length};
ghost use Rattle.octets.specs.Slices.{written_at};
ghost use Rattle.answers.specs.Lines.{refused_line};

use crate::Refusal;
use octets::text::write_line;

// The line over the front of an output that has room for any number. Answers the number of its bytes.
pub fn write_refusal(r: Refusal, out: &mut [u8]) -> usize
    requires { 19 ≤ length out.old }
    ensures out_after { out.new ≡ written_at 0 (refused_line r) out.old }
    ensures value { (result ≡ length (refused_line r)) × (result ≤ 19) }
{
    write_line(b"refused", u32::from(r.number()), out, 0)
}
