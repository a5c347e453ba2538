// Text written over a part of an output, from a place on. Each call answers the place after what it wrote.
// The output and the place stay two parameters, and no writer with methods: callers have `write_line`, `write_decimal` and
// `write_hex` with these.
ghost use Rattle.std.specs.Prelude.{◌≡◌, ◌+◌, ◌*◌, ◌/◌, ◌%◌, ◌<◌, ◌≤◌, length};
ghost use Rattle.octets.specs.Slices.{written_at};
ghost use Rattle.octets.specs.Text.{digit_code, decimal, hex_digit, hex_of, line_of};

use crate::copies::write_bytes;

// The last decimal digit of n.
fn last_digit(n: u32) -> u8
    ensures { result ≡ digit_code (n % 10) }
{
    b'0' + (n % 10) as u8
}

// The digits after the first are as many as the logarithm says. 0 has no logarithm, and one digit.
fn digit_count(n: u32) -> usize
    ensures { result ≡ length (decimal n) }
{
    let tens = n.checked_ilog10().unwrap_or(0);
    1 + tens as usize
}

// A number in decimal, from its last digit to its first. By index: of what `iter_mut` lends out, a proof learns only the
// length.
pub fn write_decimal(n: u32, out: &mut [u8], at: usize) -> usize
    requires { at + length (decimal n) ≤ length out.old }
    ensures out_after { out.new ≡ written_at at (decimal n) out.old }
    ensures value { result ≡ at + length (decimal n) }
{
    let end = at + digit_count(n);
    let mut rest = n;
    for i in (at..end).rev() {
        out[i] = last_digit(rest);
        rest /= 10;
    }
    end
}

// A name, a space, a number in decimal and a line end, in a place with room for any number.
pub fn write_line(name: &[u8], n: u32, out: &mut [u8], at: usize) -> usize
    requires { at + length name.now + 12 ≤ length out.old }
    ensures out_after { out.new ≡ written_at at (line_of name.now n) out.old }
    ensures value { (result ≡ at + length (line_of name.now n)) × (result ≤ at + length name.now + 12) }
{
    let named = write_bytes(name, out, at);
    let spaced = write_bytes(b" ", out, named);
    let counted = write_decimal(n, out, spaced);
    write_bytes(b"\n", out, counted)
}

// A number below 16 as a hexadecimal digit.
pub fn hex_digit(n: u8) -> u8
    requires { n < 16 }
    ensures { result ≡ hex_digit n }
{
    b"0123456789abcdef"[usize::from(n)]
}

// Bytes in lower-case hexadecimal.
pub fn write_hex(bytes: &[u8], out: &mut [u8], at: usize) -> usize
    requires { at + 2 * length bytes.now ≤ length out.old }
    ensures out_after { out.new ≡ written_at at (hex_of bytes.now) out.old }
    ensures value { result ≡ at + 2 * length bytes.now }
{
    let mut p = at;
    for &b in bytes {
        p = write_bytes(&[hex_digit(b / 16), hex_digit(b % 16)], out, p);
    }
    p
}
