// Numbers in bytes, the most significant byte first. One function for each width: the library has the reading at each
// type, and no trait for it, so a common one would be longer than both.
ghost use Rattle.std.specs.Prelude.{◌≡◌, ◌+◌, ◌≤◌, length, take, drop};
ghost use Rattle.octets.specs.Numbers.{big_endian, in_bytes};

// The number that the two bytes from i on stand for.
pub fn u16_at(bytes: &[u8], i: usize) -> u16
    requires { i + 2 ≤ length bytes.now }
    ensures { result ≡ big_endian (take 2 (drop i bytes.now)) }
{
    u16::from_be_bytes([bytes[i], bytes[i + 1]])
}

// The number that the four bytes from i on stand for.
pub fn u32_at(bytes: &[u8], i: usize) -> u32
    requires { i + 4 ≤ length bytes.now }
    ensures { result ≡ big_endian (take 4 (drop i bytes.now)) }
{
    u32::from_be_bytes([bytes[i], bytes[i + 1], bytes[i + 2], bytes[i + 3]])
}

// A number in two bytes.
pub fn u16_bytes(n: u16) -> [u8; 2]
    ensures { result ≡ in_bytes 2 n }
{
    n.to_be_bytes()
}
