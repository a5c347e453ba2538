// The sizes of the variants.
ghost use Rattle.std.specs.Prelude.{◌≡◌, true, ◌+◌, ◌*◌, ◌/◌, ◌≤◌};
ghost use Rattle.standard.specs.Families.{is_sponge, image_size};
ghost use Rattle.standard.specs.Variants.{variant, known};
ghost use Rattle.standard.specs.ForCode.{output_bits};
ghost use Rattle.standard.specs.Layout.{state_room};
ghost use Rattle.chain.specs.Families.{family_of};

// Room for the state of every variant, for a block and for a digest.
pub const STATE_BYTES: usize = 36;

pub const BLOCK_BYTES: usize = 16;

pub const DIGEST_BYTES: usize = 32;

// Tables 1 and 9 and Lesamnta-LW by a variant's number, 0 for no variant: the bits of the state (t), of a block that is
// taken in (r), of one that is given out (r'; Lesamnta-LW gives its state out at once) and of the digest (n). They stand
// in rows, as in the standard's tables: a `Sizes` for each would take six lines.
const SIZES: [[u32; 4]; 12] = [
    [0, 0, 0, 0],
    [100, 20, 16, 80],
    [144, 16, 16, 128],
    [196, 36, 36, 160],
    [256, 32, 32, 224],
    [288, 32, 32, 256],
    [88, 8, 8, 88],
    [136, 8, 8, 128],
    [176, 16, 16, 160],
    [240, 16, 16, 224],
    [272, 16, 16, 256],
    [256, 128, 0, 256],
];

#[derive(Clone, Copy, Default)]
struct Sizes {
    state: u32,
    block: u32,
    output: u32,
    digest: u32,
}

pub fn is_known(v: u32) -> bool
    ensures { result ≡ known v }
{
    matches!(v, 1..=11)
}

// Every variant but Lesamnta-LW is a sponge.
pub fn is_sponge(v: u8) -> bool
    ensures { result ≡ is_sponge (variant v) }
{
    matches!(v, 1..=10)
}

// The families. What depends on them is in `state`.
#[derive(Clone, Copy, PartialEq, Eq)]
pub enum Family {
    Photon,
    Spongent,
    Lesamnta,
}

pub fn family_of(v: u8) -> Family
    requires { known v ≡ true }
    ensures { result ≡ family_of (variant v).family }
{
    match v {
        ..=5 => Family::Photon,
        6..=10 => Family::Spongent,
        _ => Family::Lesamnta,
    }
}

fn sizes_of(v: u8) -> Sizes
    ensures state_value { (result.state ≡ (variant v).t) × (result.block ≡ (variant v).r)
        × (result.output ≡ output_bits (variant v)) × (result.digest ≡ (variant v).n) }
    ensures state_bound { result.state ≤ 8 * state_room }
{
    let Some(&[state, block, output, digest]) = SIZES.get(usize::from(v)) else {
        return Sizes::default();
    };
    Sizes {
        state,
        block,
        output,
        digest,
    }
}

pub fn state_bits(v: u8) -> usize
    ensures { result ≡ (variant v).t }
{
    sizes_of(v).state as usize
}

// The bits that a block takes in.
pub fn block_bits(v: u8) -> u32
    ensures { result ≡ (variant v).r }
{
    sizes_of(v).block
}

pub fn image_bytes(v: u8) -> usize
    ensures { result ≡ image_size (variant v) }
{
    state_bits(v).div_ceil(8)
}

pub fn digest_bytes(v: u8) -> usize
    ensures { result ≡ (variant v).n / 8 }
{
    sizes_of(v).digest as usize / 8
}

// The nibbles that an output block gives.
pub fn output_nibbles(v: u8) -> usize
    ensures { result ≡ output_bits (variant v) / 4 }
{
    sizes_of(v).output as usize / 4
}
