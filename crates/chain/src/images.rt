// Images: a state in bytes that a caller lends, and the permutation on it.
ghost use Rattle.std.specs.Prelude.{◌≡◌, true, ◌++◌, ◌-◌, ◌≤◌, length, replicate};
ghost use Rattle.standard.specs.declared.Direction.TheVariants.{Forward, Backward};
ghost use Rattle.standard.specs.Families.{is_sponge, image_of, state_in};
ghost use Rattle.standard.specs.Variants.{variant, known};
ghost use Rattle.standard.specs.Layout.{state_room};
ghost use Rattle.chain.specs.TakenBack.{permuted_state};
ghost use Rattle.chain.specs.Images.{is_image, image_status, permuted_image};

use crate::sizes::STATE_BYTES;
use crate::{sizes, state};
use answers::Refusal;
use standard::Direction;

// The bytes at the front of 36, zeros after them.
pub fn at_front(bytes: &[u8]) -> [u8; STATE_BYTES]
    requires { length bytes.now ≤ state_room }
    ensures { result ≡ bytes.now ++ replicate (state_room - length bytes.now) 0 }
{
    let mut out = [0u8; STATE_BYTES];
    out[..bytes.len()].copy_from_slice(bytes);
    out
}

// Whether the bytes are an image of the variant.
pub fn is_image(v: u8, image: &[u8]) -> bool
    requires { known v ≡ true }
    ensures { result ≡ is_image (variant v) image.now }
{
    if image.len() != sizes::image_bytes(v) {
        return false;
    }
    octets::bits::clear_from(image, sizes::state_bits(v))
}

// The state of a sponge's image, permuted in place.
fn permute_state(v: u8, image: &mut [u8], way: Direction)
    requires v_value { (known v ≡ true) × (is_sponge (variant v) ≡ true) }
    requires image_value { is_image (variant v) image.old ≡ true }
    ensures { image.new
        ≡ image_of (variant v) (permuted_state (variant v) way (state_in (variant v) image.old)) }
{
    let s = at_front(image);
    let r = state::permuted(v, s, way);
    image.copy_from_slice(&r[..image.len()]);
}

// Both directions of the public operation: the checks in order, then the bytes through the permutation.
fn permute_image(variant: u32, image: &mut [u8], way: Direction) -> Result<(), Refusal>
    ensures { (result ≡ image_status variant image.old)
        × (image.new ≡ permuted_image variant way image.old) }
{
    if !sizes::is_known(variant) {
        return Err(Refusal::UnknownVariant);
    }
    let v = variant as u8;
    if !sizes::is_sponge(v) {
        return Err(Refusal::NotSponge);
    }
    if !is_image(v, image) {
        return Err(Refusal::BadImage);
    }
    permute_state(v, image, way);
    Ok(())
}

// The permutation on an image: refusals 1, 17, 6. A refusal leaves every byte.
pub fn permute(variant: u32, image: &mut [u8]) -> Result<(), Refusal>
    ensures { (result ≡ image_status variant image.old)
        × (image.new ≡ permuted_image variant Forward image.old) }
{
    permute_image(variant, image, Direction::Forward)
}

// Its inverse: the rounds taken back.
pub fn unpermute(variant: u32, image: &mut [u8]) -> Result<(), Refusal>
    ensures { (result ≡ image_status variant image.old)
        × (image.new ≡ permuted_image variant Backward image.old) }
{
    permute_image(variant, image, Direction::Backward)
}
