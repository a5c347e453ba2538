// The combined tables of PHOTON: S-box and column step of a cell in one look-up.
#![tactic(auto)]

ghost use Rattle.std.specs.Prelude.{◌≡◌, ℕ, ◌≤◌};
ghost use Rattle.standard.specs.Photon.{PhotonParameters};
ghost use Rattle.standard.specs.Families.{sponge, photon};
ghost use Rattle.standard.specs.Variants.{variant, photon288};
ghost use Rattle.photon_tables.specs.Tables.{Entries};

mod entries; // entries.rt: the tables

use entries::{SHARES_100, SHARES_144, SHARES_196, SHARES_256, SHARES_288};

// Lent, and not given: a constant array that is given by value is laid down anew wherever it is named.

// The table of a variant with cells of four bits, 1 to 4.
pub fn shares_of(v: usize) -> &'static [u32; 144]
    requires { (1 ≤ v) × (v ≤ 4) }
    ensures { (p : PhotonParameters) (r : ℕ) → (variant v).family ≡ sponge (photon p) r → Entries 144 p result.now }
{
    match v {
        1 => &SHARES_100,
        2 => &SHARES_144,
        3 => &SHARES_196,
        _ => &SHARES_256,
    }
}

// The table of the variant 5, whose cells have eight bits. It is given, since its caller keeps it as it is.
pub fn shares_288() -> [u64; 1552]
    ensures { Entries 1552 photon288 result }
{
    SHARES_288
}
