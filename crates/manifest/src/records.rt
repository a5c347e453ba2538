// The records of a manifest, as they stand in its bytes. The definitions say of record k at which byte each part of it
// begins, and these functions go by the same places: as arrays the records are looked at only where one is searched for.
ghost use Rattle.std.specs.Prelude.{◌≡◌, ◌*◌, ◌+◌, ◌≤◌, ◌<◌};
ghost use Rattle.answers.specs.Checks.{first_refusal};
ghost use Rattle.manifest.specs.Records.{is_manifest, record_count, axis_at, variant_at, digest_field_at, rises_at, record_checks, manifest_status};
ghost use Rattle.manifest.specs.Lookups.{is_ordered};

use answers::Refusal;
use chain::DIGEST_BYTES;
use octets::compare::zero_from;

// A record: two bytes of axis number, one of variant, and 32 of the digest and the filler after it.
pub const RECORD_BYTES: usize = 35;

pub const MAX_RECORDS: usize = 512;

// Whole records, and no more than 512 of them.
fn is_manifest(manifest: &[u8]) -> bool
    ensures { result ≡ is_manifest manifest.now }
{
    manifest.len() % RECORD_BYTES == 0 && manifest.len() <= MAX_RECORDS * RECORD_BYTES
}

fn axis_at(manifest: &[u8], k: usize) -> u16
    requires { k < record_count manifest.now }
    ensures { result ≡ axis_at manifest.now k }
{
    octets::numbers::u16_at(manifest, RECORD_BYTES * k)
}

pub fn variant_at(manifest: &[u8], k: usize) -> u8
    requires { k < record_count manifest.now }
    ensures { result ≡ variant_at manifest.now k }
{
    manifest[RECORD_BYTES * k + 2]
}

// The 32 bytes of record k's digest and of the filler after it, in the manifest itself.
pub fn digest_field_at(manifest: &[u8], k: usize) -> &[u8]
    requires { k < record_count manifest.now }
    ensures { result.now ≡ digest_field_at manifest.now k }
{
    let a = RECORD_BYTES * k + 3;
    &manifest[a..a + DIGEST_BYTES]
}

// Whether the axis number of record k is above the one before it.
fn rises_at(manifest: &[u8], k: usize) -> bool
    requires { k < record_count manifest.now }
    ensures { result ≡ rises_at manifest.now k }
{
    k == 0 || axis_at(manifest, k - 1) < axis_at(manifest, k)
}

// Refusals 13 and 14 of one record.
fn check_record(manifest: &[u8], k: usize) -> Result<(), Refusal>
    requires { k < record_count manifest.now }
    ensures { result ≡ first_refusal (record_checks manifest.now k) }
{
    let v = variant_at(manifest, k);
    if !chain::sizes::is_known(u32::from(v)) {
        return Err(Refusal::BadRecord);
    }
    if !zero_from(digest_field_at(manifest, k), chain::sizes::digest_bytes(v)) {
        return Err(Refusal::BadRecord);
    }
    if !rises_at(manifest, k) {
        return Err(Refusal::NotRising);
    }
    Ok(())
}

// Whether a report can be made of it: refusals 12, 13, 14.
pub fn check(manifest: &[u8]) -> Result<(), Refusal>
    ensures { result ≡ manifest_status manifest.now }
{
    if !is_manifest(manifest) {
        return Err(Refusal::BadManifest);
    }
    for k in 0..manifest.len() / RECORD_BYTES {
        check_record(manifest, k)?;
    }
    Ok(())
}

// Whether an axis can be looked up in it: a manifest whose axis numbers rise.
pub fn is_ordered(manifest: &[u8]) -> bool
    ensures { result ≡ is_ordered manifest.now }
{
    is_manifest(manifest) && (0..manifest.len() / RECORD_BYTES).all(|k| rises_at(manifest, k))
}
