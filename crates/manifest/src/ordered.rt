// A manifest whose records rise by axis number, so that an axis can be looked up in it.
ghost use Rattle.std.specs.Prelude.{◌≡◌, ◌≤◌, ◌<◌, true, false, IfSome, MatchOption, MatchResult};
ghost use Rattle.std.specs.Simd.{first_chunks};
ghost use Rattle.answers.specs.Refusals.{Done, Refused};
ghost use Rattle.manifest.specs.Records.{record_bytes, max_records, record_count, axis_at, manifest_status};
ghost use Rattle.manifest.specs.Lookups.{is_ordered, found_record};

use crate::records;
use crate::records::RECORD_BYTES;
use answers::Refusal;
use std::marker::Model;

// Only bytes whose order was checked are one.
#[derive(Drop)]
pub struct Ordered<'a> {
    bytes: &'a [u8],
}

impl<'a> Model for Ordered<'a> {
    ghost use Rattle.std.specs.Prelude.{List, ℕ, ◌≡◌, true};
    ghost use Rattle.manifest.specs.Lookups.{is_ordered};

    ghost Value = { List ℕ };

    ghost view = { λ m. m.bytes.now };

    ghost invariant = { λ m. is_ordered m.bytes.now ≡ true };
}

// The axis number of a record.
fn axis_of(chunk: &[u8; RECORD_BYTES]) -> u16
    ensures { result ≡ axis_at chunk.now 0 }
{
    octets::numbers::u16_at(chunk, 0)
}

impl<'a> Ordered<'a> {
    // A manifest that passes its check: refusals 12, 13, 14.
    pub fn checked(bytes: &'a [u8]) -> Result<Ordered<'a>, Refusal>
        ensures { MatchResult result (λ m. (m ≡ bytes.now) × (manifest_status bytes.now ≡ Done))
            (λ r. manifest_status bytes.now ≡ Refused r) }
    {
        records::check(bytes)?;
        Ok(Ordered { bytes })
    }

    pub fn of(bytes: &'a [u8]) -> Option<Ordered<'a>>
        ensures { MatchOption result (is_ordered bytes.now ≡ false)
            (λ m. (m ≡ bytes.now) × (is_ordered bytes.now ≡ true)) }
    {
        if records::is_ordered(bytes) {
            Some(Ordered { bytes })
        } else {
            None
        }
    }

    pub fn bytes(&self) -> &'a [u8]
        ensures { result.now ≡ self.now }
    {
        self.bytes
    }

    // The records, each as an array.
    fn records(&self) -> &'a [[u8; RECORD_BYTES]]
        ensures chunks { result.now ≡ first_chunks record_bytes (record_count self.now) self.now }
        ensures ordered { is_ordered self.now ≡ true }
    {
        self.bytes.as_chunks::<RECORD_BYTES>().0
    }

    pub fn count(&self) -> usize
        ensures count { result ≡ record_count self.now }
        ensures few { result ≤ max_records }
    {
        self.bytes.len() / RECORD_BYTES
    }

    // The record of an axis, if there is one.
    pub fn record_for(&self, axis: u16) -> Option<usize>
        ensures found { result ≡ found_record self.now axis }
        ensures few { IfSome result (λ k. k < max_records) }
    {
        self.records().binary_search_by_key(&axis, axis_of).ok()
    }
}
