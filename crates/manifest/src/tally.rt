// The tally of the tables that were read.
ghost use Rattle.std.specs.Prelude.{◌≡◌, ◌≤◌, ◌<◌};
ghost use Rattle.manifest.specs.Records.{max_records, record_count};
ghost use Rattle.manifest.specs.Tables.{max_tables};
ghost use Rattle.manifest.specs.Progress.{tallied, matches, with_listed, with_unlisted, with_table, awaited_all};

use crate::current::{Current, axis_in};
use crate::ordered::Ordered;
use crate::records;
use crate::records::MAX_RECORDS;
use chain::DIGEST_BYTES;
use hasher::Hasher;
use octets::compare::is_same;
use std::array;

// The tables read so far. As long as no table of record k's axis has come, awaited[k] is 1. It is a byte and no bool:
// what `update` and `summary_of` promise of a report, they promise of one with any bytes there.
#[derive(Clone, Copy)]
pub struct Tally {
    pub listed: u16,
    pub untold: u16,
    pub equal: u16,
    pub unequal: u16,
    pub unlisted: u16,
    pub awaited: [u8; MAX_RECORDS],
}

// At the beginning every axis is awaited, by its record.
pub fn awaited_all(manifest: &Ordered) -> [u8; MAX_RECORDS]
    ensures { result ≡ awaited_all manifest.now }
{
    let n = manifest.count();
    array::from_fn(|k| u8::from(k < n))
}

// The number of axes that are listed: each record has its own.
pub fn listed(manifest: &Ordered) -> u16
    ensures { result ≡ record_count manifest.now }
{
    manifest.count() as u16
}

// The number of tables that were read. None of the three counts is above it, so none outgrows its type while this is
// below the maximum. That it is stands in a clause of each function that adds a table, and not in a struct: it holds
// from the test in `update` to the addition alone, and a struct would be made and taken apart for each.
pub fn tallied(y: Tally) -> u32
    ensures { result ≡ tallied y }
{
    u32::from(y.equal) + u32::from(y.unequal) + u32::from(y.unlisted)
}

// Whether a running hash ends in the digest of record k.
fn matches(manifest: &[u8], k: usize, h: Hasher) -> bool
    requires { k < record_count manifest.now }
    ensures { result ≡ matches manifest.now k h }
{
    let mut digest = [0; DIGEST_BYTES];
    let Ok(()) = hasher::digest(hasher::finish(h).hasher, &mut digest) else {
        return false;
    };
    is_same(&digest, records::digest_field_at(manifest, k))
}

// The tally with a table of record k. Its axis is awaited no longer, so that a second table of it leaves `untold` as it
// is.
fn with_listed(y: Tally, k: usize, agrees: bool) -> Tally
    requires k_lt_max_records { k < max_records }
    requires y_bound { tallied y < max_tables }
    ensures { result ≡ with_listed y k agrees }
{
    let mut awaited = y.awaited;
    awaited[k] = 0;
    Tally {
        untold: y.untold.saturating_sub(u16::from(y.awaited[k])),
        equal: y.equal + u16::from(agrees),
        unequal: y.unequal + u16::from(!agrees),
        awaited,
        ..y
    }
}

// The tally with a table of no listed axis.
fn with_unlisted(y: Tally) -> Tally
    requires { tallied y < max_tables }
    ensures { result ≡ with_unlisted y }
{
    Tally {
        unlisted: y.unlisted + 1,
        ..y
    }
}

// The tally with the table that was read.
pub fn with_table(manifest: &Ordered, y: Tally, c: Current) -> Tally
    requires { tallied y < max_tables }
    ensures { result ≡ with_table manifest.now y c }
{
    match manifest.record_for(axis_in(c.header)) {
        Some(k) => with_listed(y, k, matches(manifest.bytes(), k, c.hasher)),
        None => with_unlisted(y),
    }
}
