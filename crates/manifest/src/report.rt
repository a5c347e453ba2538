// The report of an installation: its tables come as a stream, in pieces cut anywhere, and each is hashed as its bytes
// come.
ghost use Rattle.std.specs.Prelude.{◌≡◌, ◌<◌, length};
ghost use mathlib.Core.List.{foldl};
ghost use Rattle.manifest.specs.Tables.{max_tables};
ghost use Rattle.manifest.specs.Progress.{tallied, settled, byte_taken, piece_taken, fresh_report, empty_report, begun, counts_so_far};
ghost use Rattle.manifest.specs.Strides.{Stride};

use crate::current::Current;
use crate::ordered::Ordered;
use crate::records::MAX_RECORDS;
use crate::tally::Tally;
use crate::{current, tally};
use answers::Refusal;

// The maximum number of tables that a report looks at.
pub const MAX_TABLES: u32 = 65535;

// A report in progress. If the manifest was refused at its beginning, it takes nothing: `passed` says so beside the
// rest, and not an Option, since theorem nothing-counted speaks of what such a report goes on to count.
#[derive(Clone, Copy)]
pub struct Report {
    pub passed: bool,
    pub tally: Tally,
    pub current: Current,
}

// A report begun: with a refusal, one of nothing. It is no Result, since theorem nothing-counted speaks of the report
// that comes with a refusal.
#[derive(Clone, Copy)]
pub struct Beginning {
    pub status: Result<(), Refusal>,
    pub report: Report,
}

// The six counts.
#[derive(Clone, Copy, PartialEq, Eq)]
pub struct Summary {
    pub listed: u32,
    pub tables: u32,
    pub equal: u32,
    pub unequal: u32,
    pub untold: u32,
    pub unlisted: u32,
}

// No table read yet.
fn fresh_report(manifest: &Ordered) -> Report
    ensures { result ≡ fresh_report manifest.now }
{
    let n = tally::listed(manifest);
    Report {
        passed: true,
        tally: Tally {
            listed: n,
            untold: n,
            equal: 0,
            unequal: 0,
            unlisted: 0,
            awaited: tally::awaited_all(manifest),
        },
        current: current::unread(),
    }
}

// The report of a manifest that was refused.
fn empty_report() -> Report
    ensures { result ≡ empty_report }
{
    Report {
        passed: false,
        tally: Tally {
            listed: 0,
            untold: 0,
            equal: 0,
            unequal: 0,
            unlisted: 0,
            awaited: [0; MAX_RECORDS],
        },
        current: current::unread(),
    }
}

// A report with no table read yet: refusals 12, 13, 14.
pub fn start(manifest: &[u8]) -> Beginning
    ensures { result ≡ begun manifest.now }
{
    match Ordered::checked(manifest) {
        Ok(ordered) => Beginning {
            status: Ok(()),
            report: fresh_report(&ordered),
        },
        Err(refusal) => Beginning {
            status: Err(refusal),
            report: empty_report(),
        },
    }
}

// A table that is complete goes into the tally.
fn settle(manifest: &Ordered, y: Tally, c: Current) -> Report
    requires { tallied y < max_tables }
    ensures { result ≡ settled manifest.now y c }
{
    if current::is_complete(c) {
        return Report {
            passed: true,
            tally: tally::with_table(manifest, y, c),
            current: current::unread(),
        };
    }
    Report {
        passed: true,
        tally: y,
        current: c,
    }
}

// Some bytes of the stream, of which only the last can end a table.
fn stepped(manifest: &Ordered, r: Report, part: &[u8]) -> Report
    requires tally_bound { tallied r.tally < max_tables }
    requires stride { Stride r.current (length part.now) }
    ensures { result ≡ foldl (byte_taken manifest.now) r part.now }
{
    settle(
        manifest,
        r.tally,
        current::advance(manifest, r.current, part),
    )
}

// The report after a piece of the stream. After the last table that it looks at nothing changes it.
pub fn update(manifest: &[u8], report: Report, piece: &[u8]) -> Report
    ensures { result ≡ piece_taken manifest.now report piece.now }
{
    if !report.passed {
        return report;
    }
    // Without an order no axis can be looked up.
    let Some(ordered) = Ordered::of(manifest) else {
        return report;
    };
    let mut latest = report;
    let mut rest = piece;
    while !rest.is_empty() && tally::tallied(latest.tally) < MAX_TABLES {
        let n = current::stride(latest.current, rest.len());
        let (part, left) = rest.split_at(n);
        latest = stepped(&ordered, latest, part);
        rest = left;
    }
    latest
}

// The counts that a report has come to.
pub fn summary_of(report: Report) -> Summary
    ensures { result ≡ counts_so_far report }
{
    let y = report.tally;
    Summary {
        listed: u32::from(y.listed),
        tables: tally::tallied(y),
        equal: u32::from(y.equal),
        unequal: u32::from(y.unequal),
        untold: u32::from(y.untold),
        unlisted: u32::from(y.unlisted),
    }
}
