// What each read makes of the report, and whether a further read follows.
ghost use Rattle.std.specs.Prelude.{◌≡◌};
ghost use Rattle.report.specs.Input.{file_status, after_manifest, goes_on, standing, after_piece};

use answers::Refusal;
use manifest::{MAX_TABLES, Report};
use reads::Fed;

// The answer for the file, from that for the bytes that were read of it: 12 unless a read after them was at its end.
fn file_status(status: Result<(), Refusal>, past: std::io::Result<usize>) -> Result<(), Refusal>
    ensures { result ≡ file_status status past }
{
    match past {
        Ok(0) => status,
        _ => Err(Refusal::BadManifest),
    }
}

// The file was read: a report begins.
pub fn after_manifest(manifest: &[u8], past: std::io::Result<usize>) -> Result<Report, Refusal>
    ensures { result ≡ after_manifest manifest.now past }
{
    let begun = manifest::start(manifest);
    file_status(begun.status, past)?;
    Ok(begun.report)
}

// Whether a further read follows one that brought n bytes: 0 is the end of the input.
fn goes_on(tables: u32, n: usize) -> bool
    ensures { result ≡ goes_on tables n }
{
    0 < n && tables < MAX_TABLES
}

fn standing(report: Report, n: usize) -> Fed<Report>
    ensures { result ≡ standing report n }
{
    if goes_on(manifest::summary_of(report).tables, n) {
        Fed::More(report)
    } else {
        Fed::Ended(report)
    }
}

// A read of the tables, into a buffer: what came stands at its front. No read brings more than the buffer holds; whatever
// is said, no byte past its end is looked at.
pub fn after_piece(
    manifest: &[u8],
    report: Report,
    buffer: &[u8],
    read: std::io::Result<usize>,
) -> Fed<Report>
    ensures { result ≡ after_piece manifest.now report buffer.now read }
{
    match read {
        Ok(n) => {
            let part = &buffer[..n.min(buffer.len())];
            standing(manifest::update(manifest, report, part), n)
        }
        Err(_) => Fed::Failed,
    }
}
