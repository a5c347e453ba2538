// Manifests: which table each axis of an installation should hold, and a report of the tables that it does hold.
#![tactic(auto)]

mod current;
mod ordered;
mod records;
mod report;
mod tally;

pub use records::{MAX_RECORDS, RECORD_BYTES, check};
pub use report::{Beginning, MAX_TABLES, Report, Summary, start, summary_of, update};
