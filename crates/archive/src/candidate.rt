// Which record of a plot id counts, record by record. Private helpers.
ghost use Rattle.std.specs.Prelude.{◌≡◌};
ghost use Rattle.archive.specs.Archive.{replaces, current_of};

use crate::Record;

// Whether a record counts rather than one before it in the file: its year is higher, or the same and
// its revision is not lower.
fn replaces(record: Record, before: Record) -> bool
    ensures { result ≡ replaces «record» before }
{
    (before.year, before.revision) <= (record.year, record.revision)
}

// The one of an id that counts so far, with one record more.
#[tactic(auto, unfolding(crate::specs::Archive::current_of))]
pub fn current_of(current: Option<Record>, record: Record, id: u16) -> Option<Record>
    ensures { result ≡ current_of id current «record» }
{
    if record.id != id {
        return current;
    }
    match current {
        Some(before) if !replaces(record, before) => current,
        _ => Some(record),
    }
}
