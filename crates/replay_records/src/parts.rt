// The parts of an answer about archive files, written to standard output.
use archive::{BrokenRecord, Record, RecordError};
use refusal::Refusal;
use replay_text::write::{Output, Refused};
use std::io;
use std::io::Write;

// Some bytes, two hexadecimal digits each; `-` if there are none.
pub fn bytes(to: &mut Output, shown: &[u8]) -> io::Result<()> {
    if shown.is_empty() {
        return write!(to, "-");
    }
    for byte in shown {
        write!(to, "{byte:02x}")?;
    }
    Ok(())
}

// The number of records.
pub fn count(to: &mut Output, answer: Result<usize, BrokenRecord>) -> io::Result<()> {
    match answer {
        Ok(n) => write!(to, "{n}"),
        Err(error) => broken(to, error.place),
    }
}

// A record that was asked for.
pub fn found(to: &mut Output, answer: Result<Record, RecordError>) -> io::Result<()> {
    match answer {
        Ok(record) => fields(to, record),
        Err(RecordError::Broken(place)) => broken(to, place),
        Err(RecordError::Absent) => write!(to, "{}", Refused(Refusal::NoSuchRecord)),
    }
}

// The place of a broken record, behind its refusal.
fn broken(to: &mut Output, place: usize) -> io::Result<()> {
    write!(to, "{} {place}", Refused(Refusal::BrokenRecord))
}

// Id, year, revision, and the count's low and high word.
fn fields(to: &mut Output, record: Record) -> io::Result<()> {
    let Record {
        id,
        year,
        revision,
        low,
        high,
    } = record;
    write!(to, "{id} {year} {revision} {low} {high}")
}
