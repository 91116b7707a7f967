// The archive file: a run of records of 24 bytes, each with a plot id, a survey year, a revision and a
// count. One record is written; a file's records are counted, the record at a place is given, and the
// record of a plot id that counts. The bytes of a file are lent and any bytes: each reading call goes
// over them once, copies nothing and writes nothing.
//
// What each call answers is a definition of specs/Archive.antt; what that means is on the page
// proofs/Theorems.antt.
#![tactic(auto)]

ghost use Rattle.std.specs.Prelude.{◌≡◌, length};
ghost use Rattle.refusal.specs.Refusal.{verdict_number};
ghost use Rattle.archive.specs.declared.RecordError.TheVariants.{Broken};
ghost use Rattle.archive.specs.Archive.{count_records, record_at, current_record, write_record, record_count_answer, record_answer, LeavesOutcome};

use cells::padding::put_padded;
use refusal::Refusal;

mod bytes;
mod candidate;
mod output;

// A record of an archive file; its count is two words, low and high.
#[derive(Clone, Copy, Drop)]
pub struct Record {
    pub id: u16,
    pub year: u16,
    pub revision: u16,
    pub low: u64,
    pub high: u64,
}

// A file has a broken record (13); this is the place of the earliest one.
#[derive(Clone, Copy, PartialEq, Eq, Drop)]
pub struct BrokenRecord {
    pub place: usize,
}

// Why a file gives no record: it has a broken one, the earliest at this place (13), or no such record
// (14).
#[derive(Clone, Copy, PartialEq, Eq, Drop)]
pub enum RecordError {
    Broken(usize),
    Absent,
}

impl From<BrokenRecord> for RecordError {
    ghost from_gives = { λ broken error. error ≡ Broken broken.place };

    fn from(broken: BrokenRecord) -> RecordError {
        RecordError::Broken(broken.place)
    }
}

// Writes the 24 bytes of a record, and zeros behind. 8 for an output of fewer bytes, which is left
// zero.
pub fn write_record(record: Record, out: &mut [u8]) -> Result<(), Refusal>
    ensures { LeavesOutcome (write_record «record» (length out.old)) out.old out.new (verdict_number result) }
{
    if out.len() < 24 {
        out.fill(0);
        return Err(Refusal::NoRoom);
    }
    put_padded(out, &output::bytes_of(record), 0);
    Ok(())
}

// How many records a file holds. 13, with its place, for the earliest record whose mark is not TY or
// which is cut short.
pub fn count_records(file: &[u8]) -> Result<usize, BrokenRecord>
    ensures { record_count_answer result ≡ count_records file.now }
{
    let mut count = 0;
    // what is left, and not `chunks(24)`, which works out the length of each part
    let mut rest = file;
    while !rest.is_empty() {
        if !bytes::is_whole(rest) {
            return Err(BrokenRecord { place: count });
        }
        rest = &rest[24..];
        count += 1;
    }
    Ok(count)
}

// The record at a place, counted from 0. 13 for the file, as above; then 14 where there is no such
// place.
pub fn record_at(file: &[u8], place: usize) -> Result<Record, RecordError>
    ensures { record_answer result ≡ record_at file.now place }
{
    let count = count_records(file)?;
    if place < count {
        Ok(bytes::record_from(&file[24 * place..]))
    } else {
        Err(RecordError::Absent)
    }
}

// The record of a plot id that counts: the highest year, then the highest revision, then the last in
// the file. 13 for the file, as above; then 14 where no record has the id.
pub fn current_record(file: &[u8], id: u16) -> Result<Record, RecordError>
    ensures { record_answer result ≡ current_record file.now id }
{
    let mut current = None;
    for (place, bytes) in file.chunks(24).enumerate() {
        if !bytes::is_whole(bytes) {
            return Err(RecordError::Broken(place));
        }
        current = candidate::current_of(current, bytes::record_from(bytes), id);
    }
    current.ok_or(RecordError::Absent)
}
