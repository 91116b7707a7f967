// The calls of the archive over a host's words: one record written, a file's records counted, the
// record at a place, and the record of a plot id that counts. Each reading call tests the number of its
// answer words and then hands on what the call of `archive` answers; nothing is asked of a caller.
#![tactic(auto)]

ghost use Rattle.std.specs.Prelude.{length};
ghost use Rattle.archive.specs.Archive.{LeavesOutcome, write_record};
ghost use Rattle.host_records.specs.Calls.{record_for, records_counted, record_found, current_found};

use archive::Record;
use refusal::Refusal;

mod answers;

// Writes the 24 bytes of a record, zeros behind.
pub fn write_record(id: u16, year: u16, revision: u16, low: u64, high: u64, out: &mut [u8]) -> u64
    ensures { LeavesOutcome (write_record (record_for id year revision low high) (length out.old)) out.old out.new result }
{
    let record = Record {
        id,
        year,
        revision,
        low,
        high,
    };
    match archive::write_record(record, out) {
        Ok(()) => 0,
        Err(refusal) => refusal.into(),
    }
}

// The number of records of a file.
pub fn count_records(file: &[u8], answer: &mut [u64]) -> u64
    ensures { LeavesOutcome (records_counted file.now (length answer.old)) answer.old answer.new result }
{
    if answer.len() < 1 {
        return answers::refuse(answer, Refusal::NoRoom);
    }
    match archive::count_records(file) {
        Ok(count) => answers::give(answer, &[count as u64]),
        Err(broken) => answers::broken(answer, broken.place as u64),
    }
}

// The five words of the record at a place of a file.
pub fn record_at(file: &[u8], place: u64, answer: &mut [u64]) -> u64
    ensures { LeavesOutcome (record_found file.now place (length answer.old)) answer.old answer.new result }
{
    if answer.len() < 5 {
        return answers::refuse(answer, Refusal::NoRoom);
    }
    answers::found(answer, archive::record_at(file, place as usize))
}

// The five words of the record of a plot id that counts.
pub fn current_record(file: &[u8], id: u16, answer: &mut [u64]) -> u64
    ensures { LeavesOutcome (current_found file.now id (length answer.old)) answer.old answer.new result }
{
    if answer.len() < 5 {
        return answers::refuse(answer, Refusal::NoRoom);
    }
    answers::found(answer, archive::current_record(file, id))
}
