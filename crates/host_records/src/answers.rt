// What is told of an answer, and left in a host's answer words. Private helpers.
ghost use Rattle.std.specs.Prelude.{◌≡◌};
ghost use Rattle.refusal.specs.Refusal.{refusal_number};
ghost use Rattle.archive.specs.Archive.{LeavesOutcome, answered, refused_at, refused_by, map_outcome, record_answer};
ghost use Rattle.host_records.specs.Calls.{record_words};

use archive::{Record, RecordError};
use cells::padding::put_padded;
use refusal::Refusal;

// The words of a record.
fn words_of(record: Record) -> [u64; 5]
    ensures { result ≡ record_words «record» }
{
    [
        u64::from(record.id),
        u64::from(record.year),
        u64::from(record.revision),
        record.low,
        record.high,
    ]
}

// The words of a value.
pub fn give(answer: &mut [u64], words: &[u64]) -> u64
    ensures { LeavesOutcome (answered words.now) answer.old answer.new result }
{
    put_padded(answer, words, 0);
    0
}

// The place of a broken record.
pub fn broken(answer: &mut [u64], place: u64) -> u64
    ensures { LeavesOutcome (refused_at 13 place) answer.old answer.new result }
{
    put_padded(answer, &[place], 0);
    Refusal::BrokenRecord.into()
}

// A refusal.
pub fn refuse(answer: &mut [u64], refusal: Refusal) -> u64
    ensures { LeavesOutcome (refused_by (refusal_number refusal)) answer.old answer.new result }
{
    answer.fill(0);
    refusal.into()
}

// A record, or why there is none.
pub fn found(answer: &mut [u64], found: Result<Record, RecordError>) -> u64
    ensures { LeavesOutcome (map_outcome record_words (record_answer found)) answer.old answer.new result }
{
    match found {
        Ok(record) => give(answer, &words_of(record)),
        Err(RecordError::Broken(place)) => broken(answer, place as u64),
        Err(RecordError::Absent) => refuse(answer, Refusal::NoSuchRecord),
    }
}
