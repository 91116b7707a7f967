// The commands: each takes its line, whose field 0 is its name, and writes the answer with no line
// end. Of the bytes of a file, in field 1, 4,096 are read.
use crate::parts;
use archive::Record;
use replay_text::text;
use replay_text::text::field;
use replay_text::write::{Output, Refused};
use std::io;
use std::io::Write;

// write ID YEAR REVISION LOW HIGH ROOM: the bytes of an output of so many, 64 at most. None of them is
// zero before.
pub fn write_record(to: &mut Output, line: &[u8]) -> io::Result<()> {
    let room = text::number_in(field(line, 6)).min(64);
    let mut all = [0xA5u8; 64];
    let out = &mut all[..room];
    if let Err(refusal) = archive::write_record(record_in(line), out) {
        write!(to, "{} ", Refused(refusal))?;
    }
    parts::bytes(to, out)
}

// The record of a line.
fn record_in(line: &[u8]) -> Record {
    Record {
        id: pair_in(field(line, 1)),
        year: pair_in(field(line, 2)),
        revision: pair_in(field(line, 3)),
        low: text::decimal_in(field(line, 4)),
        high: text::decimal_in(field(line, 5)),
    }
}

// The number of a field, 65,535 for a greater one.
fn pair_in(text: &[u8]) -> u16 {
    u16::try_from(text::number_in(text)).unwrap_or(u16::MAX)
}

// records BYTES: the number of records.
pub fn count_records(to: &mut Output, line: &[u8]) -> io::Result<()> {
    let mut bytes = [0; 4096];
    let file = text::bytes_in(field(line, 1), &mut bytes);
    parts::count(to, archive::count_records(file))
}

// record BYTES PLACE: the record at a place.
pub fn record_at(to: &mut Output, line: &[u8]) -> io::Result<()> {
    let mut bytes = [0; 4096];
    let file = text::bytes_in(field(line, 1), &mut bytes);
    let place = text::decimal_in(field(line, 2)) as usize;
    parts::found(to, archive::record_at(file, place))
}

// current BYTES ID: the record of an id that counts.
pub fn current_record(to: &mut Output, line: &[u8]) -> io::Result<()> {
    let mut bytes = [0; 4096];
    let file = text::bytes_in(field(line, 1), &mut bytes);
    parts::found(to, archive::current_record(file, pair_in(field(line, 2))))
}
