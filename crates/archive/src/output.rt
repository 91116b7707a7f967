// The bytes of a record. Private helper.
ghost use Rattle.std.specs.Prelude.{◌≡◌};
ghost use Rattle.archive.specs.Archive.{record_bytes};

use crate::Record;

// The mark, the fields of two bytes, and the count, its high word first.
pub fn bytes_of(record: Record) -> [u8; 24]
    ensures { result ≡ record_bytes «record» }
{
    let mut bytes = [0; 24];
    bytes[..2].copy_from_slice(b"TY");
    bytes[2..4].copy_from_slice(&record.id.to_be_bytes());
    bytes[4..6].copy_from_slice(&record.year.to_be_bytes());
    bytes[6..8].copy_from_slice(&record.revision.to_be_bytes());
    bytes[8..16].copy_from_slice(&record.high.to_be_bytes());
    bytes[16..].copy_from_slice(&record.low.to_be_bytes());
    bytes
}
