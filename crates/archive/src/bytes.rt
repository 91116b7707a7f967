// A record in the bytes of a file. Private helpers; they ask that the bytes are there.
ghost use Rattle.std.specs.Prelude.{◌≡◌, ◌+◌, ◌≤◌, length};
ghost use Rattle.archive.specs.Archive.{number_at, record_in, is_whole};

use crate::Record;

// Whether bytes begin with a whole record with its mark.
#[tactic(auto, unfolding(crate::specs::Archive::is_whole, cells::specs::Lists::ascii))]
pub fn is_whole(bytes: &[u8]) -> bool
    ensures { result ≡ is_whole bytes.now }
{
    24 <= bytes.len() && bytes[0] == b'T' && bytes[1] == b'Y'
}

// The number in two bytes, highest byte first.
fn pair_at(bytes: &[u8], at: usize) -> u16
    requires { at + 2 ≤ length bytes.now }
    ensures { result ≡ number_at bytes.now at 2 }
{
    u16::from_be_bytes(*bytes[at..].first_chunk().unwrap())
}

// The number in eight bytes, highest byte first.
fn word_at(bytes: &[u8], at: usize) -> u64
    requires { at + 8 ≤ length bytes.now }
    ensures { result ≡ number_at bytes.now at 8 }
{
    u64::from_be_bytes(*bytes[at..].first_chunk().unwrap())
}

// The record that bytes begin with.
pub fn record_from(bytes: &[u8]) -> Record
    requires { 24 ≤ length bytes.now }
    ensures { result ≡ record_in bytes.now }
{
    Record {
        id: pair_at(bytes, 2),
        year: pair_at(bytes, 4),
        revision: pair_at(bytes, 6),
        low: word_at(bytes, 16),
        high: word_at(bytes, 8),
    }
}
