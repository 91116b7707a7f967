// A plot reader over the lent bytes: a thin struct that holds the byte slice and the position, read
// record by record. It leaves the reading to records.rt, whose functions take the bytes from a place
// on and do not know it; `read_records` of lib.rt makes one for a file and moves its position from
// record to record. Private helpers.
ghost use Rattle.std.specs.Prelude.{◌≡◌, ◌-◌, ◌≤◌, length, drop};
ghost use Rattle.plot_file.specs.Inner.{plot_of, Reads, record_at};

use crate::plots::{Plot, Step};
use crate::records;
use refusal::Refusal;

// A file, and how far it has been read: to a place in it, or to its end.
#[derive(Clone, Copy, Drop)]
pub struct PlotReader<'a> {
    pub file: &'a [u8],
    pub at: usize,
    ghost inside: { at ≤ length file.now },
}

impl<'a> PlotReader<'a> {
    // At the beginning of a file.
    pub fn new(file: &'a [u8]) -> PlotReader<'a>
        ensures { (result.file ≡ file.entry) × (result.at ≡ 0) }
    {
        PlotReader { file, at: 0 }
    }

    // The record at the position, behind the plot so far: a board's at the beginning of the file,
    // another one elsewhere.
    pub fn next_record(self, plot: Plot) -> Result<Step<'a>, Refusal>
        ensures { Reads (record_at self.entry.at (plot_of plot) (drop self.entry.at self.entry.file.now)) result }
    {
        let bytes = &self.file[self.at..];
        if self.at == 0 {
            records::first_record(bytes)
        } else {
            records::later_record(bytes, plot)
        }
    }

    // The reader at the place where the bytes that are left begin.
    pub fn up_to(self, rest: &[u8]) -> PlotReader<'a>
        requires { length rest.now ≤ length self.file.now }
        ensures { (result.file ≡ self.entry.file) × (result.at ≡ length self.entry.file.now - length rest.now) }
    {
        PlotReader {
            file: self.file,
            at: self.file.len() - rest.len(),
        }
    }
}
