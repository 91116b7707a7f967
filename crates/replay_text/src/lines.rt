// The lines of standard input, one after the other.
ghost use Rattle.std.specs.Prelude.{◌≤◌, IfOk};

use read_full::read_full;
use std::io;
use std::io::Stdin;

// No line is longer: what would be is cut there.
const ROOM: usize = 65536;

// Standard input, and what has been read of it: of the first `filled` bytes those from `next` on are of
// no line yet.
// Kept: std's `BufReader` needs the heap.
#[derive(Drop)]
pub struct Lines {
    stdin: Stdin,
    bytes: [u8; ROOM],
    next: usize,
    filled: usize,
    ghost fits: { (next ≤ filled) × (filled ≤ 65536) },
}

impl Lines {
    pub fn new(stdin: Stdin) -> Lines {
        Lines {
            stdin,
            bytes: [0; ROOM],
            next: 0,
            filled: 0,
        }
    }

    // The next line, or none behind the last. A failed read comes back as its error.
    pub fn next(&mut self) -> io::Result<Option<&[u8]>> {
        let mut end = self.line_end();
        if end == self.filled {
            self.read_more()?;
            end = self.line_end();
        }
        if self.filled == 0 {
            return Ok(None);
        }
        let from = self.next;
        self.next = self.filled.min(end + 1);
        Ok(Some(&self.bytes[from..end]))
    }

    // The end of the next line, or of what has been read.
    fn line_end(&self) -> usize
        ensures { (self.now.next ≤ result) × (result ≤ self.now.filled) }
    {
        let unread = &self.bytes[self.next..self.filled];
        match unread.iter().position(|byte| *byte == b'\n') {
            Some(length) => self.next + length,
            None => self.filled,
        }
    }

    // Moves what is of no line yet to the front, and reads more behind it.
    fn read_more(&mut self) -> io::Result<()>
        ensures { IfOk result (λ _. self.new.next ≤ 0) }
    {
        self.bytes.copy_within(self.next..self.filled, 0);
        self.filled -= self.next;
        self.next = 0;
        self.filled += read_full(&mut self.stdin, &mut self.bytes[self.filled..])?;
        Ok(())
    }
}
