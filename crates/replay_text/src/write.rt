// The parts of an answer that several programs write, to standard output. A failed write comes back as
// its error.
ghost use Rattle.std.specs.Prelude.{◌≤◌};

use cells::{Cells, list};
use refusal::Refusal;
use std::io::{Stdout, Write};
use std::{fmt, io};

const ROOM: usize = 8192;

// Standard output, and what is to be written to it: the first `filled` bytes.
// Kept: std's `BufWriter` needs the heap.
#[derive(Drop)]
pub struct Output {
    stdout: Stdout,
    bytes: [u8; ROOM],
    filled: usize,
    ghost fits: { filled ≤ 8192 },
}

impl Output {
    pub fn new(stdout: Stdout) -> Output {
        Output {
            stdout,
            bytes: [0; ROOM],
            filled: 0,
        }
    }
}

// What is written is kept until there is no room for more, or `flush`. A write that fails loses what
// was kept.
impl Write for Output {
    fn write(&mut self, text: &[u8]) -> io::Result<usize> {
        if ROOM - self.filled < text.len() {
            self.flush()?;
        }
        if ROOM - self.filled < text.len() {
            return self.stdout.write(text);
        }
        let from = self.filled;
        let end = from + text.len();
        self.bytes[from..end].copy_from_slice(text);
        self.filled = end;
        Ok(text.len())
    }

    fn flush(&mut self) -> io::Result<()> {
        let filled = self.filled;
        self.filled = 0;
        self.stdout.write_all(&self.bytes[..filled])
    }
}

// The end of a line, with which all that was kept is written.
pub fn end_line(to: &mut Output) -> io::Result<()> {
    writeln!(to)?;
    to.flush()
}

// A refusal, by its number.
#[derive(Clone, Copy, Drop)]
pub struct Refused(pub Refusal);

impl fmt::Display for Refused {
    fn fmt<W: fmt::Write>(&self, f: &mut fmt::Formatter<W>) -> fmt::Result {
        write!(f, "refused {}", self.0)
    }
}

// A value, or the refusal in its place.
#[derive(Drop)]
pub struct Answer<T>(pub Result<T, Refusal>);

impl<T: fmt::Display> fmt::Display for Answer<T> {
    fn fmt<W: fmt::Write>(&self, f: &mut fmt::Formatter<W>) -> fmt::Result {
        match &self.0 {
            Ok(value) => write!(f, "{value}"),
            Err(refusal) => write!(f, "{}", Refused(*refusal)),
        }
    }
}

// A set of cells, as a hexadecimal number with no zeros in front.
#[derive(Clone, Copy, Drop)]
pub struct Marks(pub Cells);

impl fmt::Display for Marks {
    fn fmt<W: fmt::Write>(&self, f: &mut fmt::Formatter<W>) -> fmt::Result {
        let Cells { w0, w1, w2, w3 } = self.0;
        if w3 != 0 {
            write!(f, "{w3:x}{w2:016x}{w1:016x}{w0:016x}")
        } else if w2 != 0 {
            write!(f, "{w2:x}{w1:016x}{w0:016x}")
        } else if w1 != 0 {
            write!(f, "{w1:x}{w0:016x}")
        } else {
            write!(f, "{w0:x}")
        }
    }
}

// The marks of one of some boards, behind a blank.
pub fn board_at(to: &mut Output, words: &[u64], i: usize) -> io::Result<()> {
    write!(to, " {}", Marks(list::get(words, i)))
}
