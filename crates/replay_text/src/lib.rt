// What the programs replay_boards, replay_counts, replay_plots and replay_records share: the loop over
// the lines of standard input (`replay`, lines), what a line holds (text), the parts of an answer (write)
// and a look at lent words (words).
//
// No function asks anything of its input: a text that is not understood has a value that says so. A read
// or a write that fails comes back as its error. Nothing is proved here but that every call is safe and
// ends: the programs are held to stored answers.
//
// A line has fields parted by one blank, the first of them the command. A path is digits 0 to 7,
// `-` for the empty one; tiles are paths joined by commas, `.` for none. Marks are a hexadecimal
// number with no zeros in front, cell (row, column) being bit 16 * row + column.
#![tactic(auto)]

use crate::lines::Lines;
use crate::write::Output;
use std::io;
use std::io::{Stdin, Stdout};

pub mod lines;
pub mod text;
pub mod words;
pub mod write;

// Answers the lines of standard input to its end, or to a read or a write that fails: for each the answer
// is called, which writes one line with no line end. A proved loop has to end, so its turns are of a number
// that no run uses up.
pub fn replay<F: Fn(&mut Output, &[u8]) -> io::Result<()>>(
    stdin: Stdin,
    stdout: Stdout,
    answer: F,
) -> io::Result<()>
    requires { F.IsAlwaysCallable answer }
{
    let mut lines = Lines::new(stdin);
    let mut output = Output::new(stdout);
    for _ in 0..u64::MAX {
        let Some(line) = lines.next()? else {
            break;
        };
        answer(&mut output, line)?;
        write::end_line(&mut output)?;
    }
    Ok(())
}
