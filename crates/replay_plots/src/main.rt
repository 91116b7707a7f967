// Reads commands from standard input, one a line, and writes what crates single_tiling and report
// answer, one line each: the file stdout has the answers of the Rust for the commands of the file stdin,
// and document 01's refusals. In the answers to the commands plot the reading of the file is by document
// 01.
//
// The form of a line is said in crate replay_text. Another command is a function of single.rt or
// plots.rt and a line of `answer`.
#![tactic(auto)]

use replay_text::replay;
use replay_text::text::field;
use replay_text::write::Output;
use std::io;
use std::io::Write;

mod plots;
mod single;

fn main(rt: HostRuntime) -> io::Result<()> {
    replay(rt.stdin(), rt.stdout(), answer)
}

// Answers one line, by its command.
fn answer(to: &mut Output, line: &[u8]) -> io::Result<()> {
    match field(line, 0) {
        b"one" => single::one(to, line),
        b"plot" => plots::plot(to, line),
        _ => write!(to, "unknown command"),
    }
}
