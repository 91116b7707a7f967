// Reads commands from standard input, one a line, and writes what crate archive answers, one line each:
// the file stdout has the answers of the model of tools/records.py, which is written from document 02,
// for the commands of the file stdin.
//
// The form of a line is said in crate replay_text. Another command is a function of commands.rt and a
// line of `answer`.
#![tactic(auto)]

use replay_text::replay;
use replay_text::text::field;
use replay_text::write::Output;
use std::io;
use std::io::Write;

mod commands;
mod parts;

fn main(rt: HostRuntime) -> io::Result<()> {
    replay(rt.stdin(), rt.stdout(), answer)
}

// Answers one line, by its command.
fn answer(to: &mut Output, line: &[u8]) -> io::Result<()> {
    match field(line, 0) {
        b"write" => commands::write_record(to, line),
        b"records" => commands::count_records(to, line),
        b"record" => commands::record_at(to, line),
        b"current" => commands::current_record(to, line),
        _ => write!(to, "unknown command"),
    }
}
