// Reads commands from standard input, one a line, and writes what crates direction, tile and board
// answer, one line each: the file stdout has the answers of the Rust for the commands of the file stdin,
// and the refusals of documents 01 and 02.
//
// The form of a line is said in crate replay_text. Another command is a function of commands.rt and a
// line of `answer`.
#![tactic(auto)]

use replay_text::replay;
use replay_text::text::field;
use replay_text::write::Output;
use std::io;
use std::io::Write;

mod commands;
mod parts;

fn main(rt: HostRuntime) -> io::Result<()> {
    replay(rt.stdin(), rt.stdout(), answer)
}

// Answers one line, by its command.
fn answer(to: &mut Output, line: &[u8]) -> io::Result<()> {
    match field(line, 0) {
        b"direction" => commands::direction(to, line),
        b"orbit" => commands::orbit(to, line),
        b"tile" => commands::tile(to, line),
        b"size" => commands::size(to, line),
        b"l" => commands::l_tile(to, line),
        b"t" => commands::t_tile(to, line),
        b"single" => commands::single(to, line),
        b"new" => commands::new_board(to, line),
        b"lb" => commands::l_board(to, line),
        b"tb" => commands::t_board(to, line),
        b"hole" => commands::hole(to, line),
        b"full" => commands::full(to, line),
        b"children" => commands::children(to, line),
        _ => write!(to, "unknown command"),
    }
}
