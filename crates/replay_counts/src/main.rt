// Reads commands from standard input, one a line, and writes what crates graph, layers and tiler
// answer, one line each: the file stdout has the answers of the Rust for the commands layers, graph and
// tilings of the file stdin, and document 01's refusals. The commands tiling and cuttings, which the Rust
// has not, have those of models of documents 01 and 02.
//
// The form of a line is said in crate replay_text. Another command is a function of counts.rt, graphs.rt,
// tilings.rt or numbered.rt and a line of `answer`.
#![tactic(auto)]

use replay_text::replay;
use replay_text::text::field;
use replay_text::write::Output;
use std::io;
use std::io::Write;

mod counts;
mod graphs;
mod numbered;
mod tilings;

fn main(rt: HostRuntime) -> io::Result<()> {
    replay(rt.stdin(), rt.stdout(), answer)
}

// Answers one line, by its command.
fn answer(to: &mut Output, line: &[u8]) -> io::Result<()> {
    match field(line, 0) {
        b"layers" => counts::layers(to, line),
        b"cuttings" => counts::cuttings(to, line),
        b"graph" => graphs::graph(to, line),
        b"tilings" => tilings::tilings(to, line),
        b"tiling" => numbered::tiling(to, line),
        _ => write!(to, "unknown command"),
    }
}
