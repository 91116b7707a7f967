// The command tiling: it lends an output that is all ones and writes the tiling with a number; behind it
// stands `dirty` if a word of the output that has to be zero is not.
use graph::GraphResult;
use path_count::PathCount;
use replay_text::text;
use replay_text::text::field;
use replay_text::words::tell_dirt;
use replay_text::write::{Output, Refused};
use std::io;
use std::io::Write;

// tiling NODES EDGES FULL NODEWORDS COUNTS EDGEWORDS M OUT: the tiling with the number M of the result
// NODES EDGES FULL, whose FULL may be `none`, and of these words: so many node words, all ones, 4,096
// at most; the count words, at most 1,024; the edge words, at most 2,048. The output has so many words,
// 1,024 at most.
pub fn tiling(to: &mut Output, line: &[u8]) -> io::Result<()> {
    let mut counts = [u64::MAX; 1024];
    let mut edges = [u64::MAX; 2048];
    let mut out = [u64::MAX; 1024];
    let nodes = [u64::MAX; 4096];
    let node_words = text::room_in(field(line, 4), 0).min(4096);
    let room = text::room_in(field(line, 8), 0).min(1024);
    ask(
        to,
        result_in(line),
        &nodes[..node_words],
        text::words_in(field(line, 5), &mut counts),
        text::words_in(field(line, 6), &mut edges),
        text::decimal_in(field(line, 7)),
        &mut out[..room],
    )
}

// The result of a line, whose fields 1 to 3 it is.
fn result_in(line: &[u8]) -> GraphResult {
    GraphResult {
        nodes: text::decimal_in(field(line, 1)) as usize,
        edges: text::decimal_in(field(line, 2)) as usize,
        complete: complete_in(field(line, 3)),
    }
}

fn complete_in(text: &[u8]) -> Option<usize> {
    match text {
        b"none" => None,
        _ => Some(text::decimal_in(text) as usize),
    }
}

// Asks for a tiling, and writes its length and its nodes.
fn ask(
    to: &mut Output,
    graph: GraphResult,
    nodes: &[u64],
    counts: &[u64],
    edges: &[u64],
    m: u64,
    out: &mut [u64],
) -> io::Result<()> {
    let number = PathCount::of_words(m, 0);
    match numbered_tilings::tiling_by_number(graph, nodes, counts, edges, number, out) {
        Ok(n) => {
            write!(to, "{n}")?;
            for node in out.iter().take(n) {
                write!(to, " {node}")?;
            }
            tell_dirt(to, out, n)
        }
        Err(refusal) => {
            write!(to, "{}", Refused(refusal))?;
            tell_dirt(to, out, 0)
        }
    }
}
