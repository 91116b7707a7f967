// The command tilings: it asks for each tiling of a graph by its number and lends an output that is all
// ones; behind the answer stands `dirty` if a word of an output that has to be zero is not.
//
// The Rust has its tilings in no order, so they are written sorted, as the oracle does: the answer is
// equal to the oracle's exactly if the tilings are the same, each as often.
use cells::{Cells, list};
use graph::GraphResult;
use path_count::PathCount;
use replay_text::text;
use replay_text::text::field;
use replay_text::words::is_zero_from;
use replay_text::write::{Marks, Output, Refused};
use std::cmp::Ordering;
use std::io;
use std::io::Write;

// A tiling as a list of nodes: the first `len` words of the output. No list is longer than 257.
#[derive(Clone, Copy, Drop)]
struct Tiling {
    len: usize,
    out: [u64; 257],
}

impl Tiling {
    fn nodes(&self) -> &[u64] {
        self.out.get(..self.len).unwrap_or(&[])
    }
}

// tilings WIDTH HEIGHT FIXED LAID TILES: the number of tilings, and the boards of each, joined by
// commas; `large` if there are more than 200. There is room for 1,024 nodes and 4,096 edges.
pub fn tilings(to: &mut Output, line: &[u8]) -> io::Result<()> {
    let board = text::board_in(line);
    let tiles = text::tiles_in(field(line, 5));
    let mut nodes = [u64::MAX; 4096];
    let mut counts = [u64::MAX; 1024];
    let mut edges = [u64::MAX; 8192];
    match tiler::generate_graph(board, tiles, &mut nodes, &mut counts, &mut edges) {
        Ok(graph) => show(to, graph, &nodes, &counts, &edges),
        Err(refusal) => write!(to, "{}", Refused(refusal)),
    }
}

// The tilings of a graph, sorted.
fn show(
    to: &mut Output,
    graph: GraphResult,
    nodes: &[u64],
    counts: &[u64],
    edges: &[u64],
) -> io::Result<()> {
    let count = graph::count_tilings_from_graph(graph, counts);
    if PathCount::of_words(200, 0).less(count) {
        return write!(to, "large");
    }
    let n = count.low();
    let unasked = Tiling {
        len: 0,
        out: [u64::MAX; 257],
    };
    let mut tilings = [unasked; 200];
    for (tiling, m) in tilings.iter_mut().zip(0..n) {
        ask(graph, nodes, counts, edges, m, tiling);
    }
    let clean = are_clean(&tilings, n as usize);
    write!(to, "{n}")?;
    tilings.sort_unstable_by(|a, b| order(nodes, a.nodes(), b.nodes()));
    show_all(to, nodes, &tilings)?;
    if !clean {
        write!(to, " dirty")?;
    }
    Ok(())
}

// Asks for the tiling with the number m; there is none after a refusal.
fn ask(
    graph: GraphResult,
    nodes: &[u64],
    counts: &[u64],
    edges: &[u64],
    m: u64,
    tiling: &mut Tiling,
) {
    let number = PathCount::of_words(m, 0);
    let answer = numbered_tilings::tiling_by_number(
        graph,
        nodes,
        counts,
        edges,
        number,
        &mut tiling.out,
    );
    tiling.len = answer.unwrap_or(0);
}

// Whether the words behind the nodes of the first n tilings are zero.
fn are_clean(tilings: &[Tiling], n: usize) -> bool {
    tilings
        .iter()
        .take(n)
        .all(|tiling| is_zero_from(&tiling.out, tiling.len))
}

// How two tilings stand to one another: by the first two boards that differ, and with none the shorter
// comes first.
fn order(nodes: &[u64], a: &[u64], b: &[u64]) -> Ordering {
    for (one, other) in a.iter().zip(b) {
        let by_board = key(board_of(nodes, *one)).cmp(&key(board_of(nodes, *other)));
        if by_board != Ordering::Equal {
            return by_board;
        }
    }
    a.len().cmp(&b.len())
}

// What orders sets as the numbers that they are.
fn key(set: Cells) -> (u64, u64, u64, u64) {
    (set.w3, set.w2, set.w1, set.w0)
}

// The marks of a node.
fn board_of(nodes: &[u64], node: u64) -> Cells {
    list::get(graph::get_node(nodes, node as usize), 0)
}

// The tilings that are not empty.
fn show_all(to: &mut Output, nodes: &[u64], tilings: &[Tiling]) -> io::Result<()> {
    for tiling in tilings {
        show_one(to, nodes, tiling.nodes())?;
    }
    Ok(())
}

// The boards of a tiling, joined by commas, behind a blank.
fn show_one(to: &mut Output, nodes: &[u64], tiling: &[u64]) -> io::Result<()> {
    let mut mark = ' ';
    for node in tiling {
        write!(to, "{mark}{}", Marks(board_of(nodes, *node)))?;
        mark = ',';
    }
    Ok(())
}
