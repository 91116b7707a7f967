// A graph in lent words: the port of the Rust's graph.rs. Nodes are boards, four words each, in the
// order of their numbers; beside each stands a path count; edges are pairs of words, (parent, child),
// in stored order. The Rust has Vec<RectangularBoard> and HashMap<usize, HashSet<usize>>. A node or an
// edge whose words are not all lent reads as none, so that nothing is asked of a caller.
#![tactic(auto, unfolding(crate::specs::Graph::node_part, crate::specs::Graph::count_from_graph, covers::specs::Counts::at_node))]

ghost use Rattle.std.specs.Prelude.{◌≡◌, ◌/◌, min, length, set};
ghost use Rattle.path_count.specs.PathCounts.{count_value};
ghost use Rattle.graph.specs.Graph.{node_part, edges_in, edges_from, GetsEdges, count_from_graph};
ghost use Rattle.graph.specs.Inner.{StandsIn};

use cells::list;
use path_count::PathCount;
use refusal::Refusal;

pub mod rooms;

// What comes back of a graph whose nodes, counts and edges are in lent words: how many nodes and
// edges there are, and the full board's node.
#[derive(Clone, Copy, Drop)]
pub struct GraphResult {
    pub nodes: usize,
    pub edges: usize,
    pub complete: Option<usize>,
}

// The four words of node n.
pub fn get_node(nodes: &[u64], n: usize) -> &[u64]
    ensures { result.now ≡ node_part nodes.now n }
{
    if n < nodes.len() / 4 {
        &nodes[4 * n..4 * n + 4]
    } else {
        &[]
    }
}

// How many of n edges are lent.
fn lent_edges(edges: &[u64], n: usize) -> usize
    ensures { result ≡ min n (length edges.now / 2) }
{
    n.min(edges.len() / 2)
}

// How many of the first n edges, or of as many as are lent, go out of a node.
pub fn count_edges(edges: &[u64], n: usize, node: usize) -> usize
    ensures { result ≡ length (edges_from (edges_in edges.now n) node) }
{
    let mut count = 0;
    for i in 0..lent_edges(edges, n) {
        if edges[2 * i] as usize == node {
            count += 1;
        }
    }
    count
}

// The words with another word i, where it is lent.
fn store(words: &mut [u64], i: usize, word: u64)
    ensures { words.new ≡ set words.old i word }
{
    if i < words.len() {
        words[i] = word;
    }
}

// The children of a node are written in stored order, those that there is room for.
fn write_edges(edges: &[u64], n: usize, node: usize, out: &mut [u64])
    ensures { StandsIn (edges_from (edges_in edges.now n) node) out.new }
{
    let mut count = 0;
    for i in 0..lent_edges(edges, n) {
        let parent = edges[2 * i] as usize;
        let child = edges[2 * i + 1];
        if parent == node {
            store(out, count, child);
            count += 1;
        }
    }
}

// The children of a node, in stored order, among the first n edges or as many as are lent.
pub fn get_edges(edges: &[u64], n: usize, node: usize, out: &mut [u64]) -> Result<usize, Refusal>
    ensures { GetsEdges edges.now n node out.old out.new result }
{
    let count = count_edges(edges, n, node);
    if out.len() < count {
        list::clear_from(out, 0);
        return Err(Refusal::NoRoom);
    }
    write_edges(edges, n, node, out);
    list::clear_from(out, count);
    Ok(count)
}

// The graph count: the path count of the full board's node, 0 with none, of any result and any count
// words.
pub fn count_tilings_from_graph(graph: GraphResult, counts: &[u64]) -> PathCount
    ensures { count_value result ≡ count_from_graph graph.complete counts.now }
{
    match graph.complete {
        Some(v) => path_count::get(counts, v),
        None => PathCount::of_words(0, 0),
    }
}
