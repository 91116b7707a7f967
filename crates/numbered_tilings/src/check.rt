// The check behind refusal 11: whether a result and graph words have one of its causes. The plain form,
// a sum for each node. Private helpers.
#![tactic(auto, unfolding(crate::specs::Tilings::is_past))]

ghost use Rattle.std.specs.Prelude.{◌≡◌, ◌≤◌, ◌<◌};
ghost use Rattle.cells.specs.Lists.{any, list_of};
ghost use Rattle.path_count.specs.PathCounts.{count_in};
ghost use Rattle.graph.specs.Graph.{edge_at};
ghost use Rattle.numbered_tilings.specs.Tilings.{is_past, bad_edge, bad_count, bad_graph};

use crate::words::GraphWords;
use graph::{GraphResult, rooms};
use path_count::PathCount;

// Whether the full node is not below the nodes.
fn is_past(complete: Option<usize>, n: usize) -> bool
    ensures { result ≡ is_past n complete }
{
    complete.is_some_and(|v| n <= v)
}

// Whether edge i does not lead from a node to a later one.
fn is_bad_edge(words: GraphWords, i: usize) -> bool
    requires { i < words.graph.edges }
    ensures { result ≡ bad_edge words.entry.graph.nodes (edge_at words.entry.edges.now i) }
{
    let child = words.child(i);
    child <= words.parent(i) || words.graph.nodes <= child
}

fn has_bad_edge(words: GraphWords) -> bool
    ensures { result ≡ any (bad_edge words.entry.graph.nodes) (list_of (edge_at words.entry.edges.now) words.entry.graph.edges) }
{
    for i in 0..words.graph.edges {
        if is_bad_edge(words, i) {
            return true;
        }
    }
    false
}

// Whether the count of node v, which is not node 0, is not the exact sum of its parents' counts over the
// edges into it. A sum that is too large is no count's.
fn is_bad_sum(words: GraphWords, v: usize) -> bool
    requires { 1 ≤ v }
    ensures { result ≡ bad_count (list_of (edge_at words.entry.edges.now) words.entry.graph.edges) (count_in words.entry.counts.now) v }
{
    let count = path_count::get(words.counts, v);
    let mut sum = PathCount::of_words(0, 0);
    for i in 0..words.graph.edges {
        let Some(more) = sum.plus(words.share(i, v)) else {
            return true; // no count is as large
        };
        sum = more;
    }
    !count.equal(sum)
}

fn is_bad_count(words: GraphWords, v: usize) -> bool
    ensures { result ≡ bad_count (list_of (edge_at words.entry.edges.now) words.entry.graph.edges) (count_in words.entry.counts.now) v }
{
    if v == 0 {
        !path_count::get(words.counts, v).equal(PathCount::of_words(1, 0))
    } else {
        is_bad_sum(words, v)
    }
}

fn has_bad_count(words: GraphWords) -> bool
    ensures { result ≡ any (bad_count (list_of (edge_at words.entry.edges.now) words.entry.graph.edges) (count_in words.entry.counts.now)) (list_of (λ v. v) words.entry.graph.nodes) }
{
    for v in 0..words.graph.nodes {
        if is_bad_count(words, v) {
            return true;
        }
    }
    false
}

// Whether a result and graph words, with so many node words, have a cause of refusal 11.
pub fn is_bad_graph(graph: GraphResult, nodes: usize, counts: &[u64], edges: &[u64]) -> bool
    ensures { result ≡ bad_graph graph nodes counts.now edges.now }
{
    let n = graph.nodes;
    if n == 0
        || rooms::node_room(nodes, counts.len()) < n
        || rooms::edge_room(edges.len()) < graph.edges
        || is_past(graph.complete, n)
    {
        return true;
    }
    let words = GraphWords {
        graph,
        counts,
        edges,
    };
    has_bad_edge(words) || has_bad_count(words)
}
