// A result and the words of its graph, and what the check and the walk read in them. Private helpers.
#![tactic(auto, unfolding(graph::specs::Graph::edge_at))]

ghost use Rattle.std.specs.Prelude.{◌≡◌, ◌*◌, ◌≤◌, ◌<◌, length};
ghost use Rattle.covers.specs.Inner.{share};
ghost use Rattle.path_count.specs.PathCounts.{count_value, count_in};
ghost use Rattle.graph.specs.Graph.{edge_at};

use graph::GraphResult;
use path_count::PathCount;

// A result with its count words and its edge words, in which all edges that it tells are lent.
#[derive(Clone, Copy, Drop)]
pub struct GraphWords<'a> {
    pub graph: GraphResult,
    pub counts: &'a [u64],
    pub edges: &'a [u64],
    ghost lent: { 2 * graph.edges ≤ length edges.now },
}

impl<'a> GraphWords<'a> {
    // The parent of edge i.
    pub fn parent(self, i: usize) -> usize
        requires { i < self.graph.edges }
        ensures { result ≡ (edge_at self.entry.edges.now i).0 }
    {
        self.edges[2 * i] as usize
    }

    // The child of edge i.
    pub fn child(self, i: usize) -> usize
        requires { i < self.graph.edges }
        ensures { result ≡ (edge_at self.entry.edges.now i).1 }
    {
        self.edges[2 * i + 1] as usize
    }

    // What edge i adds to the count of node v: its parent's count if it leads to v.
    pub fn share(self, i: usize, v: usize) -> PathCount
        requires { i < self.graph.edges }
        ensures { count_value result ≡ share (count_in self.entry.counts.now) v (edge_at self.entry.edges.now i) }
    {
        if self.child(i) == v {
            path_count::get(self.counts, self.parent(i))
        } else {
            PathCount::of_words(0, 0)
        }
    }
}
