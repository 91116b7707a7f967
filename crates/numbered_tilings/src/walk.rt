// The walk by turns from a node back to node 0, over edges and counts that have no cause of refusal 11:
// parents stand before children, and a node's count is the sum of its parents'. Private helpers.
ghost use Rattle.std.specs.Prelude.{◌≡◌, ℕ, ◌≤◌, ◌<◌, length, get_or};
ghost use Rattle.cells.specs.Lists.{list_of};
ghost use Rattle.covers.specs.Counts.{parents_of, turn};
ghost use Rattle.path_count.specs.PathCounts.{count_value, count_in};
ghost use Rattle.graph.specs.Graph.{edge_at};
ghost use Rattle.numbered_tilings.specs.Inner.{walked, Walkable};

use crate::words::GraphWords;
use path_count::PathCount;

// A parent, and what is left of a number when the turns before the parent's are subtracted.
#[derive(Clone, Copy, Drop)]
pub struct Turn {
    pub parent: usize,
    pub left: PathCount,
}

// The parent of node v whose turn holds m, among the edges into v in stored order.
fn find_turn(words: GraphWords, v: usize, m: PathCount) -> Turn
    ensures { (result.parent, count_value result.left) ≡ turn (count_in words.entry.counts.now) (parents_of (list_of (edge_at words.entry.edges.now) words.entry.graph.edges) v) (count_value m) }
{
    let mut left = m;
    for i in 0..words.graph.edges {
        let share = words.share(i, v);
        if left.less(share) {
            return Turn {
                parent: words.parent(i),
                left,
            };
        }
        left = left.minus(share);
    }
    Turn { parent: 0, left }
}

// How many nodes the list with the number m to the node `last` has.
pub fn list_length(words: GraphWords, last: usize, m: PathCount) -> usize
    requires { Walkable words.counts.now words.edges.now words.graph.edges words.graph.nodes last (count_value m) }
    ensures { result ≡ length (walked words.entry.counts.now words.entry.edges.now words.entry.graph.edges last (count_value m)) }
{
    let mut v = last;
    let mut left = m;
    let mut size = 1;
    while 0 < v {
        let turn = find_turn(words, v, left);
        v = turn.parent;
        left = turn.left;
        size += 1;
    }
    size
}

// The list, of so many nodes, is written from its end.
pub fn write_list(words: GraphWords, last: usize, m: PathCount, out: &mut [u64], size: usize)
    requires { Walkable words.counts.now words.edges.now words.graph.edges words.graph.nodes last (count_value m) × (size ≡ length (walked words.counts.now words.edges.now words.graph.edges last (count_value m))) × (size ≤ length out.old) }
    ensures { (k : ℕ) → k < size → get_or out.new k 0 ≡ get_or (walked words.entry.counts.now words.entry.edges.now words.entry.graph.edges last (count_value m)) k 0 }
{
    let mut v = last;
    let mut left = m;
    let mut at = size - 1;
    while 0 < v {
        out[at] = v as u64;
        let turn = find_turn(words, v, left);
        v = turn.parent;
        left = turn.left;
        at -= 1;
    }
    out[at] = 0;
}
