// A graph that grows in lent words: nodes and edges are found in order. Private helpers.
ghost use Rattle.std.specs.Prelude.{◌≡◌, List, [], ◌∷◌, ◌++◌, ℕ, ◌+◌, ◌*◌, ◌≤◌, eqb, length};
ghost use Rattle.cells.specs.Set.{number};
ghost use Rattle.cells.specs.Lists.{list_of, set_at};
ghost use Rattle.cells.specs.Parts.{find_set};
ghost use Rattle.tiles.specs.Paths.{paths_in};
ghost use Rattle.fit.specs.Parts.{most_children};
ghost use Rattle.board.specs.Board.{board_of};
ghost use Rattle.covers.specs.Setting.{child_boards, nodes_of, graph_edges};
ghost use Rattle.covers.specs.Inner.{add_child, add_children};
ghost use Rattle.expansion.specs.Boards.{From, setting_of, start_of};
ghost use Rattle.tiler.specs.Inner.{HoldsEdges};

use cells::{Cells, list};
use expansion::AcceptedPlot;

// So many nodes and edges in the first lent words, and the rooms for them: at most as many nodes as
// there is room for; edges past their room count as one.
#[derive(Drop)]
pub struct Growing<'a> {
    pub nodes: &'a mut [u64],
    pub edges: &'a mut [u64],
    pub node_room: usize,
    pub edge_room: usize,
    pub node_count: usize,
    pub edge_count: usize,
    ghost nodes_lent: { 4 * node_room ≤ length nodes.now },
    ghost edges_lent: { 2 * edge_room ≤ length edges.now },
    ghost nodes_fit: { node_count ≤ node_room },
}

// None is answered where the nodes pass their room.
impl<'a> Growing<'a> {
    ghost use Rattle.tiler.specs.Growths.{SameWords, HoldsIn, AddsTo};

    // The number of a node, if it has been found.
    fn find(&self, node: Cells) -> Option<usize>
        ensures { result ≡ find_set self.now.nodes.now 0 self.now.node_count (number node) }
    {
        list::find(self.nodes, 0, self.node_count, node)
    }

    // Node i.
    fn node(&self, i: usize) -> Cells
        ensures { number result ≡ set_at self.now.nodes.now i }
    {
        list::get(self.nodes, i)
    }

    // One more edge, stored if there is room for it.
    fn add_edge(&mut self, parent: usize, child: usize)
        ensures same { SameWords self.old self.new }
        ensures nodes { (self.new.nodes.now ≡ self.old.nodes.now) × (self.new.node_count ≡ self.old.node_count) }
        ensures edges { (es : List (ℕ × ℕ)) → HoldsEdges self.old.edge_room self.old.edges.now self.old.edge_count es → HoldsEdges self.old.edge_room self.new.edges.now self.new.edge_count (es ++ (parent, child) ∷ []) }
    {
        let n = self.edge_count;
        if self.edge_room <= n {
            self.edge_count = self.edge_room + 1;
            return;
        }
        let at = 2 * n;
        self.edges[at] = parent as u64;
        self.edges[at + 1] = child as u64;
        self.edge_count = n + 1;
    }

    // One more child of a parent: a node if it is new, and an edge.
    fn add_child(&mut self, parent: usize, child: Cells) -> Option<()>
        ensures same { SameWords self.old self.new }
        ensures adds { AddsTo self.old self.new result (add_child eqb parent (number child)) }
    {
        let n = self.node_count;
        if let Some(i) = self.find(child) {
            self.add_edge(parent, i);
            return Some(());
        }
        if self.node_room <= n {
            return None;
        }
        list::put(self.nodes, n, child);
        self.node_count = n + 1;
        self.add_edge(parent, n);
        Some(())
    }

    // The first children of a list, one after the other.
    fn add_children(&mut self, parent: usize, children: &[u64], n: usize) -> Option<()>
        ensures same { SameWords self.old self.new }
        ensures adds { AddsTo self.old self.new result (add_children eqb parent (list_of (set_at children.now) n)) }
    {
        for i in 0..n {
            let child = list::get(children, i);
            self.add_child(parent, child)?;
        }
        Some(())
    }

    // The children of node i.
    fn expand_node(&mut self, plot: AcceptedPlot, children: &mut [u64], i: usize) -> Option<()>
        requires { From (board_of plot.board) (set_at self.old.nodes.now i) × (4 * most_children (paths_in plot.tiles) ≤ length children.old) }
        ensures same { SameWords self.old self.new }
        ensures adds { AddsTo self.old self.new result (add_children eqb i (child_boards (setting_of plot.board plot.tiles) (set_at self.old.nodes.now i))) }
    {
        let n = expansion::expand(plot.board, plot.tiles, self.node(i), children);
        self.add_children(i, children, n)
    }

    // The nodes and edges behind node 0, parents in order.
    pub fn build(&mut self, plot: AcceptedPlot, children: &mut [u64]) -> Option<()>
        requires { (4 * most_children (paths_in plot.tiles) ≤ length children.old) × (self.old.node_count ≡ 1) × (self.old.edge_count ≡ 0) × (set_at self.old.nodes.now 0 ≡ start_of plot.board) }
        ensures same { SameWords self.old self.new }
        ensures holds { HoldsIn self.old self.new result (nodes_of (setting_of plot.board plot.tiles) (start_of plot.board), graph_edges (setting_of plot.board plot.tiles) (start_of plot.board)) }
    {
        let mut i = 0;
        // Kept: a range's end is fixed, and the end of this loop, the nodes found so far, moves.
        while i < self.node_count {
            self.expand_node(plot, children, i)?;
            i += 1;
        }
        Some(())
    }
}
