// The graph in lent words: nodes and edges as `growing` finds them, then the path counts by one pass
// over the edges. Private helpers; most ask that the rooms are lent.
ghost use Rattle.std.specs.Prelude.{◌≡◌, ℕ, ◌+◌, ◌*◌, ◌-◌, ◌≤◌, ◌<◌, length};
ghost use Rattle.cells.specs.Set.{number};
ghost use Rattle.cells.specs.Lists.{list_of, set_at};
ghost use Rattle.cells.specs.Parts.{cleared_from, first_from};
ghost use Rattle.board.specs.Board.{board_of};
ghost use Rattle.rectangle.specs.Board.{board_at, is_full};
ghost use Rattle.covers.specs.Setting.{nodes_of, graph_edges};
ghost use Rattle.path_count.specs.PathCounts.{count_room, count_in};
ghost use Rattle.path_count.specs.Parts.{AddsCount};
ghost use Rattle.path_count.specs.Inner.{count_words};
ghost use Rattle.graph.specs.Graph.{edge_at};
ghost use Rattle.expansion.specs.Boards.{From, setting_of, start_of};
ghost use Rattle.tiler.specs.Inner.{HoldsGraph, MakesGraph, EndsBelow, first_count, PassesEdges, Finishes};

use crate::growing::Growing;
use board::RectangularBoard;
use cells::{Cells, list};
use expansion::AcceptedPlot;
use graph::{GraphResult, rooms};
use path_count::PathCount;
use refusal::Refusal;
use tiles::Tiles;

// The nodes and edges of the graph.
fn grown(
    plot: AcceptedPlot,
    nodes: &mut [u64],
    edges: &mut [u64],
    node_room: usize,
    edge_room: usize,
) -> Option<(usize, usize)>
    requires { (4 * node_room ≤ length nodes.old) × (2 * edge_room ≤ length edges.old) }
    ensures { HoldsGraph node_room edge_room nodes.new edges.new result (nodes_of (setting_of plot.board plot.tiles) (start_of plot.board), graph_edges (setting_of plot.board plot.tiles) (start_of plot.board)) }
{
    if node_room == 0 {
        return None;
    }
    list::put(nodes, 0, plot.board.marks());
    let mut children = [0u64; 8448];
    let end = expansion::child_words(plot.tiles);
    let mut growing = Growing {
        nodes,
        edges,
        node_room,
        edge_room,
        node_count: 1,
        edge_count: 0,
    };
    growing.build(plot, &mut children[..end])?;
    Some((growing.node_count, growing.edge_count))
}

// Edge i adds its parent's count to its child's, unless the sum would be too large.
fn pass_edge(edges: &[u64], i: usize, counts: &mut [u64]) -> bool
    requires { 2 * i + 2 ≤ length edges.now }
    ensures { AddsCount counts.old (edge_at edges.now i).1 (count_in counts.old (edge_at edges.now i).0) counts.new result }
{
    let at = 2 * i;
    let parent = edges[at] as usize;
    let child = edges[at + 1] as usize;
    let paths = path_count::get(counts, parent);
    path_count::add(counts, child, paths)
}

// The edges in order; whether no count becomes too large.
fn pass_edges(edges: &[u64], n: usize, counts: &mut [u64]) -> bool
    requires { (2 * n ≤ length edges.now) × EndsBelow edges.now n (count_room (length counts.old)) × (counts.old ≡ count_words first_count (length counts.old)) }
    ensures { PassesEdges (length counts.old) (list_of (edge_at edges.now) n) counts.new result }
{
    for i in 0..n {
        if pass_edge(edges, i, counts) {
            return false;
        }
    }
    true
}

// The path counts of all nodes; whether none is too large.
fn count_paths(edges: &[u64], n: usize, counts: &mut [u64]) -> bool
    requires { (2 * n ≤ length edges.now) × EndsBelow edges.now n (count_room (length counts.old)) }
    ensures { PassesEdges (length counts.old) (list_of (edge_at edges.now) n) counts.new result }
{
    list::clear_from(counts, 0);
    path_count::put(counts, 0, PathCount::of_words(1, 0));
    pass_edges(edges, n, counts)
}

// Whether a board of the start is full.
fn is_full(board: RectangularBoard, marks: Cells) -> bool
    requires { From (board_of board) (number marks) }
    ensures { result ≡ is_full (board_at (board_of board) (number marks)) }
{
    board.with_marks(marks).is_all_marked().unwrap()
}

// The first full board among the nodes behind node 0.
fn find_complete(board: RectangularBoard, nodes: &[u64], n: usize) -> Option<usize>
    requires { (i : ℕ) → i < n → From (board_of board) (set_at nodes.now i) }
    ensures { result ≡ first_from (λ i. is_full (board_at (board_of board) (set_at nodes.now i))) 1 (n - 1) }
{
    for i in 1..n {
        if is_full(board, list::get(nodes, i)) {
            return Some(i);
        }
    }
    None
}

// A graph of n nodes and e edges: the words behind them are cleared.
fn finished(
    board: RectangularBoard,
    nodes: &mut [u64],
    edges: &mut [u64],
    n: usize,
    e: usize,
) -> GraphResult
    requires { ((i : ℕ) → i < n → From (board_of board) (set_at nodes.old i)) × (4 * n ≤ length nodes.old) × (2 * e ≤ length edges.old) }
    ensures { Finishes (board_of board) nodes.old edges.old n e nodes.new edges.new result }
{
    let complete = find_complete(board, nodes, n);
    list::clear_from(nodes, 4 * n);
    list::clear_from(edges, 2 * e);
    GraphResult {
        nodes: n,
        edges: e,
        complete,
    }
}

// The graph, or a refusal, which leaves what was worked in the lent words.
pub fn made(
    board: RectangularBoard,
    tiles: Tiles,
    nodes: &mut [u64],
    counts: &mut [u64],
    edges: &mut [u64],
) -> Result<GraphResult, Refusal>
    ensures { MakesGraph board tiles nodes.old counts.old edges.old nodes.new counts.new edges.new result }
{
    let size = expansion::judge(board, tiles)?;
    let plot = AcceptedPlot { board, tiles, size };
    let node_room = rooms::node_room(nodes.len(), counts.len());
    let edge_room = rooms::edge_room(edges.len());
    let growth = grown(plot, nodes, edges, node_room, edge_room);
    let (n, e) = growth.ok_or(Refusal::NoRoom)?;
    if edge_room < e {
        return Err(Refusal::NoRoomForEdges);
    }
    if !count_paths(edges, e, counts) {
        return Err(Refusal::CountTooLarge);
    }
    Ok(finished(board, nodes, edges, n, e))
}

// All the lent words are cleared.
pub fn clear(nodes: &mut [u64], counts: &mut [u64], edges: &mut [u64])
    ensures { (nodes.new ≡ cleared_from 0 nodes.old) × (counts.new ≡ cleared_from 0 counts.old) × (edges.new ≡ cleared_from 0 edges.old) }
{
    list::clear_from(nodes, 0);
    list::clear_from(counts, 0);
    list::clear_from(edges, 0);
}
