// The graph, the port of `graph` of the Rust's tiler.rs; and the figure called cuttings of document 02,
// which the Rust does not have. A board and tiles are given, any numbers in them; words are lent, of any
// lengths. Nothing is asked of a caller: what can not be counted is refused by the numbers of document 01.
//
// What a call answers and leaves in the lent words (`answer`), and what it has to do with cuttings
// (`cuttings`), are definitions, of specs/Graphs.antt for the graph and of the crate `cuttings`,
// specs/Cuttings.antt, for the figure. What follows from the graph's contract and from that of the layer
// count is on specs/Theorems.antt and specs/CuttingTheorems.antt, what the figure means on the crate
// `cuttings`' proofs/Theorems.antt.
#![tactic(auto)]

ghost use Rattle.cuttings.specs.Cuttings.{AnswersCuttings, IsNumberOfCuttings};
ghost use Rattle.tiler.specs.Graphs.{GeneratesGraph, NumbersCuttings};

use board::RectangularBoard;
use graph::GraphResult;
use path_count::PathCount;
use refusal::Refusal;
use tiles::Tiles;

mod building;
mod growing;

// The graph of the boards that are reached: nodes, four words each, by first finding; beside each its
// path count; and edges, as pairs of a parent and a child. The words behind them are zero, and all of
// them after a refusal: 4, 6, 5, 7, then 8 for the nodes, 10 for the edges and 9 for a path count,
// each over the whole graph. A room is at most 16,777,216. A graph that is given is not refused by
// 11 in `numbered_tilings::tiling_by_number`; where the board has a free cell and every tile is
// edge-joined, the numbers below its count number the cuttings.
pub fn generate_graph(
    board: RectangularBoard,
    tiles: Tiles,
    nodes: &mut [u64],
    counts: &mut [u64],
    edges: &mut [u64],
) -> Result<GraphResult, Refusal>
    ensures answer { GeneratesGraph board tiles nodes.old counts.old edges.old nodes.new counts.new edges.new result }
    ensures cuttings { NumbersCuttings board tiles nodes.new counts.new edges.new result }
{
    let made = building::made(board, tiles, nodes, counts, edges);
    if made.is_err() {
        building::clear(nodes, counts, edges);
    }
    made
}

// The figure called cuttings: 1 for a board with no free cell, otherwise the layer count. It is lent
// what `layers::count_tilings` is lent, and refuses what that refuses, by the same numbers, also where no
// cell is free. All lent words are zero afterwards. Where every tile is edge-joined, a figure that is
// given is the number of cuttings.
pub fn count_cuttings(
    board: RectangularBoard,
    tiles: Tiles,
    boards_a: &mut [u64],
    counts_a: &mut [u64],
    boards_b: &mut [u64],
    counts_b: &mut [u64],
) -> Result<PathCount, Refusal>
    ensures answer { AnswersCuttings board tiles boards_a.old counts_a.old boards_b.old counts_b.old boards_a.new counts_a.new boards_b.new counts_b.new result }
    ensures cuttings { IsNumberOfCuttings board tiles result }
{
    let count = layers::count_tilings(board, tiles, boards_a, counts_a, boards_b, counts_b);
    cuttings::count_cuttings_from_layers(board, count)
}
