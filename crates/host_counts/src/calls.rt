// What is told of a count or a graph, and left in the lent words, where the shapes are right and where
// they are not.
ghost use Rattle.std.specs.Prelude.{length};
ghost use Rattle.cells.specs.Set.{words_below};
ghost use Rattle.refusal.specs.Refusal.{refused, given, map_answer, refusal_number};
ghost use Rattle.layers.specs.LayerCounts.{count_answer};
ghost use Rattle.tiler.specs.Graphs.{generate_graph};
ghost use Rattle.host_words.specs.Layout.{result_words, AnswersWords};
ghost use Rattle.host_counts.specs.Calls.{AnswersCount, AnswersGraph};

use board::RectangularBoard;
use cells::list;
use graph::GraphResult;
use path_count::PathCount;
use refusal::Refusal;
use tiles::Tiles;

// The words of a count, or its refusal.
pub fn tell_count(answer: &mut [u64], count: Result<PathCount, Refusal>) -> u64
    ensures { AnswersWords (map_answer (words_below 2) (count_answer count)) answer.old answer.new result }
{
    match count {
        Ok(n) => host_words::accept(answer, &[n.low(), n.high()]),
        Err(refusal) => host_words::refuse(answer, refusal),
    }
}

// A count whose shapes are refused: the lent layers are cleared.
pub fn refuse_count(
    boards_a: &mut [u64],
    counts_a: &mut [u64],
    boards_b: &mut [u64],
    counts_b: &mut [u64],
    answer: &mut [u64],
    refusal: Refusal,
) -> u64
    ensures { AnswersCount (refused (refusal_number refusal))
        boards_a.old counts_a.old boards_b.old counts_b.old answer.old
        boards_a.new counts_a.new boards_b.new counts_b.new answer.new result }
{
    list::clear_from(boards_a, 0);
    list::clear_from(counts_a, 0);
    list::clear_from(boards_b, 0);
    list::clear_from(counts_b, 0);
    host_words::refuse(answer, refusal)
}

pub fn generate_graph(
    board: RectangularBoard,
    tiles: Tiles,
    nodes: &mut [u64],
    counts: &mut [u64],
    edges: &mut [u64],
    answer: &mut [u64],
) -> u64
    ensures { AnswersGraph (generate_graph board tiles (length nodes.old) (length counts.old) (length edges.old))
        nodes.old counts.old edges.old answer.old nodes.new counts.new edges.new answer.new result }
{
    let made = tiler::generate_graph(board, tiles, nodes, counts, edges);
    match made {
        Ok(graph) => accept_graph(answer, graph),
        Err(refusal) => host_words::refuse(answer, refusal),
    }
}

// The words of a result.
fn accept_graph(answer: &mut [u64], graph: GraphResult) -> u64
    ensures { AnswersWords (given (result_words graph.nodes graph.edges (graph.complete))) answer.old answer.new result }
{
    let nodes = graph.nodes as u64;
    let edges = graph.edges as u64;
    let complete = graph.complete;
    match complete {
        Some(v) => host_words::accept(answer, &[nodes, edges, 1, v as u64]),
        None => host_words::accept(answer, &[nodes, edges, 0, 0]),
    }
}
