// Calls over a host's words that give one tiling: by its number in a graph, and by a search without a
// graph. Each tests the shapes of its slices and then hands on what the call of the lower crate
// answers; after a refusal every lent word is zero. Nothing is asked of a caller.
#![tactic(auto)]

ghost use Rattle.std.specs.Prelude.{length};
ghost use Rattle.host_tilings.specs.Calls.{numbered, searched, AnswersSingle};
ghost use Rattle.host_words.specs.Layout.{AnswersList};
ghost use Rattle.cells.specs.Lists.{padded};

use cells::list;

mod calls;
mod shapes;

// One tiling, without a graph: its boards, four words each, and their number, 0 for none.
pub fn single_tiling(
    width: u64,
    height: u64,
    marks: &[u64],
    tiles: &[u8],
    out: &mut [u64],
    answer: &mut [u64],
) -> u64
    ensures { AnswersSingle (searched width height marks.now tiles.now (length out.old) (length answer.old))
        out.old answer.old out.new answer.new result }
{
    match host_words::of_plot(1, marks.len(), tiles.len(), answer.len()) {
        Ok(()) => calls::single_tiling(
            host_words::board_from(width, height, marks),
            host_tiles::tiles_from(tiles),
            out,
            answer,
        ),
        Err(refusal) => {
            list::clear_from(out, 0);
            host_words::refuse(answer, refusal)
        }
    }
}

// The tiling with the number m, low word and high word, of a graph's words and the four words of its
// result: the node list from node 0 on, and its length.
pub fn tiling(
    nodes: &[u64],
    counts: &[u64],
    edges: &[u64],
    graph: &[u64],
    m: &[u64],
    out: &mut [u64],
    answer: &mut [u64],
) -> u64
    ensures { AnswersList padded (numbered (length nodes.now) counts.now edges.now graph.now m.now
        (length out.old) (length answer.old)) out.old answer.old out.new answer.new result }
{
    match shapes::of_tiling(graph, m.len(), answer.len()) {
        Ok(()) => calls::tiling(
            host_words::graph_from(graph),
            nodes,
            counts,
            edges,
            m,
            out,
            answer,
        ),
        Err(refusal) => {
            list::clear_from(out, 0);
            host_words::refuse(answer, refusal)
        }
    }
}
