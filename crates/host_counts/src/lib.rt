// Calls over a host's words that count: the layer count, the figure called cuttings, and the graph. Each
// tests the shapes of its slices and then hands on what the call of the lower crate answers; after a
// refusal every lent word is zero. Nothing is asked of a caller.
#![tactic(auto)]

ghost use Rattle.std.specs.Prelude.{length};
ghost use Rattle.graph.specs.Graph.{layer_room};
ghost use Rattle.host_counts.specs.Calls.{counted, cuttings_counted, AnswersCount, generated, AnswersGraph};

use cells::list;

mod calls;

// The layer count, low word and high word. The lent layers are zero afterwards.
pub fn count_tilings(
    width: u64,
    height: u64,
    marks: &[u64],
    tiles: &[u8],
    boards_a: &mut [u64],
    counts_a: &mut [u64],
    boards_b: &mut [u64],
    counts_b: &mut [u64],
    answer: &mut [u64],
) -> u64
    ensures { AnswersCount (counted width height marks.now tiles.now
        (layer_room (length boards_a.old) (length counts_a.old) (length boards_b.old) (length counts_b.old)) (length answer.old))
        boards_a.old counts_a.old boards_b.old counts_b.old answer.old
        boards_a.new counts_a.new boards_b.new counts_b.new answer.new result }
{
    match host_words::of_plot(2, marks.len(), tiles.len(), answer.len()) {
        Ok(()) => {
            let board = host_words::board_from(width, height, marks);
            let tiles = host_tiles::tiles_from(tiles);
            let count = layers::count_tilings(board, tiles, boards_a, counts_a, boards_b, counts_b);
            calls::tell_count(answer, count)
        }
        Err(refusal) => {
            calls::refuse_count(boards_a, counts_a, boards_b, counts_b, answer, refusal)
        }
    }
}

// The figure called cuttings, low word and high word. The lent layers are zero afterwards.
// Kept: it differs from the call above in the line that counts; one function for both would take ten
// arguments, one of them a function of six.
pub fn count_cuttings(
    width: u64,
    height: u64,
    marks: &[u64],
    tiles: &[u8],
    boards_a: &mut [u64],
    counts_a: &mut [u64],
    boards_b: &mut [u64],
    counts_b: &mut [u64],
    answer: &mut [u64],
) -> u64
    ensures { AnswersCount (cuttings_counted width height marks.now tiles.now
        (layer_room (length boards_a.old) (length counts_a.old) (length boards_b.old) (length counts_b.old)) (length answer.old))
        boards_a.old counts_a.old boards_b.old counts_b.old answer.old
        boards_a.new counts_a.new boards_b.new counts_b.new answer.new result }
{
    match host_words::of_plot(2, marks.len(), tiles.len(), answer.len()) {
        Ok(()) => {
            let board = host_words::board_from(width, height, marks);
            let tiles = host_tiles::tiles_from(tiles);
            let count = tiler::count_cuttings(board, tiles, boards_a, counts_a, boards_b, counts_b);
            calls::tell_count(answer, count)
        }
        Err(refusal) => {
            calls::refuse_count(boards_a, counts_a, boards_b, counts_b, answer, refusal)
        }
    }
}

// The graph: nodes, four words each, a count beside each, and edges, two words each; and the words of
// its result.
pub fn generate_graph(
    width: u64,
    height: u64,
    marks: &[u64],
    tiles: &[u8],
    nodes: &mut [u64],
    counts: &mut [u64],
    edges: &mut [u64],
    answer: &mut [u64],
) -> u64
    ensures { AnswersGraph (generated width height marks.now tiles.now
        (length nodes.old) (length counts.old) (length edges.old) (length answer.old))
        nodes.old counts.old edges.old answer.old nodes.new counts.new edges.new answer.new result }
{
    match host_words::of_plot(4, marks.len(), tiles.len(), answer.len()) {
        Ok(()) => calls::generate_graph(
            host_words::board_from(width, height, marks),
            host_tiles::tiles_from(tiles),
            nodes,
            counts,
            edges,
            answer,
        ),
        Err(refusal) => {
            list::clear_from(nodes, 0);
            list::clear_from(counts, 0);
            list::clear_from(edges, 0);
            host_words::refuse(answer, refusal)
        }
    }
}
