// The tiling by number: the node list with a number, of any graph words and any result, by the walk by
// turns backward from the full board's node. The Rust's render_all_tilings walks the same lists. Nothing
// is asked of a caller: words that are no graph's are refused.
#![tactic(auto)]

ghost use Rattle.std.specs.Prelude.{◌≡◌, length};
ghost use Rattle.refusal.specs.Refusal.{map_answer, answer_of};
ghost use Rattle.path_count.specs.PathCounts.{count_value};
ghost use Rattle.numbered_tilings.specs.Tilings.{tiling_by_number, GivesTiling, GivesChain};

use cells::list;
use graph::GraphResult;
use path_count::PathCount;
use refusal::Refusal;
use words::GraphWords;

mod check;
mod walk;
mod words;

// What is answered for an output of so many words: refusals 11, 12 and 8, or the list's length.
fn judged(
    graph: GraphResult,
    nodes: usize,
    counts: &[u64],
    edges: &[u64],
    m: PathCount,
    room: usize,
) -> Result<usize, Refusal>
    ensures { answer_of result ≡ map_answer length (tiling_by_number graph nodes counts.now edges.now (count_value m) room) }
{
    if check::is_bad_graph(graph, nodes, counts, edges) {
        return Err(Refusal::BadGraph);
    }
    let count = graph::count_tilings_from_graph(graph, counts);
    if !m.less(count) {
        return Err(Refusal::NoSuchTiling);
    }
    let words = GraphWords {
        graph,
        counts,
        edges,
    };
    let size = walk::list_length(words, graph.complete.unwrap_or(0), m);
    if room < size {
        return Err(Refusal::NoRoom);
    }
    Ok(size)
}

// The tiling with the number m, of any graph words and any result: the node list from node 0 to the full
// board's node, one word a node, zeros behind; its length comes back. Refusals: 11, result and words
// are no graph's; 12, there is no full node, or m is not below its count; 8, the output is shorter
// than the list. The output is then zero. A list that is given is a chain of stored edges.
pub fn tiling_by_number(
    graph: GraphResult,
    nodes: &[u64],
    counts: &[u64],
    edges: &[u64],
    m: PathCount,
    output: &mut [u64],
) -> Result<usize, Refusal>
    ensures answer { GivesTiling graph nodes.now counts.now edges.now (count_value m) output.old output.new result }
    ensures chain { GivesChain graph edges.now output.new result }
{
    let answer = judged(graph, nodes.len(), counts, edges, m, output.len());
    let Ok(size) = answer else {
        list::clear_from(output, 0);
        return answer;
    };
    let words = GraphWords {
        graph,
        counts,
        edges,
    };
    let last = graph.complete.unwrap_or(0);
    walk::write_list(words, last, m, output, size);
    list::clear_from(output, size);
    answer
}
