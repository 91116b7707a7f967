// The calls themselves, where the shapes are right: each hands on what the call of the lower crate
// answers.
ghost use Rattle.std.specs.Prelude.{◌≡◌, ◌/◌, length};
ghost use Rattle.cells.specs.Set.{value};
ghost use Rattle.numbered_tilings.specs.Tilings.{tiling_by_number};
ghost use Rattle.single_tiling.specs.SingleTiling.{read_search};
ghost use Rattle.host_tilings.specs.Calls.{AnswersSingle};
ghost use Rattle.host_words.specs.Layout.{AnswersList};
ghost use Rattle.cells.specs.Lists.{padded};

use board::RectangularBoard;
use graph::GraphResult;
use path_count::PathCount;
use tiles::Tiles;

pub fn single_tiling(
    board: RectangularBoard,
    tiles: Tiles,
    out: &mut [u64],
    answer: &mut [u64],
) -> u64
    ensures { AnswersSingle (read_search board tiles (length out.old / 4)) out.old answer.old out.new answer.new result }
{
    match single_tiling::get_single_tiling(board, tiles, out) {
        Ok(found) => host_words::accept(answer, &[found.unwrap_or(0) as u64]),
        Err(refusal) => host_words::refuse(answer, refusal),
    }
}

pub fn tiling(
    graph: GraphResult,
    nodes: &[u64],
    counts: &[u64],
    edges: &[u64],
    m: &[u64],
    out: &mut [u64],
    answer: &mut [u64],
) -> u64
    requires { length m.now ≡ 2 }
    ensures { AnswersList padded (tiling_by_number graph (length nodes.now) counts.now edges.now (value m.now) (length out.old))
        out.old answer.old out.new answer.new result }
{
    let number = PathCount::of_words(m[0], m[1]);
    match numbered_tilings::tiling_by_number(graph, nodes, counts, edges, number, out) {
        Ok(n) => host_words::accept(answer, &[n as u64]),
        Err(refusal) => host_words::refuse(answer, refusal),
    }
}
