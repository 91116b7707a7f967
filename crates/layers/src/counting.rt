// The layer count of any board and tiles: what is refused, layer 0, and the layers from it on. Private
// helpers.
ghost use Rattle.std.specs.Prelude.{◌≡◌, [], ◌∷◌, ◌≤◌, ◌<◌, length};
ghost use Rattle.path_count.specs.PathCounts.{count_room};
ghost use Rattle.graph.specs.Graph.{layer_room};
ghost use Rattle.expansion.specs.Boards.{start_of};
ghost use Rattle.layers.specs.Inner.{layers_answer, entries_in, setting_in};
ghost use Rattle.layers.specs.LayerCounts.{count_tilings, count_answer};

use crate::from_layer;
use crate::layer::Layer;
use board::RectangularBoard;
use cells::list;
use expansion::AcceptedPlot;
use graph::rooms;
use path_count::PathCount;
use refusal::Refusal;
use tiles::Tiles;

// Layer 0: the start, with the count 1.
fn start(board: RectangularBoard, boards: &mut [u64], counts: &mut [u64])
    requires { (4 ≤ length boards.old) × (0 < count_room (length counts.old)) }
    ensures { entries_in boards.new counts.new 1 ≡ (start_of board, 1) ∷ [] }
{
    list::put(boards, 0, board.marks());
    path_count::put(counts, 0, PathCount::of_words(1, 0));
}

// The count of a board and tiles that are not refused.
fn count_accepted(
    plot: AcceptedPlot,
    boards_a: &mut [u64],
    counts_a: &mut [u64],
    boards_b: &mut [u64],
    counts_b: &mut [u64],
) -> Result<PathCount, Refusal>
    ensures { count_answer result ≡ layers_answer (setting_in plot) (start_of plot.board) (layer_room (length boards_a.old) (length counts_a.old) (length boards_b.old) (length counts_b.old)) }
{
    let room = rooms::layer_room(
        boards_a.len(),
        counts_a.len(),
        boards_b.len(),
        counts_b.len(),
    );
    if room == 0 {
        return Err(Refusal::NoRoom);
    }
    let free = plot.board.free_cells().unwrap();
    if free == 0 {
        return Ok(PathCount::of_words(0, 0));
    }
    start(plot.board, boards_a, counts_a);
    let mut first = Layer {
        boards: boards_a,
        counts: counts_a,
        room,
        len: 1,
        over: false,
    };
    let mut next = Layer {
        boards: boards_b,
        counts: counts_b,
        room,
        len: 0,
        over: false,
    };
    from_layer::run(plot, &mut first, &mut next, free)
}

// The count, the layers not cleared.
pub fn counted(
    board: RectangularBoard,
    tiles: Tiles,
    boards_a: &mut [u64],
    counts_a: &mut [u64],
    boards_b: &mut [u64],
    counts_b: &mut [u64],
) -> Result<PathCount, Refusal>
    ensures { count_answer result ≡ count_tilings board tiles (layer_room (length boards_a.old) (length counts_a.old) (length boards_b.old) (length counts_b.old)) }
{
    let size = expansion::judge(board, tiles)?;
    let plot = AcceptedPlot { board, tiles, size };
    count_accepted(plot, boards_a, counts_a, boards_b, counts_b)
}
