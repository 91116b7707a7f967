// A board and tiles together: whether they are refused, and the children of a board that stands in
// words. Both counts ask this, the layer count and the graph. Nothing is asked of a caller: any board
// and tiles, any marks and any buffer.
//
// What each call answers is a definition of specs/Parts.antt. What is refused of a board and tiles,
// and what a cutting is, is defined in specs/Plots.antt; specs/Boards.antt is the setting by which the
// laws of the crate `covers` speak of boards.
#![tactic(auto)]

ghost use Rattle.std.specs.Prelude.{◌≡◌, ◌≤◌};
ghost use Rattle.cells.specs.Set.{number};
ghost use Rattle.refusal.specs.Refusal.{given, map_answer, answer_of};
ghost use Rattle.tiles.specs.Paths.{paths_in, read_tiles, read_equal_tiles};
ghost use Rattle.fit.specs.Parts.{most_children};
ghost use Rattle.expansion.specs.Plots.{accept_plot};
ghost use Rattle.expansion.specs.Parts.{step_of, Expands, child_words};

use board::RectangularBoard;
use cells::Cells;
use refusal::Refusal;
use tiles::Tiles;

mod plot;

pub use plot::AcceptedPlot;

// Refusal 4 of the board; 6, 5 and 7 of the tiles; else the cells that each piece covers, 1 where there
// are no tiles.
pub fn judge(board: RectangularBoard, tiles: Tiles) -> Result<usize, Refusal>
    ensures { answer_of result ≡ map_answer (λ p. step_of p.1) (accept_plot board tiles) }
{
    board.check()?;
    let cells = tiles.count_cells()?;
    Ok(cells.max(1))
}

// The children of the board with some marks, into a buffer, zeros behind them; how many there are, 0
// where board or tiles are refused or the buffer does not hold them.
pub fn expand(board: RectangularBoard, tiles: Tiles, marks: Cells, children: &mut [u64]) -> usize
    ensures { Expands board tiles (number marks) children.old children.new result }
{
    children::place_tile(board.with_marks(marks), tiles, children).unwrap_or(0)
}

// The words of a buffer that holds the children of any board, 8,448 at most; 0 where the tiles are
// refused.
pub fn child_words(tiles: Tiles) -> usize
    ensures { result ≡ child_words tiles }
{
    if tiles.check().is_err() {
        return 0;
    }
    4 * most_children(tiles)
}

// The most children that accepted tiles can make.
fn most_children(tiles: Tiles) -> usize
    requires { read_tiles tiles ≡ given (paths_in tiles) }
    ensures { (result ≡ most_children (paths_in tiles)) × (result ≤ 2112) }
{
    let mut sum = 0;
    for i in 0..tiles.count {
        sum += tiles.lens[i] + 1;
    }
    sum
}
