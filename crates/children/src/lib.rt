// The children of a board, from the Rust's board.rs. Nothing is asked of a caller: board and tiles are
// tested and refused. What the call answers and leaves in the lent words is a definition of
// specs/Children.antt.
#![tactic(auto)]

ghost use Rattle.board.specs.Board.{board_of};
ghost use Rattle.children.specs.Children.{PlacesTiles};
ghost use Rattle.children.specs.Inner.{Stores};

use board::RectangularBoard;
use cells::list;
use refusal::Refusal;
use tiles::Tiles;

mod placing;

use placing::{Parent, TestedTiles};

// The children, four words each, both kinds of marks together. The words behind the last child are
// zero, and all of them after a refusal: 4, 6, 5, and 8 for more children than the words hold.
pub fn place_tile(board: RectangularBoard, tiles: Tiles, out: &mut [u64]) -> Result<usize, Refusal>
    ensures { PlacesTiles board tiles out.old out.new result }
{
    let stored = store_children(board, tiles, out);
    match stored {
        Ok(n) => {
            list::clear_from(out, 4 * n);
            Ok(n)
        }
        Err(refusal) => {
            list::clear_from(out, 0);
            Err(refusal)
        }
    }
}

// The children, stored in the first words, whatever stands behind them then.
fn store_children(board: RectangularBoard, tiles: Tiles, out: &mut [u64]) -> Result<usize, Refusal>
    ensures { Stores (board_of board) tiles out.new result }
{
    board.check()?;
    tiles.check()?;
    let parent = Parent {
        board,
        marked: board.marks(),
    };
    let tested = TestedTiles { tiles };
    placing::add_children(out, parent, tested).ok_or(Refusal::NoRoom)
}
