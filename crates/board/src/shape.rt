// The fixed marks of a shape, the test of a board and the count of its free cells, cell by cell, and a set
// without the cells of another. Private helpers; the last asks that the one set is within the other.
ghost use Rattle.std.specs.Prelude.{◌≡◌, cond, ◌-◌, ◌≤◌};
ghost use Rattle.cells.specs.Set.{set_of, with_cell, number};
ghost use Rattle.cells.specs.BitLaws.{Within};
ghost use Rattle.cells.specs.Lists.{all_below};
ghost use Rattle.rectangle.specs.Board.{is_free, free_count, mark_ok, valid};
ghost use Rattle.board.specs.Board.{board_of, shape_mark};

use crate::RectangularBoard;
use cells::Cells;

// Whether a cell of the rectangle is in the first rows, and in a column below one or from another
// on.
#[tactic(auto, unfolding(crate::specs::Board::shape_mark))]
fn is_shape_mark(
    width: usize,
    height: usize,
    rows: usize,
    low: usize,
    high: usize,
    cell: usize,
) -> bool
    ensures { result ≡ shape_mark width height rows low high cell }
{
    rectangle::is_inside(width, height, cell)
        && cell / 16 < rows
        && (cell % 16 < low || high <= cell % 16)
}

// The marks of a shape.
pub fn shape_marks(width: usize, height: usize, rows: usize, low: usize, high: usize) -> Cells
    ensures { number result ≡ set_of (shape_mark width height rows low high) }
{
    let mut set = Cells::of_words(0, 0, 0, 0);
    for cell in 0..256 {
        if is_shape_mark(width, height, rows, low, high, cell) {
            set = set.with_cell(cell);
        }
    }
    set
}

// Whether a cell has at most one kind of mark, and none outside the rectangle.
#[tactic(auto, unfolding(rectangle::specs::Board::mark_ok, rectangle::specs::Board::is_marked))]
fn mark_ok(board: RectangularBoard, cell: usize) -> bool
    ensures { result ≡ mark_ok (board_of board) cell }
{
    let fixed = board.fixed.has_cell(cell);
    let laid = board.laid.has_cell(cell);
    !(fixed && laid) && (rectangle::is_inside(board.width, board.height, cell) || !(fixed || laid))
}

// Whether that holds of every cell.
fn marks_ok(board: RectangularBoard) -> bool
    ensures { result ≡ all_below (mark_ok (board_of board)) 256 }
{
    for cell in 0..256 {
        if !mark_ok(board, cell) {
            return false;
        }
    }
    true
}

// Whether a board is accepted.
pub fn is_ok(board: RectangularBoard) -> bool
    ensures { result ≡ valid (board_of board) }
{
    rectangle::size_ok(board.width, board.height) && marks_ok(board)
}

// Whether a cell is free.
fn is_free(board: RectangularBoard, cell: usize) -> bool
    ensures { result ≡ is_free (board_of board) cell }
{
    rectangle::is_inside(board.width, board.height, cell)
        && !board.fixed.has_cell(cell)
        && !board.laid.has_cell(cell)
}

// The number of free cells.
pub fn free_count(board: RectangularBoard) -> usize
    ensures { result ≡ free_count (board_of board) }
{
    let mut n = 0;
    for cell in 0..256 {
        if is_free(board, cell) {
            n += 1;
        }
    }
    n
}

// A set without the cells of a set within it, word by word.
pub fn without(set: Cells, part: Cells) -> Cells
    requires { Within (number part) (number set) }
    ensures { number result ≡ number set - number part }
{
    Cells {
        w0: set.w0 - part.w0,
        w1: set.w1 - part.w1,
        w2: set.w2 - part.w2,
        w3: set.w3 - part.w3,
    }
}
