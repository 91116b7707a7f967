// Boards: the port of the Rust's board.rs. A board has at most 16 by 16 cells, a size, and two sets
// of marks, fixed ones and laid ones (Vec<Vec<bool>> in the Rust).
//
// The struct holds any numbers, and nothing is asked of a caller: the calls that count cells, choose
// one or fix one test the board and hand on its refusal; `of_marks`, `with_marks`, `marks` and
// `mark_tile_at_position` put sets together, which any numbers have. What each call answers is a
// definition of specs/Board.antt. The struct is put together in `of_marks` alone.
#![tactic(auto)]

ghost use Rattle.std.specs.Prelude.{◌≡◌, true, [], ◌∷◌};
ghost use Rattle.cells.specs.Set.{union_of, value, number};
ghost use Rattle.refusal.specs.Refusal.{map_answer, refusal_of, refusal_number, verdict_number, answer_of};
ghost use Rattle.rectangle.specs.Board.{no_board, board_at, marks, free_count, is_full, lay, valid};
ghost use Rattle.choice.specs.Choice.{chosen_count};
ghost use Rattle.board.specs.Board.{board_of, of_marks, read_board, shaped, new_board, l_board, t_board, with_hole, MakesBoard};

use cells::Cells;
use refusal::Refusal;

mod shape;

// A board by its size and its two kinds of marks.
#[derive(Clone, Copy, Drop)]
pub struct RectangularBoard {
    pub width: usize,
    pub height: usize,
    pub fixed: Cells,
    pub laid: Cells,
}

impl RectangularBoard {
    // The board of a size and of marks, as they stand.
    pub fn of_marks(width: usize, height: usize, fixed: Cells, laid: Cells) -> RectangularBoard
        ensures { result ≡ of_marks width height fixed laid }
    {
        RectangularBoard {
            width,
            height,
            fixed,
            laid,
        }
    }

    // A board with no marks.
    pub fn new(width: usize, height: usize) -> Result<RectangularBoard, Refusal>
        ensures { MakesBoard (new_board width height) result }
    {
        made(width, height, 0, 0, 0)
    }

    // An L of n by 2 squares, each of scale by scale cells.
    pub fn l_board(n: usize, scale: usize) -> Result<RectangularBoard, Refusal>
        ensures { MakesBoard (l_board n scale) result }
    {
        if scale == 0 {
            return made(0, 0, 0, 0, 0);
        }
        if 8 < scale || 16 < n {
            return Err(Refusal::BadBoard);
        }
        made(n * scale, 2 * scale, scale, 0, scale)
    }

    // A T of 2n + 1 by 2 squares, each of scale by scale cells.
    pub fn t_board(n: usize, scale: usize) -> Result<RectangularBoard, Refusal>
        ensures { MakesBoard (t_board n scale) result }
    {
        if scale == 0 {
            return made(0, 0, 0, 0, 0);
        }
        if 8 < scale || 16 < n {
            return Err(Refusal::BadBoard);
        }
        made(
            (2 * n + 1) * scale,
            2 * scale,
            scale,
            n * scale,
            (n + 1) * scale,
        )
    }

    // The board with the cell at a row and a column fixed; refusal 4 for a board that is not accepted,
    // then 15 for a cell that is outside the rectangle or has a mark of either kind.
    pub fn with_hole(self, row: usize, column: usize) -> Result<RectangularBoard, Refusal>
        ensures { MakesBoard (with_hole (board_of self) row column) result }
    {
        self.check()?;
        fix_cell(self, row, column)
    }

    // Whether the size is right, no mark is outside the rectangle and no cell is both fixed and
    // laid; refusal 4 otherwise.
    pub fn check(self) -> Result<(), Refusal>
        ensures { verdict_number result ≡ refusal_of (read_board self) }
    {
        if shape::is_ok(self) {
            Ok(())
        } else {
            Err(Refusal::BadBoard)
        }
    }

    // Both kinds of marks together.
    pub fn marks(self) -> Cells
        ensures { number result ≡ marks (board_of self) }
    {
        self.fixed.union(self.laid)
    }

    // The board of the same size and fixed marks whose marks of both kinds together are some marks and
    // the fixed ones.
    pub fn with_marks(self, marks: Cells) -> RectangularBoard
        ensures { board_of result ≡ board_at (board_of self) (union_of (number self.fixed) (number marks)) }
    {
        let laid = shape::without(self.fixed.union(marks), self.fixed);
        RectangularBoard::of_marks(self.width, self.height, self.fixed, laid)
    }

    // The number of free cells.
    pub fn free_cells(self) -> Result<usize, Refusal>
        ensures { answer_of result ≡ map_answer free_count (read_board self) }
    {
        self.check()?;
        Ok(shape::free_count(self))
    }

    // Whether no cell is free.
    pub fn is_all_marked(self) -> Result<bool, Refusal>
        ensures { answer_of result ≡ map_answer is_full (read_board self) }
    {
        self.check()?;
        Ok(shape::free_count(self) == 0)
    }

    // The free cell with the highest neighbour count, the first by columns and then by rows.
    pub fn chosen_cell(self) -> Result<Option<(usize, u8)>, Refusal>
        ensures { answer_of result ≡ map_answer chosen_count (read_board self) }
    {
        self.check()?;
        choice::chosen_cell(self.width, self.height, self.marks(), self.laid)
    }

    // The board with the cells of a piece laid.
    pub fn mark_tile_at_position(mut self, piece: Cells) -> RectangularBoard
        ensures { board_of result ≡ lay (board_of self) (number piece) }
    {
        self.laid = self.laid.union(piece);
        self
    }
}

// A board of a size with the marks of a shape, or a refusal.
fn made(
    width: usize,
    height: usize,
    rows: usize,
    low: usize,
    high: usize,
) -> Result<RectangularBoard, Refusal>
    ensures { MakesBoard (shaped width height rows low high) result }
{
    if !rectangle::size_ok(width, height) {
        return Err(Refusal::BadBoard);
    }
    let fixed = shape::shape_marks(width, height, rows, low, high);
    Ok(RectangularBoard::of_marks(width, height, fixed, Cells::of_words(0, 0, 0, 0)))
}

// An accepted board with the cell at a row and a column fixed, or a refusal.
fn fix_cell(
    mut board: RectangularBoard,
    row: usize,
    column: usize,
) -> Result<RectangularBoard, Refusal>
    requires { valid (board_of board) ≡ true }
    ensures { MakesBoard (with_hole (board_of board) row column) result }
{
    if board.height <= row || board.width <= column {
        return Err(Refusal::BadHole);
    }
    let cell = 16 * row + column;
    let marks = board.marks();
    if marks.has_cell(cell) {
        return Err(Refusal::BadHole);
    }
    board.fixed = board.fixed.with_cell(cell);
    Ok(board)
}
