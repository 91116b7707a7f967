// What a host's words stand for: boards and results of graphs that it hands in, and the
// answers and boards that are written into the words that it lends, zeros behind them. A word that is
// not lent reads as 0, and as many words are written as are lent, so that nothing is asked of a
// caller.
#![tactic(auto)]

ghost use Rattle.std.specs.Prelude.{◌≡◌, ◌≤◌, length, get_or};
ghost use Rattle.refusal.specs.Refusal.{refused, given, refusal_number, verdict_number};
ghost use Rattle.board.specs.Board.{board_of};
ghost use Rattle.cells.specs.Lists.{padded};
ghost use Rattle.host_words.specs.Layout.{cells_in, board_in, board_words, complete_in, result_in, plot_shape, AnswersWords};

use board::RectangularBoard;
use cells::Cells;
use cells::padding::put_padded;
use graph::GraphResult;
use refusal::Refusal;

// Word i, 0 where it is not lent.
fn word_at(words: &[u64], i: usize) -> u64
    ensures { result ≡ get_or words.now i 0 }
{
    words.get(i).copied().unwrap_or(0)
}

// The set in the four words from a place on.
fn cells_at(words: &[u64], at: usize) -> Cells
    requires { at ≤ 4 }
    ensures { result ≡ cells_in words.now at }
{
    Cells {
        w0: word_at(words, at),
        w1: word_at(words, at + 1),
        w2: word_at(words, at + 2),
        w3: word_at(words, at + 3),
    }
}

// The board of a size and 8 words of marks.
pub fn board_from(width: u64, height: u64, marks: &[u64]) -> RectangularBoard
    ensures { result ≡ board_in width height marks.now }
{
    let fixed = cells_at(marks, 0);
    let laid = cells_at(marks, 4);
    RectangularBoard::of_marks(width as usize, height as usize, fixed, laid)
}

// The full node that two words tell, or none.
#[tactic(auto, unfolding(crate::specs::Layout::complete_in))]
fn complete_from(flag: u64, node: u64) -> Option<usize>
    ensures { result ≡ complete_in flag node }
{
    (flag != 0).then_some(node as usize)
}

// The result of a graph by its four words.
#[tactic(auto, unfolding(crate::specs::Layout::result_in))]
pub fn graph_from(words: &[u64]) -> GraphResult
    ensures { result ≡ result_in words.now }
{
    GraphResult {
        nodes: word_at(words, 0) as usize,
        edges: word_at(words, 1) as usize,
        complete: complete_from(word_at(words, 2), word_at(words, 3)),
    }
}

// The shapes of a board and tiles, by the lengths of the slices and the number of answer words that
// are needed: which are refused before a call is made.
#[tactic(auto, unfolding(crate::specs::Layout::plot_shape))]
pub fn of_plot(needed: usize, marks: usize, tiles: usize, answer: usize) -> Result<(), Refusal>
    ensures { verdict_number result ≡ plot_shape needed marks tiles answer }
{
    if marks != 8 {
        return Err(Refusal::BadBoard);
    }
    if tiles % 33 != 0 {
        return Err(Refusal::BadTile);
    }
    if answer < needed {
        return Err(Refusal::NoRoom);
    }
    Ok(())
}

// An answer of some words, or as many of them as are lent, and zeros behind.
// Kept: here and in `refuse` 0 or the refusal's number comes back, and no `Result`, as C is told it.
pub fn accept(answer: &mut [u64], words: &[u64]) -> u64
    ensures { AnswersWords (given words.now) answer.old answer.new result }
{
    put_padded(answer, words, 0);
    0
}

// A refusal.
pub fn refuse(answer: &mut [u64], refusal: Refusal) -> u64
    ensures { AnswersWords (refused (refusal_number refusal)) answer.old answer.new result }
{
    answer.fill(0);
    refusal.into()
}

// The words of a board, and zeros behind.
pub fn put_board(words: &mut [u64], board: RectangularBoard)
    ensures { words.new ≡ padded (board_words (board_of board)) (length words.old) }
{
    let fixed = board.fixed;
    let laid = board.laid;
    let ten = [
        board.width as u64,
        board.height as u64,
        fixed.w0,
        fixed.w1,
        fixed.w2,
        fixed.w3,
        laid.w0,
        laid.w1,
        laid.w2,
        laid.w3,
    ];
    put_padded(words, &ten, 0);
}
