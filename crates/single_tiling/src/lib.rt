// One tiling, without a graph: the port of `get_single_tiling` in the Rust's tiler.rs, with no limit
// and no choice by chance. A board and tiles are given, any numbers in them and tiles with unequal
// numbers of cells too; words are lent, of any length. Nothing is asked of a caller: what can not be
// searched is refused by the numbers of document 01.
//
// What the call answers and leaves in the lent words is a definition of specs/SingleTiling.antt. What
// follows from the contract is on specs/Theorems.antt.
#![tactic(auto)]

ghost use Rattle.std.specs.Prelude.{◌≡◌, ◌/◌, Ok, length};
ghost use Rattle.refusal.specs.Refusal.{map_answer, answer_of};
ghost use Rattle.tiles.specs.Paths.{paths_in};
ghost use Rattle.board.specs.Board.{board_of};
ghost use Rattle.rectangle.specs.Board.{free_count};
ghost use Rattle.single_tiling.specs.SingleTiling.{read_search, GetsSingleTiling};
ghost use Rattle.single_tiling.specs.Inner.{Searches, Walked, single_of};

use board::RectangularBoard;
use cells::list;
use refusal::Refusal;
use tiles::Tiles;

mod descent;
mod fits;
mod sums;

// The boards of a child sequence of one piece or more from the start to a full board, four words
// each, if there is one. The words behind them are zero, and all of them with none and after a
// refusal: 4, 6, 5, and 8 where the words hold fewer than free cells + 1 boards.
pub fn get_single_tiling(
    board: RectangularBoard,
    tiles: Tiles,
    out: &mut [u64],
) -> Result<Option<usize>, Refusal>
    ensures { GetsSingleTiling board tiles out.old out.new result }
{
    let judged = judge(board, tiles, out.len() / 4);
    match judged {
        Ok(free) => Ok(search(board, tiles, free, out)),
        Err(refusal) => {
            list::clear_from(out, 0);
            Err(refusal)
        }
    }
}

// The number of free cells, or a refusal: 4 of the board; 6 and 5 of the tiles; 8 of the room.
fn judge(board: RectangularBoard, tiles: Tiles, room: usize) -> Result<usize, Refusal>
    ensures { answer_of result ≡ map_answer (λ p. free_count p.0) (read_search board tiles room) }
{
    let free = board.free_cells()?;
    tiles.check()?;
    if free < room {
        Ok(free)
    } else {
        Err(Refusal::NoRoom)
    }
}

// The answer where nothing is refused.
fn search(board: RectangularBoard, tiles: Tiles, free: usize, words: &mut [u64]) -> Option<usize>
    requires { Searches board tiles free (length words.old / 4) }
    ensures { GetsSingleTiling board tiles words.old words.new (Ok result) }
{
    let found = walk(board, tiles, free, words);
    match found {
        Some(n) => {
            list::clear_from(words, 4 * n);
            Some(n)
        }
        None => {
            list::clear_from(words, 0);
            None
        }
    }
}

// The walk, where a cell is free and the free cells are a sum of the tiles' numbers of cells; nothing
// is found elsewhere.
fn walk(board: RectangularBoard, tiles: Tiles, free: usize, out: &mut [u64]) -> Option<usize>
    requires { Searches board tiles free (length out.old / 4) }
    ensures { Walked (single_of (board_of board) (paths_in tiles)) 0 out.old out.new result }
{
    if free == 0 {
        return None;
    }
    if !sums::is_sum(tiles, free) {
        return None;
    }
    let single = tiles.contains_single_tile().unwrap();
    descent::descend(board, &tiles, single, out, 0)
}
