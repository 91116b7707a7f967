// The depth-first walk over the children of a board. Private helpers; they ask that board and tiles
// have been tested. The tiles are lent to every level.
ghost use Rattle.std.specs.Prelude.{◌≡◌, List, ◌+◌, ◌/◌, ◌<◌, length};
ghost use Rattle.std.proofs.Math.Bool.{So};
ghost use Rattle.tile.specs.Path.{Path};
ghost use Rattle.tiles.specs.Paths.{contains_single, paths_in};
ghost use Rattle.board.specs.Board.{board_of};
ghost use Rattle.rectangle.specs.Board.{free_count, valid};
ghost use Rattle.single_tiling.specs.Inner.{first_tiling_from, place_for, Held, Walked};

use crate::fits::CellFits;
use board::RectangularBoard;
use cells::list;
use tiles::Tiles;

// The chosen cell of a board, unless the board is pruned or full.
fn choose_place(here: RectangularBoard, single: bool) -> Option<usize>
    requires { So (valid (board_of here)) }
    ensures { (paths : List Path) → single ≡ contains_single paths → result ≡ place_for (board_of here) paths }
{
    let found = here.chosen_cell().unwrap();
    let (cell, count) = found?;
    if single {
        return Some(cell);
    }
    if count == 4 {
        return None;
    }
    Some(cell)
}

// The walk from a board on: the boards from it to a full one, into the lent words behind as many as
// depth says. The number of free cells falls with every piece.
pub fn descend(
    here: RectangularBoard,
    tiles: &Tiles,
    single: bool,
    out: &mut [u64],
    depth: usize,
) -> Option<usize>
    requires { Held (board_of here) tiles.now single × (depth + free_count (board_of here) < length out.old / 4) }
    ensures { Walked (first_tiling_from (board_of here) (paths_in tiles.now)) depth out.old out.new result }
{
    list::put(out, depth, here.marks());
    let full = here.is_all_marked().unwrap();
    if full {
        return Some(depth + 1);
    }
    let cell = choose_place(here, single)?;
    let fits = CellFits {
        board: here,
        tiles,
        cell,
    };
    for i in 0..33 * tiles.count {
        let Some(piece) = fits.new_fit(i) else {
            continue;
        };
        let child = here.mark_tile_at_position(piece);
        let found = descend(child, tiles, single, out, depth + 1);
        if found.is_some() {
            return found;
        }
    }
    None
}
