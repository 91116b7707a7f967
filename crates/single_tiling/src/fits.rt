// The pieces on a cell of a board, each found by an index, tile i / 33 and its point i % 33, so that
// no level of the walk holds a list of children. Private helpers.
ghost use Rattle.std.specs.Prelude.{◌≡◌, ℕ, ◌*◌, ◌<◌};
ghost use Rattle.tiles.specs.Paths.{paths_in};
ghost use Rattle.board.specs.Board.{board_of};
ghost use Rattle.fit.specs.Parts.{fit_pieces};
ghost use Rattle.single_tiling.specs.Inner.{fit_index, Read, New};

use board::RectangularBoard;
use cells::Cells;
use tiles::Tiles;

// A board, tiles that have been tested, and the cell on which their pieces are put.
#[derive(Clone, Copy, Drop)]
pub struct CellFits<'a> {
    pub board: RectangularBoard,
    pub tiles: &'a Tiles,
    pub cell: usize,
    ghost read: { Read tiles.now },
}

impl<'a> CellFits<'a> {
    // The piece of an index.
    fn fit_at(self, i: usize) -> Option<Cells>
        requires { i < 33 * self.tiles.now.count }
        ensures { fit_pieces result ≡ fit_index (board_of self.entry.board) (paths_in self.entry.tiles.now) self.entry.cell i }
    {
        let tiles = self.tiles;
        let tile = i / 33;
        let from = 32 * tile;
        let end = from + tiles.lens[tile];
        fit::tile_fits_at_position(
            self.board.marks(),
            self.board.width,
            self.board.height,
            &tiles.codes[from..end],
            i % 33,
            self.cell,
        )
    }

    // The piece of an index, unless an index before it has the same.
    pub fn new_fit(self, i: usize) -> Option<Cells>
        requires { i < 33 * self.tiles.now.count }
        ensures { New (fit_index (board_of self.entry.board) (paths_in self.entry.tiles.now) self.entry.cell) i (fit_pieces result) }
    {
        let piece = self.fit_at(i)?;
        for k in 0..i {
            if self.fit_at(k) == Some(piece) {
                return None;
            }
        }
        Some(piece)
    }
}
