// A board and tiles that are not refused. Their struct stands in a file of its own, since the
// definitions that other functions cite name it.
ghost use Rattle.std.specs.Prelude.{◌≡◌};
ghost use Rattle.tiles.specs.Paths.{paths_in};
ghost use Rattle.expansion.specs.Boards.{Accepted};
ghost use Rattle.expansion.specs.Parts.{step_of};

use board::RectangularBoard;
use tiles::Tiles;

// A board and tiles that have been tested, and the cells that each piece covers, as `judge` tells them.
#[derive(Clone, Copy, Drop)]
pub struct AcceptedPlot {
    pub board: RectangularBoard,
    pub tiles: Tiles,
    pub size: usize,
    ghost accepted: { Accepted board tiles },
    ghost step: { size ≡ step_of (paths_in tiles) },
}
