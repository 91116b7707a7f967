// What has been read of a plot file, and what a record leaves.
ghost use Rattle.tiles.specs.Inner.{Clean};

use board::RectangularBoard;
use tiles::Tiles;

// What has been read: a board, and tiles that are stored with zeros behind them.
#[derive(Clone, Copy, Drop)]
pub struct Plot {
    pub board: RectangularBoard,
    pub tiles: Tiles,
    ghost kept: { Clean tiles },
}

// What a record leaves: the bytes behind it, or that the file ends here, and the plot with what it
// adds.
#[derive(Clone, Copy, Drop)]
pub struct Step<'a> {
    pub next: Option<&'a [u8]>,
    pub plot: Plot,
}
