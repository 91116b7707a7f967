// The parts of an answer about tiles and boards.
use board::RectangularBoard;
use replay_text::write::{Answer, Marks};
use std::fmt;
use tile::Tile;
use tiles::Tiles;

// The path of a tile, of at most 32 codes; `-` for the empty one.
#[derive(Clone, Copy, Drop)]
pub struct Path(pub Tile);

impl fmt::Display for Path {
    fn fmt<W: fmt::Write>(&self, f: &mut fmt::Formatter<W>) -> fmt::Result {
        put_path(f, self.0)
    }
}

fn put_path<W: fmt::Write>(f: &mut fmt::Formatter<W>, tile: Tile) -> fmt::Result {
    if tile.len == 0 {
        return write!(f, "-");
    }
    let codes = tile.codes;
    for code in codes.iter().take(tile.len) {
        write!(f, "{code}")?;
    }
    Ok(())
}

// The paths of some tiles, joined by commas.
#[derive(Clone, Copy, Drop)]
pub struct Paths(pub Tiles);

impl fmt::Display for Paths {
    fn fmt<W: fmt::Write>(&self, f: &mut fmt::Formatter<W>) -> fmt::Result {
        let tiles = self.0;
        for i in 0..tiles.count {
            if 0 < i {
                write!(f, ",")?;
            }
            write!(f, "{}", Path(tiles.get(i)))?;
        }
        Ok(())
    }
}

// The width, the height, the fixed marks and the number of free cells of a board.
#[derive(Clone, Copy, Drop)]
pub struct FreeCells(pub RectangularBoard);

impl fmt::Display for FreeCells {
    fn fmt<W: fmt::Write>(&self, f: &mut fmt::Formatter<W>) -> fmt::Result {
        let board = self.0;
        let fixed = Marks(board.fixed);
        write!(f, "{} {} {fixed} ", board.width, board.height)?;
        write!(f, "{}", Answer(board.free_cells()))
    }
}

// The width, the height, the fixed marks and the laid marks of a board.
#[derive(Clone, Copy, Drop)]
pub struct BothMarks(pub RectangularBoard);

impl fmt::Display for BothMarks {
    fn fmt<W: fmt::Write>(&self, f: &mut fmt::Formatter<W>) -> fmt::Result {
        let board = self.0;
        let fixed = Marks(board.fixed);
        let laid = Marks(board.laid);
        write!(f, "{} {} {fixed} {laid}", board.width, board.height)
    }
}
