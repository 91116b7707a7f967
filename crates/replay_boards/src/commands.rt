// The commands: each takes its line, whose field 0 is its name, and writes the answer with no line
// end.
use crate::parts::{BothMarks, FreeCells, Path, Paths};
use board::RectangularBoard;
use direction::Axis;
use replay_text::text::field;
use replay_text::write::{Answer, Output, Refused};
use replay_text::{text, write};
use std::io;
use std::io::Write;
use tile::Tile;
use tiles::Tiles;

// direction C: the row step, the column step, and the codes of the opposite, the rotated and the
// reflected directions, Horizontal before Vertical.
pub fn direction(to: &mut Output, line: &[u8]) -> io::Result<()> {
    let code = text::code_in(field(line, 1));
    match direction::step(code) {
        Ok((row, column)) => {
            let opposite = Answer(direction::opposite(code));
            let rotated = Answer(direction::rotate(code));
            write!(to, "{row} {column} {opposite} {rotated} ")?;
            let horizontal = Answer(direction::reflect(code, Axis::Horizontal));
            let vertical = Answer(direction::reflect(code, Axis::Vertical));
            write!(to, "{horizontal} {vertical}")
        }
        Err(refusal) => write!(to, "{}", Refused(refusal)),
    }
}

// orbit PATH: the orbit's paths.
pub fn orbit(to: &mut Output, line: &[u8]) -> io::Result<()> {
    let orbit = Tiles::orbit(text::tile_in(field(line, 1)));
    write!(to, "{}", Answer(orbit.map(Paths)))
}

// tile PATH: the tile rotated, and reflected about Horizontal and Vertical.
pub fn tile(to: &mut Output, line: &[u8]) -> io::Result<()> {
    let tile = text::tile_in(field(line, 1));
    match tile.check() {
        Ok(()) => {
            let rotated = Answer(tile.rotate().map(Path));
            let horizontal = Answer(tile.reflect(Axis::Horizontal).map(Path));
            let vertical = Answer(tile.reflect(Axis::Vertical).map(Path));
            write!(to, "{rotated} {horizontal} {vertical}")
        }
        Err(refusal) => write!(to, "{}", Refused(refusal)),
    }
}

// size PATH: the number of cells.
pub fn size(to: &mut Output, line: &[u8]) -> io::Result<()> {
    let tile = text::tile_in(field(line, 1));
    write!(to, "{}", Answer(tile.count_cells()))
}

// l N: the path of the L of N codes.
pub fn l_tile(to: &mut Output, line: &[u8]) -> io::Result<()> {
    let tile = Tile::l_tile(text::number_in(field(line, 1)));
    write!(to, "{}", Answer(tile.map(Path)))
}

// t N: the path of the T of arms N.
pub fn t_tile(to: &mut Output, line: &[u8]) -> io::Result<()> {
    let tile = Tile::t_tile(text::number_in(field(line, 1)));
    write!(to, "{}", Answer(tile.map(Path)))
}

// single TILES: whether one of them is the empty path.
pub fn single(to: &mut Output, line: &[u8]) -> io::Result<()> {
    let tiles = text::tiles_in(field(line, 1));
    write!(to, "{}", Answer(tiles.contains_single_tile()))
}

// new WIDTH HEIGHT: the board with no marks.
pub fn new_board(to: &mut Output, line: &[u8]) -> io::Result<()> {
    let width = text::number_in(field(line, 1));
    let height = text::number_in(field(line, 2));
    let board = RectangularBoard::new(width, height);
    write!(to, "{}", Answer(board.map(FreeCells)))
}

// lb N SCALE: the L of n by 2 squares.
pub fn l_board(to: &mut Output, line: &[u8]) -> io::Result<()> {
    let n = text::number_in(field(line, 1));
    let scale = text::number_in(field(line, 2));
    let board = RectangularBoard::l_board(n, scale);
    write!(to, "{}", Answer(board.map(FreeCells)))
}

// tb N SCALE: the T of 2 n + 1 by 2 squares.
pub fn t_board(to: &mut Output, line: &[u8]) -> io::Result<()> {
    let n = text::number_in(field(line, 1));
    let scale = text::number_in(field(line, 2));
    let board = RectangularBoard::t_board(n, scale);
    write!(to, "{}", Answer(board.map(FreeCells)))
}

// hole WIDTH HEIGHT FIXED LAID ROW COLUMN: the board with one more cell fixed.
pub fn hole(to: &mut Output, line: &[u8]) -> io::Result<()> {
    let row = text::decimal_in(field(line, 5)) as usize;
    let column = text::decimal_in(field(line, 6)) as usize;
    let board = text::board_in(line).with_hole(row, column);
    write!(to, "{}", Answer(board.map(BothMarks)))
}

// full WIDTH HEIGHT FIXED LAID: whether no cell is free.
pub fn full(to: &mut Output, line: &[u8]) -> io::Result<()> {
    let board = text::board_in(line);
    write!(to, "{}", Answer(board.is_all_marked()))
}

// children WIDTH HEIGHT FIXED LAID TILES: the number of children, and the marks of each in order.
// There is room for 2,112 boards, 33 for each of 64 tiles.
pub fn children(to: &mut Output, line: &[u8]) -> io::Result<()> {
    let board = text::board_in(line);
    let tiles = text::tiles_in(field(line, 5));
    let mut out = [0u64; 8448];
    match children::place_tile(board, tiles, &mut out) {
        Ok(n) => {
            write!(to, "{n}")?;
            for i in 0..n {
                write::board_at(to, &out, i)?;
            }
            Ok(())
        }
        Err(refusal) => write!(to, "{}", Refused(refusal)),
    }
}
