// Calls over a host's words that make plots and tiles: a plot file read, the orbit of a tile, and the
// children of a board. Each tests the shapes of its slices and then hands on what the call of the
// lower crate answers; after a refusal every lent word and byte is zero. Nothing is asked of a caller.
#![tactic(auto)]

ghost use Rattle.std.specs.Prelude.{length};
ghost use Rattle.host_plots.specs.Calls.{placed, orbit_for, read_file, AnswersPlot};
ghost use Rattle.host_words.specs.Layout.{AnswersList};
ghost use Rattle.host_tiles.specs.TileBytes.{bytes_for};
ghost use Rattle.cells.specs.Lists.{words_for};

use cells::list;
use tiles::Tiles;

mod calls;
mod shapes;

// The children of a board, four words each, and their number.
pub fn place_tile(
    width: u64,
    height: u64,
    marks: &[u64],
    tiles: &[u8],
    out: &mut [u64],
    answer: &mut [u64],
) -> u64
    ensures { AnswersList words_for (placed width height marks.now tiles.now (length out.old) (length answer.old))
        out.old answer.old out.new answer.new result }
{
    match host_words::of_plot(1, marks.len(), tiles.len(), answer.len()) {
        Ok(()) => calls::place_tile(
            host_words::board_from(width, height, marks),
            host_tiles::tiles_from(tiles),
            out,
            answer,
        ),
        Err(refusal) => {
            list::clear_from(out, 0);
            host_words::refuse(answer, refusal)
        }
    }
}

// The orbit of a tile: its tiles, 33 bytes each, and their number.
pub fn orbit(tile: &[u8], tiles: &mut [u8], answer: &mut [u64]) -> u64
    ensures { AnswersList bytes_for (orbit_for tile.now (length tiles.old) (length answer.old))
        tiles.old answer.old tiles.new answer.new result }
{
    match shapes::of_orbit(tile.len(), tiles.len(), answer.len()) {
        Ok(()) => calls::orbit(host_tiles::tile_from(tile), tiles, answer),
        Err(refusal) => {
            host_tiles::put_tiles(tiles, Tiles::new());
            host_words::refuse(answer, refusal)
        }
    }
}

// A plot file: the ten words of its board, its tiles, 33 bytes each, and the number of tiles.
pub fn read_plot(file: &[u8], board: &mut [u64], tiles: &mut [u8], answer: &mut [u64]) -> u64
    ensures { AnswersPlot (read_file file.now (length board.old) (length tiles.old) (length answer.old))
        board.old tiles.old answer.old board.new tiles.new answer.new result }
{
    match shapes::of_file(board.len(), tiles.len(), answer.len()) {
        Ok(()) => calls::read_plot(file, board, tiles, answer),
        Err(refusal) => {
            list::clear_from(board, 0);
            host_tiles::put_tiles(tiles, Tiles::new());
            host_words::refuse(answer, refusal)
        }
    }
}
