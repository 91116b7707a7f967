// The calls themselves, where the shapes are right: each hands on what the call of the lower crate
// answers.
ghost use Rattle.std.specs.Prelude.{length};
ghost use Rattle.refusal.specs.Refusal.{map_answer};
ghost use Rattle.tiles.specs.Paths.{orbit};
ghost use Rattle.tile.specs.Path.{read_tile};
ghost use Rattle.board.specs.Board.{board_of};
ghost use Rattle.children.specs.Children.{place_tile};
ghost use Rattle.plot_file.specs.PlotFile.{plot_in};
ghost use Rattle.host_plots.specs.Calls.{AnswersPlot};
ghost use Rattle.host_words.specs.Layout.{AnswersList};
ghost use Rattle.host_tiles.specs.TileBytes.{bytes_for};
ghost use Rattle.cells.specs.Lists.{words_for};

use board::RectangularBoard;
use tile::Tile;
use tiles::Tiles;

pub fn place_tile(board: RectangularBoard, tiles: Tiles, out: &mut [u64], answer: &mut [u64]) -> u64
    ensures { AnswersList words_for (place_tile (board_of board) tiles (length out.old)) out.old answer.old out.new answer.new result }
{
    match children::place_tile(board, tiles, out) {
        Ok(n) => host_words::accept(answer, &[n as u64]),
        Err(refusal) => host_words::refuse(answer, refusal),
    }
}

pub fn orbit(tile: Tile, tiles: &mut [u8], answer: &mut [u64]) -> u64
    ensures { AnswersList bytes_for (map_answer orbit (read_tile tile)) tiles.old answer.old tiles.new answer.new result }
{
    match Tiles::orbit(tile) {
        Ok(all) => {
            host_tiles::put_tiles(tiles, all);
            host_words::accept(answer, &[all.count as u64])
        }
        Err(refusal) => {
            host_tiles::put_tiles(tiles, Tiles::new());
            host_words::refuse(answer, refusal)
        }
    }
}

pub fn read_plot(file: &[u8], board: &mut [u64], tiles: &mut [u8], answer: &mut [u64]) -> u64
    ensures { AnswersPlot (plot_in file.now)
        board.old tiles.old answer.old board.new tiles.new answer.new result }
{
    let plot = plot_file::read_plot(file);
    let all = plot.tiles;
    host_words::put_board(board, plot.board);
    host_tiles::put_tiles(tiles, all);
    match plot.verdict {
        Ok(()) => host_words::accept(answer, &[all.count as u64]),
        Err(refusal) => host_words::refuse(answer, refusal),
    }
}
