// One record: what it leaves of the bytes that begin with it, and of the plot. Private helpers.
//
// The plot so far, board and tiles, goes through every record behind the first, so that a further kind
// of record, whether it changes the board or the tiles, is a further arm of `later_body`.
ghost use Rattle.std.specs.Prelude.{◌≡◌, [], ◌++◌, ◌+◌, ◌≤◌};
ghost use Rattle.std.proofs.Math.Bool.{So};
ghost use Rattle.refusal.specs.Refusal.{map_answer};
ghost use Rattle.tile.specs.Path.{codes_ok, path_in};
ghost use Rattle.tiles.specs.Paths.{paths_in, tiles_of};
ghost use Rattle.tile.specs.Inner.{CleanTile};
ghost use Rattle.tiles.specs.Inner.{Clean};
ghost use Rattle.board.specs.Board.{board_of};
ghost use Rattle.plot_file.specs.PlotFile.{no_plot, more, board_body, first_record, add_tiles, tile_body, end_body, later_body, later_record};
ghost use Rattle.plot_file.specs.Inner.{tiles_for, plot_of, step_in, start_at, Reads};

use crate::marks::Mark;
use crate::plots::{Plot, Step};
use crate::{bodies, holes, marks};
use board::RectangularBoard;
use cells::Cells;
use refusal::Refusal;
use tile::Tile;
use tiles::Tiles;

// The 0 by 0 board and no tiles.
pub fn no_plot() -> Plot
    ensures { (plot_of result ≡ no_plot) × (result.tiles ≡ tiles_of []) }
{
    let none = Cells::of_words(0, 0, 0, 0);
    Plot {
        board: RectangularBoard::of_marks(0, 0, none, none),
        tiles: Tiles::new(),
    }
}

// The first record: a board's.
pub fn first_record(bytes: &[u8]) -> Result<Step<'_>, Refusal>
    ensures { Reads (first_record bytes.now) result }
{
    let (mark, body) = marks::read_mark(bytes)?;
    board_record(body, mark)
}

// A board's record, by its mark and the bytes from its body on; refusal 3 for another mark, 1 for a
// missing byte, 4 for the board.
fn board_record(bytes: &[u8], mark: Mark) -> Result<Step<'_>, Refusal>
    ensures { Reads (map_answer start_at (board_body mark bytes.now)) result }
{
    if !bodies::is_board(mark) {
        return Err(Refusal::Misplaced);
    }
    let [a, b, rest @ ..] = bytes else {
        return Err(Refusal::Cut);
    };
    let board = bodies::board_for(mark, usize::from(*a), usize::from(*b))?;
    Ok(started(board, rest))
}

// The plot of a board, with no tiles.
pub fn started(board: RectangularBoard, rest: &[u8]) -> Step<'_>
    ensures { step_in result ≡ start_at (board_of board, rest.now) }
{
    Step {
        next: Some(rest),
        plot: Plot {
            board,
            tiles: Tiles::new(),
        },
    }
}

// A record behind the board's.
pub fn later_record(bytes: &[u8], plot: Plot) -> Result<Step<'_>, Refusal>
    ensures { Reads (later_record (plot_of plot) bytes.now) result }
{
    let (mark, body) = marks::read_mark(bytes)?;
    later_body(body, plot, mark)
}

// The same, by its mark and the bytes from its body on.
fn later_body(bytes: &[u8], plot: Plot, mark: Mark) -> Result<Step<'_>, Refusal>
    ensures { Reads (later_body mark (plot_of plot) bytes.now) result }
{
    match mark {
        Mark::RB | Mark::LB | Mark::TB => Err(Refusal::Misplaced),
        Mark::HO => holes::hole_record(bytes, plot),
        Mark::TI => tile_record(bytes, plot, false),
        Mark::OR => tile_record(bytes, plot, true),
        Mark::EN => end_record(bytes, plot),
    }
}

// The end of the file; refusal 3 for a byte behind it.
fn end_record(bytes: &[u8], plot: Plot) -> Result<Step<'_>, Refusal>
    ensures { Reads (end_body (plot_of plot) bytes.now) result }
{
    if bytes.is_empty() {
        Ok(Step { next: None, plot })
    } else {
        Err(Refusal::Misplaced)
    }
}

// A tile's record, which stands for the tile or for its whole orbit.
fn tile_record(bytes: &[u8], plot: Plot, whole: bool) -> Result<Step<'_>, Refusal>
    ensures { Reads (tile_body (tiles_for whole) (plot_of plot) bytes.now) result }
{
    let (tile, rest) = bodies::read_body(bytes)?;
    added(plot, tiles_for(tile, whole), rest)
}

// The tile alone, or its orbit.
fn tiles_for(tile: Tile, whole: bool) -> Tiles
    requires { CleanTile tile × So (codes_ok (path_in tile)) }
    ensures { result ≡ tiles_of (tiles_for whole (path_in tile)) }
{
    if whole {
        Tiles::orbit(tile).unwrap()
    } else {
        Tiles::new().with_tile(tile).unwrap()
    }
}

// The plot with some tiles more; refusal 6 where they would pass 64.
fn added(plot: Plot, tiles: Tiles, rest: &[u8]) -> Result<Step<'_>, Refusal>
    requires { Clean tiles }
    ensures { Reads (map_answer (λ p. more p rest.now) (add_tiles (plot_of plot) (paths_in tiles))) result }
{
    if 64 - plot.tiles.count < tiles.count {
        return Err(Refusal::TooManyTiles);
    }
    Ok(Step {
        next: Some(rest),
        plot: Plot {
            board: plot.board,
            tiles: joined(plot.tiles, tiles),
        },
    })
}

// Some tiles, and others behind them.
fn joined(tiles: Tiles, others: Tiles) -> Tiles
    requires { Clean tiles × Clean others × (tiles.count + others.count ≤ 64) }
    ensures { Clean result × (paths_in result ≡ paths_in tiles ++ paths_in others) }
{
    let mut all = tiles;
    for i in 0..others.count {
        all = all.with_tile(others.get(i)).unwrap();
    }
    all
}
