// The record of a hole, a building in the plot (request 2 of document 02). A private helper.
ghost use Rattle.plot_file.specs.PlotFile.{hole_body};
ghost use Rattle.plot_file.specs.Inner.{plot_of, Reads};

use crate::plots::{Plot, Step};
use crate::records;
use refusal::Refusal;

// The hole whose body the bytes begin with; refusal 3 behind a tile, 1 for a missing byte, 15 for the
// cell.
pub fn hole_record(bytes: &[u8], plot: Plot) -> Result<Step<'_>, Refusal>
    ensures { Reads (hole_body (plot_of plot) bytes.now) result }
{
    if 0 < plot.tiles.count {
        return Err(Refusal::Misplaced);
    }
    let [row, column, rest @ ..] = bytes else {
        return Err(Refusal::Cut);
    };
    let board = plot
        .board
        .with_hole(usize::from(*row), usize::from(*column))?;
    Ok(records::started(board, rest))
}
