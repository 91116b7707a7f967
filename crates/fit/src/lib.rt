// The fit: where a path lies with one of its points on a cell. Nothing is asked of a caller: any marks,
// numbers and codes have an answer, which is a definition of specs/Parts.antt.
#![tactic(auto)]

ghost use Rattle.std.specs.Prelude.{◌≡◌};
ghost use Rattle.cells.specs.Set.{number};
ghost use Rattle.fit.specs.Parts.{fit_in, fit_pieces};

use cells::Cells;
use rectangle::Rectangle;

mod place;
mod walk;

use place::Place;
use walk::{Ground, PathPoint};

// The piece that a path makes with point start on a cell, in a rectangle with some marks. Nothing fits on
// a size that no board has or on a cell outside, and nothing is made of codes that are no path or by a
// point that the path does not have. The marks are not tested: whatever they are, each cell is free or
// not.
pub fn tile_fits_at_position(
    marks: Cells,
    width: usize,
    height: usize,
    path: &[u8],
    start: usize,
    cell: usize,
) -> Option<Cells>
    ensures { fit_pieces result ≡ fit_in width height (number marks) path.now start cell }
{
    if path.len() < start {
        return None;
    }
    let rectangle = Rectangle::of_size(width, height)?;
    if !rectangle.has_cell(cell) {
        return None;
    }
    if !tile::is_path(path) {
        return None;
    }
    let ground = Ground { rectangle, marks };
    let point = PathPoint { path, start };
    let place = Place {
        row: cell / 16,
        col: cell % 16,
    };
    ground.fit(point, place)
}
