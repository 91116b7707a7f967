// Neighbour counts and the chosen cell. Nothing is asked of a caller: any numbers and any marks have an
// answer, which is a definition of specs/Parts.antt.
#![tactic(auto)]

ghost use Rattle.refusal.specs.Refusal.{answer_of};
ghost use Rattle.std.specs.Prelude.{◌≡◌};
ghost use Rattle.cells.specs.Set.{number};
ghost use Rattle.choice.specs.Parts.{chosen_for};

use cells::Cells;
use rectangle::Rectangle;
use refusal::Refusal;

mod counts;
mod scan;

// The free cell with the highest neighbour count, the first by columns and then by rows, of a size, the
// marks of both kinds together and the laid ones; refusal 4 for a size that no board has.
pub fn chosen_cell(
    width: usize,
    height: usize,
    marks: Cells,
    laid: Cells,
) -> Result<Option<(usize, u8)>, Refusal>
    ensures { answer_of result ≡ chosen_for width height (number marks) (number laid) }
{
    let Some(rectangle) = Rectangle::of_size(width, height) else {
        return Err(Refusal::BadBoard);
    };
    let counts = counts::neighbour_counts(laid, rectangle);
    Ok(scan::choose(marks, &counts, rectangle))
}
