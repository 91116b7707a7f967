// A rectangle of a size that a board may have: what has been tested once is known wherever it goes.
ghost use Rattle.std.specs.Prelude.{◌≡◌, ◌≤◌};

use direction::Direction;

// A width and a height that have been tested. The tests let no other size through, so that rows and
// columns are 0 to 15.
#[derive(Clone, Copy, Drop)]
pub struct Rectangle {
    pub width: usize,
    pub height: usize,
    ghost narrow: { width ≤ 16 },
    ghost low: { height ≤ 16 },
}

impl Rectangle {
    ghost use Rattle.direction.specs.Direction.{code_of};
    ghost use Rattle.rectangle.specs.Board.{position_of, inside};
    ghost use Rattle.rectangle.specs.Parts.{place_after, size_of, size_if};

    // The rectangle of a width and a height, if a board may have them.
    #[tactic(auto, unfolding(crate::specs::Parts::size_if))]
    pub fn of_size(width: usize, height: usize) -> Option<Rectangle>
        ensures { size_of result ≡ size_if width height }
    {
        if !crate::size_ok(width, height) {
            return None;
        }
        Some(Rectangle { width, height })
    }

    // Whether a cell is in the rectangle.
    pub fn has_cell(self, cell: usize) -> bool
        ensures { result ≡ inside self.width self.height (position_of cell) }
    {
        crate::is_inside(self.width, self.height, cell)
    }

    // Where one step from a place leads: nowhere off the rectangle, and from a row or a column that no
    // board has.
    pub fn step(self, row: usize, col: usize, direction: Direction) -> Option<(usize, usize)>
        ensures { result ≡ place_after self.width self.height row col (code_of direction) }
    {
        crate::move_in_direction(self.width, self.height, row, col, direction.into())
    }
}
