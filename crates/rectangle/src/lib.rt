// The rectangle of a board: sizes, cells, and steps from a place. Nothing is asked of a caller; what
// each call answers is a definition of specs/: Board.antt for sizes and cells, Parts.antt for steps.
#![tactic(auto)]

ghost use Rattle.std.specs.Prelude.{◌≡◌};
ghost use Rattle.direction.specs.Direction.{at};
ghost use Rattle.rectangle.specs.Board.{position_of, inside, size_ok};
ghost use Rattle.rectangle.specs.Parts.{place_if, place_after};

mod sized;

pub use sized::Rectangle;

// Whether width and height are each 1 to 16, or both 0.
#[tactic(auto, unfolding(crate::specs::Board::size_ok))]
pub fn size_ok(width: usize, height: usize) -> bool
    ensures { result ≡ size_ok width height }
{
    (width == 0 && height == 0) || ((1..=16).contains(&width) && (1..=16).contains(&height))
}

// Whether a cell is in the rectangle.
#[tactic(auto, unfolding(crate::specs::Board::inside, crate::specs::Board::below))]
pub fn is_inside(width: usize, height: usize, cell: usize) -> bool
    ensures { result ≡ inside width height (position_of cell) }
{
    cell / 16 < height && cell % 16 < width
}

// The place at a position, which may lie off the board: row and column are signed while they are
// stepped, and compared with nought before use.
#[tactic(auto, unfolding(crate::specs::Parts::place_if, crate::specs::Board::inside, crate::specs::Board::below))]
fn place_at(width: usize, height: usize, row: i64, col: i64) -> Option<(usize, usize)>
    ensures { result ≡ place_if (inside width height) (at row col) }
{
    let r = usize::try_from(row).ok()?;
    let c = usize::try_from(col).ok()?;
    (r < height && c < width).then_some((r, c))
}

// Where one step from a place leads: nowhere off the board, from a row or a column that no board has,
// and by a code that is no direction.
#[tactic(auto, unfolding(crate::specs::Parts::place_after, direction::specs::Direction::on_code))]
pub fn move_in_direction(
    width: usize,
    height: usize,
    row: usize,
    col: usize,
    code: u8,
) -> Option<(usize, usize)>
    ensures { result ≡ place_after width height row col code }
{
    if 15 < row || 15 < col {
        return None;
    }
    let (down, right) = direction::step(code).ok()?;
    place_at(width, height, row as i64 + down, col as i64 + right)
}
