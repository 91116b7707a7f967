// The neighbour counts. Private helpers.
ghost use Rattle.std.specs.Prelude.{◌≡◌, ◌||◌, ◌+◌, ◌≤◌, ◌<◌, eqb};
ghost use Rattle.cells.specs.Set.{number};
ghost use Rattle.cells.specs.Lists.{list_of};
ghost use Rattle.direction.specs.Direction.{code_of};
ghost use Rattle.choice.specs.Choice.{one, outer, laid_beside, neighbour_count};

use cells::Cells;
use direction::Direction;
use rectangle::Rectangle;

// 1 for a laid mark one step from a cell, else 0.
fn laid_beside(laid: Cells, rectangle: Rectangle, cell: usize, direction: Direction) -> u8
    requires { cell < 256 }
    ensures { (result ≡ one (laid_beside rectangle.width rectangle.height (number laid) cell (code_of direction))) × (result ≤ 1) }
{
    let Some((r, c)) = rectangle.step(cell / 16, cell % 16, direction) else {
        return 0;
    };
    u8::from(laid.has_cell(16 * r + c))
}

// 1 for the first and the last of so many rows or columns, else 0.
fn edge_mark(count: usize, at: usize) -> u8
    requires { at < 16 }
    ensures { (result ≡ one (eqb at 0 || eqb (at + 1) count)) × (result ≤ 1) }
{
    u8::from(at == 0 || at + 1 == count)
}

// 1 in the outer rows and columns, corners too, else 0.
fn outer_mark(rectangle: Rectangle, row: usize, col: usize) -> u8
    requires { (row < 16) × (col < 16) }
    ensures { (result ≡ one (outer rectangle.width rectangle.height row col)) × (result ≤ 1) }
{
    let edges = edge_mark(rectangle.height, row) + edge_mark(rectangle.width, col);
    edges.min(1)
}

// The neighbour count of a cell; 0 outside the rectangle.
fn count_at(laid: Cells, rectangle: Rectangle, cell: usize) -> u8
    ensures { result ≡ neighbour_count rectangle.width rectangle.height (number laid) cell }
{
    if !rectangle.has_cell(cell) {
        return 0;
    }
    let up = laid_beside(laid, rectangle, cell, Direction::Up);
    let down = laid_beside(laid, rectangle, cell, Direction::Down);
    let left = laid_beside(laid, rectangle, cell, Direction::Left);
    let right = laid_beside(laid, rectangle, cell, Direction::Right);
    outer_mark(rectangle, cell / 16, cell % 16) + (up + (down + (left + right)))
}

// The neighbour counts of the 256 cells.
pub fn neighbour_counts(laid: Cells, rectangle: Rectangle) -> [u8; 256]
    ensures { result ≡ list_of (neighbour_count rectangle.width rectangle.height (number laid)) 256 }
{
    let mut counts = [0u8; 256];
    for cell in 0..256 {
        counts[cell] = count_at(laid, rectangle, cell);
    }
    counts
}
