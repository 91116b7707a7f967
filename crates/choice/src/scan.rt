// The scan for the best free cell. Private helpers.
ghost use Rattle.std.specs.Prelude.{◌≡◌, [], ◌∷◌, ◌+◌, ◌*◌, ◌≤◌, ◌<◌};
ghost use Rattle.cells.specs.Set.{number};
ghost use Rattle.cells.specs.Lists.{list_of};
ghost use Rattle.choice.specs.Choice.{columns, best_of, cell_with_count_by};
ghost use Rattle.choice.specs.Inner.{array_count, open_in, Looked};

use cells::Cells;
use rectangle::Rectangle;

// How far a scan is: the best of the cells so far, and the bit number of the place it has come to.
#[derive(Clone, Copy, Drop)]
struct Scan {
    best: Option<(usize, u8)>,
    cell: usize,
}

// One cell more is looked at.
fn look_at(
    marks: Cells,
    counts: &[u8; 256],
    best: Option<(usize, u8)>,
    cell: usize,
) -> Option<(usize, u8)>
    requires { cell < 256 }
    ensures { Looked (number marks) counts.now best (cell ∷ []) result }
{
    if marks.has_cell(cell) {
        return best;
    }
    let count = counts[cell];
    match best {
        Some((_, high)) if count <= high => best,
        _ => Some((cell, count)),
    }
}

// The cells of a column. The scan comes in at its top, in row 0, and goes out below its last row; 16 is added to the
// bit number for each step down, so that it is 16 × row + column at every cell. `col` is there for the contract, which says so.
fn scan_column(
    marks: Cells,
    counts: &[u8; 256],
    rectangle: Rectangle,
    col: usize,
    scan: Scan,
) -> Scan
    requires { (col < 16) × (scan.cell ≡ 16 * 0 + col) }
    ensures best { Looked (number marks) counts.now scan.best (list_of (λ row. 16 * row + col) rectangle.height) result.best }
    ensures below { result.cell ≡ 16 * rectangle.height + col }
{
    let mut best = scan.best;
    let mut cell = scan.cell;
    for _row in 0..rectangle.height {
        best = look_at(marks, counts, best, cell);
        cell += 16;
    }
    Scan { best, cell }
}

// The free cell with the highest count, the first by columns and then by rows. For the step over, from below a column
// to the top of the next, 1 is added to the bit number and what the column has added is taken away.
pub fn choose(marks: Cells, counts: &[u8; 256], rectangle: Rectangle) -> Option<(usize, u8)>
    ensures { result ≡ cell_with_count_by (array_count counts.now) (best_of (open_in (number marks)) (array_count counts.now) None (columns rectangle.height rectangle.width)) }
{
    let depth = 16 * rectangle.height;
    let mut scan = Scan {
        best: None,
        cell: 0,
    };
    for col in 0..rectangle.width {
        scan = scan_column(marks, counts, rectangle, col, scan);
        scan.cell = scan.cell + 1 - depth;
    }
    scan.best
}
