// The children of a board, written into lent words in order, equal ones once. Private helpers.
ghost use Rattle.std.specs.Prelude.{◌≡◌, true, not, ◌&&◌, List, [], map, ℕ, ◌≤◌, eqb, length};
ghost use Rattle.std.proofs.Math.Bool.{So};
ghost use Rattle.cells.specs.Lists.{add_new, add_firsts};
ghost use Rattle.cells.specs.Set.{number};
ghost use Rattle.refusal.specs.Refusal.{given};
ghost use Rattle.tile.specs.Path.{is_path};
ghost use Rattle.tiles.specs.Paths.{contains_single, paths_in, read_tiles};
ghost use Rattle.rectangle.specs.Board.{marks, valid};
ghost use Rattle.fit.specs.Fit.{fit_at, fits_of};
ghost use Rattle.board.specs.Board.{board_of};
ghost use Rattle.children.specs.Children.{children};
ghost use Rattle.children.specs.Inner.{child_of, fits_of_all, Keeps};

use board::RectangularBoard;
use cells::{Cells, list};
use tiles::Tiles;

// A board whose children are sought: it has been tested, and its marks of both kinds stand together.
#[derive(Clone, Copy, Drop)]
pub struct Parent {
    pub board: RectangularBoard,
    pub marked: Cells,
    ghost sound: { valid (board_of board) ≡ true },
    ghost both: { number marked ≡ marks (board_of board) },
}

// Tiles that have been tested.
#[derive(Clone, Copy, Drop)]
pub struct TestedTiles {
    pub tiles: Tiles,
    ghost sound: { read_tiles tiles ≡ given (paths_in tiles) },
    ghost few: { tiles.count ≤ 64 },
}

// One child more, unless it is stored already.
fn add_child(out: &mut [u64], stored: Option<usize>, child: Cells) -> Option<usize>
    ensures { (ns : List ℕ) → Keeps ns out.old stored → Keeps (add_new eqb ns (number child)) out.new result }
{
    let n = stored?;
    if list::find(out, 0, n, child).is_some() {
        return Some(n);
    }
    if out.len() / 4 <= n {
        return None;
    }
    list::put(out, n, child);
    Some(n + 1)
}

// The child that a tile makes with one point of its path on a cell, if it fits.
fn add_fit(
    out: &mut [u64],
    stored: Option<usize>,
    parent: Parent,
    path: &[u8],
    point: usize,
    cell: usize,
) -> Option<usize>
    requires { So (is_path path.now) × (point ≤ length path.now) }
    ensures { (ns : List ℕ) → Keeps ns out.old stored → Keeps (add_firsts eqb ns (map (child_of (board_of parent.board)) (fit_at (board_of parent.board) path.now point cell))) out.new result }
{
    let Some(piece) = fit::tile_fits_at_position(
        parent.marked,
        parent.board.width,
        parent.board.height,
        path,
        point,
        cell,
    ) else {
        return stored;
    };
    add_child(
        out,
        stored,
        parent.board.mark_tile_at_position(piece).marks(),
    )
}

// The children that a tile makes with each point of its path on a cell.
fn add_fits(
    out: &mut [u64],
    stored: Option<usize>,
    parent: Parent,
    path: &[u8],
    cell: usize,
) -> Option<usize>
    requires { So (is_path path.now) }
    ensures { (ns : List ℕ) → Keeps ns out.old stored → Keeps (add_firsts eqb ns (map (child_of (board_of parent.board)) (fits_of (board_of parent.board) cell path.now))) out.new result }
{
    let mut state = stored;
    for point in 0..=path.len() {
        state = add_fit(out, state, parent, path, point, cell);
    }
    state
}

// The children that the tiles make on a cell.
fn add_tiles(out: &mut [u64], parent: Parent, tested: TestedTiles, cell: usize) -> Option<usize>
    ensures { Keeps (add_firsts eqb [] (map (child_of (board_of parent.board)) (fits_of_all (board_of parent.board) cell (paths_in tested.tiles)))) out.new result }
{
    let mut state = Some(0);
    for i in 0..tested.tiles.count {
        let from = 32 * i;
        let end = from + tested.tiles.lens[i];
        state = add_fits(out, state, parent, &tested.tiles.codes[from..end], cell);
    }
    state
}

// Whether the highest count is 4 and no tile is single.
fn is_pruned(count: u8, tested: TestedTiles) -> bool
    ensures { result ≡ (eqb count 4 && not (contains_single (paths_in tested.tiles))) }
{
    count == 4 && !tested.tiles.contains_single_tile().unwrap()
}

// The children of a board.
pub fn add_children(out: &mut [u64], parent: Parent, tested: TestedTiles) -> Option<usize>
    ensures { Keeps (children (board_of parent.board) (paths_in tested.tiles)) out.new result }
{
    let board = parent.board;
    let found = choice::chosen_cell(board.width, board.height, parent.marked, board.laid).unwrap();
    let Some((cell, count)) = found else {
        return Some(0);
    };
    if is_pruned(count, tested) {
        return Some(0);
    }
    add_tiles(out, parent, tested, cell)
}
