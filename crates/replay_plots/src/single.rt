// The command that finds one tiling. It lends words that are all ones, and the boards that come back are
// checked here, one after the other, as children of the one before.
use board::RectangularBoard;
use cells::{Cells, list};
use replay_text::text;
use replay_text::text::field;
use replay_text::words::tell_dirt;
use replay_text::write::{Output, Refused};
use std::io;
use std::io::Write;
use tiles::Tiles;

// one WIDTH HEIGHT FIXED LAID TILES [ROOM]: `found` or `none`; `wrong` if what is found is no tiling. The
// room is 257 boards unless it is given, and 300 at most.
pub fn one(to: &mut Output, line: &[u8]) -> io::Result<()> {
    let room = text::room_in(field(line, 6), 257).min(300);
    let words = 4 * room + 3;
    let mut out = [u64::MAX; 1203];
    find(
        to,
        text::board_in(line),
        text::tiles_in(field(line, 5)),
        &mut out[..words],
    )
}

fn find(to: &mut Output, board: RectangularBoard, tiles: Tiles, out: &mut [u64]) -> io::Result<()> {
    match single_tiling::get_single_tiling(board, tiles, out) {
        Ok(Some(n)) => {
            if is_tiling(board, tiles, out, n) {
                write!(to, "found")?;
            } else {
                write!(to, "wrong")?;
            }
            tell_dirt(to, out, 4 * n.min(300))
        }
        Ok(None) => {
            write!(to, "none")?;
            tell_dirt(to, out, 0)
        }
        Err(refusal) => {
            write!(to, "{}", Refused(refusal))?;
            tell_dirt(to, out, 0)
        }
    }
}

// Whether the first n boards are a tiling: two at least, the first of them the board, each other one a
// child of the one before, and the last full.
fn is_tiling(board: RectangularBoard, tiles: Tiles, boards: &[u64], n: usize) -> bool {
    if n < 2 || board.marks() != list::get(boards, 0) {
        return false;
    }
    for i in 1..n {
        let parent = board.with_marks(list::get(boards, i - 1));
        if !is_child(parent, tiles, list::get(boards, i)) {
            return false;
        }
    }
    let last = board.with_marks(list::get(boards, n - 1));
    last.is_all_marked().unwrap_or(false)
}

fn is_child(parent: RectangularBoard, tiles: Tiles, child: Cells) -> bool {
    let mut children = [0u64; 8448];
    match children::place_tile(parent, tiles, &mut children) {
        Ok(n) => list::find(&children, 0, n, child).is_some(),
        Err(_) => false,
    }
}
