// The bodies of records: two bytes that make a board, and the path of a tile. Private helpers.
ghost use Rattle.std.specs.Prelude.{◌≡◌};
ghost use Rattle.board.specs.Board.{MakesBoard};
ghost use Rattle.plot_file.specs.PlotFile.{read_body};
ghost use Rattle.plot_file.specs.Inner.{is_board, board_for, ReadsBody};

use crate::marks::Mark;
use board::RectangularBoard;
use refusal::Refusal;
use tile::Tile;

// Whether a mark is that of a board.
pub fn is_board(mark: Mark) -> bool
    ensures { result ≡ is_board mark }
{
    matches!(mark, Mark::RB | Mark::LB | Mark::TB)
}

// The board of two numbers, by a board's mark; another mark counts as RB.
pub fn board_for(mark: Mark, a: usize, b: usize) -> Result<RectangularBoard, Refusal>
    ensures { MakesBoard (board_for mark a b) result }
{
    match mark {
        Mark::LB => RectangularBoard::l_board(a, b),
        Mark::TB => RectangularBoard::t_board(a, b),
        _ => RectangularBoard::new(a, b),
    }
}

// The tile whose length byte the bytes begin with, and the bytes behind it; refusal 5 for a length over
// 32, before its bytes are looked for, 1 where a byte is missing, and 5 for a code over 7.
pub fn read_body(bytes: &[u8]) -> Result<(Tile, &[u8]), Refusal>
    ensures { ReadsBody (read_body bytes.now) result }
{
    let [k, rest @ ..] = bytes else {
        return Err(Refusal::Cut);
    };
    let k = usize::from(*k);
    if 32 < k {
        return Err(Refusal::BadTile);
    }
    let Some(codes) = rest.get(..k) else {
        return Err(Refusal::Cut);
    };
    let tile = Tile::new(codes)?;
    Ok((tile, &rest[k..]))
}
