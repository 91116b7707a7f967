// The commands that count with two layers: layers and cuttings. Each lends words that are all ones and
// writes the answer. Behind it stands `dirty` if a lent word is not zero afterwards.
//
// A room is the least that the lent slices hold: one of them, by turns, holds just the room, the others
// one board more, and some have words left over.
ghost use Rattle.std.specs.Prelude.{◌≤◌};

use board::RectangularBoard;
use path_count::PathCount;
use refusal::Refusal;
use replay_text::text;
use replay_text::text::field;
use replay_text::words::tell_dirt;
use replay_text::write::{Answer, Output};
use std::io;
use std::io::Write;
use tiles::Tiles;

// layers WIDTH HEIGHT FIXED LAID TILES [ROOM]: the layer count. The room is 512 boards a layer unless
// it is given, and 4,096 at most.
pub fn layers(to: &mut Output, line: &[u8]) -> io::Result<()> {
    lend_layers(to, line, layers::count_tilings)
}

// cuttings WIDTH HEIGHT FIXED LAID TILES [ROOM]: the figure called cuttings, with the same room.
pub fn cuttings(to: &mut Output, line: &[u8]) -> io::Result<()> {
    lend_layers(to, line, tiler::count_cuttings)
}

// Lends two layers for a count.
fn lend_layers<F>(to: &mut Output, line: &[u8], count: F) -> io::Result<()>
where
    F: Fn(
        RectangularBoard,
        Tiles,
        &mut [u64],
        &mut [u64],
        &mut [u64],
        &mut [u64],
    ) -> Result<PathCount, Refusal>,
    requires { F.IsAlwaysCallable count }
{
    let room = text::room_in(field(line, 6), 512).min(4096);
    let turn = room % 4;
    let words_a = 4 * lent(room, turn, 0) + 3;
    let room_a = lent(room, turn, 1);
    let words_b = 4 * lent(room, turn, 2) + 3;
    let room_b = lent(room, turn, 3);
    let mut boards_a = [u64::MAX; 16391];
    let mut counts_a = [u64::MAX; 4097];
    let mut boards_b = [u64::MAX; 16391];
    let mut counts_b = [u64::MAX; 4097];
    let answer = count(
        text::board_in(line),
        text::tiles_in(field(line, 5)),
        &mut boards_a[..words_a],
        &mut counts_a[..room_a],
        &mut boards_b[..words_b],
        &mut counts_b[..room_b],
    );
    write!(to, "{}", Answer(answer.map(PathCount::low)))?;
    tell_dirt(to, &boards_a[..words_a], 0)?;
    tell_dirt(to, &counts_a[..room_a], 0)?;
    tell_dirt(to, &boards_b[..words_b], 0)?;
    tell_dirt(to, &counts_b[..room_b], 0)
}

// How many boards a slice holds: the room if it is its turn, else one more.
pub fn lent(room: usize, turn: usize, slice: usize) -> usize
    requires { room ≤ 4096 }
    ensures { result ≤ 4097 }
{
    if turn == slice { room } else { room + 1 }
}
