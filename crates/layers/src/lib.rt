// The layer count: the port of `count_tilings` of the Rust's tiler.rs before its graph. A board and
// tiles are given, any numbers in them; words are lent, of any lengths. Nothing is asked of a caller:
// what can not be counted is refused by the numbers of document 01.
//
// What the call answers and leaves in the lent words (`answer`), and what the count has to do with
// cuttings (`cuttings`), are definitions of specs/LayerCounts.antt.
#![tactic(auto)]

ghost use Rattle.layers.specs.LayerCounts.{CountsTilings, CountsCuttings};

use board::RectangularBoard;
use cells::list;
use path_count::PathCount;
use refusal::Refusal;
use tiles::Tiles;

mod counting;
mod from_layer;
mod layer;

// The number of child sequences that reach the full board, layer by layer. Two layers are lent, each
// as boards, four words a board, and counts; all their words are zero afterwards. The room is the
// least number of boards that the four slices hold, at most 16,777,216. Refusals: 4, 6, 5, 7; then,
// of the earliest layer that has one, 8 if its boards pass the room, else 9 if a path count is 2^64
// or more. Where the board has a free cell and every tile is edge-joined, a count that is given is
// the number of cuttings.
pub fn count_tilings(
    board: RectangularBoard,
    tiles: Tiles,
    boards_a: &mut [u64],
    counts_a: &mut [u64],
    boards_b: &mut [u64],
    counts_b: &mut [u64],
) -> Result<PathCount, Refusal>
    ensures answer { CountsTilings board tiles boards_a.old counts_a.old boards_b.old counts_b.old boards_a.new counts_a.new boards_b.new counts_b.new result }
    ensures cuttings { CountsCuttings board tiles result }
{
    let count = counting::counted(board, tiles, boards_a, counts_a, boards_b, counts_b);
    list::clear_from(boards_a, 0);
    list::clear_from(counts_a, 0);
    list::clear_from(boards_b, 0);
    list::clear_from(counts_b, 0);
    count
}
