// The figure called cuttings (document 02, request 3), from a layer count: 1 for a board with no free
// cell, otherwise the layer count. Nothing is asked of a caller. The call that works the layers itself
// is `tiler::count_cuttings`.
//
// What is answered is a definition of specs/Cuttings.antt, and what it means is on
// proofs/Theorems.antt.
#![tactic(auto)]

ghost use Rattle.std.specs.Prelude.{◌≡◌};
ghost use Rattle.layers.specs.LayerCounts.{count_answer};
ghost use Rattle.cuttings.specs.Cuttings.{cuttings_from};

use board::RectangularBoard;
use path_count::PathCount;
use refusal::Refusal;

// The figure of a board from what `layers::count_tilings` answered for it. A refusal stays; then 4 for
// a board that is not accepted.
pub fn count_cuttings_from_layers(
    board: RectangularBoard,
    count: Result<PathCount, Refusal>,
) -> Result<PathCount, Refusal>
    ensures { count_answer result ≡ cuttings_from board (count_answer count) }
{
    let n = count?;
    let full = board.is_all_marked()?;
    Ok(if full { PathCount::of_words(1, 0) } else { n })
}
