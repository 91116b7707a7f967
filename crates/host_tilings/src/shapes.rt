// The test of shapes that one call has: which slices are refused before it is made. Of what a slice
// holds only the third word of a result is looked at.
ghost use Rattle.std.specs.Prelude.{◌≡◌};
ghost use Rattle.refusal.specs.Refusal.{verdict_number};
ghost use Rattle.host_tilings.specs.Calls.{tiling_shape};

use refusal::Refusal;

// Of a result and a number.
#[tactic(auto, unfolding(crate::specs::Calls::tiling_shape))]
pub fn of_tiling(graph: &[u64], m: usize, answer: usize) -> Result<(), Refusal>
    ensures { verdict_number result ≡ tiling_shape graph.now m answer }
{
    if graph.len() != 4 {
        return Err(Refusal::BadGraph);
    }
    if 1 < graph[2] {
        return Err(Refusal::BadGraph);
    }
    if m != 2 {
        return Err(Refusal::NoSuchTiling);
    }
    if answer < 1 {
        return Err(Refusal::NoRoom);
    }
    Ok(())
}
