// The tests of shapes that one call has: which slices are refused before it is made.
ghost use Rattle.std.specs.Prelude.{◌≡◌};
ghost use Rattle.refusal.specs.Refusal.{verdict_number};
ghost use Rattle.host_plots.specs.Calls.{orbit_shape, file_shape};

use refusal::Refusal;

// Of a tile and its orbit.
#[tactic(auto, unfolding(crate::specs::Calls::orbit_shape))]
pub fn of_orbit(tile: usize, tiles: usize, answer: usize) -> Result<(), Refusal>
    ensures { verdict_number result ≡ orbit_shape tile tiles answer }
{
    if tile != 33 {
        return Err(Refusal::BadTile);
    }
    if tiles < 264 {
        return Err(Refusal::NoRoom);
    }
    if answer < 1 {
        return Err(Refusal::NoRoom);
    }
    Ok(())
}

// Of what a plot file is read into.
#[tactic(auto, unfolding(crate::specs::Calls::file_shape))]
pub fn of_file(board: usize, tiles: usize, answer: usize) -> Result<(), Refusal>
    ensures { verdict_number result ≡ file_shape board tiles answer }
{
    if board < 10 {
        return Err(Refusal::NoRoom);
    }
    if tiles < 2112 {
        return Err(Refusal::NoRoom);
    }
    if answer < 1 {
        return Err(Refusal::NoRoom);
    }
    Ok(())
}
