// One tile: the port of the `Tile` of the Rust's tile.rs. A tile is a path of at most 32 direction
// codes (Vec in the Rust).
//
// The struct holds any numbers; a call that is handed one tests it and refuses, by 5 (a path over 32
// or a code over 7), so that nothing is asked of a caller. What each call answers is a definition of
// specs/Path.antt.
#![tactic(auto)]

ghost use Rattle.std.specs.Prelude.{◌≡◌, []};
ghost use Rattle.refusal.specs.Refusal.{refusal_number, map_answer, refusal_of, verdict_number, answer_of};
ghost use Rattle.tile.specs.Path.{is_path, cell_count, rotated, reflected, read_tile, read_path, tile_of, MakesTile, l_tile, t_tile};

use direction::{Axis, Direction};
use refusal::Refusal;
use std::array;

mod codes;
mod points;

// A tile's path: the first len of the codes.
// Kept: a buffer with a length; the library takes no heap, and `read_tile_tile_of` names the fields.
#[derive(Clone, Copy, Drop)]
pub struct Tile {
    pub len: usize,
    pub codes: [u8; 32],
}

// Whether some codes are a path: at most 32 codes 0 to 7.
#[tactic(auto, using(crate::proofs::CodeLaws::codes_ok_all), unfolding(crate::specs::Path::is_path))]
pub fn is_path(path: &[u8]) -> bool
    ensures { result ≡ is_path path.now }
{
    path.len() <= 32 && path.iter().all(|code| *code < 8)
}

impl Tile {
    // The tile of a path; refusal 5 for a path over 32 or a code over 7.
    #[tactic(auto, unfolding(crate::specs::Path::read_path, crate::specs::Path::is_path, refusal::specs::Refusal::map_answer))]
    pub fn new(path: &[u8]) -> Result<Tile, Refusal>
        ensures { MakesTile (read_path path.now) result }
    {
        if !is_path(path) {
            return Err(Refusal::BadTile);
        }
        Ok(codes::stored(path))
    }

    // The single tile: the empty path.
    pub fn box_tile() -> Tile
        ensures { result ≡ tile_of [] }
    {
        Tile {
            len: 0,
            codes: [0; 32],
        }
    }

    // Left, and then Up, in all length codes.
    pub fn l_tile(length: usize) -> Result<Tile, Refusal>
        ensures { MakesTile (l_tile length) result }
    {
        if !(1..=32).contains(&length) {
            return Err(Refusal::BadTile);
        }
        let mut codes = [0; 32];
        codes[..length].fill(Direction::Up as u8);
        codes[0] = Direction::Left as u8;
        Ok(Tile { len: length, codes })
    }

    // Right length times, Up, DownRight, and Right length - 1 times.
    pub fn t_tile(length: usize) -> Result<Tile, Refusal>
        ensures { MakesTile (t_tile length) result }
    {
        if !(1..=15).contains(&length) {
            return Err(Refusal::BadTile);
        }
        let len = 2 * length + 1;
        let mut codes = [0; 32];
        codes[..len].fill(Direction::Right as u8);
        codes[length] = Direction::Up as u8;
        codes[length + 1] = Direction::DownRight as u8;
        Ok(Tile { len, codes })
    }

    // Whether the tile is a path of at most 32 codes 0 to 7; refusal 5 otherwise.
    #[tactic(auto, unfolding(crate::specs::Path::read_tile, crate::specs::Path::read_path, refusal::specs::Refusal::refusal_of))]
    pub fn check(self) -> Result<(), Refusal>
        ensures { verdict_number result ≡ refusal_of (read_tile self) }
    {
        if self.len <= 32 && is_path(&self.codes[..self.len]) {
            return Ok(());
        }
        Err(Refusal::BadTile)
    }

    // The tile turned by 90 degrees clockwise.
    pub fn rotate(self) -> Result<Tile, Refusal>
        ensures { MakesTile (map_answer rotated (read_tile self)) result }
    {
        self.check()?;
        Ok(Tile {
            len: self.len,
            codes: array::from_fn(|i| if i < self.len {
                codes::rotated(self.codes[i])
            } else {
                0
            }),
        })
    }

    // The tile reflected about an axis.
    pub fn reflect(self, axis: Axis) -> Result<Tile, Refusal>
        ensures { MakesTile (map_answer (reflected axis) (read_tile self)) result }
    {
        self.check()?;
        Ok(Tile {
            len: self.len,
            codes: array::from_fn(|i| if i < self.len {
                codes::reflected(self.codes[i], axis)
            } else {
                0
            }),
        })
    }

    // The number of distinct cells.
    #[tactic(auto, using(crate::proofs::MadeLaws::short_tile))]
    pub fn count_cells(self) -> Result<usize, Refusal>
        ensures { answer_of result ≡ map_answer cell_count (read_tile self) }
    {
        self.check()?;
        Ok(points::count(&self.codes[..self.len]))
    }
}
