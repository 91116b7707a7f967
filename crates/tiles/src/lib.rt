// Tiles together: the port of the `TileCollection` of the Rust's tile.rs. A collection has at most 64
// tiles, each a path of at most 32 direction codes.
//
// The struct holds any numbers; a call that is handed one tests it and refuses, 6 (over 64 tiles)
// before 5 (a path over 32 or a code over 7), so that nothing is asked of a caller. Only `with_tile`
// and `get` take a tile as it stands. What each call answers is a definition of specs/Paths.antt.
#![tactic(auto)]

ghost use Rattle.std.specs.Prelude.{◌≡◌, []};
ghost use Rattle.refusal.specs.Refusal.{map_answer, refusal_of, verdict_number, answer_of};
ghost use Rattle.tile.specs.Path.{read_tile};
ghost use Rattle.tiles.specs.Paths.{shared_count, contains_single, orbit, read_tiles, read_equal_tiles, tiles_of, tile_at, MakesTiles, AddsTile};

use direction::Axis;
use refusal::Refusal;
use tile::Tile;

mod collection;

// The paths of count tiles: tile i has the first lens[i] of the 32 codes from 32 * i on.
// Kept: arrays side by side, in fixed memory (no heap); `read_tiles_tiles_of` names the fields.
#[derive(Clone, Copy, Drop)]
pub struct Tiles {
    pub count: usize,
    pub lens: [usize; 64],
    pub codes: [u8; 2048],
}

impl Tiles {
    // No tiles.
    pub fn new() -> Tiles
        ensures { result ≡ tiles_of [] }
    {
        Tiles {
            count: 0,
            lens: [0; 64],
            codes: [0; 2048],
        }
    }

    // The tile, its three clockwise turns, its Horizontal reflection and that one's turns, first
    // appearances kept. The Rust's `TileCollection::from`, whose order is hashed.
    #[tactic(auto, using(tile::proofs::MadeLaws::short_tile))]
    pub fn orbit(tile: Tile) -> Result<Tiles, Refusal>
        ensures { MakesTiles (map_answer orbit (read_tile tile)) result }
    {
        tile.check()?;
        let first = Tile::new(&tile.codes[..tile.len]).unwrap();
        let mirror = tile.reflect(Axis::Horizontal).unwrap();
        let half = collection::with_turns(Tiles::new(), first);
        Ok(collection::with_turns(half, mirror))
    }

    // The tiles with one more behind them, as they stand; refusal 6 for a 65th.
    #[tactic(auto, unfolding(crate::specs::Paths::with_tile))]
    pub fn with_tile(self, tile: Tile) -> Result<Tiles, Refusal>
        ensures { AddsTile self tile result }
    {
        if 64 <= self.count {
            return Err(Refusal::TooManyTiles);
        }
        Ok(collection::appended(self, tile))
    }

    // Tile i as it stands, the single tile for 64 and more. The Rust's boxed iterator.
    pub fn get(self, i: usize) -> Tile
        ensures { result ≡ tile_at self i }
    {
        if 64 <= i {
            return Tile::box_tile();
        }
        Tile {
            len: self.lens[i],
            codes: collection::part(&self.codes, 32 * i),
        }
    }

    // Whether there are at most 64 tiles, each a path; refusal 6, and then 5, otherwise.
    #[tactic(auto, unfolding(crate::specs::Paths::read_tiles, refusal::specs::Refusal::refusal_of))]
    pub fn check(self) -> Result<(), Refusal>
        ensures { verdict_number result ≡ refusal_of (read_tiles self) }
    {
        if 64 < self.count {
            return Err(Refusal::TooManyTiles);
        }
        if !collection::all_sound(self) {
            return Err(Refusal::BadTile);
        }
        Ok(())
    }

    // Whether one of the tiles is a single tile.
    pub fn contains_single_tile(self) -> Result<bool, Refusal>
        ensures { answer_of result ≡ map_answer contains_single (read_tiles self) }
    {
        self.check()?;
        Ok(collection::has_single(self))
    }

    // The number of cells that each of the tiles covers, 0 with no tiles; refusal 6, then 5, then 7
    // for two tiles with different numbers of cells.
    pub fn count_cells(self) -> Result<usize, Refusal>
        ensures { answer_of result ≡ map_answer shared_count (read_equal_tiles self) }
    {
        self.check()?;
        let cells = collection::first_count(self);
        if !collection::all_cover(self, cells) {
            return Err(Refusal::UnequalTiles);
        }
        Ok(cells)
    }
}
