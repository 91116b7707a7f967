// Collections of tiles in their struct: tests of every tile, the numbers of cells, and a collection
// with one tile more, by which an orbit is collected. Private helpers; they ask that counts and
// lengths are in range.
ghost use Rattle.std.specs.Prelude.{◌≡◌, ◌&&◌, ◌+◌, ◌≤◌, ◌<◌, leb, length, get_or, take, drop};
ghost use Rattle.std.proofs.Math.Bool.{So};
ghost use Rattle.cells.specs.Lists.{list_of, all_below, holds, add_new, add_firsts};
ghost use Rattle.refusal.specs.Refusal.{given};
ghost use Rattle.tile.specs.Path.{codes_ok, is_path, cell_count, path_in};
ghost use Rattle.tile.specs.Inner.{CleanTile};
ghost use Rattle.tiles.specs.Paths.{contains_single, shared_count, equal_counts, same_path, turns, path_at, paths_in, sound_at, read_tiles, tiles_of, appended as Stored·appended};
ghost use Rattle.tiles.specs.Inner.{Clean};

use crate::Tiles;
use tile::Tile;

// Whether len codes from a place on are a path.
fn sound(codes: &[u8], from: usize, len: usize) -> bool
    requires { from + 32 ≤ length codes.now }
    ensures { result ≡ (leb len 32 && is_path (take len (drop from codes.now))) }
{
    len <= 32 && tile::is_path(&codes[from..from + len])
}

// Whether every tile is a path.
pub fn all_sound(tiles: Tiles) -> bool
    requires { tiles.count ≤ 64 }
    ensures { result ≡ all_below (sound_at tiles.lens tiles.codes) tiles.count }
{
    for i in 0..tiles.count {
        if !sound(&tiles.codes, 32 * i, tiles.lens[i]) {
            return false;
        }
    }
    true
}

// Whether some tile is a single tile.
pub fn has_single(tiles: Tiles) -> bool
    requires { tiles.count ≤ 64 }
    ensures { result ≡ contains_single (paths_in tiles) }
{
    tiles.lens[..tiles.count].contains(&0)
}

// How many cells tile i has.
fn count_at(tiles: Tiles, i: usize) -> usize
    requires { (read_tiles tiles ≡ given (paths_in tiles)) × (i < tiles.count) }
    ensures { result ≡ cell_count (path_at tiles.lens tiles.codes i) }
{
    tiles.get(i).count_cells().unwrap()
}

// How many cells the first tile has, 0 with no tiles.
pub fn first_count(tiles: Tiles) -> usize
    requires { read_tiles tiles ≡ given (paths_in tiles) }
    ensures { result ≡ shared_count (paths_in tiles) }
{
    if tiles.count == 0 {
        return 0;
    }
    count_at(tiles, 0)
}

// Whether every tile has as many cells as the first, which is told.
pub fn all_cover(tiles: Tiles, cells: usize) -> bool
    requires { (read_tiles tiles ≡ given (paths_in tiles)) × (cells ≡ shared_count (paths_in tiles)) }
    ensures { result ≡ equal_counts (paths_in tiles) }
{
    for i in 0..tiles.count {
        if count_at(tiles, i) != cells {
            return false;
        }
    }
    true
}

// Whether len codes from a place on are the given path.
fn same_at(codes: &[u8], from: usize, len: usize, path: &[u8]) -> bool
    requires { from + len ≤ length codes.now }
    ensures { result ≡ same_path (take len (drop from codes.now)) path.now }
{
    &codes[from..from + len] == path
}

// Whether a path is among those of the tiles.
fn has_path(tiles: Tiles, path: &[u8]) -> bool
    requires { Clean tiles }
    ensures { result ≡ holds same_path (paths_in tiles) path.now }
{
    for i in 0..tiles.count {
        if same_at(&tiles.codes, 32 * i, tiles.lens[i], path) {
            return true;
        }
    }
    false
}

// The 32 codes from a place on.
pub fn part(codes: &[u8], from: usize) -> [u8; 32]
    requires { from + 32 ≤ length codes.now }
    ensures { result ≡ list_of (λ j. get_or codes.now (from + j) 0) 32 }
{
    let mut out = [0; 32];
    out.copy_from_slice(&codes[from..from + 32]);
    out
}

// The tiles with one more behind them, as they stand.
pub fn appended(mut tiles: Tiles, tile: Tile) -> Tiles
    requires { tiles.count < 64 }
    ensures { result ≡ Stored·appended tiles tile }
{
    let from = 32 * tiles.count;
    tiles.codes[from..from + 32].copy_from_slice(&tile.codes);
    tiles.lens[tiles.count] = tile.len;
    tiles.count += 1;
    tiles
}

// The tiles with one more, unless it is there.
fn with_new(tiles: Tiles, tile: Tile) -> Tiles
    requires { Clean tiles × CleanTile tile × (tiles.count < 64) }
    ensures { result ≡ tiles_of (add_new same_path (paths_in tiles) (path_in tile)) }
{
    if has_path(tiles, &tile.codes[..tile.len]) {
        return tiles;
    }
    appended(tiles, tile)
}

// The tiles with a tile and its three clockwise turns, those that are not there.
pub fn with_turns(tiles: Tiles, tile: Tile) -> Tiles
    requires { Clean tiles × CleanTile tile × So (codes_ok (path_in tile)) × (tiles.count ≤ 4) }
    ensures { result ≡ tiles_of (add_firsts same_path (paths_in tiles) (turns 4 (path_in tile))) }
{
    let mut out = tiles;
    let mut turned = tile;
    for _turn in 0..4_usize {
        out = with_new(out, turned);
        turned = turned.rotate().unwrap();
    }
    out
}
