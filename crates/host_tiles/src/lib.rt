// What a host's bytes of tiles stand for, 33 bytes a tile, a length and 32 codes: a tile or tiles that
// it hands in, and tiles that are written into the bytes that it lends, zeros behind them. A byte that
// is not lent reads as 0, and as many bytes are written as are lent, so that nothing is asked of a
// caller.
#![tactic(auto)]

ghost use Rattle.std.specs.Prelude.{◌≡◌, ◌+◌, ◌*◌, ◌/◌, ◌%◌, length, get_or};
ghost use Rattle.cells.specs.Lists.{list_of};
ghost use Rattle.host_tiles.specs.TileBytes.{tile_in, tiles_in, stored_byte, struct_bytes};

use std::array;
use tile::Tile;
use tiles::Tiles;

// Byte i, 0 where it is not lent.
fn byte_at(bytes: &[u8], i: usize) -> u8
    ensures { result ≡ get_or bytes.now i 0 }
{
    bytes.get(i).copied().unwrap_or(0)
}

// The tile of 33 bytes.
pub fn tile_from(bytes: &[u8]) -> Tile
    ensures { result ≡ tile_in bytes.now }
{
    Tile {
        len: usize::from(byte_at(bytes, 0)),
        codes: array::from_fn(|i| byte_at(bytes, 1 + i)),
    }
}

// The tiles of 33 bytes each.
pub fn tiles_from(bytes: &[u8]) -> Tiles
    ensures { result ≡ tiles_in bytes.now }
{
    Tiles {
        count: bytes.len() / 33,
        lens: lens_from(bytes),
        codes: codes_from(bytes),
    }
}

// The lengths of the first 64 tiles.
fn lens_from(bytes: &[u8]) -> [usize; 64]
    ensures { result ≡ list_of (λ i. get_or bytes.now (33 * i) 0) 64 }
{
    array::from_fn(|i| usize::from(byte_at(bytes, 33 * i)))
}

// The codes of the first 64 tiles.
fn codes_from(bytes: &[u8]) -> [u8; 2048]
    ensures { result ≡ list_of (λ k. get_or bytes.now (33 * (k / 32) + (1 + k % 32)) 0) 2048 }
{
    array::from_fn(|k| byte_at(bytes, 33 * (k / 32) + (1 + k % 32)))
}

// Byte k of some tiles as their struct has them, 0 behind the last.
#[tactic(auto, unfolding(crate::specs::TileBytes::stored_byte))]
fn tile_byte(tiles: &Tiles, k: usize) -> u8
    ensures { result ≡ stored_byte tiles.now.lens tiles.now.codes k }
{
    let tile = k / 33;
    if 63 < tile {
        return 0;
    }
    match k % 33 {
        0 => (tiles.lens[tile] % 256) as u8,
        place => tiles.codes[32 * tile + (place - 1)],
    }
}

// The bytes of some tiles as their struct has them, of a length its low byte, and zeros behind them.
pub fn put_tiles(bytes: &mut [u8], tiles: Tiles)
    ensures { bytes.new ≡ struct_bytes tiles (length bytes.old) }
{
    for k in 0..bytes.len() {
        bytes[k] = tile_byte(&tiles, k);
    }
}
