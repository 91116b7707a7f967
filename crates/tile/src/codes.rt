// Codes of tiles: a code turned or reflected, and a path as it is stored. Private helpers; `stored`
// asks that its path is short enough.
ghost use Rattle.std.specs.Prelude.{◌≡◌, ◌≤◌, length};
ghost use Rattle.direction.specs.Direction.{rotate, reflect};
ghost use Rattle.tile.specs.Path.{tile_of};

use crate::Tile;
use direction::Axis;

// The code turned, and the code reflected; a code that is no direction stays.
pub fn rotated(code: u8) -> u8
    ensures { result ≡ rotate code }
{
    direction::rotate(code).unwrap_or(code)
}

pub fn reflected(code: u8, axis: Axis) -> u8
    ensures { result ≡ reflect axis code }
{
    direction::reflect(code, axis).unwrap_or(code)
}

// The tile of a path, with zeros behind it.
pub fn stored(path: &[u8]) -> Tile
    requires { length path.now ≤ 32 }
    ensures { result ≡ tile_of path.now }
{
    let mut codes = [0; 32];
    codes[..path.len()].copy_from_slice(path);
    Tile {
        len: path.len(),
        codes,
    }
}
