// Whether a number of cells is a sum of the tiles' numbers of cells, each as often as wanted. Where
// the number of free cells is no such sum, there is no tiling. Private helpers; they ask that the
// tiles have been tested.
ghost use Rattle.std.specs.Prelude.{◌≡◌, false, true, ◌&&◌, [], map, ℕ, ◌-◌, ◌≤◌, ◌<◌, leb, get_or};
ghost use Rattle.cells.specs.Lists.{any};
ghost use Rattle.tile.specs.Path.{cell_count};
ghost use Rattle.tiles.specs.Paths.{paths_in};
ghost use Rattle.single_tiling.specs.Inner.{Read, IsSum};

use tiles::Tiles;

// The numbers of cells of the tiles, in their order.
fn cell_counts(tiles: Tiles) -> [usize; 64]
    requires { Read tiles }
    ensures { (i : ℕ) → i < tiles.count → get_or result i 0 ≡ cell_count (get_or (paths_in tiles) i []) }
{
    let mut sizes = [0usize; 64];
    for i in 0..tiles.count {
        sizes[i] = tiles.get(i).count_cells().unwrap();
    }
    sizes
}

// Whether n is one of the sizes more than a number that is marked in the table.
fn is_one_more(table: &[bool; 257], sizes: &[usize], n: usize) -> bool
    requires { n ≤ 256 }
    ensures { result ≡ any (λ a. leb a n && get_or table.now (n - a) false) sizes.now }
{
    for size in sizes {
        if *size <= n && table[n - size] {
            return true;
        }
    }
    false
}

// Whether a number is a sum of the tiles' numbers of cells. The contract says that a sum is told; no
// answer depends on the other side.
pub fn is_sum(tiles: Tiles, n: usize) -> bool
    requires { Read tiles × (n ≤ 256) }
    ensures { IsSum (map cell_count (paths_in tiles)) n → result ≡ true }
{
    let sizes = cell_counts(tiles);
    let mut table = [false; 257];
    table[0] = true;
    for m in 1..=n {
        table[m] = is_one_more(&table, &sizes[..tiles.count], m);
    }
    table[n]
}
