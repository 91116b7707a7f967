// The number of distinct cells of a path. A position is kept as one number, its key:
// 100 * (row + 50) + (column + 50), which 32 steps from (0, 0) leave between 18 and 82 on each
// side. Private helpers.
ghost use Rattle.std.specs.Prelude.{◌≡◌, ◌+◌, ◌≤◌, eqb, length};
ghost use Rattle.std.proofs.Math.Bool.{So};
ghost use Rattle.cells.specs.Lists.{add_new};
ghost use Rattle.tile.specs.Path.{codes_ok, cell_count};
ghost use Rattle.tile.specs.Inner.{key_step, keys_in};

// The first n keys are those of the points seen so far, each once.
// Kept: a buffer with a length; the library takes no heap.
#[derive(Clone, Copy, Drop)]
pub struct Keys {
    pub n: usize,
    pub keys: [usize; 33],
}

// What one step adds to a key, with 101 more, so that it is not negative.
#[tactic(auto, unfolding(crate::specs::Inner::key_step))]
fn key_step(code: u8) -> usize
    ensures { (result ≡ key_step code) × (result ≤ 202) }
{
    match code {
        0 => 1,
        1 => 201,
        2 => 100,
        3 => 102,
        4 => 0,
        5 => 2,
        6 => 202,
        7 => 200,
        _ => 101,
    }
}

// The keys with one more, unless it is there.
fn with_key(mut seen: Keys, key: usize) -> Keys
    requires { seen.n ≤ 32 }
    ensures { (keys_in result ≡ add_new eqb (keys_in seen) key) × (result.n ≤ seen.n + 1) }
{
    if seen.keys[..seen.n].contains(&key) {
        return seen;
    }
    seen.keys[seen.n] = key;
    seen.n += 1;
    seen
}

// How many cells a path has.
pub fn count(path: &[u8]) -> usize
    requires { (length path.now ≤ 32) × So (codes_ok path.now) }
    ensures { result ≡ cell_count path.now }
{
    let mut key = 5050;
    let mut seen = with_key(
        Keys {
            n: 0,
            keys: [0; 33],
        },
        key,
    );
    for code in path {
        key = key + key_step(*code) - 101;
        seen = with_key(seen, key);
    }
    seen.n
}
