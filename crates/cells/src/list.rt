// Lists of sets in lent words, four words a set, as boards stand in an output, a layer or a graph.
// A set whose four words are not all lent reads as none and is not stored, so that nothing is asked
// of a caller.
ghost use Rattle.std.specs.Prelude.{◌≡◌};
ghost use Rattle.cells.specs.Set.{number};
ghost use Rattle.cells.specs.Lists.{set_at};
ghost use Rattle.cells.specs.Parts.{find_set, with_set, cleared_from};

use crate::Cells;

// Set i of the words.
pub fn get(words: &[u64], i: usize) -> Cells
    ensures { number result ≡ set_at words.now i }
{
    if words.len() / 4 <= i {
        return Cells {
            w0: 0,
            w1: 0,
            w2: 0,
            w3: 0,
        };
    }
    let at = 4 * i;
    Cells::of_words(words[at], words[at + 1], words[at + 2], words[at + 3])
}

// The first set equal to a set, among the sets from..to that are lent.
pub fn find(words: &[u64], from: usize, to: usize, set: Cells) -> Option<usize>
    ensures { result ≡ find_set words.now from to (number set) }
{
    let end = to.min(words.len() / 4);
    for i in from..end {
        if get(words, i).equal(set) {
            return Some(i);
        }
    }
    None
}

// The words with another set i.
pub fn put(words: &mut [u64], i: usize, set: Cells)
    ensures { words.new ≡ with_set words.old i (number set) }
{
    if i < words.len() / 4 {
        let at = 4 * i;
        words[at] = set.w0;
        words[at + 1] = set.w1;
        words[at + 2] = set.w2;
        words[at + 3] = set.w3;
    }
}

// Zeros from a word on.
pub fn clear_from(words: &mut [u64], from: usize)
    ensures { words.new ≡ cleared_from from words.old }
{
    if from < words.len() {
        words[from..].fill(0);
    }
}
