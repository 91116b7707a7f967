// A set of cells of a board of at most 16 by 16 cells. The Rust has Vec<Vec<bool>>.
//
// A set is four words: cell (row, column) is bit 16 * row + column, counted from the lowest bit of
// the first word. Each contract reads the words as one number and gives the answer by a definition
// of specs/Set.antt. Nothing is asked of the caller: a number past 255 is no cell and is in no set.
#![tactic(auto)]

ghost use Rattle.std.specs.Prelude.{◌≡◌, [], ◌∷◌, ◌^◌, ◌<◌, eqb};
ghost use Rattle.cells.specs.Set.{has_cell, with_cell, union_of, value, number};
ghost use Rattle.cells.specs.Parts.{shares_cell};

pub mod list;
pub mod padding;

// The four words, the lowest first.
#[derive(Clone, Copy, PartialEq, Eq, Drop)]
pub struct Cells {
    pub w0: u64,
    pub w1: u64,
    pub w2: u64,
    pub w3: u64,
}

impl Cells {
    // The set of four words, as they stand in lent words.
    pub fn of_words(w0: u64, w1: u64, w2: u64, w3: u64) -> Cells
        ensures { (number result ≡ value (w0 ∷ w1 ∷ w2 ∷ w3 ∷ [])) × (number result < 2 ^ 256) }
    {
        Cells { w0, w1, w2, w3 }
    }

    // Whether a cell is in the set.
    pub fn has_cell(self, cell: usize) -> bool
        ensures { result ≡ has_cell (number self) cell }
    {
        let at = cell % 64;
        match cell / 64 {
            0 => (self.w0 >> at) % 2 == 1,
            1 => (self.w1 >> at) % 2 == 1,
            2 => (self.w2 >> at) % 2 == 1,
            3 => (self.w3 >> at) % 2 == 1,
            _ => false,
        }
    }

    // The set with one cell more.
    pub fn with_cell(mut self, cell: usize) -> Cells
        ensures { number result ≡ with_cell (number self) cell }
    {
        let one = 1 << (cell % 64);
        match cell / 64 {
            0 => self.w0 |= one,
            1 => self.w1 |= one,
            2 => self.w2 |= one,
            3 => self.w3 |= one,
            _ => {}
        }
        self
    }

    // The cells that are in one of two sets.
    pub fn union(self, other: Cells) -> Cells
        ensures { number result ≡ union_of (number self) (number other) }
    {
        Cells {
            w0: self.w0 | other.w0,
            w1: self.w1 | other.w1,
            w2: self.w2 | other.w2,
            w3: self.w3 | other.w3,
        }
    }

    // Whether a cell is in both of two sets. (No call uses it yet; two pieces that share a cell make a
    // clause of the DIMACS text that document 02 asks for.)
    pub fn shares_cell(self, other: Cells) -> bool
        ensures { result ≡ shares_cell (number self) (number other) }
    {
        if self.w0 & other.w0 != 0 {
            return true;
        }
        if self.w1 & other.w1 != 0 {
            return true;
        }
        if self.w2 & other.w2 != 0 {
            return true;
        }
        self.w3 & other.w3 != 0
    }

    // Whether two sets have the same cells.
    // Kept: a search is mostly of sets whose first words differ already. The derive's `==` compares all four
    // words at once, and a graph took 1.7 times as long with it.
    pub fn equal(self, other: Cells) -> bool
        ensures { result ≡ eqb (number self) (number other) }
    {
        self.w0 == other.w0 && (self.w1 == other.w1 && (self.w2 == other.w2 && self.w3 == other.w3))
    }
}
