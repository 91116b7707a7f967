// Places of a board, by their rows and columns. Private helpers.
ghost use Rattle.std.specs.Prelude.{◌≡◌, ◌+◌, ◌*◌, ◌<◌};

// A row and a column that a board may have.
#[derive(Clone, Copy, Drop)]
pub struct Place {
    pub row: usize,
    pub col: usize,
    ghost low: { row < 16 },
    ghost narrow: { col < 16 },
}

impl Place {
    // The bit number of the cell there.
    pub fn cell(self) -> usize
        ensures { result ≡ 16 * self.row + self.col }
    {
        16 * self.row + self.col
    }
}
