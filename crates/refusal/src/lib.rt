// The refusals of all crates, by cause. `number` gives the number that document 01, or the request
// that brought the refusal, gives each.
#![tactic(auto)]

ghost use Rattle.std.specs.Prelude.{◌≡◌, Some, decimal};
ghost use Rattle.refusal.specs.Refusal.{refusal_number};

use std::fmt;

// A plot file: Cut, UnknownMark, Misplaced. Input: BadBoard, BadTile, TooManyTiles, UnequalTiles.
// Lent words: NoRoom, NoRoomForEdges. A path count past its limit: CountTooLarge. The tiling by
// number: BadGraph, NoSuchTiling. An archive file: BrokenRecord, NoSuchRecord. A hole: BadHole.
#[derive(Clone, Copy, Drop)]
pub enum Refusal {
    Cut,
    UnknownMark,
    Misplaced,
    BadBoard,
    BadTile,
    TooManyTiles,
    UnequalTiles,
    NoRoom,
    CountTooLarge,
    NoRoomForEdges,
    BadGraph,
    NoSuchTiling,
    BrokenRecord,
    NoSuchRecord,
    BadHole,
}

impl Refusal {
    pub fn number(self) -> u8
        ensures { result ≡ refusal_number self }
    {
        match self {
            Refusal::Cut => 1,
            Refusal::UnknownMark => 2,
            Refusal::Misplaced => 3,
            Refusal::BadBoard => 4,
            Refusal::BadTile => 5,
            Refusal::TooManyTiles => 6,
            Refusal::UnequalTiles => 7,
            Refusal::NoRoom => 8,
            Refusal::CountTooLarge => 9,
            Refusal::NoRoomForEdges => 10,
            Refusal::BadGraph => 11,
            Refusal::NoSuchTiling => 12,
            Refusal::BrokenRecord => 13,
            Refusal::NoSuchRecord => 14,
            Refusal::BadHole => 15,
        }
    }
}

// The number as hosts are told it.
impl From<Refusal> for u64 {
    ghost from_gives = { λ refusal number. number ≡ refusal_number refusal };

    fn from(refusal: Refusal) -> u64 {
        u64::from(refusal.number())
    }
}

// The number in decimal digits.
impl fmt::Display for Refusal {
    ghost output = { λ refusal. Some (decimal (refusal_number refusal)) };

    fn fmt<W: fmt::Write>(&self, f: &mut fmt::Formatter<W>) -> fmt::Result {
        write!(f, "{}", self.number())
    }
}
