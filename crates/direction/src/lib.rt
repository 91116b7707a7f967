// Directions by their codes: 0 to 7 are Up, Down, Left, Right, UpLeft, UpRight, DownRight,
// DownLeft, as the Rust's enum has them. Every other code is refused.
#![tactic(auto, unfolding(crate::specs::Direction::step, crate::specs::Direction::opposite, crate::specs::Direction::rotate, crate::specs::Direction::reflect, crate::specs::Direction::on_code, refusal::specs::Refusal::map_answer))]

ghost use Rattle.refusal.specs.Refusal.{answer_of};
ghost use Rattle.std.specs.Prelude.{◌≡◌};
ghost use Rattle.direction.specs.Direction.{at, step, opposite, rotate, reflect, on_code, code_of, Decodes, offset_answer};

use refusal::Refusal;

// The line about which a tile is reflected: Vertical swaps left and right, Horizontal up and down.
#[derive(Clone, Copy, Drop)]
pub enum Axis {
    Vertical,
    Horizontal,
}

// The directions, in the order of their codes.
#[derive(Clone, Copy, PartialEq, Eq, Drop)]
pub enum Direction {
    Up,
    Down,
    Left,
    Right,
    UpLeft,
    UpRight,
    DownRight,
    DownLeft,
}

impl TryFrom<u8> for Direction {
    type Error = Refusal;

    ghost try_from_gives = { Decodes };

    fn try_from(code: u8) -> Result<Self, Refusal> {
        match code {
            0 => Ok(Direction::Up),
            1 => Ok(Direction::Down),
            2 => Ok(Direction::Left),
            3 => Ok(Direction::Right),
            4 => Ok(Direction::UpLeft),
            5 => Ok(Direction::UpRight),
            6 => Ok(Direction::DownRight),
            7 => Ok(Direction::DownLeft),
            _ => Err(Refusal::BadTile),
        }
    }
}

impl From<Direction> for u8 {
    ghost from_gives = { λ direction code. code ≡ code_of direction };

    fn from(direction: Direction) -> u8 {
        direction as u8
    }
}

impl Direction {
    // What one step adds to the row and to the column.
    pub fn offset(self) -> (i64, i64)
        ensures { at result.0 result.1 ≡ step (code_of self) }
    {
        match self {
            Direction::Up => (-1, 0),
            Direction::Down => (1, 0),
            Direction::Left => (0, -1),
            Direction::Right => (0, 1),
            Direction::UpLeft => (-1, -1),
            Direction::UpRight => (-1, 1),
            Direction::DownRight => (1, 1),
            Direction::DownLeft => (1, -1),
        }
    }

    pub fn opposite(self) -> Direction
        ensures { code_of result ≡ opposite (code_of self) }
    {
        match self {
            Direction::Up => Direction::Down,
            Direction::Down => Direction::Up,
            Direction::Left => Direction::Right,
            Direction::Right => Direction::Left,
            Direction::UpLeft => Direction::DownRight,
            Direction::UpRight => Direction::DownLeft,
            Direction::DownRight => Direction::UpLeft,
            Direction::DownLeft => Direction::UpRight,
        }
    }

    // A quarter turn clockwise.
    pub fn rotate(self) -> Direction
        ensures { code_of result ≡ rotate (code_of self) }
    {
        match self {
            Direction::Up => Direction::Right,
            Direction::Down => Direction::Left,
            Direction::Left => Direction::Up,
            Direction::Right => Direction::Down,
            Direction::UpLeft => Direction::UpRight,
            Direction::UpRight => Direction::DownRight,
            Direction::DownRight => Direction::DownLeft,
            Direction::DownLeft => Direction::UpLeft,
        }
    }

    // Left for right about the vertical axis, up for down about the horizontal one.
    pub fn reflect(self, axis: Axis) -> Direction
        ensures { code_of result ≡ reflect axis (code_of self) }
    {
        match axis {
            Axis::Vertical => match self {
                Direction::Up | Direction::Down => self,
                Direction::Left => Direction::Right,
                Direction::Right => Direction::Left,
                Direction::UpLeft => Direction::UpRight,
                Direction::UpRight => Direction::UpLeft,
                Direction::DownRight => Direction::DownLeft,
                Direction::DownLeft => Direction::DownRight,
            },
            Axis::Horizontal => match self {
                Direction::Up => Direction::Down,
                Direction::Down => Direction::Up,
                Direction::Left | Direction::Right => self,
                Direction::UpLeft => Direction::DownLeft,
                Direction::UpRight => Direction::DownRight,
                Direction::DownRight => Direction::UpRight,
                Direction::DownLeft => Direction::UpLeft,
            },
        }
    }
}

// ---- the same by codes

pub fn step(code: u8) -> Result<(i64, i64), Refusal>
    ensures { offset_answer result ≡ on_code code (step code) }
{
    Ok(Direction::try_from(code)?.offset())
}

pub fn opposite(code: u8) -> Result<u8, Refusal>
    ensures { answer_of result ≡ on_code code (opposite code) }
{
    Ok(Direction::try_from(code)?.opposite().into())
}

pub fn rotate(code: u8) -> Result<u8, Refusal>
    ensures { answer_of result ≡ on_code code (rotate code) }
{
    Ok(Direction::try_from(code)?.rotate().into())
}

pub fn reflect(code: u8, axis: Axis) -> Result<u8, Refusal>
    ensures { answer_of result ≡ on_code code (reflect axis code) }
{
    Ok(Direction::try_from(code)?.reflect(axis).into())
}
