// The walks that make a fit: back from a point of a path, and on from it. Private helpers.
ghost use Rattle.std.specs.Prelude.{◌≡◌, ◌≤◌, ◌<◌, pos, length, drop};
ghost use Rattle.std.proofs.Math.Bool.{So};
ghost use Rattle.cells.specs.Set.{number};
ghost use Rattle.direction.specs.Direction.{at, shift, step, code_of};
ghost use Rattle.tile.specs.Path.{codes_ok};
ghost use Rattle.rectangle.specs.Parts.{free_in, place_if};
ghost use Rattle.fit.specs.Fit.{cover, moved, offset, point_at};
ghost use Rattle.fit.specs.Parts.{fit_pieces};
ghost use Rattle.fit.specs.Inner.{back, onward, place_of};

use crate::place::Place;
use cells::Cells;
use direction::Direction;
use rectangle::Rectangle;

// A path and a point of it.
#[derive(Clone, Copy, Drop)]
pub struct PathPoint<'a> {
    pub path: &'a [u8],
    pub start: usize,
    ghost on_path: { start ≤ length path.now },
    ghost codes: { So (codes_ok path.now) },
}

// A rectangle with some marks, in which a path is walked.
#[derive(Clone, Copy, Drop)]
pub struct Ground {
    pub rectangle: Rectangle,
    pub marks: Cells,
}

// The direction that has a code.
fn direction_of(code: u8) -> Direction
    requires { code < 8 }
    ensures { code_of result ≡ code }
{
    Direction::try_from(code).unwrap()
}

impl Ground {
    // Where one step from a place leads, if that place has no mark.
    fn free_step(self, place: Place, direction: Direction) -> Option<Place>
        ensures { place_of result ≡ place_if (free_in self.rectangle.width self.rectangle.height (number self.marks)) (shift (at (pos place.row) (pos place.col)) (step (code_of direction))) }
    {
        let (row, col) = self.rectangle.step(place.row, place.col, direction)?;
        let next = Place { row, col };
        if self.marks.has_cell(next.cell()) {
            return None;
        }
        Some(next)
    }

    // The set, with the places of a path from a point back to point 0, where each is free.
    fn walk_back(self, point: PathPoint<'_>, place: Place, set: Cells) -> Option<Cells>
        ensures { fit_pieces result ≡ cover (free_in self.rectangle.width self.rectangle.height (number self.marks)) (number set) (back (at (pos place.row) (pos place.col)) point.entry.path.now point.entry.start) }
    {
        let mut covered = set;
        let mut here = place;
        for i in (0..point.start).rev() {
            here = self.free_step(here, direction_of(point.path[i]).opposite())?;
            covered = covered.with_cell(here.cell());
        }
        Some(covered)
    }

    // The set, with the places of a path from a point on to its end, where each is free.
    fn walk_on(self, point: PathPoint<'_>, place: Place, set: Cells) -> Option<Cells>
        ensures { fit_pieces result ≡ cover (free_in self.rectangle.width self.rectangle.height (number self.marks)) (number set) (onward (at (pos place.row) (pos place.col)) (drop point.entry.start point.entry.path.now)) }
    {
        let mut covered = set;
        let mut here = place;
        for code in &point.path[point.start..] {
            here = self.free_step(here, direction_of(*code))?;
            covered = covered.with_cell(here.cell());
        }
        Some(covered)
    }

    // The piece that a path makes with a point of it on a place of the rectangle.
    pub fn fit(self, point: PathPoint<'_>, place: Place) -> Option<Cells>
        requires { (place.row < self.rectangle.height) × (place.col < self.rectangle.width) }
        ensures { fit_pieces result ≡ cover (free_in self.rectangle.width self.rectangle.height (number self.marks)) 0 (moved (offset (point_at point.entry.path.now point.entry.start) (at (pos place.row) (pos place.col))) point.entry.path.now) }
    {
        if self.marks.has_cell(place.cell()) {
            return None;
        }
        let first = Cells::of_words(0, 0, 0, 0).with_cell(place.cell());
        let behind = self.walk_back(point, place, first)?;
        self.walk_on(point, place, behind)
    }
}
