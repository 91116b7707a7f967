// One layer in lent words: boards and path counts are added to it, and it grows from the layer before
// it. Private helpers.
ghost use Rattle.std.specs.Prelude.{◌≡◌, false, ℕ, ◌*◌, ◌≤◌, ◌<◌, eqb, length};
ghost use Rattle.cells.specs.Set.{number};
ghost use Rattle.cells.specs.Lists.{list_of, set_at};
ghost use Rattle.cells.specs.Parts.{find_set};
ghost use Rattle.tiles.specs.Paths.{paths_in};
ghost use Rattle.fit.specs.Parts.{most_children};
ghost use Rattle.board.specs.Board.{board_of};
ghost use Rattle.path_count.specs.PathCounts.{count_value, count_in, count_room};
ghost use Rattle.covers.specs.Setting.{child_boards};
ghost use Rattle.covers.specs.Inner.{add_paths};
ghost use Rattle.expansion.specs.Boards.{From};
ghost use Rattle.layers.specs.Inner.{setting_in, add_each, next_of};

use cells::{Cells, list};
use expansion::AcceptedPlot;
use path_count::PathCount;

// The first `len` boards of a layer with their path counts, of which there is room for so many;
// whether a count is too large.
#[derive(Drop)]
pub struct Layer<'a> {
    pub boards: &'a mut [u64],
    pub counts: &'a mut [u64],
    pub room: usize,
    pub len: usize,
    pub over: bool,
    ghost boards_lent: { 4 * room ≤ length boards.now },
    ghost counts_lent: { room ≤ count_room (length counts.now) },
    ghost fits: { len ≤ room },
}

// None is answered where the boards pass the room.
impl<'a> Layer<'a> {
    ghost use Rattle.layers.specs.Layers.{SameWords, entries_of, HoldsIn, AddsTo};

    // Board i.
    fn board(&self, i: usize) -> Cells
        ensures { number result ≡ set_at self.now.boards.now i }
    {
        list::get(self.boards, i)
    }

    // The paths of board i.
    pub fn paths(&self, i: usize) -> PathCount
        ensures { count_value result ≡ count_in self.now.counts.now i }
    {
        path_count::get(self.counts, i)
    }

    // The number of a board, if it is in the layer.
    fn find(&self, board: Cells) -> Option<usize>
        ensures { result ≡ find_set self.now.boards.now 0 self.now.len (number board) }
    {
        list::find(self.boards, 0, self.len, board)
    }

    // Some paths more for a board of the layer, which stands last if it is new.
    fn add_paths(&mut self, board: Cells, paths: PathCount) -> Option<()>
        ensures same { SameWords self.old self.new }
        ensures adds { AddsTo self.old self.new result (add_paths eqb (number board) (count_value paths)) }
    {
        let n = self.len;
        let Some(i) = self.find(board) else {
            if self.room <= n {
                return None;
            }
            list::put(self.boards, n, board);
            path_count::put(self.counts, n, paths);
            self.len = n + 1;
            return Some(());
        };
        let large = path_count::add(self.counts, i, paths);
        self.over = self.over || large;
        Some(())
    }

    // Some paths more for each of the first boards of a list.
    fn add_all(&mut self, children: &[u64], n: usize, paths: PathCount) -> Option<()>
        ensures same { SameWords self.old self.new }
        ensures adds { AddsTo self.old self.new result (add_each (list_of (set_at children.now) n) (count_value paths)) }
    {
        for i in 0..n {
            self.add_paths(list::get(children, i), paths)?;
        }
        Some(())
    }

    // The children of board i of the layer before get its paths.
    fn grow_by(
        &mut self,
        plot: AcceptedPlot,
        before: &Layer<'_>,
        i: usize,
        children: &mut [u64],
    ) -> Option<()>
        requires { From (board_of plot.board) (set_at before.now.boards.now i) × (4 * most_children (paths_in plot.tiles) ≤ length children.old) }
        ensures same { SameWords self.old self.new }
        ensures adds { AddsTo self.old self.new result (add_each (child_boards (setting_in plot) (set_at before.now.boards.now i)) (count_in before.now.counts.now i)) }
    {
        let n = expansion::expand(plot.board, plot.tiles, before.board(i), children);
        self.add_all(children, n, before.paths(i))
    }

    // The boards and paths that the layer before gives to an empty one, with words for the children of
    // one board.
    fn grow_all(
        &mut self,
        plot: AcceptedPlot,
        before: &Layer<'_>,
        children: &mut [u64],
    ) -> Option<()>
        requires { ((i : ℕ) → i < before.now.len → From (board_of plot.board) (set_at before.now.boards.now i)) × (4 * most_children (paths_in plot.tiles) ≤ length children.old) × (self.old.len ≡ 0) × (self.old.over ≡ false) }
        ensures same { SameWords self.old self.new }
        ensures holds { HoldsIn self.old self.new result (next_of (setting_in plot) (entries_of before.now)) }
    {
        for i in 0..before.len {
            self.grow_by(plot, before, i, children)?;
        }
        Some(())
    }

    // The layer behind a layer, in place of what stood here.
    pub fn grow(&mut self, plot: AcceptedPlot, before: &Layer<'_>) -> Option<()>
        requires { (i : ℕ) → i < before.now.len → From (board_of plot.board) (set_at before.now.boards.now i) }
        ensures same { SameWords self.old self.new }
        ensures holds { HoldsIn self.old self.new result (next_of (setting_in plot) (entries_of before.now)) }
    {
        self.len = 0;
        self.over = false;
        let mut children = [0u64; 8448];
        let end = expansion::child_words(plot.tiles);
        self.grow_all(plot, before, &mut children[..end])
    }
}
