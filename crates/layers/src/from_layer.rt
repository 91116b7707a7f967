// The count from a layer on, over two lent layers, which change places from layer to layer: a round
// grows the second from the first and the first from the second. Private helpers.
ghost use Rattle.std.specs.Prelude.{◌≡◌, cond, ◌+◌, ◌≤◌, ◌<◌, eqb, get_or};
ghost use Rattle.cells.specs.Lists.{list_of};
ghost use Rattle.path_count.specs.PathCounts.{count_in, count_value};
ghost use Rattle.layers.specs.LayerCounts.{count_answer};
ghost use Rattle.layers.specs.Inner.{setting_in, Right, Ready, Grows};
ghost use Rattle.layers.specs.Layers.{SameWords, entries_of, grown_to};

use crate::layer::Layer;
use expansion::AcceptedPlot;
use path_count::PathCount;
use refusal::Refusal;

// The count of a layer on which no piece can be laid: that of its one board if no cell is left free, 0
// if some are or if there is no board.
fn last_count(layer: &Layer<'_>, left: usize) -> PathCount
    ensures { count_value result ≡ cond (eqb left 0) (get_or (list_of (count_in layer.now.counts.now) layer.now.len) 0 0) 0 }
{
    if 0 < left || layer.len == 0 {
        return PathCount::of_words(0, 0);
    }
    layer.paths(0)
}

// The layer behind a layer, each board of which has left free cells; how many its boards have.
fn grow_once(
    plot: AcceptedPlot,
    layer: &Layer<'_>,
    next: &mut Layer<'_>,
    left: usize,
) -> Result<usize, Refusal>
    requires { Ready (setting_in plot) left (entries_of layer.now) × (plot.size ≤ left) }
    ensures same { SameWords next.old next.new }
    ensures grows { Grows (setting_in plot) next.old.room left plot.size (entries_of layer.now) next.new.boards.now next.new.counts.now (grown_to result next.new) }
{
    let Some(()) = next.grow(plot, layer) else {
        return Err(Refusal::NoRoom);
    };
    if next.over {
        return Err(Refusal::CountTooLarge);
    }
    Ok(left - plot.size)
}

// The second layer behind a layer, in its place; the one between stands in the next.
fn grow_twice(
    plot: AcceptedPlot,
    layer: &mut Layer<'_>,
    next: &mut Layer<'_>,
    left: usize,
) -> Result<usize, Refusal>
    requires { Ready (setting_in plot) left (entries_of layer.old) × (plot.size + plot.size ≤ left) × (layer.old.room ≡ next.old.room) }
    ensures same { SameWords layer.old layer.new × SameWords next.old next.new }
    ensures grows { Grows (setting_in plot) next.old.room left (plot.size + plot.size) (entries_of layer.old) layer.new.boards.now layer.new.counts.now (grown_to result layer.new) }
{
    let rest = grow_once(plot, layer, next, left)?;
    grow_once(plot, next, layer, rest)
}

// The count from a layer on, behind which there is at most one more.
fn finish(
    plot: AcceptedPlot,
    layer: &Layer<'_>,
    next: &mut Layer<'_>,
    left: usize,
) -> Result<PathCount, Refusal>
    requires { Ready (setting_in plot) left (entries_of layer.now) × (left < plot.size + plot.size) }
    ensures same { SameWords next.old next.new }
    ensures answer { Right (setting_in plot) next.old.room left (entries_of layer.now) (count_answer result) }
{
    if left < plot.size {
        return Ok(last_count(layer, left));
    }
    let rest = grow_once(plot, layer, next, left)?;
    Ok(last_count(next, rest))
}

// The count from a layer on, each board of which has left free cells.
pub fn run(
    plot: AcceptedPlot,
    layer: &mut Layer<'_>,
    next: &mut Layer<'_>,
    left: usize,
) -> Result<PathCount, Refusal>
    requires { Ready (setting_in plot) left (entries_of layer.old) × (layer.old.room ≡ next.old.room) }
    ensures same { SameWords layer.old layer.new × SameWords next.old next.new }
    ensures answer { Right (setting_in plot) next.old.room left (entries_of layer.old) (count_answer result) }
{
    let mut free = left;
    // while two more layers can be laid
    while plot.size <= free / 2 {
        free = grow_twice(plot, layer, next, free)?;
    }
    finish(plot, layer, next, free)
}
