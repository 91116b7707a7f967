// The text that the program `plot` prints for a file, in lent bytes. The text is defined over the
// file's bytes alone (specs/Report.antt), and nothing is asked of a caller. A text that is longer
// than the lent bytes is cut at their end; the program's are long enough for every file.
#![tactic(auto)]

ghost use Rattle.std.specs.Prelude.{◌≡◌, ◌<◌};
ghost use mathlib.Core.List.{◌++◌, flat_map};
ghost use Rattle.cells.specs.Lists.{list_of};
ghost use Rattle.refusal.specs.Refusal.{given};
ghost use Rattle.path_count.specs.PathCounts.{count_value};
ghost use Rattle.tiler.specs.Graphs.{Graph, count_of_graph};
ghost use Rattle.plot_file.specs.PlotFile.{Plot};
ghost use Rattle.report.specs.Report.{listed, layers_line, plot_layers, cuttings_line, plot_cuttings, graph_lines, plot_graph, tiling_line, plot_lines, report, WritesReport};
ghost use Rattle.report.specs.Inner.{Puts, Stays, HoldsPlot, Built};

use board::RectangularBoard;
use graph::GraphResult;
use path_count::PathCount;
use plot_file::MadePlot;
use text::Text;
use tiles::Tiles;

mod lines;
mod text;

// The text for a file. As much of it as there is room for stands in front of the lent bytes, and the
// bytes behind it are zero; the number of bytes put comes back.
pub fn write_report(file: &[u8], out: &mut [u8]) -> usize
    ensures { WritesReport file.now out.old out.new result }
{
    let mut text = Text::new(out);
    put_report(&mut text, file);
    let Text { bytes, at: end } = text;
    bytes[end..].fill(0);
    end
}

// The text in front of the bytes, and behind it what stood there.
fn put_report(text: &mut Text<'_>, file: &[u8])
    ensures { Puts text.old (report file.now) text.new }
{
    let plot = plot_file::read_plot(file);
    match plot.verdict {
        Ok(()) => put_plot(text, plot),
        Err(refusal) => lines::put_refused(text, refusal),
    }
}

// The lines of a plot that is read.
fn put_plot(text: &mut Text<'_>, plot: MadePlot)
    ensures puts { (p : Plot) → HoldsPlot p plot.board plot.tiles → Puts text.old (plot_lines p) text.new }
    ensures stays { Stays text.old text.new }
{
    let MadePlot { board, tiles, .. } = plot;
    let free = board.free_cells().unwrap_or(0);
    lines::put_board(text, board.width, board.height, free);
    lines::put_tiles(text, tiles.count);
    put_counts(text, board, tiles);
    put_graph(text, board, tiles);
}

// The lines of the layer count and of the figure called cuttings, from layers that are worked once, with
// room for 512 boards a layer: the arrays of counts have as many words as 512 counts take.
fn put_counts(text: &mut Text<'_>, board: RectangularBoard, tiles: Tiles)
    ensures puts { (p : Plot) → HoldsPlot p board tiles → Puts text.old (layers_line (plot_layers p) ++ cuttings_line (plot_cuttings p)) text.new }
    ensures stays { Stays text.old text.new }
{
    let mut boards_a = [0u64; 2048];
    let mut counts_a = [0u64; 512];
    let mut boards_b = [0u64; 2048];
    let mut counts_b = [0u64; 512];
    let count = layers::count_tilings(
        board,
        tiles,
        &mut boards_a,
        &mut counts_a,
        &mut boards_b,
        &mut counts_b,
    );
    lines::put_layers(text, count);
    let figure = cuttings::count_cuttings_from_layers(board, count);
    lines::put_cuttings(text, figure);
}

// The line of the graph and those of its tilings, with room for 1,024 nodes and 4,096 edges: the
// array of counts has as many words as 1,024 counts take.
fn put_graph(text: &mut Text<'_>, board: RectangularBoard, tiles: Tiles)
    ensures puts { (p : Plot) → HoldsPlot p board tiles → Puts text.old (graph_lines (plot_graph p)) text.new }
    ensures stays { Stays text.old text.new }
{
    let mut nodes = [0u64; 4096];
    let mut counts = [0u64; 1024];
    let mut edges = [0u64; 8192];
    let made = tiler::generate_graph(board, tiles, &mut nodes, &mut counts, &mut edges);
    match made {
        Ok(graph) => put_given(text, graph, &nodes, &counts, &edges),
        Err(refusal) => lines::put_no_graph(text, refusal),
    }
}

// The lines of a graph that is given.
fn put_given(text: &mut Text<'_>, graph: GraphResult, nodes: &[u64], counts: &[u64], edges: &[u64])
    ensures puts { (g : Graph) → Built g graph nodes.now counts.now edges.now → Puts text.old (graph_lines (given g)) text.new }
    ensures stays { Stays text.old text.new }
{
    let count = graph::count_tilings_from_graph(graph, counts);
    lines::put_sizes(text, count, graph.nodes, graph.edges);
    put_tilings(text, graph, nodes, counts, edges, count);
}

// The lines of the first 16 tilings, or of all if there are fewer.
fn put_tilings(
    text: &mut Text<'_>,
    graph: GraphResult,
    nodes: &[u64],
    counts: &[u64],
    edges: &[u64],
    count: PathCount,
)
    ensures puts { (g : Graph) → Built g graph nodes.now counts.now edges.now → count_value count ≡ count_of_graph g → Puts text.old (flat_map (tiling_line g) (list_of (λ n. n) (listed g))) text.new }
    ensures stays { Stays text.old text.new }
{
    for m in 0..16 {
        if !PathCount::of_words(m, 0).less(count) {
            return;
        }
        put_tiling(text, graph, nodes, counts, edges, m);
    }
}

// The line of one tiling. A list has at most 257 nodes, one more than a board has cells.
fn put_tiling(
    text: &mut Text<'_>,
    graph: GraphResult,
    nodes: &[u64],
    counts: &[u64],
    edges: &[u64],
    m: u64,
)
    ensures puts { (g : Graph) → Built g graph nodes.now counts.now edges.now → m < count_of_graph g → Puts text.old (tiling_line g m) text.new }
    ensures stays { Stays text.old text.new }
{
    let mut list = [0u64; 257];
    let number = PathCount::of_words(m, 0);
    let tiling = numbered_tilings::tiling_by_number(graph, nodes, counts, edges, number, &mut list);
    match tiling {
        Ok(n) => lines::put_list(text, m, &list[..n]),
        Err(_) => {}
    }
}
