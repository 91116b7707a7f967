// The lines of the report, by the numbers that stand in them. Private helpers.
ghost use mathlib.Core.List.{◌++◌, flat_map};
ghost use Rattle.cells.specs.Lists.{ascii};
ghost use Rattle.refusal.specs.Refusal.{refusal_number};
ghost use Rattle.path_count.specs.PathCounts.{count_value};
ghost use Rattle.layers.specs.LayerCounts.{count_answer};
ghost use Rattle.report.specs.Report.{decimal, field, feed, refused_line, count_line, layers_line, cuttings_line};
ghost use Rattle.report.specs.Inner.{Puts};

use crate::text::Text;
use path_count::PathCount;
use refusal::Refusal;

// A line that ends in a refusal's number.
fn put_refusal(text: &mut Text<'_>, words: &[u8], refusal: Refusal)
    ensures { Puts text.old ((words.now ++ decimal (refusal_number refusal)) ++ feed) text.new }
{
    text.put_last(words, refusal.into());
}

// A refused file.
pub fn put_refused(text: &mut Text<'_>, refusal: Refusal)
    ensures { Puts text.old (refused_line (refusal_number refusal)) text.new }
{
    put_refusal(text, b"refused ", refusal);
}

// Width, height and free cells of a board.
pub fn put_board(text: &mut Text<'_>, width: usize, height: usize, free: usize)
    ensures { Puts text.old (field "board " width ++ field " " height ++ field " free " free ++ feed) text.new }
{
    text.put_field(b"board ", width as u64);
    text.put_field(b" ", height as u64);
    text.put_last(b" free ", free as u64);
}

// The number of tiles.
pub fn put_tiles(text: &mut Text<'_>, count: usize)
    ensures { Puts text.old (field "tiles " count ++ feed) text.new }
{
    text.put_last(b"tiles ", count as u64);
}

// The line of a count, or of its refusal.
fn put_count(text: &mut Text<'_>, words: &[u8], refused: &[u8], count: Result<PathCount, Refusal>)
    ensures { Puts text.old (count_line words.now refused.now (count_answer count)) text.new }
{
    match count {
        Ok(n) => {
            text.put_paths(words, n);
            text.put_bytes(b"\n");
        }
        Err(refusal) => put_refusal(text, refused, refusal),
    }
}

// The layer count, or its refusal.
pub fn put_layers(text: &mut Text<'_>, count: Result<PathCount, Refusal>)
    ensures { Puts text.old (layers_line (count_answer count)) text.new }
{
    put_count(text, b"layers ", b"layers refused ", count);
}

// The figure called cuttings, or its refusal.
pub fn put_cuttings(text: &mut Text<'_>, count: Result<PathCount, Refusal>)
    ensures { Puts text.old (cuttings_line (count_answer count)) text.new }
{
    put_count(text, b"cuttings ", b"cuttings refused ", count);
}

// A refused graph.
pub fn put_no_graph(text: &mut Text<'_>, refusal: Refusal)
    ensures { Puts text.old (field "graph refused " (refusal_number refusal) ++ feed) text.new }
{
    put_refusal(text, b"graph refused ", refusal);
}

// The graph count, and the numbers of nodes and edges.
pub fn put_sizes(text: &mut Text<'_>, count: PathCount, nodes: usize, edges: usize)
    ensures { Puts text.old (field "graph " (count_value count) ++ field " nodes " nodes ++ field " edges " edges ++ feed) text.new }
{
    text.put_paths(b"graph ", count);
    text.put_field(b" nodes ", nodes as u64);
    text.put_last(b" edges ", edges as u64);
}

// The nodes of a list, a blank before each.
fn put_nodes(text: &mut Text<'_>, list: &[u64])
    ensures { Puts text.old (flat_map (field " ") list.now) text.new }
{
    for node in list {
        text.put_field(b" ", *node);
    }
}

// The number of a tiling, and its node list.
pub fn put_list(text: &mut Text<'_>, m: u64, list: &[u64])
    ensures { Puts text.old (field "tiling " m ++ ascii ":" ++ flat_map (field " ") list.now ++ feed) text.new }
{
    text.put_field(b"tiling ", m);
    text.put_bytes(b":");
    put_nodes(text, list);
    text.put_bytes(b"\n");
}
