// The calls of the lower crates for hosts in C or Rust. A slice is a pointer and a length; the host
// lends every word. Each function returns 0 or the number of the refusal, and nothing is asked of a
// caller but what a slice is (include/cuttings.h). Each is the call of the same name of `host_plots`,
// `host_counts`, `host_tilings` or `host_records`, with its contract; what it returns and leaves in the lent words is a
// definition of that crate's specs/Calls.antt.
//
// A board is width, height and 8 words of marks, fixed then laid; tiles are 33 bytes each, a length
// and 32 codes. Slices of a wrong shape are refused first: 4, marks that are not 8 words; 5, tile
// bytes that are not a multiple of 33, or a tile that is not 33; 11, a result that is not four words or
// whose third word is neither 0 nor 1; 12, a number that is not two words; 8, an answer or an output
// of fixed size that is too short.
// Kept: each gives 0 or the refusal's number, and no `Result`, and takes a board as width, height and words, since C
// calls it.
// After any refusal every lent word and byte is zero, but that with 13 the first answer word is the place
// of the earliest broken record.
#![tactic(auto)]

ghost use Rattle.std.specs.Prelude.{length};
ghost use Rattle.graph.specs.Graph.{layer_room};
ghost use Rattle.host_plots.specs.Calls.{placed, orbit_for, read_file, AnswersPlot};
ghost use Rattle.host_counts.specs.Calls.{counted, cuttings_counted, AnswersCount, generated, AnswersGraph};
ghost use Rattle.host_tilings.specs.Calls.{searched, AnswersSingle, numbered};
ghost use Rattle.host_words.specs.Layout.{AnswersList};
ghost use Rattle.archive.specs.Archive.{LeavesOutcome, write_record};
ghost use Rattle.host_records.specs.Calls.{record_for, records_counted, record_found, current_found};
ghost use Rattle.host_tiles.specs.TileBytes.{bytes_for};
ghost use Rattle.cells.specs.Lists.{padded, words_for};

// The children of a board, four words each, zeros behind. Answer: their number.
#[unsafe(no_mangle)]
pub extern "C" fn cuttings_place_tile(
    width: u64,
    height: u64,
    marks: &[u64],
    tiles: &[u8],
    out: &mut [u64],
    answer: &mut [u64],
) -> u64
    ensures { AnswersList words_for (placed width height marks.now tiles.now (length out.old) (length answer.old))
        out.old answer.old out.new answer.new result }
{
    host_plots::place_tile(width, height, marks, tiles, out, answer)
}

// The layer count. The lent layers are zero afterwards. Answer: the count's low word and high word.
#[unsafe(no_mangle)]
pub extern "C" fn cuttings_count_tilings(
    width: u64,
    height: u64,
    marks: &[u64],
    tiles: &[u8],
    boards_a: &mut [u64],
    counts_a: &mut [u64],
    boards_b: &mut [u64],
    counts_b: &mut [u64],
    answer: &mut [u64],
) -> u64
    ensures { AnswersCount (counted width height marks.now tiles.now
        (layer_room (length boards_a.old) (length counts_a.old) (length boards_b.old) (length counts_b.old)) (length answer.old))
        boards_a.old counts_a.old boards_b.old counts_b.old answer.old
        boards_a.new counts_a.new boards_b.new counts_b.new answer.new result }
{
    host_counts::count_tilings(
        width, height, marks, tiles, boards_a, counts_a, boards_b, counts_b, answer,
    )
}

// The figure called cuttings: 1 for a board with no free cell, otherwise the layer count. The lent
// layers are zero afterwards. Answer: the figure's low word and high word.
#[unsafe(no_mangle)]
pub extern "C" fn cuttings_count_cuttings(
    width: u64,
    height: u64,
    marks: &[u64],
    tiles: &[u8],
    boards_a: &mut [u64],
    counts_a: &mut [u64],
    boards_b: &mut [u64],
    counts_b: &mut [u64],
    answer: &mut [u64],
) -> u64
    ensures { AnswersCount (cuttings_counted width height marks.now tiles.now
        (layer_room (length boards_a.old) (length counts_a.old) (length boards_b.old) (length counts_b.old)) (length answer.old))
        boards_a.old counts_a.old boards_b.old counts_b.old answer.old
        boards_a.new counts_a.new boards_b.new counts_b.new answer.new result }
{
    host_counts::count_cuttings(
        width, height, marks, tiles, boards_a, counts_a, boards_b, counts_b, answer,
    )
}

// The graph: nodes, four words each, a count beside each, and edges, two words each; zeros behind.
// Answer: the numbers of nodes and of edges, 1 if there is a full node else 0, and the full node.
#[unsafe(no_mangle)]
pub extern "C" fn cuttings_generate_graph(
    width: u64,
    height: u64,
    marks: &[u64],
    tiles: &[u8],
    nodes: &mut [u64],
    counts: &mut [u64],
    edges: &mut [u64],
    answer: &mut [u64],
) -> u64
    ensures { AnswersGraph (generated width height marks.now tiles.now
        (length nodes.old) (length counts.old) (length edges.old) (length answer.old))
        nodes.old counts.old edges.old answer.old nodes.new counts.new edges.new answer.new result }
{
    host_counts::generate_graph(width, height, marks, tiles, nodes, counts, edges, answer)
}

// One tiling, without a graph: its boards, four words each, zeros behind. Answer: the number of
// boards, 0 for none.
#[unsafe(no_mangle)]
pub extern "C" fn cuttings_single_tiling(
    width: u64,
    height: u64,
    marks: &[u64],
    tiles: &[u8],
    out: &mut [u64],
    answer: &mut [u64],
) -> u64
    ensures { AnswersSingle (searched width height marks.now tiles.now (length out.old) (length answer.old))
        out.old answer.old out.new answer.new result }
{
    host_tilings::single_tiling(width, height, marks, tiles, out, answer)
}

// The tiling with the number m, low word and high word, of a graph's words and the four words of its
// result: the node list from node 0 on, zeros behind. Answer: its length.
#[unsafe(no_mangle)]
pub extern "C" fn cuttings_tiling(
    nodes: &[u64],
    counts: &[u64],
    edges: &[u64],
    graph: &[u64],
    m: &[u64],
    out: &mut [u64],
    answer: &mut [u64],
) -> u64
    ensures { AnswersList padded (numbered (length nodes.now) counts.now edges.now graph.now m.now
        (length out.old) (length answer.old)) out.old answer.old out.new answer.new result }
{
    host_tilings::tiling(nodes, counts, edges, graph, m, out, answer)
}

// The orbit of a tile: its tiles, 33 bytes each, zeros behind. Answer: their number.
#[unsafe(no_mangle)]
pub extern "C" fn cuttings_orbit(tile: &[u8], tiles: &mut [u8], answer: &mut [u64]) -> u64
    ensures { AnswersList bytes_for (orbit_for tile.now (length tiles.old) (length answer.old))
        tiles.old answer.old tiles.new answer.new result }
{
    host_plots::orbit(tile, tiles, answer)
}

// A plot file: ten words of its board, width, height, fixed and laid marks, and its tiles, 33 bytes
// each; zeros behind. Answer: the number of tiles.
#[unsafe(no_mangle)]
pub extern "C" fn cuttings_read_plot(
    file: &[u8],
    board: &mut [u64],
    tiles: &mut [u8],
    answer: &mut [u64],
) -> u64
    ensures { AnswersPlot (read_file file.now (length board.old) (length tiles.old) (length answer.old))
        board.old tiles.old answer.old board.new tiles.new answer.new result }
{
    host_plots::read_plot(file, board, tiles, answer)
}

// One record of an archive file: its 24 bytes, zeros behind.
#[unsafe(no_mangle)]
pub extern "C" fn cuttings_write_record(
    id: u16,
    year: u16,
    revision: u16,
    low: u64,
    high: u64,
    out: &mut [u8],
) -> u64
    ensures { LeavesOutcome (write_record (record_for id year revision low high) (length out.old)) out.old out.new result }
{
    host_records::write_record(id, year, revision, low, high, out)
}

// Answer: the number of records of an archive file.
#[unsafe(no_mangle)]
pub extern "C" fn cuttings_count_records(file: &[u8], answer: &mut [u64]) -> u64
    ensures { LeavesOutcome (records_counted file.now (length answer.old)) answer.old answer.new result }
{
    host_records::count_records(file, answer)
}

// The record at a place of an archive file, counted from 0. Answer: id, year, revision, and the
// count's low word and high word.
#[unsafe(no_mangle)]
pub extern "C" fn cuttings_record_at(file: &[u8], place: u64, answer: &mut [u64]) -> u64
    ensures { LeavesOutcome (record_found file.now place (length answer.old)) answer.old answer.new result }
{
    host_records::record_at(file, place, answer)
}

// The record of a plot id that counts. Answer: the same five words.
#[unsafe(no_mangle)]
pub extern "C" fn cuttings_current_record(file: &[u8], id: u16, answer: &mut [u64]) -> u64
    ensures { LeavesOutcome (current_found file.now id (length answer.old)) answer.old answer.new result }
{
    host_records::current_record(file, id, answer)
}
