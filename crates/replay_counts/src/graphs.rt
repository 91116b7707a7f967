// The command graph: it lends words that are all ones and writes the graph. Behind it stands `dirty` if a
// lent word that has to be zero afterwards is not, and `edges differ` if the calls of crate graph do not
// give the edges as they are stored. The room for nodes is lent as in counts.rt.
use crate::counts::lent;
use board::RectangularBoard;
use graph::GraphResult;
use replay_text::text::field;
use replay_text::words::tell_dirt;
use replay_text::write::{Output, Refused};
use replay_text::{text, write};
use std::io;
use std::io::Write;
use tiles::Tiles;

// graph WIDTH HEIGHT FIXED LAID TILES [NODES EDGES]: the graph. There is room for 1,024 nodes and 4,096
// edges unless it is given, and for 4,096 and 16,384 at most.
pub fn graph(to: &mut Output, line: &[u8]) -> io::Result<()> {
    let room = text::room_in(field(line, 6), 1024).min(4096);
    let edge_room = text::room_in(field(line, 7), 4096).min(16384);
    let turn = room % 2;
    let node_words = 4 * lent(room, turn, 0) + 3;
    let count_words = lent(room, turn, 1);
    let edge_words = 2 * edge_room + 1;
    let mut nodes = [u64::MAX; 16391];
    let mut counts = [u64::MAX; 4097];
    let mut edges = [u64::MAX; 32769];
    generate(
        to,
        text::board_in(line),
        text::tiles_in(field(line, 5)),
        &mut nodes[..node_words],
        &mut counts[..count_words],
        &mut edges[..edge_words],
    )
}

fn generate(
    to: &mut Output,
    board: RectangularBoard,
    tiles: Tiles,
    nodes: &mut [u64],
    counts: &mut [u64],
    edges: &mut [u64],
) -> io::Result<()> {
    let made = tiler::generate_graph(board, tiles, nodes, counts, edges);
    let used = match made {
        Ok(graph) => {
            show(to, graph, nodes, counts, edges)?;
            (graph.nodes.min(16384), graph.edges.min(16384))
        }
        Err(refusal) => {
            write!(to, "{}", Refused(refusal))?;
            (0, 0)
        }
    };
    tell_dirt(to, nodes, 4 * used.0)?;
    tell_dirt(to, counts, used.0)?;
    tell_dirt(to, edges, 2 * used.1)?;
    if let Ok(graph) = made {
        if !has_edges(graph, edges) {
            write!(to, " edges differ")?;
        }
    }
    Ok(())
}

// A graph: its count, its numbers of nodes and of edges, the full board's node, the marks of each node
// and the edges as they are stored.
fn show(
    to: &mut Output,
    graph: GraphResult,
    nodes: &[u64],
    counts: &[u64],
    edges: &[u64],
) -> io::Result<()> {
    let count = graph::count_tilings_from_graph(graph, counts).low();
    write!(to, "{count} {} {} ", graph.nodes, graph.edges)?;
    match graph.complete {
        Some(node) => write!(to, "{node}")?,
        None => write!(to, "none")?,
    }
    for i in 0..graph.nodes {
        write::board_at(to, graph::get_node(nodes, i), 0)?;
    }
    show_edges(to, edges, graph.edges)
}

// The first n edges, or as many as are lent.
fn show_edges(to: &mut Output, edges: &[u64], n: usize) -> io::Result<()> {
    let (pairs, _) = edges.as_chunks::<2>();
    for [parent, child] in pairs.iter().take(n) {
        write!(to, " {parent}>{child}")?;
    }
    Ok(())
}

// Whether the edges of the nodes in order, as get_edges gives them, are all the stored ones.
fn has_edges(graph: GraphResult, edges: &[u64]) -> bool {
    let (pairs, _) = edges.as_chunks::<2>();
    let Some(mut left) = pairs.get(..graph.edges) else {
        return false;
    };
    for node in 0..graph.nodes {
        let mut children = [0u64; 2112];
        let Ok(count) = graph::get_edges(edges, graph.edges, node, &mut children) else {
            return false;
        };
        let Some((own, others)) = left.split_at_checked(count) else {
            return false;
        };
        if !are_edges(node, &children, own) {
            return false;
        }
        left = others;
    }
    left.is_empty()
}

// Whether some edges are those from a node to the first of some children.
fn are_edges(node: usize, children: &[u64], edges: &[[u64; 2]]) -> bool {
    edges.iter().zip(children).all(|([parent, child], found)| *parent as usize == node
        && child == found)
}
