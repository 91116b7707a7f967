// How many boards, nodes or edges lent words hold, by the numbers of words: at most 16,777,216.
#![tactic(auto, unfolding(crate::specs::Graph::room_of, crate::specs::Graph::layer_room, crate::specs::Graph::node_room, crate::specs::Graph::edge_room))]

ghost use Rattle.std.specs.Prelude.{◌≡◌};
ghost use Rattle.graph.specs.Graph.{room_of, layer_room, node_room, edge_room};

fn room(n: usize) -> usize
    ensures { result ≡ room_of n }
{
    n.min(16_777_216)
}

// The boards that each of two layers holds, by its words and its count words.
pub fn layer_room(boards_a: usize, counts_a: usize, boards_b: usize, counts_b: usize) -> usize
    ensures { result ≡ layer_room boards_a counts_a boards_b counts_b }
{
    node_room(boards_a, counts_a).min(node_room(boards_b, counts_b))
}

pub fn node_room(nodes: usize, counts: usize) -> usize
    ensures { result ≡ node_room nodes counts }
{
    room(path_count::room(counts).min(nodes / 4))
}

pub fn edge_room(edges: usize) -> usize
    ensures { result ≡ edge_room edges }
{
    room(edges / 2)
}
