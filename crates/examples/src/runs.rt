//! Whether a run watches one node, with zeros in the other places.
ghost use Rattle.std.specs.Prelude.{◌≡◌, [], ◌∷◌, ◌<◌, drop};
ghost use Rattle.types.specs.Pick.{all_of};
ghost use Rattle.watched.specs.Watched.{run, holding};
ghost use Rattle.watched.specs.Nodes.{node_at, node_of, nodes_of};
ghost use Rattle.examples.specs.Same.{Exactly, blank};

use watched::nodes::NodeWords;
use watched::record::NodeRecord;

// Whether a place holds zeros.
fn is_blank(nodes: &NodeWords, place: usize) -> bool
    requires { place < 32 }
    ensures { result ≡ blank (node_at nodes.now place) }
{
    NodeRecord::at(nodes, place) == NodeRecord::NONE
}

// Whether every place behind the first holds zeros.
fn rest_is_blank(nodes: &NodeWords) -> bool
    ensures { result ≡ all_of blank (drop 1 (nodes_of nodes.now)) }
{
    (1..32usize).all(|place| is_blank(nodes, place))
}

/// Whether the one watched node is this one, and all other places are zeros.
pub fn is_watching(nodes: &NodeWords, stated: NodeRecord) -> bool
    ensures { Exactly result (run (nodes_of nodes.now) 1 ≡ holding (node_of stated ∷ [])) }
{
    (NodeRecord::at(nodes, 0) == stated) & rest_is_blank(nodes)
}
