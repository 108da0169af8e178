//! The watched nodes as 32 bytes (RULES 8.7): node n is bit n mod 8 of byte n / 8, lowest bit
//! first. Here from words; the crate `lent` has the form over a run of records.
#![tactic(auto)]

ghost use Rattle.std.specs.Prelude.{◌≡◌};
ghost use Rattle.watched.specs.Watched.{watched_of, run};
ghost use Rattle.watched.specs.Nodes.{nodes_of};
ghost use Rattle.bitmap.specs.Bitmap.{with_bit, bytes_of, ones_of, BitsWritten};

use types::refusals::Refusal;
use watched::nodes::{Formed, NodeWords, well_formed};
use watched::record::NodeRecord;

/// Sets the bit of a node, any byte; all other bits stay.
pub fn set_bit(bytes: &mut [u8; 32], node: u8)
    ensures { bytes.new ≡ with_bit node bytes.old }
{
    bytes[usize::from(node / 8)] |= 1 << (node % 8);
}

/// How many bits are set in 32 bytes.
pub fn count_bits(bytes: &[u8; 32]) -> u32
    ensures { result ≡ ones_of bytes.now }
{
    bytes.iter().map(|byte| byte.count_ones()).sum()
}

// All bits cleared, then one set for each node.
fn set_bits(formed: Formed, bytes: &mut [u8; 32])
    ensures { bytes.new ≡
        bytes_of (watched_of (nodes_of formed.entry.nodes.now) formed.entry.count) }
{
    *bytes = [0; 32];
    for i in 0..formed.count {
        set_bit(bytes, NodeRecord::at(formed.nodes, i).node as u8);
    }
}

/// Writes the watched nodes as bits, whatever the bytes held before, and answers how many bits are
/// set, which is how many nodes are watched.
///
/// Refused by WatchedNodes where the run is not well formed (RULES 8.2); then no byte changes.
pub fn bitmap(nodes: &NodeWords, count: usize, bytes: &mut [u8; 32]) -> Result<u32, Refusal>
    ensures { BitsWritten (run (nodes_of nodes.now) count) bytes.old result bytes.new }
{
    if !well_formed(nodes, count) {
        return Err(Refusal::WatchedNodes);
    }
    set_bits(Formed { nodes, count }, bytes);
    Ok(count_bits(bytes))
}
