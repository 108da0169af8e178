//! The watched nodes of a run of records as 32 bytes, as `bitmap` has them of nodes in words.
ghost use Rattle.watched.specs.Watched.{run};
ghost use Rattle.bitmap.specs.Bitmap.{BitsWritten};

use crate::run::is_formed;
use bitmap::{count_bits, set_bit};
use types::refusals::Refusal;
use watched::nodes::WatchedNode;

/// Writes the watched nodes of a run as bits (RULES 8.7), whatever the bytes held before, and
/// answers how many bits are set, which is how many nodes are watched.
///
/// Refused by WatchedNodes where the run is not well formed (RULES 8.2); then no byte changes. The
/// places past the number are not read.
pub fn bitmap(nodes: &[WatchedNode], number: usize, bytes: &mut [u8; 32]) -> Result<u32, Refusal>
    ensures { BitsWritten (run nodes.now number) bytes.old result bytes.new }
{
    if !is_formed(nodes, number) {
        return Err(Refusal::WatchedNodes);
    }
    *bytes = [0; 32];
    for w in &nodes[..number] {
        set_bit(bytes, w.node as u8);
    }
    Ok(count_bits(bytes))
}
