//! A frame without its VLAN tag.
ghost use Rattle.std.specs.Prelude.{◌≡◌, take};
ghost use Rattle.pcap.specs.Tag.{is_tagged, behind_tag};

/// The EtherType of a VLAN tag, 0x8100, which stands in the bytes 12 and 13 of a tagged frame.
pub const VLAN: [u8; 2] = [0x81, 0x00];

/// Whether an Ethernet frame has a VLAN tag: four bytes behind its two addresses, which begin with
/// 0x8100. A frame of fewer than 16 bytes has none.
pub fn is_tagged(frame: &[u8]) -> bool
    ensures { result ≡ is_tagged frame.now }
{
    frame.len() >= 16 && [frame[12], frame[13]] == VLAN
}

/// An Ethernet frame without its VLAN tag, in two parts: its two addresses, which are 12 bytes, and
/// what stands behind them, from its own EtherType on. A frame of fewer bytes is all addresses.
pub fn untagged(frame: &[u8]) -> (&[u8], &[u8])
    ensures addresses { result.0.now ≡ take 12 frame.now }
    ensures rest { result.1.now ≡ behind_tag frame.now }
{
    let addresses = frame.len().min(12);
    let rest = if is_tagged(frame) { 16 } else { addresses };
    (&frame[..addresses], &frame[rest..])
}
