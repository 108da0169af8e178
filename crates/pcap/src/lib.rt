//! Recordings of a line, as Wireshark and tcpdump save them: pcapng, and the classic pcap, both in
//! either order of bytes. A recording is read through a buffer of the caller's, in whatever parts
//! it arrives; nothing is allocated and no byte is copied.
//!
//! - `reader`: the reader, a step for each packet or block
//! - `fault`: what is wrong with a recording, and where
//! - `tag`: a frame without its VLAN tag
//! - `order`, `interface`, `classic`, `blocks`, `options`, `records`: the parts of the two formats
//!
//! The caller has a buffer of `records::LONGEST` bytes. As long as a step answers `More`, it reads
//! more of the recording behind what is there, or tells the reader's `end` where there is no more;
//! behind `Passed` and `Packet` it goes on behind the bytes that were read; a `Fault` ends it.
#![tactic(auto)]

pub mod blocks;
pub mod classic;
pub mod fault;
pub mod interface;
pub mod options;
pub mod order;
pub mod reader;
pub mod records;
pub mod tag;
