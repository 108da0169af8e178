//! The node for C and Rust (include/powerlink_cn.h): each function here makes the call of the
//! library with its name and promises what that promises. It answers 0 or the number of the
//! refusal; what else it answers goes out by a reference, and a refused call leaves that as it was.
//! What is packed for C is a definition in specs/, and `unpacked` has the laws that it can be read
//! back.
#![tactic(auto)]

pub mod answers;
pub mod calls;
pub mod entry;
pub mod over;
pub mod readings;
pub mod run;
pub mod setup;
pub mod text;
pub mod told;
pub mod unpacked;
pub mod weighing;
