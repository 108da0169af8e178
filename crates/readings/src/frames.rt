//! The events of each kind of frame.
use forms::output::Output;
use types::types::MessageType;

// A kind's number, and the places of its DLL event and its NMT event.
fn print_frame(out: &mut Output, kind: MessageType) {
    write!(
        out,
        "(frame {:#04X} (dll {})",
        kind.as_u8(),
        kind.dll_cn_event().as_u8()
    );
    match kind.nmt_event() {
        Some(event) => writeln!(out, " (nmt {}))", event.as_u8()),
        None => writeln!(out, " (nmt none))"),
    }
}

/// Prints a line for each kind of frame.
pub(crate) fn print_frames(out: &mut Output) {
    for n in 0..=255u8 {
        if let Ok(kind) = MessageType::try_from(n) {
            print_frame(out, kind);
        }
    }
}
