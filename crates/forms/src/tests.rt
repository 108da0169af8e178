//! What is written where the writer's bytes can be seen, and behind a write that failed.
use crate::find::find;
use crate::output::Output;
use std::io;
use std::io::{ErrorKind, Write};

// A writer with room for so many bytes.
#[derive(Drop)]
struct Short {
    room: usize,
}

impl Write for Short {
    fn write(&mut self, buf: &[u8]) -> io::Result<usize> {
        let taken = buf.len().min(self.room);
        if taken == 0 {
            return Err(io::Error::from(ErrorKind::StorageFull));
        }
        self.room -= taken;
        Ok(taken)
    }

    fn flush(&mut self) -> io::Result<()> {
        Ok(())
    }
}

#[test]
fn bytes_and_numbers_join(rt: HostRuntime) {
    let mut out = Output::new(Vec::new(rt.alloc()));
    out.write(b"(entries ");
    out.write_number(120);
    out.write(b")\n");
    assert!(rt; out.outcome.is_ok());
    assert_eq!(rt; out.to.as_slice(), b"(entries 120)\n".as_slice());
}

#[test]
fn formatted_text_joins(rt: HostRuntime) {
    let mut out = Output::new(Vec::new(rt.alloc()));
    writeln!(out, "(entries {})", 120);
    assert!(rt; out.outcome.is_ok());
    assert_eq!(rt; out.to.as_slice(), b"(entries 120)\n".as_slice());
}

#[test]
fn nothing_behind_a_failure(rt: HostRuntime) {
    let mut out = Output::new(Short { room: 5 });
    out.write(b"abc");
    assert!(rt; out.outcome.is_ok());
    out.write(b"defg");
    assert!(rt; out.outcome.is_err());
    out.to.room = 9;
    out.write(b"h");
    out.write_number(7);
    assert_eq!(rt; out.to.room, 9);
    assert!(rt; out.end().is_err());
}

#[test]
fn first_semicolon(rt: HostRuntime) {
    let text = b"a;b;c".as_slice();
    assert_eq!(rt; find(&text[2..5], b';').map_or(5, |at| 2 + at), 3);
    assert_eq!(rt; find(&text[4..5], b';').map_or(5, |at| 4 + at), 5);
}
