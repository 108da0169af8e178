//! Prints what is read in patterns of 20 bytes and written again, what is read at places of a
//! longer run, and the error history while entries join it, one form a line. The stored output was
//! printed by the original Rust (compare/), so a run shows that both agree.
#![tactic(auto)]

ghost use Rattle.std.specs.Prelude.{◌≡◌};
ghost use Rattle.entry_bytes.specs.Patterns.{last, filled, numbered};

use entries::desk;
use entries::error_history::ErrorHistory;
use entries::sizes::HistoryBytes;
use entries::status_response::{EntryType, ErrorEntry};
use forms::generator::Generator;
use forms::output::Output;
use std::io;
use types::common::NetTime;

fn say_bytes(out: &mut Output, bytes: &[u8]) {
    for byte in bytes {
        write!(out, "{byte:02X}");
    }
}

fn say_entry(out: &mut Output, entry: ErrorEntry) {
    let EntryType {
        is_status_entry,
        send_to_queue,
        mode,
        profile,
    } = entry.entry_type;
    let NetTime {
        seconds,
        nanoseconds,
    } = entry.timestamp;
    write!(
        out,
        " (status {}) (queue {}) (mode {}) (profile {profile})",
        u8::from(is_status_entry),
        u8::from(send_to_queue),
        mode.as_u16()
    );
    write!(
        out,
        " (code {:#06X}) (seconds {seconds}) (nanoseconds {nanoseconds}) (information {})",
        entry.error_code, entry.additional_information
    );
}

// What is read in a pattern, and written of it.
fn print_entry(out: &mut Output, pattern: &[u8]) {
    match desk::read_at(pattern, 0) {
        Ok(entry) => {
            write!(out, "(entry ");
            say_bytes(out, pattern);
            say_entry(out, entry);
            write!(out, " (bytes ");
            say_bytes(out, &entry.serialize());
            writeln!(out, "))");
        }
        Err(_) => writeln!(out, "(entry short)"),
    }
}

// Fills the pattern with the next bytes of the generator.
fn fill(pattern: &mut [u8; 20], generator: &mut Generator)
    ensures { (generator.new.x ≡ last 20 generator.old.x) ×
        (pattern.new ≡ filled 20 0 generator.old.x pattern.old) }
{
    for byte in pattern.iter_mut() {
        *byte = (generator.next() % 256) as u8;
    }
}

fn print_patterns(out: &mut Output) {
    let mut pattern = [0; 20];
    let mut generator = Generator::new();
    for _ in 2..40 {
        fill(&mut pattern, &mut generator);
        print_entry(out, &pattern);
    }
}

// What is read at a place of a buffer.
fn print_read(out: &mut Output, buffer: &[u8], place: u64) {
    write!(out, "(read {place}");
    match desk::read_at(buffer, place) {
        Ok(entry) => say_entry(out, entry),
        Err(_) => write!(out, " short"),
    }
    writeln!(out, ")");
}

// Reads at the front, behind it, at the last place with 20 bytes, behind that, at the end and past
// it.
fn print_reads(out: &mut Output) {
    let buffer =
        b"\x03\x07\x0B\x0F\x13\x17\x1B\x1F\x23\x27\x2B\x2F\x33\x37\x3B\x3F\x43\x47\x4B\x4F\x53\x57\x5B\x5F\x63\x67\x6B\x6F\x73\x77\x7B\x7F\x83\x87\x8B\x8F\x93\x97\x9B\x9F\xA3\xA7\xAB\xAF\xB3\xB7\xBB\xBF\xC3\xC7\xCB\xCF\xD3\xD7\xDB\xDF\xE3\xE7\xEB\xEF";
    for place in [0, 1, 40, 41, 60, 61, u64::MAX] {
        print_read(out, buffer, place);
    }
}

// An entry like that of a crossing, with a number in its code and its seconds.
fn numbered_entry(number: u16) -> ErrorEntry
    ensures { result ≡ numbered number }
{
    ErrorEntry {
        entry_type: EntryType::QUEUED_EVENT,
        error_code: number,
        timestamp: NetTime::new(u32::from(number), 0),
        additional_information: 0,
    }
}

// How many entries the history has, and the codes of its newest and its oldest.
fn print_history(out: &mut Output, memory: &HistoryBytes, history: ErrorHistory) {
    let count = usize::from(history.count);
    write!(out, "(history {count}");
    if 0 < count {
        for place in [0, count - 1] {
            match history.get(memory, place) {
                Some(entry) => write!(out, " {}", entry.error_code),
                None => write!(out, " none"),
            }
        }
    }
    writeln!(out, ")");
}

// Prints the history after the first entries, around its limit of 254, and after the last.
fn print_histories(out: &mut Output) {
    let mut memory = [0; 5080];
    let mut history = ErrorHistory::new();
    for number in 1..=260 {
        history.write_error_to_history(&mut memory, numbered_entry(number));
        if matches!(number, 1 | 2 | 253 | 254 | 255 | 260) {
            print_history(out, &memory, history);
        }
    }
}

fn main(rt: HostRuntime) -> io::Result<()> {
    let mut output = Output::new(rt.stdout());
    let out = &mut output;
    print_entry(out, &[0x00; 20]);
    print_entry(out, &[0xFF; 20]);
    print_patterns(out);
    print_entry(out, &[0x00; 19]);
    print_reads(out);
    print_histories(out);
    output.end()
}
