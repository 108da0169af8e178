//! A line of a call script as the value that it says. docs/CALLS.md has the format, and
//! specs/Grammar.antt a row for each of its lines.
#![tactic(auto)]

ghost use Rattle.std.specs.Prelude.{◌≡◌, List, [], option_map};
ghost use Rattle.script.specs.Reads.{gives};
ghost use Rattle.types.specs.States.{states, state_number};
ghost use Rattle.types.specs.Events.{events, event_number, commands, command_number};
ghost use Rattle.types.specs.CsEvents.{cs_events, cs_event_number};
ghost use Rattle.types.specs.Kinds.{error_kinds, kind_place};
ghost use Rattle.types.specs.Names.{state_name, event_name, command_name, cs_event_name, kind_name};
ghost use Rattle.script.specs.Numerals.{NamesRead};
ghost use Rattle.script.specs.Grammar.{says, call_named, line_named, words_say, line_says};

mod bytes;
mod components;
mod fields;
mod keys;
mod numerals;
mod words;

use arrayvec::ArrayVec;
use calling::Call;
use entries::status_response::ErrorEntry;
use recipes::Component;
use start::start::Setup;
use std::str;
use types::frame::cs_state_machine::DllCsEvent;
use types::nmt::events::{NmtEvent, NmtStateCommand};
use types::nmt::states::NmtState;
use watched::nodes::WatchedNode;
use weigh::WeighCall;
use words::Words;

// The bytes that a line gives: as many as the 300 entries have that a load may name.
type LineBytes = ArrayVec<u8, 6000>;

// The components that a line gives: more than a recipe may have, so that such a one can be tried.
type LineComponents = ArrayVec<Component, 20>;

/// The memory that a line is read into, which lends what the line gives.
#[derive(Drop)]
pub struct LineMemory {
    /// The bytes of a word.
    pub bytes: LineBytes,
    /// The components of a recipe.
    pub components: LineComponents,
}

impl LineMemory {
    /// Memory that no line was read into.
    pub fn new() -> LineMemory
        ensures bytes { result.bytes.items ≡ [] }
        ensures components { result.components.items ≡ [] }
    {
        LineMemory {
            bytes: LineBytes::new(),
            components: LineComponents::new(),
        }
    }
}

/// What a line says. Any number of its width may stand in it; the calls refuse what they do not
/// take.
#[derive(Clone, Copy)]
pub enum Line<'a> {
    /// Nothing: the empty line, or a comment.
    Nothing,
    /// No line of the format.
    Unreadable,
    /// A call on the weigh head.
    Call(WeighCall<'a>),
    /// The start of a head.
    Start(Setup),
    /// One node more is watched in the lent run.
    Watch(WatchedNode),
    /// The lent run is as at first.
    Unwatch,
    /// So many places are lent, at most 40, with this number watched.
    Lend { places: usize, number: usize },
    /// The watched nodes as bits.
    Bitmap,
    /// The desk's buffer has these bytes from now on, at most 100.
    Desk(&'a [u8]),
    /// An entry is written into the desk's buffer at a place.
    EntryWrite { place: u64, entry: ErrorEntry },
    /// 20 bytes are read as an entry.
    EntryRead(&'a [u8]),
    /// A number is read as an NMT state.
    State(u64),
    /// A number is read as a command.
    Command(u64),
    /// The kind behind an error code.
    Kind(u64),
    /// The head and the lent run are shown.
    Show,
    /// It is told why the NMT machine is where it is.
    Why,
}

/// Law of the names: each is read as the number of what it names.
pub fn names_read()
    ensures nmt { NamesRead event_name event_number events }
    ensures dll { NamesRead cs_event_name cs_event_number cs_events }
    ensures kind { NamesRead kind_name kind_place error_kinds }
    ensures state { NamesRead state_name state_number states }
    ensures command { NamesRead command_name command_number commands }
{}

/// The most characters of a line that is no comment.
const LONGEST: usize = 16384;

// The call of a name, with the words behind it as its arguments.
#[tactic(auto, unfolding(crate::specs::Grammar::call_named))]
fn read_call<'a>(name: &str, words: &mut Words<'_>) -> Option<Call<'a>>
    ensures { gives result words.new.rest.now ≡ call_named name.now words.old.rest.now }
{
    Some(match name {
        "nmt" => Call::NmtEvent(words.numeral::<NmtEvent>()?),
        "dll" => Call::DllEvent {
            event: words.numeral::<DllCsEvent>()?,
            expect_preq: words.flag()?,
        },
        "error" => words.error()?,
        "cycle" => Call::CycleComplete,
        "withdraw" => Call::Withdraw,
        "heard" => Call::Heard {
            node: words.bits8()?,
            time: words.bits64()?,
        },
        "handout" => Call::HandOut,
        "arm" => Call::Arm(words.bits64()?),
        "tick" => Call::Tick(words.bits64()?),
        "range" => Call::Range {
            earliest: words.bits64()?,
            latest: words.bits64()?,
        },
        "margin" => Call::Margin(words.bits64()?),
        "add" => Call::Add {
            node: words.bits8()?,
            timeout: words.bits64()?,
        },
        "remove" => Call::Remove(words.bits8()?),
        "due" => Call::NextDue,
        _ => return None,
    })
}

// What a line says that begins with a name, with the words behind it.
#[tactic(auto, unfolding(crate::specs::Grammar::line_named))]
fn read_named<'a>(name: &str, words: &mut Words<'_>, memory: &'a mut LineMemory) -> Option<Line<'a>>
    ensures { gives (option_map says result) words.new.rest.now
        ≡ line_named name.now words.old.rest.now }
{
    match name {
        "start" => Some(Line::Start(words.setup()?)),
        "load" => Some(Line::Call(WeighCall::Node(Call::Load {
            values: words.update()?,
            history: words.history(&mut memory.bytes)?,
        }))),
        "recipe" => Some(Line::Call(WeighCall::LoadRecipe(words.components(
            &mut memory.components,
        )?))),
        "weight" => Some(Line::Call(WeighCall::Weight(words.bits64()? as usize))),
        "frame" => Some(Line::Call(WeighCall::Node(Call::Frame {
            time: words.bits64()?,
            bytes: words.frame(&mut memory.bytes)?,
        }))),
        "watch" => Some(Line::Watch(words.watched()?)),
        "unwatch" => Some(Line::Unwatch),
        "lend" => Some(Line::Lend {
            places: words.up_to(40)? as usize,
            number: words.bits64()? as usize,
        }),
        "bitmap" => Some(Line::Bitmap),
        "desk" => Some(Line::Desk(words.desk(&mut memory.bytes)?)),
        "entrywrite" => Some(Line::EntryWrite {
            place: words.bits64()?,
            entry: words.entry()?,
        }),
        "entryread" => Some(Line::EntryRead(words.entry_bytes(&mut memory.bytes)?)),
        "state" => Some(Line::State(words.numeral::<NmtState>()?)),
        "command" => Some(Line::Command(words.numeral::<NmtStateCommand>()?)),
        "kind" => Some(Line::Kind(words.bits64()?)),
        "show" => Some(Line::Show),
        "why" => Some(Line::Why),
        _ => Some(Line::Call(WeighCall::Node(read_call(name, words)?))),
    }
}

// What the words of a line say, where they are all there and no more.
#[tactic(auto, using(crate::proofs::Names::no_text), unfolding(crate::specs::Grammar::words_say))]
fn read_words<'a>(line: &[u8], memory: &'a mut LineMemory) -> Option<Line<'a>>
    ensures { option_map says result ≡ words_say line.now }
{
    let (name, mut words) = Words::of(line);
    let Ok(name) = str::from_utf8(name) else {
        return None;
    };
    let read = read_named(name, &mut words, memory)?;
    words.end()?;
    Some(read)
}

/// Reads a line, which has no newline at its end. The bytes or components that it gives are in the
/// memory.
pub fn read<'a>(line: &[u8], memory: &'a mut LineMemory) -> Line<'a>
    ensures { says result ≡ line_says line.now }
{
    match line {
        [] | [b'#', ..] => Line::Nothing,
        _ if LONGEST < line.len() => Line::Unreadable,
        _ => read_words(line, memory).unwrap_or(Line::Unreadable),
    }
}
