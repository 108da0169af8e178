//! Prints what every event does in every state of the NMT machine and of the DLL machine, one form
//! a line. The stored output was printed by the original Rust (compare/), so a run shows that both
//! agree.
#![tactic(auto)]

ghost use Rattle.std.specs.Prelude.{◌≡◌};
ghost use Rattle.transitions.specs.Pairs.{machine_of};

use dll::cs_state_machine::{DllCsState, DllCsStateMachine};
use forms::errors::ErrorsForm;
use forms::output::Output;
use nmt::cn_state_machine::{CnNmtStateMachine, Position};
use nmt::state_machine::{IndexRange, ResetSequence, is_reset};
use std::io;
use types::frame::cs_state_machine::DllCsEvent;
use types::nmt::events::NmtEvent;
use types::nmt::flags::FeatureFlags;
use types::nmt::states::NmtState;
use types::types::NodeId;

fn say_states(out: &mut Output, states: &[NmtState]) {
    for state in states {
        write!(out, " {:#04X}", state.as_u8());
    }
}

fn say_ranges(out: &mut Output, ranges: &[IndexRange]) {
    for range in ranges {
        write!(out, " ({:#06X} {:#06X})", range.first, range.last);
    }
}

// The states entered and the ranges to restore.
fn say_reset(out: &mut Output, reset: ResetSequence) {
    write!(out, "(entered");
    say_states(out, reset.entered());
    write!(out, ") (restore");
    say_ranges(out, reset.restored());
    write!(out, ")");
}

// The fields that an event can change.
fn say_machine(out: &mut Output, machine: CnNmtStateMachine) {
    write!(
        out,
        "{:#04X} (enabled {}) (ready {}))",
        machine.current_state.as_u8(),
        u8::from(machine.ready_to_operate_enabled),
        u8::from(machine.app_ready)
    );
}

fn print_nmt_event(out: &mut Output, machine: CnNmtStateMachine, event: NmtEvent) {
    write!(out, "(nmt (at ");
    say_machine(out, machine);
    write!(out, " (event {}) (to ", event.as_u8());
    let answer = machine.process_event(event);
    say_machine(out, answer.machine);
    write!(out, " ");
    if is_reset(event) {
        say_reset(out, answer.reset);
    } else {
        write!(out, "(errors{})", ErrorsForm(answer.errors));
    }
    writeln!(out, ")");
}

// A machine at a position; its node, flags and timeout are any.
fn machine_at(position: Position) -> CnNmtStateMachine
    ensures { result ≡ machine_of position }
{
    CnNmtStateMachine::new(NodeId(7), FeatureFlags(5), 5000).at(position)
}

fn print_nmt(out: &mut Output) {
    for state in NmtState::ALL {
        for event in NmtEvent::ALL {
            for enabled in [false, true] {
                for ready in [false, true] {
                    let position = Position {
                        state,
                        enabled,
                        ready,
                    };
                    print_nmt_event(out, machine_at(position), event);
                }
            }
        }
    }
}

fn print_dll_event(
    out: &mut Output,
    state: DllCsState,
    event: DllCsEvent,
    nmt: NmtState,
    expected: bool,
) {
    let answer = DllCsStateMachine { state }.process_event(event, nmt, expected);
    writeln!(
        out,
        "(dll (at {}) (event {}) (nmt {:#04X}) (expected {}) (to {}) (errors{}))",
        state.as_u8(),
        event.as_u8(),
        nmt.as_u8(),
        u8::from(expected),
        answer.machine.current_state().as_u8(),
        ErrorsForm(answer.errors)
    );
}

fn print_dll(out: &mut Output) {
    for state in DllCsState::ALL {
        for event in DllCsEvent::ALL {
            for nmt in NmtState::ALL {
                for expected in [false, true] {
                    print_dll_event(out, state, event, nmt, expected);
                }
            }
        }
    }
}

fn main(rt: HostRuntime) -> io::Result<()> {
    let mut out = Output::new(rt.stdout());
    print_nmt(&mut out);
    print_dll(&mut out);
    out.end()
}
