//! The parts of a head as `show` prints them, each its own lines.
ghost use Rattle.std.specs.Prelude.{Some};
ghost use Rattle.telling.specs.Heads.{standing_text, identity_text, nmt_line, dll_line};
ghost use Rattle.telling.specs.Heads.{counter_line, counter_lines, error_lines, moment_text};
ghost use Rattle.telling.specs.Heads.{soc_line, object_text, objects_text, statistics_text};
ghost use Rattle.telling.specs.Heads.{dictionary_line, each_text};

use crate::styles::{CsStateForm, StateForm, Style};
use crate::texts::Flag;
use counters::counters::{ByKind, CnErrorCounters, ThresholdCounter};
use dll::cs_state_machine::DllCsStateMachine;
use head::state::{Dictionary, SocWatch};
use nmt::cn_state_machine::CnNmtStateMachine;
use std::fmt;
use std::fmt::Display;

// Where the state machine of the node's life stands.
#[derive(Clone, Copy)]
struct Standing(Style, CnNmtStateMachine);

#[tactic(auto, unfolding(crate::specs::Heads::standing_text))]
impl Display for Standing {
    ghost output = { λ x. Some (standing_text x.0 x.1) };

    fn fmt<W: fmt::Write>(&self, f: &mut fmt::Formatter<W>) -> fmt::Result {
        write!(
            f,
            "(state {}) (enabled {}) (ready {})",
            StateForm(self.0, self.1.current_state),
            Flag(self.1.ready_to_operate_enabled),
            Flag(self.1.app_ready)
        )
    }
}

// What a start gave it.
#[derive(Clone, Copy)]
struct Identity(CnNmtStateMachine);

#[tactic(auto, unfolding(crate::specs::Heads::identity_text))]
impl Display for Identity {
    ghost output = { λ x. Some (identity_text x.0) };

    fn fmt<W: fmt::Write>(&self, f: &mut fmt::Formatter<W>) -> fmt::Result {
        write!(
            f,
            "(node {}) (flags {}) (timeout {})",
            self.0.node_id.0, self.0.feature_flags.0, self.0.basic_ethernet_timeout
        )
    }
}

/// The state machine of the node's life.
#[derive(Clone, Copy)]
pub(crate) struct NmtLine(pub(crate) Style, pub(crate) CnNmtStateMachine);

#[tactic(auto, unfolding(crate::specs::Heads::nmt_line))]
impl Display for NmtLine {
    ghost output = { λ x. Some (nmt_line x.0 x.1) };

    fn fmt<W: fmt::Write>(&self, f: &mut fmt::Formatter<W>) -> fmt::Result {
        let NmtLine(style, machine) = *self;
        writeln!(
            f,
            "(nmt {} {})",
            Standing(style, machine),
            Identity(machine)
        )
    }
}

/// That of the cycle.
#[derive(Clone, Copy)]
pub(crate) struct DllLine(pub(crate) Style, pub(crate) DllCsStateMachine);

#[tactic(auto, unfolding(crate::specs::Heads::dll_line))]
impl Display for DllLine {
    ghost output = { λ x. Some (dll_line x.0 x.1) };

    fn fmt<W: fmt::Write>(&self, f: &mut fmt::Formatter<W>) -> fmt::Result {
        writeln!(f, "(dll {})", CsStateForm(self.0, self.1.current_state()))
    }
}

// A counter by its name: its level, and how many errors reached it.
#[derive(Clone, Copy)]
struct CounterLine<'a>(&'a str, ThresholdCounter);

#[tactic(auto, unfolding(crate::specs::Heads::counter_line))]
impl Display for CounterLine<'_> {
    ghost output = { λ x. Some (counter_line x.0.now x.1) };

    fn fmt<W: fmt::Write>(&self, f: &mut fmt::Formatter<W>) -> fmt::Result {
        let CounterLine(name, counter) = *self;
        writeln!(
            f,
            "({name} (level {}) (cumulative {}))",
            counter.threshold_cnt, counter.cumulative_cnt
        )
    }
}

// The seven counters.
#[derive(Clone, Copy)]
struct CounterLines(CnErrorCounters);

#[tactic(auto, unfolding(crate::specs::Heads::counter_lines))]
impl Display for CounterLines {
    ghost output = { λ x. Some (counter_lines x.0) };

    fn fmt<W: fmt::Write>(&self, f: &mut fmt::Formatter<W>) -> fmt::Result {
        let counters = self.0.counters;
        write!(
            f,
            "{}{}{}{}{}{}{}",
            CounterLine("collision", counters.collision),
            CounterLine("loss_of_soc", counters.loss_of_soc),
            CounterLine("loss_of_soa", counters.loss_of_soa),
            CounterLine("loss_of_preq", counters.loss_of_preq),
            CounterLine("soc_jitter", counters.soc_jitter),
            CounterLine("crc_errors", counters.crc_errors),
            CounterLine("heartbeat_timeout", counters.heartbeat_timeout)
        )
    }
}

/// The counters, and how often the link was lost.
#[derive(Clone, Copy)]
pub(crate) struct ErrorLines(pub(crate) CnErrorCounters);

#[tactic(auto, unfolding(crate::specs::Heads::error_lines))]
impl Display for ErrorLines {
    ghost output = { λ x. Some (error_lines x.0) };

    fn fmt<W: fmt::Write>(&self, f: &mut fmt::Formatter<W>) -> fmt::Result {
        writeln!(
            f,
            "{}(loss_of_link {})",
            CounterLines(self.0),
            self.0.loss_of_link_cumulative
        )
    }
}

/// A moment, in microseconds, or none.
#[derive(Clone, Copy)]
pub(crate) struct Moment(pub(crate) Option<u64>);

impl Display for Moment {
    ghost output = { λ x. Some (moment_text x.0) };

    fn fmt<W: fmt::Write>(&self, f: &mut fmt::Formatter<W>) -> fmt::Result {
        match self.0 {
            Some(moment) => write!(f, "{moment}"),
            None => write!(f, "none"),
        }
    }
}

/// The watch over the cycle.
#[derive(Clone, Copy)]
pub(crate) struct SocLine(pub(crate) SocWatch);

#[tactic(auto, unfolding(crate::specs::Heads::soc_line))]
impl Display for SocLine {
    ghost output = { λ x. Some (soc_line x.0) };

    fn fmt<W: fmt::Write>(&self, f: &mut fmt::Formatter<W>) -> fmt::Result {
        let soc = self.0;
        writeln!(
            f,
            "(soc (last {}) (check {}) (deadline {}) (status_changed {}))",
            soc.last_soc_reception_time_us,
            Flag(soc.soc_timeout_check_active),
            Moment(soc.next_tick_us.moment()),
            Flag(soc.error_status_changed)
        )
    }
}

// An object's value, or that it is missing.
#[derive(Clone, Copy)]
struct Object(Option<u32>);

impl Display for Object {
    ghost output = { λ x. Some (object_text x.0) };

    fn fmt<W: fmt::Write>(&self, f: &mut fmt::Formatter<W>) -> fmt::Result {
        match self.0 {
            Some(value) => write!(f, "{value}"),
            None => write!(f, "missing"),
        }
    }
}

// The objects of a dictionary that are no statistics.
#[derive(Clone, Copy)]
struct Objects(Dictionary);

#[tactic(auto, unfolding(crate::specs::Heads::objects_text))]
impl Display for Objects {
    ghost output = { λ x. Some (objects_text x.0) };

    fn fmt<W: fmt::Write>(&self, f: &mut fmt::Formatter<W>) -> fmt::Result {
        write!(
            f,
            "(register {}) (cycle {}) (tolerance {})",
            self.0.error_register,
            Object(self.0.cycle_time),
            Object(self.0.tolerance)
        )
    }
}

// Its statistics.
#[derive(Clone, Copy)]
struct Statistics(Dictionary);

#[tactic(auto, unfolding(crate::specs::Heads::statistics_text))]
impl Display for Statistics {
    ghost output = { λ x. Some (statistics_text x.0) };

    fn fmt<W: fmt::Write>(&self, f: &mut fmt::Formatter<W>) -> fmt::Result {
        write!(
            f,
            "(c1 {}) (c2 {}) (c3 {}) (c5 {})",
            self.0.counter_1, self.0.counter_2, self.0.counter_3, self.0.counter_5
        )
    }
}

/// The values of the dictionary.
#[derive(Clone, Copy)]
pub(crate) struct DictionaryLine(pub(crate) Dictionary);

#[tactic(auto, unfolding(crate::specs::Heads::dictionary_line))]
impl Display for DictionaryLine {
    ghost output = { λ x. Some (dictionary_line x.0) };

    fn fmt<W: fmt::Write>(&self, f: &mut fmt::Formatter<W>) -> fmt::Result {
        writeln!(f, "(dictionary {} {})", Objects(self.0), Statistics(self.0))
    }
}

/// A number of each of the seven counters, in the order of their lines.
#[derive(Clone, Copy)]
pub(crate) struct Each(pub(crate) ByKind<u32>);

#[tactic(auto, unfolding(crate::specs::Heads::each_text))]
impl Display for Each {
    ghost output = { λ x. Some (each_text x.0) };

    fn fmt<W: fmt::Write>(&self, f: &mut fmt::Formatter<W>) -> fmt::Result {
        write!(
            f,
            "{} {} {} {} {} {} {}",
            self.0.collision,
            self.0.loss_of_soc,
            self.0.loss_of_soa,
            self.0.loss_of_preq,
            self.0.soc_jitter,
            self.0.crc_errors,
            self.0.heartbeat_timeout
        )
    }
}
