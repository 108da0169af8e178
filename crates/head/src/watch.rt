//! The watch over the SoC, the deadline and the earliest moment of a head in words, and what a
//! reset forgets.
ghost use Rattle.std.specs.Prelude.{◌≡◌, slice_set};
ghost use Rattle.head.specs.Places as at;
ghost use Rattle.head.specs.Words.{word, yes, soc_of, earliest_of};
ghost use Rattle.head.specs.Written.{forgotten_written};
ghost use Rattle.head.specs.Written.{deadline_written, earliest_written, soc_written};

use crate::machines::DLL;
use crate::state::{Deadline, Head, SocWatch};
use crate::words::{moment_at, set_moment, set_time, time_at};

// The watch over the cycle.
const LAST_SOC: usize = 36;

const DEADLINE: usize = 38;

const CHECK: usize = 40;

const DUE: usize = 41;

const CHANGED: usize = 42;

// The earliest moment at which a watched node would be late.
const AWAITED: usize = 57;

const EARLIEST: usize = 58;

/// The watch over the SoC.
pub fn soc_of(head: &Head) -> SocWatch
    ensures { result ≡ soc_of head.now }
{
    SocWatch {
        last_soc_reception_time_us: time_at(head, LAST_SOC),
        soc_timeout_check_active: head[CHECK] != 0,
        next_tick_us: deadline_at(head),
        error_status_changed: head[CHANGED] != 0,
    }
}

/// Writes the watch over the SoC.
pub fn set_soc(head: &mut Head, soc: SocWatch)
    ensures { head.new ≡ soc_written head.old soc }
{
    set_time(head, LAST_SOC, soc.last_soc_reception_time_us);
    head[CHECK] = u32::from(soc.soc_timeout_check_active);
    head[CHANGED] = u32::from(soc.error_status_changed);
    set_deadline(head, soc.next_tick_us);
}

/// The deadline.
pub fn deadline_at(head: &Head) -> Deadline
    ensures { result ≡ (soc_of head.now).next_tick_us }
{
    moment_at(head, DUE, DEADLINE).map_or(Deadline::Nothing, Deadline::At)
}

/// Writes the deadline. Where there is none, the words of its time stay as they were.
pub fn set_deadline(head: &mut Head, deadline: Deadline)
    ensures { head.new ≡ deadline_written head.old deadline }
{
    set_moment(head, DUE, DEADLINE, deadline.moment());
}

/// Whether the SoC check is on.
pub fn check_of(head: &Head) -> bool
    ensures { result ≡ yes (word head.now at.check) }
{
    head[CHECK] != 0
}

/// Puts the SoC check off.
pub fn check_off(head: &mut Head)
    ensures { head.new ≡ slice_set head.old at.check 0 }
{
    head[CHECK] = 0;
}

/// Sets `error_status_changed`.
pub fn set_changed(head: &mut Head)
    ensures { head.new ≡ slice_set head.old at.changed 1 }
{
    head[CHANGED] = 1;
}

/// The earliest moment, in µs, at which a watched node would be late, or none.
pub fn earliest_of(head: &Head) -> Option<u64>
    ensures { result ≡ earliest_of head.now }
{
    moment_at(head, AWAITED, EARLIEST)
}

/// Writes the earliest moment. Where there is none, the words of its time stay as they were.
pub fn set_earliest(head: &mut Head, earliest: Option<u64>)
    ensures { head.new ≡ earliest_written head.old earliest }
{
    set_moment(head, AWAITED, EARLIEST, earliest);
}

/// What a reset forgets besides enabled and ready (RULES 4.5): no deadline stands, the SoC check is
/// off, and the DLL machine is NonCyclic.
pub fn forget(head: &mut Head)
    ensures { head.new ≡ forgotten_written head.old }
{
    head[DUE] = 0;
    head[CHECK] = 0;
    head[DLL] = 0;
}
