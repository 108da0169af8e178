//! Load: the values of the dictionary that a load names, and the history.
ghost use Rattle.std.specs.Prelude.{◌≡◌};
ghost use Rattle.node.specs.Steps.{updated};
ghost use Rattle.head.specs.Places as at;
ghost use Rattle.head.specs.Words.{od_of, head_of};
ghost use Rattle.node.specs.Loaded.{number_loaded, object_loaded, ByteFits, values_loaded};
ghost use Rattle.node.specs.Loaded.{bytes_named, LoadedIn};
ghost use Rattle.head.specs.Head.{head_with_od};

use entries::error_history::ErrorHistory;
use entries::sizes::HistoryBytes;
use head::dictionary::{set_object, set_register, set_statistic};
use head::memory::set_history;
use head::state::{Head, Object, Statistic};

/// The values of the dictionary that a load names; `None` leaves one as it is. Cycle and tolerance
/// may also be set to missing.
#[derive(Clone, Copy, PartialEq, Eq)]
pub struct DictionaryUpdate {
    /// The error register, object 0x1001.
    pub error_register: Option<u8>,
    /// The cycle, object 0x1006, in µs.
    pub cycle_time: Option<Option<u32>>,
    /// The tolerance of the SoC, object 0x1C14, in ns.
    pub tolerance: Option<Option<u32>>,
    /// Counter 1 of object 0x1102.
    pub counter_1: Option<u32>,
    /// Counter 2 of object 0x1102.
    pub counter_2: Option<u32>,
    /// Counter 3 of object 0x1102.
    pub counter_3: Option<u32>,
    /// Counter 5 of object 0x1102.
    pub counter_5: Option<u32>,
}

// A writer for each type of value and no generic one, which would take the line of each as a
// closure, seven times.
fn load_register(head: &mut Head, update: Option<u8>)
    ensures { (head.new ≡ number_loaded head.old at.register update) × ByteFits update }
{
    if let Some(n) = update {
        set_register(head, n);
    }
}

fn load_object(head: &mut Head, object: Object, update: Option<Option<u32>>)
    ensures { head.new ≡ object_loaded head.old (at.object object) update }
{
    if let Some(value) = update {
        set_object(head, object, value);
    }
}

fn load_statistic(head: &mut Head, statistic: Statistic, update: Option<u32>)
    ensures { head.new ≡ number_loaded head.old (at.statistic statistic) update }
{
    if let Some(n) = update {
        set_statistic(head, statistic, n);
    }
}

// Writes the words of the values that are named, and no others.
fn load_values(head: &mut Head, values: DictionaryUpdate)
    ensures { (head_of head.new ≡ head_with_od (head_of head.old) (updated (od_of head.old) values))
        × (head.new ≡ values_loaded head.old values) }
{
    load_register(head, values.error_register);
    load_object(head, Object::CycleTime, values.cycle_time);
    load_object(head, Object::Tolerance, values.tolerance);
    load_statistic(head, Statistic::Counter1, values.counter_1);
    load_statistic(head, Statistic::Counter2, values.counter_2);
    load_statistic(head, Statistic::Counter3, values.counter_3);
    load_statistic(head, Statistic::Counter5, values.counter_5);
}

/// Sets the values that are named and, where entries are given, the history from their bytes, 20 an
/// entry, newest first: of more than 254 whole entries the first 254 are taken, and bytes behind
/// the last whole one are no entry. What is not named stays as it is; nothing is refused.
pub fn load(
    head: &mut Head,
    memory: &mut HistoryBytes,
    values: DictionaryUpdate,
    entries: Option<&[u8]>,
)
    ensures { LoadedIn head.old memory.old values (bytes_named entries.entry) head.new memory.new }
{
    load_values(head, values);
    if let Some(entries) = entries {
        let history = ErrorHistory::load(memory, entries);
        set_history(head, history);
    }
}
