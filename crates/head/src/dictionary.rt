//! The values of the object dictionary that a head keeps in words.
ghost use Rattle.std.specs.Prelude.{◌≡◌, ◌+◌, ◌%◌, ◌≤◌, slice_set};
ghost use Rattle.head.specs.Places as at;
ghost use Rattle.head.specs.Words.{word, object_at, od_of};
ghost use Rattle.head.specs.Written.{object_written, od_written};

use crate::state::{Dictionary, Head, Object, Statistic};
use crate::words::{byte_at, set_option};

// The error register; the other values stand at the numbers of `Object` and `Statistic`.
const REGISTER: usize = 43;

// The word that says whether there is a value; the value is behind it.
fn object_place(object: Object) -> usize
    ensures { (result ≡ at.object object) × (result ≤ 46) }
{
    object as usize
}

// A value that may be missing.
fn object_at(head: &Head, object: Object) -> Option<u32>
    ensures { result ≡ object_at head.now (at.object object) }
{
    let place = object_place(object);
    (head[place] != 0).then_some(head[place + 1])
}

// The word of a counter of object 0x1102.
fn statistic_place(statistic: Statistic) -> usize
    ensures { (result ≡ at.statistic statistic) × (result ≤ 51) }
{
    statistic as usize
}

/// A counter of object 0x1102.
pub fn statistic_of(head: &Head, statistic: Statistic) -> u32
    ensures { result ≡ word head.now (at.statistic statistic) }
{
    let place = statistic_place(statistic);
    head[place]
}

/// The values of the dictionary.
pub fn od_of(head: &Head) -> Dictionary
    ensures { result ≡ od_of head.now }
{
    Dictionary {
        error_register: byte_at(head, REGISTER),
        cycle_time: object_at(head, Object::CycleTime),
        tolerance: object_at(head, Object::Tolerance),
        counter_1: statistic_of(head, Statistic::Counter1),
        counter_2: statistic_of(head, Statistic::Counter2),
        counter_3: statistic_of(head, Statistic::Counter3),
        counter_5: statistic_of(head, Statistic::Counter5),
    }
}

/// The error register, object 0x1001.
pub fn register_of(head: &Head) -> u8
    ensures { result ≡ word head.now at.register % 256 }
{
    byte_at(head, REGISTER)
}

/// Writes the error register.
pub fn set_register(head: &mut Head, register: u8)
    ensures { head.new ≡ slice_set head.old at.register register }
{
    head[REGISTER] = register as u32;
}

/// Writes a value that may be missing. Where it is, its own word stays as it was.
pub fn set_object(head: &mut Head, object: Object, value: Option<u32>)
    ensures { head.new ≡ object_written head.old (at.object object) value }
{
    let place = object_place(object);
    set_option(head, place, value, |head, n| head[place + 1] = n);
}

/// Writes a counter of object 0x1102.
pub fn set_statistic(head: &mut Head, statistic: Statistic, count: u32)
    ensures { head.new ≡ slice_set head.old (at.statistic statistic) count }
{
    let place = statistic_place(statistic);
    head[place] = count;
}

/// Raises a counter of object 0x1102 by 1; from 2^32 - 1 it goes to 0.
pub fn increment_counter(head: &mut Head, statistic: Statistic)
    ensures { head.new ≡ slice_set head.old (at.statistic statistic)
        ((word head.old (at.statistic statistic) + 1) % 4294967296) }
{
    let count = statistic_of(head, statistic);
    set_statistic(head, statistic, count.wrapping_add(1));
}

/// Writes the values of the dictionary.
pub fn set_od(head: &mut Head, od: Dictionary)
    ensures { head.new ≡ od_written head.old od }
{
    set_register(head, od.error_register);
    set_object(head, Object::CycleTime, od.cycle_time);
    set_object(head, Object::Tolerance, od.tolerance);
    set_statistic(head, Statistic::Counter1, od.counter_1);
    set_statistic(head, Statistic::Counter2, od.counter_2);
    set_statistic(head, Statistic::Counter3, od.counter_3);
    set_statistic(head, Statistic::Counter5, od.counter_5);
}
