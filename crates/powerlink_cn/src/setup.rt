//! What C gives: a setup, and an update of the dictionary.
ghost use Rattle.std.specs.Prelude.{◌≡◌};
ghost use Rattle.node.specs.Loaded.{bytes_named};
ghost use Rattle.powerlink_cn.specs.Setups.{value_of, named, setup_of, update_of, history_of};
ghost use Rattle.powerlink_cn.specs.Setups.{thresholds_of};

use counters::counters::ByKind;
use head::state::Dictionary;
use node::load::DictionaryUpdate;
use start::start::Setup;
use types::nmt::flags::FeatureFlags;

/// A value of the dictionary that may be missing.
#[repr(C)]
#[derive(Clone, Copy, PartialEq, Eq)]
pub struct PlcnValue {
    /// Whether it is there; with 0 it is missing.
    pub there: u32,
    /// It; not looked at where it is missing.
    pub value: u32,
}

/// A threshold for each kind of error that is counted.
#[repr(C)]
#[derive(Clone, Copy, PartialEq, Eq)]
pub struct PlcnThresholds {
    pub collision: u32,
    pub loss_of_soc: u32,
    pub loss_of_soa: u32,
    pub loss_of_preq: u32,
    pub soc_jitter: u32,
    pub crc_errors: u32,
    pub heartbeat_timeout: u32,
}

/// What a head is started with.
#[repr(C)]
#[derive(Clone, Copy, PartialEq, Eq)]
pub struct PlcnSetup {
    /// The node's number.
    pub node: u8,
    /// The error register, object 0x1001.
    pub error_register: u8,
    /// Kept and never read.
    pub feature_flags: u32,
    /// In µs; 0 for no fall to BasicEthernet.
    pub basic_timeout_us: u32,
    /// The cycle, object 0x1006, in µs.
    pub cycle_us: PlcnValue,
    /// The tolerance of the SoC, object 0x1C14, in ns.
    pub tolerance_ns: PlcnValue,
    /// Counter 1 of object 0x1102.
    pub counter_1: u32,
    /// Counter 2.
    pub counter_2: u32,
    /// Counter 3.
    pub counter_3: u32,
    /// Counter 5.
    pub counter_5: u32,
    /// The thresholds.
    pub thresholds: PlcnThresholds,
    /// How many entries the emergency queue may hold.
    pub queue_capacity: u64,
}

/// Which values of the dictionary are loaded, and with what. A value is loaded where its mark is
/// not 0.
#[repr(C)]
#[derive(Clone, Copy, PartialEq, Eq)]
pub struct PlcnUpdate {
    pub set_error_register: u8,
    pub set_cycle: u8,
    pub set_tolerance: u8,
    pub set_counter_1: u8,
    pub set_counter_2: u8,
    pub set_counter_3: u8,
    pub set_counter_5: u8,
    /// Whether the entries that are given become the history.
    pub set_history: u8,
    /// The error register, object 0x1001.
    pub error_register: u8,
    /// The cycle, object 0x1006, in µs; it may be set to missing.
    pub cycle_us: PlcnValue,
    /// The tolerance of the SoC, object 0x1C14, in ns; it may be set to missing.
    pub tolerance_ns: PlcnValue,
    /// Counter 1 of object 0x1102.
    pub counter_1: u32,
    /// Counter 2.
    pub counter_2: u32,
    /// Counter 3.
    pub counter_3: u32,
    /// Counter 5.
    pub counter_5: u32,
}

impl PlcnValue {
    fn read(self) -> Option<u32>
        ensures { result ≡ value_of self }
    {
        if self.there == 0 {
            None
        } else {
            Some(self.value)
        }
    }
}

impl PlcnThresholds {
    fn read(self) -> ByKind<u32>
        ensures { result ≡ thresholds_of self }
    {
        ByKind {
            collision: self.collision,
            loss_of_soc: self.loss_of_soc,
            loss_of_soa: self.loss_of_soa,
            loss_of_preq: self.loss_of_preq,
            soc_jitter: self.soc_jitter,
            crc_errors: self.crc_errors,
            heartbeat_timeout: self.heartbeat_timeout,
        }
    }
}

impl PlcnSetup {
    /// The setup.
    pub fn read(self) -> Setup
        ensures { result ≡ setup_of self }
    {
        Setup {
            node: self.node,
            feature_flags: FeatureFlags(self.feature_flags),
            basic_ethernet_timeout: self.basic_timeout_us,
            queue_capacity: self.queue_capacity,
            od: Dictionary {
                error_register: self.error_register,
                cycle_time: self.cycle_us.read(),
                tolerance: self.tolerance_ns.read(),
                counter_1: self.counter_1,
                counter_2: self.counter_2,
                counter_3: self.counter_3,
                counter_5: self.counter_5,
            },
            thresholds: self.thresholds.read(),
        }
    }
}

// A value where its mark is not 0.
fn named<T: Copy + Drop>(mark: u8, value: T) -> Option<T>
    ensures { result ≡ named mark value }
{
    if mark == 0 { None } else { Some(value) }
}

impl PlcnUpdate {
    /// The update of the dictionary.
    pub fn read(self) -> DictionaryUpdate
        ensures { result ≡ update_of self }
    {
        DictionaryUpdate {
            error_register: named(self.set_error_register, self.error_register),
            cycle_time: named(self.set_cycle, self.cycle_us.read()),
            tolerance: named(self.set_tolerance, self.tolerance_ns.read()),
            counter_1: named(self.set_counter_1, self.counter_1),
            counter_2: named(self.set_counter_2, self.counter_2),
            counter_3: named(self.set_counter_3, self.counter_3),
            counter_5: named(self.set_counter_5, self.counter_5),
        }
    }

    /// The entries that become the history, if any.
    pub fn history(self, entries: &[u8]) -> Option<&[u8]>
        ensures { bytes_named result ≡ history_of self entries.now }
    {
        named(self.set_history, entries)
    }
}
