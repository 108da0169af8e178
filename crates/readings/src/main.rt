//! Prints what each 8-bit number is read as, the named node numbers, the events of each kind of
//! frame, the code of each kind of error and the kind behind each code, the feature flags, and
//! times at their limits, one form a line. The stored output was printed by the original Rust
//! (compare/), so a run shows that both agree.
#![tactic(auto)]

ghost use Rattle.std.specs.Prelude.{◌≡◌, map};
ghost use Rattle.readings.specs.Shown.{flag_at, places};

mod frames;
mod kinds;
mod times;

use forms::output::Output;
use std::io;
use types::frame::error::kinds::DllErrorKind;
use types::nmt::events::{NmtManagingCommand, NmtStateCommand};
use types::nmt::flags::FeatureFlags;
use types::nmt::states::NmtState;
use types::types::{
    C_ADR_BROADCAST_NODE_ID, C_ADR_DIAG_DEF_NODE_ID, C_ADR_MN_DEF_NODE_ID, C_ADR_RT1_DEF_NODE_ID,
    MessageType, NodeId,
};

// Whether each number is a node's.
fn print_nodes(out: &mut Output) {
    for n in 0..=255u8 {
        if NodeId::try_from(n).is_ok() {
            writeln!(out, "(node {n} taken)");
        } else {
            writeln!(out, "(node {n} refused)");
        }
    }
}

// The four node numbers that have a name.
const ADDRESSES: [u8; 4] = [
    C_ADR_MN_DEF_NODE_ID,
    C_ADR_DIAG_DEF_NODE_ID,
    C_ADR_RT1_DEF_NODE_ID,
    C_ADR_BROADCAST_NODE_ID,
];

fn print_addresses(out: &mut Output) {
    for (k, number) in ADDRESSES.iter().enumerate() {
        writeln!(out, "(address {k} {number})");
    }
}

// For each number the one that it is read as, or that it is refused; a line begins with `begins`.
fn print_readings<F: Fn(u8) -> Option<u8>>(out: &mut Output, begins: &str, reading: F)
    requires { F.IsAlwaysCallable reading }
{
    for n in 0..=255u8 {
        match reading(n) {
            Some(number) => writeln!(out, "{begins}{n} {number:#04X})"),
            None => writeln!(out, "{begins}{n} refused)"),
        }
    }
}

// The code of each kind of error.
fn print_codes(out: &mut Output) {
    for kind in DllErrorKind::ALL {
        writeln!(out, "(code {} {:#06X})", kind.place(), kind.to_error_code());
    }
}

// The flags, from the lowest bit on.
fn flags() -> [FeatureFlags; 16]
    ensures { result ≡ map flag_at places }
{
    [
        FeatureFlags::ISOCHRONOUS,
        FeatureFlags::SDO_UDP,
        FeatureFlags::SDO_ASND,
        FeatureFlags::SDO_PDO,
        FeatureFlags::NMT_INFO_SERVICES,
        FeatureFlags::EXTENDED_NMT_CMDS,
        FeatureFlags::DYNAMIC_PDO_MAPPING,
        FeatureFlags::NMT_SERVICE_UDP,
        FeatureFlags::CONFIG_MANAGER,
        FeatureFlags::MULTIPLEXED_ACCESS,
        FeatureFlags::NODE_ID_BY_SW,
        FeatureFlags::MN_BASIC_ETHERNET,
        FeatureFlags::ROUTING_TYPE_1,
        FeatureFlags::ROUTING_TYPE_2,
        FeatureFlags::SDO_RW_ALL_BY_INDEX,
        FeatureFlags::SDO_RW_MULTIPLE_BY_INDEX,
    ]
}

fn print_flags(out: &mut Output) {
    for (k, flag) in flags().iter().enumerate() {
        writeln!(out, "(flag {k} {})", flag.bits());
    }
}

fn main(rt: HostRuntime) -> io::Result<()> {
    let mut output = Output::new(rt.stdout());
    let out = &mut output;
    print_nodes(out);
    print_addresses(out);
    print_readings(
        out,
        "(state ",
        |n| NmtState::try_from(u64::from(n)).ok().map(NmtState::as_u8),
    );
    print_readings(
        out,
        "(command ",
        |n| NmtStateCommand::try_from(u64::from(n))
            .ok()
            .map(NmtStateCommand::as_u8),
    );
    print_readings(
        out,
        "(managing ",
        |n| NmtManagingCommand::try_from(u64::from(n))
            .ok()
            .map(NmtManagingCommand::as_u8),
    );
    print_readings(
        out,
        "(message ",
        |n| MessageType::try_from(n).ok().map(MessageType::as_u8),
    );
    frames::print_frames(out);
    print_codes(out);
    kinds::print_kinds(out);
    print_flags(out);
    times::print_times(out);
    times::print_additions(out);
    times::print_differences(out);
    output.end()
}
