//! The options of an interface's block: a code and a length, each of two bytes, and a value, which
//! is filled up to a multiple of four.
ghost use Rattle.std.specs.Prelude.{◌≡◌, ◌≤◌, ◌<◌, length, IfOk, IfSome};
ghost use Rattle.pcap.specs.Options.{with_option, option_at, with_options};

use crate::fault::{Flaw, Wrong};
use crate::interface::{Interface, Offset, per_second_of};
use crate::order::Order;

/// The code of the option that ends the options.
pub const END: u16 = 0;
/// The code of if_tsresol: the resolution of the times, a byte.
pub const RESOLUTION: u16 = 9;
/// The code of if_tsoffset: the seconds that are added to the times, eight bytes.
pub const OFFSET: u16 = 14;

// An interface with an option, which begins `at` bytes behind the front: LengthLies where its
// value has another length than it must have, UnknownResolution. An option that is not of the
// times changes nothing.
#[tactic(auto, unfolding(crate::specs::Options::with_option))]
fn with_option(
    order: Order,
    at: usize,
    interface: Interface,
    code: u16,
    value: &[u8],
) -> Result<Interface, Flaw>
    requires { length value.now < 65536 }
    ensures { result ≡ with_option order at interface code value.now }
{
    match code {
        RESOLUTION => {
            let [byte] = value else {
                return Err(Wrong::LengthLies(value.len() as u32).at(at));
            };
            let Some(per_second) = per_second_of(*byte) else {
                return Err(Wrong::UnknownResolution(*byte).at(at));
            };
            Ok(Interface {
                per_second,
                ..interface
            })
        }
        OFFSET => {
            if value.len() != 8 {
                return Err(Wrong::LengthLies(value.len() as u32).at(at));
            }
            Ok(Interface {
                offset: Offset::of(order.eight_at(value, 0)),
                ..interface
            })
        }
        _ => Ok(interface),
    }
}

// The option at the front of some options, which end `end` bytes behind the block's front: the
// interface with it, and how many bytes it has. None where they end. LengthLies where fewer than
// four bytes stand there, or its value has more bytes than are left for it.
#[tactic(auto, unfolding(crate::specs::Options::option_at))]
fn option_at(
    order: Order,
    end: usize,
    interface: Interface,
    options: &[u8],
) -> Result<Option<(Interface, usize)>, Flaw>
    requires { length options.now ≤ end }
    ensures gives { result ≡ option_at order end interface options.now }
    ensures used { IfOk result (λ o. IfSome o (λ x. (4 ≤ x.1) × (x.1 ≤ length options.now))) }
{
    if options.is_empty() {
        return Ok(None);
    }
    let at = end - options.len();
    if options.len() < 4 {
        return Err(Wrong::LengthLies(options.len() as u32).at(at));
    }
    let code = order.two_at(options, 0);
    if code == END {
        return Ok(None);
    }
    let length = order.two_at(options, 2);
    let used = 4 + (length as usize + 3) / 4 * 4;
    if options.len() < used {
        return Err(Wrong::LengthLies(length as u32).at(at));
    }
    let value = &options[4..4 + length as usize];
    Ok(Some((with_option(order, at, interface, code, value)?, used)))
}

/// An interface with its block's options, which end `end` bytes behind the block's front: those of
/// the times change it, all others are passed over. Refused where one of them begins: LengthLies,
/// UnknownResolution.
#[tactic(auto, using(crate::proofs::OptionLaws::option_more, crate::proofs::OptionLaws::option_end, crate::proofs::OptionLaws::option_wrong))]
pub(crate) fn with_options(
    order: Order,
    end: usize,
    plain: Interface,
    options: &[u8],
) -> Result<Interface, Flaw>
    requires { length options.now ≤ end }
    ensures { result ≡ with_options order end plain options.now }
{
    let mut interface = plain;
    let mut left = options;
    while let Some((next, used)) = option_at(order, end, interface, left)? {
        interface = next;
        left = &left[used..];
    }
    Ok(interface)
}
