//! Numbers in hexadecimal, with capitals and a fixed number of digits.
ghost use Rattle.std.specs.Prelude.{◌≡◌, ◌%◌, Some};
ghost use Rattle.forms.specs.Hex.{glyph, hex_digits, hex_form};

use std::fmt;
use std::fmt::Display;

/// A byte that is printed as 0x and two digits.
#[derive(Clone, Copy)]
pub struct HexByte(pub u8);

// The last hexadecimal digit of n, in capitals.
fn digit(n: u64) -> u8
    ensures { result ≡ glyph (n % 16) }
{
    let d = (n % 16) as u8;
    if d < 10 { b'0' + d } else { b'A' + (d - 10) }
}

/// The last N hexadecimal digits of n, as ASCII.
pub fn digits<const N: usize>(n: u64) -> [u8; N]
    ensures { result ≡ hex_digits N n }
{
    let mut digits = [b'0'; N];
    let mut left = n;
    for place in (0..N).rev() {
        digits[place] = digit(left);
        left /= 16;
    }
    digits
}

/// 0x and the last two hexadecimal digits of n, as ASCII.
pub fn hex2(n: u64) -> [u8; 4]
    ensures { result ≡ hex_form 2 n }
{
    let [a, b]: [u8; 2] = digits(n);
    [b'0', b'x', a, b]
}

/// 0x and the last four hexadecimal digits of n, as ASCII.
pub fn hex4(n: u64) -> [u8; 6]
    ensures { result ≡ hex_form 4 n }
{
    let [a, b, c, d]: [u8; 4] = digits(n);
    [b'0', b'x', a, b, c, d]
}

impl Display for HexByte {
    ghost output = { λ n. Some (hex_form 2 n.0) };

    fn fmt<W: fmt::Write>(&self, f: &mut fmt::Formatter<W>) -> fmt::Result {
        let [high, low]: [u8; 2] = digits(u64::from(self.0));
        write!(f, "0x{}{}", high as char, low as char)
    }
}
