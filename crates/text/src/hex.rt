// Numbers of 64 bits as 16 hexadecimal capitals.
ghost use Rattle.std.specs.Prelude.{◌≡◌, ℕ, ◌^◌, ◌<◌, Some, MatchOption, ◌≢◌, to_bits};
ghost use Rattle.std.specs.Float.{binary64};
ghost use Rattle.text.specs.Hex.{hex_char, hex_text};

use std::fmt;
use std::num::f64_to_bits_with_nan;

// The number that 16 hexadecimal capitals spell.
pub fn parse_bits(s: &[u8]) -> Option<u64>
    ensures { MatchOption result ((n : ℕ) → n < 2 ^ 64 → hex_text 16 n ≢ s.now)
        (λ n. (n < 2 ^ 64) × (hex_text 16 n ≡ s.now)) }
{
    if s.len() != 16 {
        return None;
    }
    let mut n: u64 = 0;
    for b in s {
        n = n * 16 + u64::from(hex_digit(*b)?);
    }
    Some(n)
}

// The value of a hexadecimal capital; `char::to_digit` would take small letters too.
fn hex_digit(b: u8) -> Option<u8>
    ensures { MatchOption result ((d : ℕ) → d < 16 → hex_char d ≢ b) (λ d. (d < 16) × (hex_char d ≡ b)) }
{
    match b {
        b'0'..=b'9' => Some(b - b'0'),
        b'A'..=b'F' => Some(b - b'A' + 10),
        _ => None,
    }
}

// The 16 hexadecimal capitals of a number, where there is nothing to write to.
pub fn bits_text(n: u64) -> [u8; 16]
    ensures { result ≡ hex_text 16 n }
{
    let mut text = [0u8; 16];
    let mut rest = n;
    // The last digit is the first to be had. By index, as of what `iter_mut().rev()` writes no proof knows anything.
    for i in (0..16usize).rev() {
        text[i] = hex_capital((rest % 16) as u8);
        rest /= 16;
    }
    text
}

// The capital of a digit.
fn hex_capital(d: u8) -> u8
    requires { d < 16 }
    ensures { result ≡ hex_char d }
{
    if d < 10 { b'0' + d } else { b'A' + (d - 10) }
}

// A number that prints as its 16 hexadecimal capitals.
#[derive(Clone, Copy, Debug, PartialEq, Eq)]
pub struct Bits(pub u64);

// The bits of a float, those of a NaN too.
impl From<f64> for Bits {
    ghost from_gives = { λ x bits. bits.0 ≡ to_bits binary64 x };

    fn from(x: f64) -> Bits {
        Bits(f64_to_bits_with_nan(x))
    }
}

impl fmt::Display for Bits {
    ghost output = { λ bits. Some (hex_text 16 bits.0) };

    fn fmt<W: fmt::Write>(&self, f: &mut fmt::Formatter<W>) -> fmt::Result {
        let bits = self.0;
        write!(f, "{bits:016X}")
    }
}
