// Numbers as text: base ten and hexadecimal, read and written. The definitions are in specs/, with the laws in proofs/
// that each way gives back what the other took.
#![tactic(auto)]

ghost use Rattle.std.specs.Prelude.{◌≡◌, ◌+◌, ◌-◌, ◌*◌, ◌<◌, ◌≤◌, length, drop};
ghost use Rattle.digits.specs.Decimal.{is_digit, all_digits, value};
ghost use Rattle.digits.specs.Decimal.{decimal as Decimal·decimal};
ghost use Rattle.digits.specs.Hex.{is_hex, all_hex, hex_value, hex_digit, hex_bytes, hex_text};
ghost use Rattle.digits.specs.Hex.{half as Hex·half};

use std::array;

pub fn is_digit(x: u8) -> bool
    ensures { result ≡ is_digit x }
{
    x.is_ascii_digit()
}

#[tactic(auto, unfolding(crate::specs::Decimal::all_digits))]
pub fn all_digits(s: &[u8]) -> bool
    ensures { result ≡ all_digits s.now }
{
    s.iter().all(|x| is_digit(*x))
}

// What a byte says as a digit.
fn digit(x: u8) -> usize
    ensures { (result ≡ x - 48) × (result < 256) }
{
    usize::from(x.saturating_sub(b'0'))
}

// The number that up to four digits say.
pub fn number(s: &[u8]) -> usize
    requires { length s.now ≤ 4 }
    ensures { result ≡ value s.now }
{
    let mut v = 0;
    for x in s {
        v = 10 * v + digit(*x);
    }
    v
}

// A number as text: the bytes from `from` on.
#[derive(Clone, Copy)]
pub struct Digits {
    pub text: [u8; 20],
    pub from: usize,
}

pub fn decimal(x: u64) -> Digits
    ensures { (length result.text ≡ 20) × (result.from ≤ 20) × (drop result.from result.text ≡ Decimal·decimal x) }
{
    let mut text = [b'0'; 20];
    text[19] = b'0' + (x % 10) as u8;
    let mut from = 19;
    let mut y = x / 10;
    while 0 < y {
        from -= 1;
        text[from] = b'0' + (y % 10) as u8;
        y /= 10;
    }
    Digits { text, from }
}

pub fn is_hex(x: u8) -> bool
    ensures { result ≡ is_hex x }
{
    matches!(x, b'0'..=b'9' | b'a'..=b'f')
}

#[tactic(auto, unfolding(crate::specs::Hex::all_hex))]
pub fn all_hex(s: &[u8]) -> bool
    ensures { result ≡ all_hex s.now }
{
    s.iter().all(|x| is_hex(*x))
}

#[tactic(auto, unfolding(crate::specs::Hex::hex_value))]
fn hex_value(x: u8) -> u8
    ensures { (result ≡ hex_value x) × (result < 16) }
{
    match x {
        b'0'..=b'9' => x - b'0',
        b'a'..=b'f' => x - b'a' + 10,
        _ => 0,
    }
}

#[tactic(auto, unfolding(crate::specs::Hex::hex_digit))]
fn hex_digit(v: u8) -> u8
    requires { v < 16 }
    ensures { result ≡ hex_digit v }
{
    if v < 10 { b'0' + v } else { b'a' + (v - 10) }
}

// The eight bytes that sixteen digits say.
pub fn hex_bytes(s: &[u8]) -> [u8; 8]
    requires { length s.now ≡ 16 }
    ensures { result ≡ hex_bytes 8 s.now }
{
    array::from_fn(|i| 16 * hex_value(s[2 * i]) + hex_value(s[2 * i + 1]))
}

// A half of a byte as a digit, the high one where `j` is even.
#[tactic(auto, unfolding(crate::specs::Hex::half))]
fn half(x: u8, j: usize) -> u8
    ensures { result ≡ Hex·half x j }
{
    if j % 2 == 0 {
        hex_digit(x / 16)
    } else {
        hex_digit(x % 16)
    }
}

// The sixteen digits of eight bytes.
pub fn hex_text(b: &[u8; 8]) -> [u8; 16]
    ensures { result ≡ hex_text 8 b.now }
{
    array::from_fn(|j| half(b[j / 2], j))
}
