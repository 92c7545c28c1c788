// Numbers in digits.
ghost use Rattle.std.specs.Prelude.{◌≡◌, ◌^◌, ◌≤◌, length};
ghost use Rattle.reading.specs.Bytes.{just};
ghost use Rattle.reading.specs.Number.{value_of, is_digit, digits, below, plus_bytes, unsigned as unsignedOf};
ghost use Rattle.words.specs.Quads.{as_wide};
ghost use Rattle.lexing.specs.Quads.{as_mag, as_word, QuickOf};

use crate::quad::grow;
use words::number::words_to_long;
use words::quad::Quad;

// A number of 64 bits, none, or a number that may be longer.
#[derive(Clone, Copy)]
enum Quick {
    Is(u64),
    No,
    Long,
}

// The largest number that fits 64 bits with a decimal digit more.
const LAST: u64 = 1844674407370955160;

// Whether a byte is a digit.
#[tactic(auto, unfolding(reading::specs::Number::is_digit, reading::specs::Pick::pick))]
pub fn is_digit(base: u64, b: u64) -> bool
    requires { base ≤ 10 }
    ensures { result ≡ is_digit base b }
{
    48 <= b && b < 48 + base
}

// The number that the digits give, where it is found to fit 64 bits.
fn short_digits(t: &[u8], base: u64) -> Quick
    requires { base ≤ 10 }
    ensures { QuickOf result (digits base t.now) }
{
    if t.len() == 0 {
        return Quick::No;
    }
    let mut v = 0;
    for &b in t {
        if !is_digit(base, b as u64) {
            return Quick::No;
        }
        if LAST < v {
            return Quick::Long;
        }
        v = base * v + u64::from(b - b'0');
    }
    Quick::Is(v)
}

// The number that the digits give, in four words from the start.
fn long_digits(t: &[u8], base: u64) -> Option<Quad>
    requires { (1 ≤ base) × (base ≤ 10) }
    ensures { result ≡ as_mag (below (2 ^ 128) (digits base t.now)) }
{
    if t.len() == 0 {
        return None;
    }
    let mut q = Quad::from(0);
    for &b in t {
        if !is_digit(base, b as u64) {
            return None;
        }
        let g = grow(q, base, u64::from(b - b'0'));
        if g.over != 0 {
            return None;
        }
        q = g.q;
    }
    Some(q)
}

// The number that the digits give, below 2^128.
pub fn magnitude(t: &[u8], base: u64) -> Option<Quad>
    requires { (1 ≤ base) × (base ≤ 10) }
    ensures { result ≡ as_mag (below (2 ^ 128) (digits base t.now)) }
{
    match short_digits(t, base) {
        Quick::Is(v) => Some(Quad::from(v)),
        Quick::No => None,
        Quick::Long => long_digits(t, base),
    }
}

// How many bytes a `+` takes in front.
#[tactic(auto, unfolding(reading::specs::Number::plus_bytes, reading::specs::Pick::pick))]
pub fn plus_bytes(t: &[u8]) -> usize
    ensures { (result ≡ plus_bytes t.now) × (result ≤ length t.now) }
{
    match t {
        [b'+', ..] => 1,
        _ => 0,
    }
}

// An optional `+` and digits, below 2^128.
pub fn unsigned(t: &[u8], base: u64) -> Option<Quad>
    requires { (1 ≤ base) × (base ≤ 10) }
    ensures { result ≡ as_mag (unsignedOf base (2 ^ 128) t.now) }
{
    let k = plus_bytes(t);
    magnitude(&t[k..], base)
}

// The number of four words, where it has 64 bits.
fn low_words(q: Quad) -> Option<u64>
    ensures { result ≡ as_word (below (2 ^ 64) (just (value_of (as_wide q)))) }
{
    if q.c != 0 || q.d != 0 {
        return None;
    }
    Some(words_to_long(q.a, q.b))
}

// An optional `+` and decimal digits, of 32 bits.
pub fn u32_of(t: &[u8]) -> Option<u32>
    ensures { result ≡ as_word (unsignedOf 10 (2 ^ 32) t.now) }
{
    u32::try_from(u64_of(t)?).ok()
}

// An optional `+` and decimal digits, of 64 bits.
pub fn u64_of(t: &[u8]) -> Option<u64>
    ensures { result ≡ as_word (unsignedOf 10 (2 ^ 64) t.now) }
{
    low_words(unsigned(t, 10)?)
}
