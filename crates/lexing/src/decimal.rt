// Which bytes are a decimal.
ghost use Rattle.std.specs.Prelude.{◌≡◌, ◌≤◌, length, drop};
ghost use Rattle.reading.specs.Number.{sign_bytes};
ghost use Rattle.reading.specs.Decimal.{leading_digits, some_digits, is_exponent, is_fraction, is_unsigned_decimal, is_decimal};

use crate::integer::sign_bytes;
use crate::number::is_digit;

// How many digits stand in front.
fn leading_digits(t: &[u8]) -> usize
    ensures { (result ≡ leading_digits t.now) × (result ≤ length t.now) }
{
    for (i, &b) in t.iter().enumerate() {
        if !is_digit(10, b as u64) {
            return i;
        }
    }
    t.len()
}

// Whether the bytes are digits, at least one.
fn some_digits(t: &[u8]) -> bool
    ensures { result ≡ some_digits t.now }
{
    t.len() != 0 && leading_digits(t) == t.len()
}

// Whether the bytes are an optional sign and digits.
fn signed_digits(t: &[u8]) -> bool
    ensures { result ≡ some_digits (drop (sign_bytes t.now) t.now) }
{
    let k = sign_bytes(t);
    some_digits(&t[k..])
}

// Whether the bytes are an exponent, or none are there.
fn is_exponent(t: &[u8]) -> bool
    ensures { result ≡ is_exponent t.now }
{
    match t {
        [] => true,
        [b'e' | b'E', behind @ ..] => signed_digits(behind),
        _ => false,
    }
}

// Whether n digits in front and the bytes behind them are a decimal.
fn is_fraction(t: &[u8], n: usize) -> bool
    requires { n ≤ length t.now }
    ensures { result ≡ is_fraction n (drop n t.now) }
{
    if t.len() <= n {
        return 0 < n;
    }
    if t[n] == b'.' {
        let m = leading_digits(&t[n + 1..]);
        return n + m != 0 && is_exponent(&t[n + 1 + m..]);
    }
    n != 0 && is_exponent(&t[n..])
}

// Whether the bytes are a decimal without a sign.
fn is_unsigned(t: &[u8]) -> bool
    ensures { result ≡ is_unsigned_decimal t.now }
{
    let n = leading_digits(t);
    is_fraction(t, n)
}

// Whether the bytes are a decimal.
pub fn is_decimal(t: &[u8]) -> bool
    ensures { result ≡ is_decimal t.now }
{
    let k = sign_bytes(t);
    is_unsigned(&t[k..])
}
