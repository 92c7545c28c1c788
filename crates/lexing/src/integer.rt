// Integers of 128 bits, in two's complement.
ghost use Rattle.std.specs.Prelude.{◌≡◌, true, false, ◌≤◌, length};
ghost use Rattle.reading.specs.Bytes.{just};
ghost use Rattle.reading.specs.Number.{value_of, sign_bytes, signed as signed_of, integer_of};
ghost use Rattle.words.specs.Quads.{as_wide};
ghost use Rattle.lexing.specs.Quads.{as_integer, number_of};

use crate::number::magnitude;
use crate::quad::negate;
use words::quad::Quad;

// The lowest integer, and its magnitude: 2^127.
const LOWEST: Quad = Quad {
    a: 0,
    b: 0,
    c: 0,
    d: 0x8000_0000,
};

// How many bytes a sign takes in front.
#[tactic(auto, unfolding(reading::specs::Number::sign_bytes, reading::specs::Number::plus_bytes, reading::specs::Pick::pick))]
pub fn sign_bytes(t: &[u8]) -> usize
    ensures { (result ≡ sign_bytes t.now) × (result ≤ length t.now) }
{
    match t {
        [b'-' | b'+', ..] => 1,
        _ => 0,
    }
}

// A magnitude as an integer, where it is in range.
fn positive(q: Quad) -> Option<Quad>
    ensures { result ≡ as_integer (signed_of false (just (value_of (as_wide q)))) }
{
    if q.d < LOWEST.d { Some(q) } else { None }
}

// Minus a magnitude as an integer, where it is in range: 2^127 is the last.
fn negative(q: Quad) -> Option<Quad>
    ensures { result ≡ as_integer (signed_of true (just (value_of (as_wide q)))) }
{
    if q.d < LOWEST.d || q == LOWEST {
        return Some(negate(q));
    }
    None
}

// The integer that the bytes are: an optional sign and digits.
pub fn integer(t: &[u8]) -> Option<Quad>
    ensures { result ≡ as_integer (integer_of t.now) }
{
    let [first, ..] = t else {
        return None;
    };
    let q = magnitude(&t[sign_bytes(t)..], 10)?;
    if *first == b'-' {
        negative(q)
    } else {
        positive(q)
    }
}
