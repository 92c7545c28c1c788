// Bytes laid into a slice that the caller lends, from a place on: one byte, all bytes of another slice, a number in decimal digits. Each
// function answers the place behind what it laid, or, where that does not fit, a place behind the end of the slice, which stands for bytes
// that do not fit wherever it is handed on. So a caller writes one piece behind the other, and looks at the last answer only.
// A place and no Option, since specs/Wrote.antt promises it: pieces that follow one another are one piece, whether they fit or not.
#![tactic(auto)]

ghost use Rattle.std.specs.Prelude.{◌≡◌, [], ◌∷◌, ◌+◌, ◌*◌, ◌^◌, ◌<◌, ltb, length};
ghost use Rattle.reading.specs.Answer.{zeros};
ghost use Rattle.reading.specs.Number.{value_of};
ghost use Rattle.writing.specs.Wrote.{WroteBytes};
ghost use Rattle.writing.specs.Digits.{digit as digitOf, decimal as decimalOf};
ghost use Rattle.words.specs.Quads.{as_wide};
ghost use Rattle.writing.specs.Quads.{Tenths};

use words::number::WORD;
use words::quad::Quad;

// A word of a quotient by ten, and what is left.
#[derive(Clone, Copy)]
struct Part {
    quotient: u32,
    left: u32,
}

// The tenth of a number, and its last digit.
#[derive(Clone, Copy)]
struct Tenth {
    q: Quad,
    last: u8,
}

// A byte.
pub fn byte(out: &mut [u8], place: usize, b: u8) -> usize
    ensures { WroteBytes out.old place (b ∷ []) out.new result }
{
    if place < out.len() {
        out[place] = b;
        return place + 1;
    }
    out.len() + 1
}

// All bytes of a slice.
pub fn bytes(from: &[u8], out: &mut [u8], place: usize) -> usize
    ensures { WroteBytes out.old place from.now out.new result }
{
    if out.len() < place || out.len() - place < from.len() {
        return out.len() + 1;
    }
    // No `copy_from_slice`: with it an archive for C needs `memmove` from outside.
    for i in 0..from.len() {
        out[place + i] = from[i];
    }
    place + from.len()
}

// One word of a division by ten, with what is left of the words above it.
fn divided(over: u32, w: u32) -> Part
    requires { over < 10 }
    ensures { (result.quotient * 10 + result.left ≡ over * 2 ^ 32 + w) × (result.left < 10) }
{
    let t = u64::from(over) * WORD + u64::from(w);
    Part {
        quotient: (t / 10) as u32,
        left: (t % 10) as u32,
    }
}

// The number is one word.
#[tactic(auto, unfolding(reading::specs::Number::value_of))]
fn one_word(q: Quad) -> bool
    ensures { result ≡ ltb (value_of (as_wide q)) (2 ^ 32) }
{
    q.b == 0 && q.c == 0 && q.d == 0
}

// The number is one digit.
fn one_digit(q: Quad) -> bool
    ensures { result ≡ ltb (value_of (as_wide q)) 10 }
{
    one_word(q) && q.a < 10
}

// A number without its last digit.
fn shortened(q: Quad) -> Tenth
    ensures { Tenths (value_of (as_wide q)) (value_of (as_wide result.q)) result.last }
{
    if one_word(q) {
        return Tenth {
            q: Quad::from(u64::from(q.a / 10)),
            last: (q.a % 10) as u8,
        };
    }
    let x = divided(0, q.d);
    let y = divided(x.left, q.c);
    let z = divided(y.left, q.b);
    let w = divided(z.left, q.a);
    Tenth {
        q: Quad {
            a: w.quotient,
            b: z.quotient,
            c: y.quotient,
            d: x.quotient,
        },
        last: w.left as u8,
    }
}

// How many decimal digits a number has.
fn figures(q: Quad) -> usize
    ensures { result ≡ length (decimalOf (value_of (as_wide q))) }
{
    let mut rest = q;
    let mut n = 1;
    // No `for`: the number says when it has no more digits.
    while !one_digit(rest) {
        rest = shortened(rest).q;
        n += 1;
    }
    n
}

// A 128-bit number in decimal digits, without leading zeros. They are laid from the last to the first.
pub fn decimal(q: Quad, out: &mut [u8], place: usize) -> usize
    ensures { WroteBytes out.old place (decimalOf (value_of (as_wide q))) out.new result }
{
    if out.len() < place {
        return out.len() + 1;
    }
    let many = figures(q);
    if out.len() - place < many {
        return out.len() + 1;
    }
    let mut rest = q;
    for i in (1..many).rev() {
        let s = shortened(rest);
        out[place + i] = b'0' + s.last;
        rest = s.q;
    }
    out[place] = b'0' + rest.a as u8;
    place + many
}

// A word in decimal digits.
pub fn decimal_word(n: u32, out: &mut [u8], place: usize) -> usize
    ensures { WroteBytes out.old place (decimalOf n) out.new result }
{
    decimal(Quad::from(u64::from(n)), out, place)
}

// A hexadecimal digit.
#[tactic(auto, unfolding(crate::specs::Digits::digit, reading::specs::Pick::pick))]
pub fn digit(d: u32) -> u8
    requires { d < 16 }
    ensures { result ≡ digitOf d }
{
    let d = d as u8;
    if d < 10 { b'0' + d } else { b'a' + (d - 10) }
}

// Zeros throughout.
pub fn clear(out: &mut [u8])
    ensures { out.new ≡ zeros out.old }
{
    out.fill(0);
}
