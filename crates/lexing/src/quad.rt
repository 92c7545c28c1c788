// 128-bit numbers as four words.
ghost use Rattle.std.specs.Prelude.{◌≡◌, ◌+◌, ◌*◌, ◌^◌, ◌≤◌, ◌<◌};
ghost use Rattle.reading.specs.Number.{minus_of};
ghost use Rattle.words.specs.Quads.{as_quad, as_wide};
ghost use Rattle.lexing.specs.Quads.{Grows};

use words::number::WORD;
use words::quad::Quad;

// A word, and what is carried to the next one.
#[derive(Clone, Copy)]
struct Limb {
    lo: u32,
    hi: u64,
}

// Four words, and what is carried out of the last one.
#[derive(Clone, Copy)]
pub struct Grown {
    pub q: Quad,
    pub over: u64,
}

// m times a word, and k more.
fn times(w: u32, m: u64, k: u64) -> Limb
    requires { (m ≤ 10) × (k ≤ m) }
    ensures { (result.lo + 2 ^ 32 * result.hi ≡ m * w + k) × (result.hi ≤ m) × (result.lo < 2 ^ 32) }
{
    let t = m * (w as u64) + k;
    Limb {
        lo: (t % WORD) as u32,
        hi: t / WORD,
    }
}

// m times q, and a digit more.
pub fn grow(q: Quad, m: u64, digit: u64) -> Grown
    requires { (m ≤ 10) × (digit ≤ m) }
    ensures { Grows (as_wide q) m digit (as_wide result.q) result.over }
{
    let x = times(q.a, m, digit);
    let y = times(q.b, m, x.hi);
    let z = times(q.c, m, y.hi);
    let w = times(q.d, m, z.hi);
    Grown {
        q: Quad {
            a: x.lo,
            b: y.lo,
            c: z.lo,
            d: w.lo,
        },
        over: w.hi,
    }
}

// Minus a word, and k less, with what is borrowed.
fn flip(w: u32, k: u64) -> Limb
    requires { k ≤ 1 }
    ensures { (result.lo + w + k ≡ 2 ^ 32 * result.hi) × (result.hi ≤ 1) × (result.lo < 2 ^ 32) }
{
    let t = WORD - (w as u64) - k;
    Limb {
        lo: (t % WORD) as u32,
        hi: 1 - t / WORD,
    }
}

// Minus q, in two's complement.
pub fn negate(q: Quad) -> Quad
    ensures { result ≡ as_quad (minus_of (as_wide q)) }
{
    let x = flip(q.a, 0);
    let y = flip(q.b, x.hi);
    let z = flip(q.c, y.hi);
    let w = flip(q.d, z.hi);
    Quad {
        a: x.lo,
        b: y.lo,
        c: z.lo,
        d: w.lo,
    }
}
