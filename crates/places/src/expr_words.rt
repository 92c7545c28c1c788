// The words of expressions, laid from a place on. What does not fit is dropped; the answer is the place behind the words.
ghost use Rattle.std.specs.Prelude.{[], ◌∷◌, ℕ, ◌+◌, ◌≤◌};
ghost use Rattle.words.specs.Quads.{as_wide};
ghost use Rattle.grammar.specs.ParseExpr.{numeral as numeralOf};
ghost use Rattle.grammar.specs.Written.{expr_words};
ghost use Rattle.places.specs.Outcome.{bound, Put};

use lexing::quad::negate;
use words::expr_kinds::{NEG, NUMERAL};
use words::output::put;
use words::quad::Quad;
use words::span::Span;

// One word.
pub fn put1(out: &mut [u32], w: usize, a: u32) -> usize
    requires { w ≤ bound + 9 }
    ensures { Put out.old w (a ∷ []) out.new result }
{
    put(out, w, a);
    w + 1
}

// Two words.
pub fn put2(out: &mut [u32], w: usize, a: u32, b: u32) -> usize
    requires { w ≤ bound + 9 }
    ensures { Put out.old w (a ∷ b ∷ []) out.new result }
{
    put(out, w, a);
    put(out, w + 1, b);
    w + 2
}

// Three words.
pub fn put3(out: &mut [u32], w: usize, a: u32, b: u32, c: u32) -> usize
    requires { w ≤ bound + 9 }
    ensures { Put out.old w (a ∷ b ∷ c ∷ []) out.new result }
{
    put(out, w, a);
    put(out, w + 1, b);
    put(out, w + 2, c);
    w + 3
}

// A kind and a name.
pub fn put_name(out: &mut [u32], w: usize, kind: u32, name: Span) -> usize
    requires { w ≤ bound + 9 }
    ensures { Put out.old w (kind ∷ name.start ∷ name.len ∷ []) out.new result }
{
    put3(out, w, kind, name.start, name.len)
}

// A kind and the four words of a number.
pub fn put_wide(out: &mut [u32], w: usize, kind: u32, q: Quad) -> usize
    requires { w ≤ bound + 6 }
    ensures { Put out.old w (kind ∷ q.a ∷ q.b ∷ q.c ∷ q.d ∷ []) out.new result }
{
    let v = put3(out, w, kind, q.a, q.b);
    put2(out, v, q.c, q.d)
}

// An integer as an expression: a numeral, or Neg of one.
pub fn put_numeral(out: &mut [u32], w: usize, q: Quad) -> usize
    requires { w ≤ bound }
    ensures { (count : ℕ) → (Put out.old w (expr_words count (numeralOf (as_wide q))) out.new result) × (result ≤ w + 6) }
{
    if q.d < 2147483648 {
        return put_wide(out, w, NUMERAL, q);
    }
    let v = put1(out, w, NEG);
    put_wide(out, v, NUMERAL, negate(q))
}
