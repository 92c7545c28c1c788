// A symbol as an expression.
ghost use Rattle.std.specs.Prelude.{◌+◌, ◌≤◌};
ghost use Rattle.words.specs.Spans.{as_span};
ghost use Rattle.grammar.specs.Scope.{symbol_expr};
ghost use Rattle.grammar.specs.Written.{expr_words};
ghost use Rattle.scopes.specs.Scopes.{OpenScopes};
ghost use Rattle.places.specs.Outcome.{bound, Put};

use crate::entries::find;
use forms::theory::theory_number;
use places::expr_words::{put_name, put2, put3};
use words::expr_kinds::{FRESH, NAMED, THEORY};
use words::number::{high, low};
use words::span::Span;

// A theory name, then the innermost scope that has the name, then a named variable.
pub fn variable(
    text: &[u8],
    tree: &[u32],
    name: Span,
    scopes: &[u64],
    depth: usize,
    count: u64,
    out: &mut [u32],
    w: usize,
) -> usize
    requires { (OpenScopes tree.now scopes.now depth) × (w ≤ bound) }
    ensures { (h : OpenScopes tree.now scopes.now depth) → (Put out.old w (expr_words count (symbol_expr text.now (as_span name) h.scopes)) out.new result) × (result ≤ w + 3) }
{
    if let Some(k) = theory_number(name.bytes(text)) {
        return put2(out, w, THEORY, k);
    }
    match find(text, tree, scopes, depth, count, name) {
        Some(k) => put3(out, w, FRESH, low(k), high(k)),
        None => put_name(out, w, NAMED, name),
    }
}
