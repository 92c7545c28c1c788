// The predicates of a bind. `and` is stepped into, so one loop reads all predicates, however they nest.
ghost use Rattle.std.specs.Prelude.{[], ◌∷◌, ℕ, ◌+◌, ◌≤◌, length};
ghost use Rattle.reading.specs.Tree.{symbol, atom, list, tcons};
ghost use Rattle.grammar.specs.ParseExpr.{child, children, symbols};
ghost use Rattle.grammar.specs.Written.{told_of};
ghost use Rattle.scopes.specs.Scopes.{slots};
ghost use Rattle.places.specs.Outcome.{bound, Put, OutcomeAt};
ghost use Rattle.plans.specs.Plans.{Parsed};
ghost use Rattle.binds.specs.PredWords.{PredHere, KvarHere, counted_preds, Stepped, NameRow, names_words};

use exprs::expr::expr;
use lexing::byte::{begins_with, same};
use places::expr_words::{put_name, put1, put3};
use places::place::{list_at, through, words_at};
use plans::progress::Progress;
use scopes::entries::SLOTS;
use words::expr_kinds::NAMED;
use words::output::put;
use words::pred_kinds::{EXPR, KVAR};
use words::refusal::Refusal;
use words::span::Span;
use words::tree_kinds::SYMBOL;

// The next place in the tree, the place behind the words written, the next fresh number, and how many predicates were read.
#[derive(Clone, Copy)]
pub struct Step {
    pub next: usize,
    pub words: usize,
    pub fresh: u64,
    pub preds: u32,
}

// n names, which are named variables always.
fn names(
    text: &[u8],
    tree: &[u32],
    at: usize,
    n: usize,
    out: &mut [u32],
    w: usize,
) -> Result<usize, Refusal>
    requires { NameRow tree.now at n w }
    ensures { (h : NameRow tree.now at n w) → OutcomeAt names_words (symbols (children text.now h.items)) w out.old out.new result }
{
    let mut p = at;
    let mut v = w;
    for _i in 0..n {
        if tree[p] != SYMBOL {
            return Err(Refusal::Malformed);
        }
        let name = Span {
            start: tree[p + 1],
            len: tree[p + 2],
        };
        v = put_name(out, v, NAMED, name);
        p += 3;
    }
    Ok(v)
}

// What stands before the n names of a kvar.
fn put_kvar(out: &mut [u32], w: usize, name: Span, n: u32) -> usize
    requires { w ≤ bound }
    ensures { Put out.old w (64 ∷ name.start ∷ name.len ∷ n ∷ []) out.new result }
{
    let v = put3(out, w, KVAR, name.start, name.len);
    put1(out, v, n)
}

// `($k x ..)`: at least two items, all of them symbols.
fn kvar(
    text: &[u8],
    tree: &[u32],
    at: usize,
    next: u64,
    out: &mut [u32],
    w: usize,
) -> Result<Step, Refusal>
    requires { KvarHere text.now tree.now at w next }
    ensures { (h : KvarHere text.now tree.now at w next) (count : ℕ) → Stepped text.now count (list (tcons (atom (symbol h.name)) h.others)) at w next out.old out.new result }
{
    let n = tree[at + 1];
    if n < 2 {
        return Err(Refusal::Malformed);
    }
    let name = Span {
        start: tree[at + 4],
        len: tree[at + 5],
    };
    let v = put_kvar(out, w, name, n - 1);
    let u = names(text, tree, at + 6, (n - 1) as usize, out, v)?;
    Ok(Step {
        next: at + words_at(tree, at),
        words: u,
        fresh: next,
        preds: 1,
    })
}

// One predicate: `and` of predicates, a kvar, or an expression.
fn pred(
    text: &[u8],
    tree: &[u32],
    at: usize,
    scopes: &mut [u64],
    count: u64,
    next: u64,
    out: &mut [u32],
    w: usize,
) -> Result<Step, Refusal>
    requires { (PredHere text.now tree.now at w next) × (slots ≤ length scopes.old) }
    ensures { (h : PredHere text.now tree.now at w next) → Stepped text.now count h.spot.tree at w next out.old out.new result }
{
    let Some(list) = list_at(tree, at) else {
        return Err(Refusal::Malformed);
    };
    if list.items == 0 {
        return Err(Refusal::Malformed);
    }
    if tree[list.first] == SYMBOL {
        let name = Span {
            start: tree[list.first + 1],
            len: tree[list.first + 2],
        };
        let bytes = name.bytes(text);
        if same(bytes, b"and") {
            return Ok(Step {
                next: at + 6,
                words: w,
                fresh: next,
                preds: 0,
            });
        }
        if begins_with(b"$", bytes) {
            return kvar(text, tree, at, next, out, w);
        }
    }
    let v = put1(out, w, EXPR);
    let q = through(text, tree, at);
    let read = expr(text, tree, q, scopes, 0, count, next, out, v)?;
    Ok(Step {
        next: at + words_at(tree, at),
        words: read.words,
        fresh: read.next,
        preds: 1,
    })
}

// All predicates that a tree is: how many they are, and each.
pub fn preds(
    text: &[u8],
    tree: &[u32],
    at: usize,
    count: u64,
    out: &mut [u32],
    w: usize,
) -> Result<Progress, Refusal>
    requires { PredHere text.now tree.now at (w + 1) 0 }
    ensures { (h : PredHere text.now tree.now at (w + 1) 0) → Parsed (told_of counted_preds count ((child text.now h.spot.tree).preds 0)) w out.old out.new bound result }
{
    let end = at + words_at(tree, at);
    let mut p = at;
    let mut v = w + 1;
    let mut next: u64 = 0;
    let mut n: u32 = 0;
    let mut scopes = [0u64; SLOTS];
    // A cursor and not a `for`: each step says how far it went.
    while p < end {
        let step = pred(text, tree, p, &mut scopes, count, next, out, v)?;
        p = step.next;
        v = step.words;
        next = step.fresh;
        n += step.preds;
    }
    put(out, w, n);
    Ok(Progress { words: v, next })
}
