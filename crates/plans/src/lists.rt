// The plan of a list, by the item that it begins with.
ghost use Rattle.std.specs.Prelude.{◌≡◌, ℕ, ◌+◌, ◌-◌, ◌^◌, ◌<◌, true, false, nat_lt};
ghost use Rattle.reading.specs.Pick.{pick};
ghost use Rattle.reading.specs.Bytes.{Span as Part};
ghost use Rattle.reading.specs.Tree.{Trees, symbol, atom, tcons};
ghost use Rattle.grammar.specs.ParseExpr.{children, form_of, parse_form, minus_form, list_expr};
ghost use Rattle.grammar.specs.Written.{told};
ghost use Rattle.plans.specs.Plans.{Listed, SomeList, Headed, PlannedList};
ghost use Rattle.plans.specs.declared.plan.Plan.TheVariants.{Go};
ghost use Rattle.words.specs.declared.refusal.Refusal.TheVariants.{Malformed};

use crate::application::app_plan;
use crate::exists::exists_plan;
use crate::lets::let_plan;
use crate::lits::lit_plan;
use crate::plan::{Plan, Run};
use forms::keywords::{Form, form_named};
use places::expr_words::{put_name, put1, put2};
use words::expr_kinds::{BINARY, IS_CTOR, NEG};
use words::refusal::Refusal;
use words::span::Span;
use words::tree_kinds::SYMBOL;

// So many operands behind the name that a list of n items begins with.
fn behind(n: u32, at: usize, want: usize, words: usize) -> Plan
    requires { (0 < n) × (at < 2 ^ 63) }
    ensures { result ≡ Go (record { first = at + 6; have = n - 1; want = want; last = 0; plain = false; names = 0; fresh = 0; pair = 0; words = words }) }
{
    Plan::Go(Run {
        first: at + 6,
        have: (n - 1) as usize,
        want: want,
        last: 0,
        plain: false,
        names: 0,
        fresh: 0,
        pair: 0,
        words: words,
    })
}

// The one item behind it, which is not seen through.
fn only(n: u32, at: usize, words: usize) -> Result<Plan, Refusal>
    requires { at < 2 ^ 63 }
    ensures { result ≡ pick (nat_lt n 2) (Err Malformed) (Ok (Go (record { first = at + 6; have = 0; want = 0; last = at + 6; plain = true; names = 0; fresh = 0; pair = 0; words = words }))) }
{
    if n < 2 {
        return Err(Refusal::Malformed);
    }
    Ok(Plan::Go(Run {
        first: at + 6,
        have: 0,
        want: 0,
        last: at + 6,
        plain: true,
        names: 0,
        fresh: 0,
        pair: 0,
        words: words,
    }))
}

// `(- a)` is Neg, with any other number of items it is Sub.
fn minus_plan(
    text: &[u8],
    tree: &[u32],
    at: usize,
    next: u64,
    out: &mut [u32],
    w: usize,
) -> Result<Plan, Refusal>
    requires { Headed text.now tree.now at w next }
    ensures { (s : Part) (us : Trees) (h : Listed text.now tree.now at w next (tcons (atom (symbol s)) us)) (count : ℕ) → PlannedList text.now count tree.now at w next (tcons (atom (symbol s)) us) h (told count (minus_form (children text.now (tcons (atom (symbol s)) us)) h.scopes next)) out.old out.new result }
{
    let n = tree[at + 1];
    if n == 2 {
        return Ok(behind(n, at, 1, put1(out, w, NEG)));
    }
    Ok(behind(n, at, 2, put2(out, w, BINARY, 1)))
}

// A list whose first item is a symbol.
fn named_plan(
    text: &[u8],
    tree: &[u32],
    at: usize,
    count: u64,
    next: u64,
    out: &mut [u32],
    w: usize,
) -> Result<Plan, Refusal>
    requires { Headed text.now tree.now at w next }
    ensures { (s : Part) (us : Trees) (h : Listed text.now tree.now at w next (tcons (atom (symbol s)) us)) → PlannedList text.now count tree.now at w next (tcons (atom (symbol s)) us) h (told count (parse_form text.now (form_of text.now s) s (children text.now (tcons (atom (symbol s)) us)) h.scopes next)) out.old out.new result }
{
    let n = tree[at + 1];
    let name = Span {
        start: tree[at + 4],
        len: tree[at + 5],
    };
    match form_named(name.bytes(text)) {
        Form::One(kind, want) => Ok(behind(n, at, want, put1(out, w, kind))),
        Form::Two(kind, code, want) => Ok(behind(n, at, want, put2(out, w, kind, code))),
        Form::Many(kind) => Ok(behind(n, at, (n - 1) as usize, put2(out, w, kind, n - 1))),
        Form::Cast => only(n, at, w),
        Form::IsCtor => {
            let ctor = Span {
                start: name.start + 3,
                len: name.len - 3,
            };
            only(n, at, put_name(out, w, IS_CTOR, ctor))
        }
        Form::Minus => minus_plan(text, tree, at, next, out, w),
        Form::Exists => exists_plan(text, tree, at, count, next, out, w),
        Form::Let => let_plan(text, tree, at, next, out, w),
        Form::Lit => lit_plan(text, tree, at, next, out, w),
        Form::Apply => Err(Refusal::Malformed),
    }
}

// The plan of a list.
pub fn list_plan(
    text: &[u8],
    tree: &[u32],
    at: usize,
    count: u64,
    next: u64,
    out: &mut [u32],
    w: usize,
) -> Result<Plan, Refusal>
    requires { SomeList text.now tree.now at w next }
    ensures { (items : Trees) (h : Listed text.now tree.now at w next items) → PlannedList text.now count tree.now at w next items h (told count (list_expr text.now (children text.now items) h.scopes next)) out.old out.new result }
{
    if tree[at + 1] == 0 {
        return Err(Refusal::Malformed);
    }
    if tree[at + 3] == SYMBOL {
        return named_plan(text, tree, at, count, next, out, w);
    }
    app_plan(text, tree, at, count, next, out, w)
}
