// The plan of an application.
ghost use Rattle.std.specs.Prelude.{◌≡◌};
ghost use Rattle.reading.specs.Tree.{Tree, Trees, tcons};
ghost use Rattle.grammar.specs.ParseExpr.{children, is_apply, apply_form};
ghost use Rattle.grammar.specs.Written.{told};
ghost use Rattle.places.specs.Spot.{Spot};
ghost use Rattle.plans.specs.Plans.{Listed, Filled, PlannedList};

use crate::plan::{Plan, Run};
use lexing::byte::same;
use places::expr_words::put3;
use places::place::{list_at, words_at};
use places::sort_at::sort_at;
use words::expr_kinds::APP;
use words::refusal::Refusal;
use words::span::Span;
use words::tree_kinds::SYMBOL;

// Whether a tree is the symbol `apply`.
fn is_apply(text: &[u8], tree: &[u32], at: usize) -> bool
    requires { Spot tree.now at }
    ensures { (p : Spot tree.now at) → result ≡ is_apply text.now p.tree }
{
    if tree[at] != SYMBOL {
        return false;
    }
    let name = Span {
        start: tree[at + 1],
        len: tree[at + 2],
    };
    same(name.bytes(text), b"apply")
}

// A list whose first item is a list of at least two: `((as apply SORT) f ..)`, or the arguments and then the head.
pub fn app_plan(
    text: &[u8],
    tree: &[u32],
    at: usize,
    count: u64,
    next: u64,
    out: &mut [u32],
    w: usize,
) -> Result<Plan, Refusal>
    requires { Filled text.now tree.now at w next }
    ensures { (t : Tree) (us : Trees) (h : Listed text.now tree.now at w next (tcons t us)) → PlannedList text.now count tree.now at w next (tcons t us) h (told count (apply_form text.now (children text.now (tcons t us)) h.scopes next)) out.old out.new result }
{
    let head = at + 3;
    let Some(list) = list_at(tree, head) else {
        return Err(Refusal::Malformed);
    };
    if list.items < 2 {
        return Err(Refusal::Malformed);
    }
    let n = tree[at + 1];
    let first = head + words_at(tree, head);
    let second = list.first + words_at(tree, list.first);
    if is_apply(text, tree, second) {
        if list.items < 3 {
            return Err(Refusal::Malformed);
        }
        let v = put3(out, w, APP, 1, 0);
        let u = sort_at(text, tree, second + 3, out, v)?;
        return Ok(Plan::Go(Run {
            first: first,
            have: (n - 1) as usize,
            want: 1,
            last: 0,
            plain: false,
            names: 0,
            fresh: 0,
            pair: 0,
            words: u,
        }));
    }
    let v = put3(out, w, APP, 0, n - 1);
    Ok(Plan::Go(Run {
        first: first, // the arguments, and then the head
        have: (n - 1) as usize,
        want: (n - 1) as usize,
        last: head,
        plain: false,
        names: 0,
        fresh: 0,
        pair: 0,
        words: v,
    }))
}
