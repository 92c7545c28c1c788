// The plan of an exists.
ghost use Rattle.reading.specs.Bytes.{Span};
ghost use Rattle.reading.specs.Tree.{Trees, symbol, atom, tcons};
ghost use Rattle.grammar.specs.ParseExpr.{children, exists_form};
ghost use Rattle.grammar.specs.Written.{told};
ghost use Rattle.plans.specs.Plans.{Listed, Headed, PlannedList};

use crate::binders::binder_words;
use crate::plan::{Plan, Run};
use places::expr_words::put2;
use places::place::{list_at, words_at};
use words::expr_kinds::EXISTS;
use words::refusal::Refusal;

// `(exists (binders) body)`, and nothing more. The numbers of the binders are taken before the body is read.
pub fn exists_plan(
    text: &[u8],
    tree: &[u32],
    at: usize,
    count: u64,
    next: u64,
    out: &mut [u32],
    w: usize,
) -> Result<Plan, Refusal>
    requires { Headed text.now tree.now at w next }
    ensures { (s : Span) (us : Trees) (h : Listed text.now tree.now at w next (tcons (atom (symbol s)) us)) → PlannedList text.now count tree.now at w next (tcons (atom (symbol s)) us) h (told count (exists_form text.now (children text.now (tcons (atom (symbol s)) us)) h.scopes next)) out.old out.new result }
{
    if tree[at + 1] != 3 {
        return Err(Refusal::Malformed);
    }
    let vars = at + 6;
    let Some(list) = list_at(tree, vars) else {
        return Err(Refusal::Malformed);
    };
    let n = list.items as usize;
    let from = count.wrapping_add(next);
    let v = put2(out, w, EXISTS, list.items);
    let u = binder_words(text, tree, list.first, n, from, out, v)?;
    Ok(Plan::Go(Run {
        first: vars + words_at(tree, vars),
        have: 1,
        want: 1,
        last: 0,
        plain: false,
        names: list.first,
        fresh: n as u64,
        pair: 0,
        words: u,
    }))
}
