// The plan of a let.
ghost use Rattle.std.specs.Prelude.{ℕ};
ghost use Rattle.reading.specs.Bytes.{Span};
ghost use Rattle.reading.specs.Tree.{Trees, symbol, atom, tcons};
ghost use Rattle.grammar.specs.ParseExpr.{children, let_form};
ghost use Rattle.grammar.specs.Written.{told};
ghost use Rattle.plans.specs.Plans.{Listed, Headed, PlannedList};

use crate::plan::{Plan, Run};
use places::expr_words::put1;
use places::place::{list_at, through, words_at};
use words::expr_kinds::LET_FRESH;
use words::refusal::Refusal;
use words::tree_kinds::SYMBOL;

// `(let (name value) body)`: the value, and behind it the body, where the name is bound. The number is not known yet: its two words are left
// free. A missing body is refused when it is reached.
pub fn let_plan(
    text: &[u8],
    tree: &[u32],
    at: usize,
    next: u64,
    out: &mut [u32],
    w: usize,
) -> Result<Plan, Refusal>
    requires { Headed text.now tree.now at w next }
    ensures { (s : Span) (us : Trees) (h : Listed text.now tree.now at w next (tcons (atom (symbol s)) us)) (count : ℕ) → PlannedList text.now count tree.now at w next (tcons (atom (symbol s)) us) h (told count (let_form (children text.now (tcons (atom (symbol s)) us)) h.scopes next)) out.old out.new result }
{
    let n = tree[at + 1];
    if n < 2 {
        return Err(Refusal::Malformed);
    }
    let pair = through(text, tree, at + 6);
    let Some(list) = list_at(tree, pair) else {
        return Err(Refusal::Malformed);
    };
    if list.items < 2 || tree[list.first] != SYMBOL {
        return Err(Refusal::Malformed);
    }
    let v = put1(out, w, LET_FRESH) + 2;
    if n < 3 {
        return Ok(Plan::Go(Run {
            first: list.first + 3,
            have: 1,
            want: 2,
            last: 0,
            plain: false,
            names: 0,
            fresh: 0,
            pair: 0,
            words: v,
        }));
    }
    Ok(Plan::Go(Run {
        first: list.first + 3,
        have: 1,
        want: 1,
        last: at + 6 + words_at(tree, at + 6),
        plain: false,
        names: 0, // the value is read outside
        fresh: 0, // and its numbers come first
        pair: pair,
        words: v,
    }))
}
