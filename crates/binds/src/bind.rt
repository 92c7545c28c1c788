// A bind: a name, its sort, and predicates.
ghost use Rattle.grammar.specs.Expr.{bind_items};
ghost use Rattle.grammar.specs.ParseBind.{parse_bind};
ghost use Rattle.grammar.specs.Written.{told_of};
ghost use Rattle.places.specs.Outcome.{bound};
ghost use Rattle.plans.specs.Plans.{Parsed};
ghost use Rattle.plans.specs.Whole.{Whole};

use crate::preds::preds;
use places::expr_words::put2;
use places::place::{list_at, words_at};
use places::sort_at::sort_at;
use plans::progress::Progress;
use words::refusal::Refusal;
use words::tree_kinds::SYMBOL;

// The bind that a tree is: `((name sort) predicate ..)`; the name opens no scope.
pub fn bind_at(text: &[u8], tree: &[u32], count: u64, out: &mut [u32]) -> Result<Progress, Refusal>
    requires { Whole text.now tree.now }
    ensures { (h : Whole text.now tree.now) → Parsed (told_of bind_items count (parse_bind text.now h.tree 0)) 0 out.old out.new bound result }
{
    let Some(bind) = list_at(tree, 0) else {
        return Err(Refusal::Malformed);
    };
    if bind.items == 0 {
        return Err(Refusal::Malformed);
    }
    let Some(head) = list_at(tree, bind.first) else {
        return Err(Refusal::Malformed);
    };
    if head.items < 2 || tree[head.first] != SYMBOL {
        return Err(Refusal::Malformed);
    }
    let v = put2(out, 0, tree[head.first + 1], tree[head.first + 2]);
    let u = sort_at(text, tree, head.first + 3, out, v)?;
    if bind.items < 2 {
        return Err(Refusal::Malformed);
    }
    preds(
        text,
        tree,
        bind.first + words_at(tree, bind.first),
        count,
        out,
        u,
    )
}
