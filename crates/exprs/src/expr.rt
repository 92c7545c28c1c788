// The expression that a tree is read as: a plan, its operands, and what comes behind them. These two functions are the whole cycle.
ghost use Rattle.std.specs.Prelude.{◌+◌, ◌*◌, length};
ghost use Rattle.reading.specs.Tree.{trees_words};
ghost use Rattle.grammar.specs.ParseExpr.{child};
ghost use Rattle.grammar.specs.Written.{told, operands_w};
ghost use Rattle.scopes.specs.Scopes.{Kept};
ghost use Rattle.plans.specs.Plans.{Parsed, Here, Row, factor, most};

use crate::late::late;
use places::place::{reach, through, words_at};
use plans::plan::{Plan, planned};
use plans::progress::Progress;
use scopes::entries::{opened, twice};
use words::refusal::Refusal;

// The expression at a place of the tree, its words from w on. Fresh numbers are counted from the call's first one; the reader's count is
// added where words are written.
#[cycle(expr_operands)]
pub fn expr(
    text: &[u8],
    tree: &[u32],
    at: usize,
    scopes: &mut [u64],
    depth: usize,
    count: u64,
    next: u64,
    out: &mut [u32],
    w: usize,
) -> Result<Progress, Refusal>
    requires { Here text.now tree.now at scopes.old depth w next }
    ensures { (Kept scopes.old scopes.new depth) × ((h : Here text.now tree.now at scopes.old depth w next) → Parsed (told count ((child text.now h.spot.tree).plainly h.scopes next)) w out.old out.new (most w next h.spot.tree) result) }
{
    let run = match planned(text, tree, at, scopes, depth, count, next, out, w)? {
        Plan::Leaf(u) => return Ok(Progress { words: u, next }),
        Plan::Go(run) => run,
    };
    let inner = opened(scopes, depth, run.names, run.fresh, next);
    let read = operands(
        text,
        tree,
        run.first,
        run.have,
        run.want,
        scopes,
        inner,
        count,
        next + run.fresh,
        out,
        run.words,
    )?;
    if run.last != 0 {
        let q = reach(text, tree, run.last, run.plain);
        let deep = late(scopes, inner, run.pair, count, read.next, out, w + 1);
        return expr(
            text, tree, q, scopes, deep.depth, count, deep.next, out, read.words,
        );
    }
    if twice(text, tree, run.names, run.fresh as usize) {
        return Err(Refusal::RepeatedName);
    }
    Ok(read)
}

// So many operands, one after the other; a missing one is refused when it is reached.
#[cycle(expr_operands)]
fn operands(
    text: &[u8],
    tree: &[u32],
    at: usize,
    have: usize,
    want: usize,
    scopes: &mut [u64],
    depth: usize,
    count: u64,
    next: u64,
    out: &mut [u32],
    w: usize,
) -> Result<Progress, Refusal>
    requires { Row text.now tree.now at have scopes.old depth w next }
    ensures { (Kept scopes.old scopes.new depth) × ((h : Row text.now tree.now at have scopes.old depth w next) → Parsed (operands_w text.now count h.items want h.scopes next) w out.old out.new (w + next + factor * length (trees_words h.items)) result) }
{
    let mut p = at;
    let mut read = Progress { words: w, next };
    for i in 0..want {
        if have <= i {
            return Err(Refusal::Malformed);
        }
        let q = through(text, tree, p);
        read = expr(
            text, tree, q, scopes, depth, count, read.next, out, read.words,
        )?;
        p += words_at(tree, p);
    }
    Ok(read)
}
