// What there is to do of a tree before its operands are read: its form is found out, its shape judged, and its first words are written.
ghost use Rattle.plans.specs.Plans.{Here, Planned};

use crate::lists::list_plan;
use places::expr_words::{put_name, put_numeral, put2};
use scopes::variable::variable;
use words::expr_kinds::{BOOLEAN, STRING};
use words::quad::Quad;
use words::refusal::Refusal;
use words::span::Span;
use words::tree_kinds;

// Operands that are left to read: where the first is, how many there are, how many are wanted; where one more stands behind them and
// whether it is not seen through; the place of the first pair of a new scope, 0 if there is none, and how many pairs it has; the place of the
// pair whose name is bound behind the operands, 0 if there is none; the place behind the words that are written.
#[derive(Clone, Copy)]
pub struct Run {
    pub first: usize,
    pub have: usize,
    pub want: usize,
    pub last: usize,
    pub plain: bool,
    pub names: usize,
    pub fresh: u64,
    pub pair: usize,
    pub words: usize,
}

// An expression without operands, and the place behind its words; or operands.
#[derive(Clone, Copy)]
pub enum Plan {
    Leaf(usize),
    Go(Run),
}

// The plan of a tree.
pub fn planned(
    text: &[u8],
    tree: &[u32],
    at: usize,
    scopes: &[u64],
    depth: usize,
    count: u64,
    next: u64,
    out: &mut [u32],
    w: usize,
) -> Result<Plan, Refusal>
    requires { Here text.now tree.now at scopes.now depth w next }
    ensures { (h : Here text.now tree.now at scopes.now depth w next) → Planned text.now count tree.now at scopes.now depth w next h out.old out.new result }
{
    match tree[at] {
        tree_kinds::LIST => list_plan(text, tree, at, count, next, out, w),
        tree_kinds::SYMBOL => {
            let name = Span {
                start: tree[at + 1],
                len: tree[at + 2],
            };
            Ok(Plan::Leaf(variable(text, tree, name, scopes, depth, count, out, w)))
        }
        tree_kinds::INTEGER => {
            let q = Quad {
                a: tree[at + 1],
                b: tree[at + 2],
                c: tree[at + 3],
                d: tree[at + 4],
            };
            Ok(Plan::Leaf(put_numeral(out, w, q)))
        }
        tree_kinds::BOOLEAN => Ok(Plan::Leaf(put2(out, w, BOOLEAN, tree[at + 1]))),
        tree_kinds::QUOTED => {
            let name = Span {
                start: tree[at + 1],
                len: tree[at + 2],
            };
            Ok(Plan::Leaf(put_name(out, w, STRING, name)))
        }
        _ => Err(Refusal::DecimalRead),
    }
}
