// The binders of an exists, and the parameters of a solution.
ghost use Rattle.std.specs.Prelude.{◌≡◌, ℕ, ◌+◌, ◌%◌, ◌^◌};
ghost use Rattle.grammar.specs.ParseExpr.{name_of, binders};
ghost use Rattle.sorts.specs.Rows.{is_got};
ghost use Rattle.places.specs.Spot.{Spot};
ghost use Rattle.places.specs.Outcome.{OutcomeAt};
ghost use Rattle.plans.specs.BinderWords.{BinderRow, binders_words};

use places::expr_words::put2;
use places::place::words_at;
use places::sort_at::sort_at;
use words::number::{high, low};
use words::refusal::Refusal;
use words::tree_kinds::{LIST, SYMBOL};

// Whether a tree is a pair of a name and a sort, and nothing more; the sort is not read yet.
pub fn is_pair(tree: &[u32], at: usize) -> bool
    requires { Spot tree.now at }
    ensures { (p : Spot tree.now at) → result ≡ is_got (name_of p.tree) }
{
    if tree[at] != LIST || tree[at + 1] != 2 {
        return false;
    }
    tree[at + 3] == SYMBOL
}

// n binders, numbered from a number on: of each its shape, then its sort.
pub fn binder_words(
    text: &[u8],
    tree: &[u32],
    at: usize,
    n: usize,
    from: u64,
    out: &mut [u32],
    w: usize,
) -> Result<usize, Refusal>
    requires { BinderRow tree.now at n w }
    ensures { (h : BinderRow tree.now at n w) (count next : ℕ) → from ≡ (count + next) % 2 ^ 64 → OutcomeAt (binders_words count next) (binders text.now h.items) w out.old out.new result }
{
    let mut p = at;
    let mut k = from;
    let mut v = w;
    for _i in 0..n {
        if !is_pair(tree, p) {
            return Err(Refusal::Malformed);
        }
        let u = put2(out, v, low(k), high(k));
        v = sort_at(text, tree, p + 6, out, u)?;
        p += words_at(tree, p);
        k = k.wrapping_add(1);
    }
    Ok(v)
}
