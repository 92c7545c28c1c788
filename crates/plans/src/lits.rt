// The plan of a literal of bits.
ghost use Rattle.std.specs.Prelude.{◌≡◌, ℕ};
ghost use Rattle.reading.specs.Bytes.{Span as Part};
ghost use Rattle.reading.specs.Tree.{Trees, symbol, atom, tcons};
ghost use Rattle.reading.specs.Answer.{or_bad, malformed};
ghost use Rattle.grammar.specs.ParseExpr.{children, width_of, lit_form};
ghost use Rattle.sorts.specs.SortNames.{width_in};
ghost use Rattle.grammar.specs.Written.{told};
ghost use Rattle.places.specs.Spot.{Spot};
ghost use Rattle.plans.specs.Plans.{Listed, Headed, PlannedList};

use crate::plan::Plan;
use forms::literal::bits_of;
use places::expr_words::{put_wide, put1};
use places::place::words_at;
use sorts::names::size_named;
use words::expr_kinds::BIT_VEC;
use words::refusal::Refusal;
use words::span::Span;
use words::tree_kinds::{LIST, QUOTED, SYMBOL};

// The width that the second of two items is, whatever the first is.
fn width_at(text: &[u8], tree: &[u32], at: usize) -> Option<u32>
    requires { Spot tree.now at }
    ensures { (p : Spot tree.now at) → or_bad malformed (width_in result) ≡ width_of text.now p.tree }
{
    if tree[at] != LIST || tree[at + 1] != 2 {
        return None;
    }
    let size = at + 3 + words_at(tree, at + 3);
    if tree[size] != SYMBOL {
        return None;
    }
    let name = Span {
        start: tree[size + 1],
        len: tree[size + 2],
    };
    size_named(name.bytes(text))
}

// `(lit "#b.." (BitVec SIZE))`: the bits are judged before the size, and then how many digits there are behind `#b`.
pub fn lit_plan(
    text: &[u8],
    tree: &[u32],
    at: usize,
    next: u64,
    out: &mut [u32],
    w: usize,
) -> Result<Plan, Refusal>
    requires { Headed text.now tree.now at w next }
    ensures { (s : Part) (us : Trees) (h : Listed text.now tree.now at w next (tcons (atom (symbol s)) us)) (count : ℕ) → PlannedList text.now count tree.now at w next (tcons (atom (symbol s)) us) h (told count (lit_form text.now (children text.now (tcons (atom (symbol s)) us)) h.scopes next)) out.old out.new result }
{
    let n = tree[at + 1];
    if n < 2 || tree[at + 6] != QUOTED {
        return Err(Refusal::Malformed);
    }
    let digits = Span {
        start: tree[at + 7],
        len: tree[at + 8],
    };
    let bytes = digits.bytes(text);
    let q = bits_of(bytes)?;
    if n < 3 {
        return Err(Refusal::Malformed);
    }
    let width = width_at(text, tree, at + 9).ok_or(Refusal::Malformed)?;
    if bytes.len() != 2 + width as usize {
        return Err(Refusal::WrongWidth);
    }
    let v = put_wide(out, w, BIT_VEC, q);
    Ok(Plan::Leaf(put1(out, v, width)))
}
