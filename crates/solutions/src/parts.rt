// A solution: `(lambda (parameters) body)`. The parameters go to the output, the body to the draft slice.
ghost use Rattle.std.specs.Prelude.{◌≡◌};
ghost use Rattle.grammar.specs.ParseSolution.{all_names, parse_solution};
ghost use Rattle.sorts.specs.Rows.{is_got};
ghost use Rattle.plans.specs.BinderWords.{BinderRow};
ghost use Rattle.plans.specs.Whole.{Whole};
ghost use Rattle.solutions.specs.PartsWords.{BodyHere, body_of, BodyDone, PartsDone};

use exprs::expr::expr;
use places::expr_words::put1;
use places::place::{list_at, words_at};
use plans::binders::{binder_words, is_pair};
use scopes::entries::{SLOTS, opened, twice};
use words::refusal::Refusal;

// How many words the parameters and the body have, and how many fresh numbers they take.
#[derive(Clone, Copy)]
pub struct Parts {
    pub params: usize,
    pub body: usize,
    pub fresh: u64,
}

// Whether n trees are pairs of a name and a sort; the sorts are not read yet.
fn all_pairs(tree: &[u32], at: usize, n: usize) -> bool
    requires { BinderRow tree.now at n 0 }
    ensures { (h : BinderRow tree.now at n 0) → result ≡ is_got (all_names h.items) }
{
    let mut p = at;
    for _ in 0..n {
        if !is_pair(tree, p) {
            return false;
        }
        p += words_at(tree, p);
    }
    true
}

// The body, which is not seen through, with the parameters as its one scope; u words of the parameters are written before.
fn body_at(
    text: &[u8],
    tree: &[u32],
    pairs: usize,
    n: usize,
    body: usize,
    count: u64,
    draft: &mut [u32],
    u: usize,
) -> Result<Parts, Refusal>
    requires { BodyHere text.now tree.now pairs n body }
    ensures { (h : BodyHere text.now tree.now pairs n body) → BodyDone count u draft.old draft.new (body_of text.now h.spot.tree h.params.names n) result }
{
    let next = n as u64;
    let mut scopes = [0u64; SLOTS];
    let depth = opened(&mut scopes, 0, pairs, next, 0);
    let done = expr(text, tree, body, &mut scopes, depth, count, next, draft, 0)?;
    if twice(text, tree, pairs, n) {
        return Err(Refusal::RepeatedName);
    }
    Ok(Parts {
        params: u,
        body: done.words,
        fresh: done.next,
    })
}

// The parameters' shapes, then their sorts, then the body.
pub fn parts_at(
    text: &[u8],
    tree: &[u32],
    count: u64,
    draft: &mut [u32],
    out: &mut [u32],
) -> Result<Parts, Refusal>
    requires { Whole text.now tree.now }
    ensures { (h : Whole text.now tree.now) → PartsDone count draft.old draft.new out.old out.new (parse_solution text.now h.tree 0) result }
{
    let Some(whole) = list_at(tree, 0) else {
        return Err(Refusal::Malformed);
    };
    if whole.items != 3 {
        return Err(Refusal::Malformed);
    }
    let params = whole.first + words_at(tree, whole.first);
    let Some(pairs) = list_at(tree, params) else {
        return Err(Refusal::Malformed);
    };
    let n = pairs.items as usize;
    if !all_pairs(tree, pairs.first, n) {
        return Err(Refusal::Malformed);
    }
    let v = put1(out, 0, pairs.items);
    let u = binder_words(text, tree, pairs.first, n, count, out, v)?;
    let body = params + words_at(tree, params);
    body_at(text, tree, pairs.first, n, body, count, draft, u)
}
