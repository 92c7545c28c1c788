// A sort at a place of the tree, its words from a place of the output on.
ghost use Rattle.std.specs.Prelude.{◌≤◌};
ghost use Rattle.grammar.specs.Sort.{sort_words};
ghost use Rattle.grammar.specs.ParseSort.{parse_sort};
ghost use Rattle.places.specs.Spot.{Small};
ghost use Rattle.places.specs.Outcome.{bound, OutcomeAt};

use crate::place::words_at;
use sorts::sorts::sort;
use words::refusal::Refusal;

// The rest of the output is lent on.
pub fn sort_at(
    text: &[u8],
    tree: &[u32],
    at: usize,
    out: &mut [u32],
    w: usize,
) -> Result<usize, Refusal>
    requires { (Small tree.now at) × (w ≤ bound) }
    ensures { (p : Small tree.now at) → OutcomeAt sort_words (parse_sort text.now p.spot.tree) w out.old out.new result }
{
    let end = at + words_at(tree, at);
    let from = w.min(out.len());
    let n = sort(text, &tree[at..end], &mut out[from..])?;
    Ok(w + n)
}
