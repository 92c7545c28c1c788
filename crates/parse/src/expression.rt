// The operation expression.
ghost use Rattle.std.specs.Prelude.{◌≡◌};
ghost use Rattle.words.specs.Answered.{answered};
ghost use Rattle.reading.specs.Answer.{zeros, output_of};
ghost use Rattle.grammar.specs.Item.{raised_words};
ghost use Rattle.grammar.specs.Expr.{expr_items};
ghost use Rattle.grammar.specs.Operations.{expr_final};
ghost use Rattle.parse.specs.Answers.{expr_said, AttemptedAt};

use crate::Counted;
use crate::ending::{close, finished};
use crate::tree::tree_of;
use exprs::expr::expr;
use scopes::entries::SLOTS;
use words::refusal::Refusal;

// The expression and its words; no slice is cleared yet.
fn attempt(text: &[u8], tree: &mut [u32], out: &mut [u32], count: u64) -> Result<Counted, Refusal>
    ensures { AttemptedAt expr_items count (expr_final text.now tree.old out.old count) out.old out.new result }
{
    let words = tree_of(text, tree)?;
    let mut scopes = [0u64; SLOTS];
    let parsed = expr(text, &tree[..words], 0, &mut scopes, 0, count, 0, out, 0);
    finished(parsed, count, out.len())
}

// The expression that a text begins with, not flattened. Its fresh numbers are the reader's count and those behind it. The refusals are those of
// a sort, and 9 for a decimal as an expression, 10 for a repeated name in an exists, 11 for the digits of a `lit`, 17 if there are not as many as
// its size says, 13 if the fresh numbers run out.
pub fn expression(
    text: &[u8],
    tree: &mut [u32],
    out: &mut [u32],
    count: u64,
) -> Result<Counted, Refusal>
    ensures answer { answered result ≡ expr_said count (expr_final text.now tree.old out.old count) }
    ensures working { tree.new ≡ zeros tree.old }
    ensures output { out.new ≡ output_of (raised_words expr_items count) (expr_final text.now tree.old out.old count) out.old }
{
    let answer = attempt(text, tree, out, count);
    close(tree, out, answer)
}
