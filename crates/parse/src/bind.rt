// The operation bind.
ghost use Rattle.std.specs.Prelude.{◌≡◌};
ghost use Rattle.words.specs.Answered.{answered};
ghost use Rattle.reading.specs.Answer.{zeros, output_of};
ghost use Rattle.grammar.specs.Item.{raised_words};
ghost use Rattle.grammar.specs.Expr.{bind_items};
ghost use Rattle.grammar.specs.Operations.{bind_final};
ghost use Rattle.parse.specs.Answers.{bind_said, AttemptedAt};

use crate::Counted;
use crate::ending::{close, finished};
use crate::tree::tree_of;
use binds::bind::bind_at;
use words::refusal::Refusal;

// The bind and its words; no slice is cleared yet.
fn attempt(text: &[u8], tree: &mut [u32], out: &mut [u32], count: u64) -> Result<Counted, Refusal>
    ensures { AttemptedAt bind_items count (bind_final text.now tree.old out.old count) out.old out.new result }
{
    let words = tree_of(text, tree)?;
    let parsed = bind_at(text, &tree[..words], count, out);
    finished(parsed, count, out.len())
}

// The bind that a text begins with: a name, its sort, and predicates.
pub fn bind(text: &[u8], tree: &mut [u32], out: &mut [u32], count: u64) -> Result<Counted, Refusal>
    ensures answer { answered result ≡ bind_said count (bind_final text.now tree.old out.old count) }
    ensures working { tree.new ≡ zeros tree.old }
    ensures output { out.new ≡ output_of (raised_words bind_items count) (bind_final text.now tree.old out.old count) out.old }
{
    let answer = attempt(text, tree, out, count);
    close(tree, out, answer)
}
