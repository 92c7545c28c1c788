// The solution that a text begins with, before its body is flattened.
ghost use Rattle.std.specs.Prelude.{◌≡◌};
ghost use Rattle.words.specs.Answered.{answered};
ghost use Rattle.reading.specs.Answer.{zeros};
ghost use Rattle.grammar.specs.Item.{raised_words};
ghost use Rattle.grammar.specs.Expr.{param_items, body_items};
ghost use Rattle.grammar.specs.Operations.{draft_final};
ghost use Rattle.parse.specs.Answers.{Laid, draft_said};
ghost use Rattle.parse.specs.DraftAnswers.{judged_by, AttemptedDraft};

use crate::Drafted;
use crate::ending::count_behind;
use crate::tree::tree_of;
use solutions::parts::{Parts, parts_at};
use words::output::clear;
use words::refusal::Refusal;

// What was parsed, and then 13 if the numbers run out, and 7 if the draft slice has room for fewer words than the body has.
fn judged(parsed: Result<Parts, Refusal>, count: u64, room: usize) -> Result<Drafted, Refusal>
    ensures { result ≡ judged_by parsed count room }
{
    let parts = parsed?;
    let after = count_behind(parts.body, parts.fresh, count, room)?;
    Ok(Drafted {
        params: parts.params,
        body: parts.body,
        count: after,
    })
}

// The draft and its words; no slice is cleared yet.
fn attempt(
    text: &[u8],
    tree: &mut [u32],
    draft: &mut [u32],
    out: &mut [u32],
    count: u64,
) -> Result<Drafted, Refusal>
    ensures { AttemptedDraft count (draft_final text.now tree.old draft.old count) draft.old draft.new out.old out.new result }
{
    let words = tree_of(text, tree)?;
    let parsed = parts_at(text, &tree[..words], count, draft, out);
    judged(parsed, count, draft.len())
}

// The parameters go to the output, where what does not fit is dropped, and the body to the draft slice. The tree is zero afterwards; whoever
// calls this clears the draft, and after a refusal the output.
pub fn solution_draft(
    text: &[u8],
    tree: &mut [u32],
    draft: &mut [u32],
    out: &mut [u32],
    count: u64,
) -> Result<Drafted, Refusal>
    ensures answer { answered result ≡ draft_said count (draft_final text.now tree.old draft.old count) }
    ensures working { tree.new ≡ zeros tree.old }
    ensures body { Laid (raised_words body_items count) (draft_final text.now tree.old draft.old count) draft.old draft.new }
    ensures params { Laid (raised_words param_items count) (draft_final text.now tree.old draft.old count) out.old out.new }
{
    let answer = attempt(text, tree, draft, out, count);
    clear(tree);
    answer
}
