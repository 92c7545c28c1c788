// Flattening: words that may come from anywhere are judged, and applications of applications are joined into one, as `uncurry` does. The
// operation solution flattens what the parser makes of a text. What is answered stands in crates/flattening/specs/Operations.antt;
// crates/judging/specs/Judge.antt says which words are an expression, crates/flattening/specs/Uncurry.antt what flattening makes of it.
#![tactic(auto)]

ghost use Rattle.std.specs.Prelude.{◌≡◌};
ghost use Rattle.words.specs.Answered.{answered};
ghost use Rattle.reading.specs.Answer.{zeros, output_of};
ghost use Rattle.grammar.specs.Item.{raised_words};
ghost use Rattle.parse.specs.Answers.{Attempted, AttemptedAt};
ghost use Rattle.flattening.specs.Operations.{expr_words, flatten_final, flatten_out, flat_items, solution_final};
ghost use Rattle.flatten.specs.Answers.{flatten_answer, solution_answer};

use flatwriter::flat;
use judge::expr_words::{NO_TEXT, judge};
use parse::Counted;
use parse::ending::close;
use parse::solution::solution_draft;
use words::limits::MAX_NODES;
use words::output::clear;
use words::refusal::Refusal;

// The flattened words; the output is not cleared yet.
fn attempt(words: &[u32], out: &mut [u32]) -> Result<usize, Refusal>
    ensures { Attempted expr_words (flatten_final words.now out.old) out.old out.new result }
{
    judge(words, NO_TEXT)?;
    let walked = flat(words, 0, MAX_NODES, out, 0);
    if out.len() < walked.place {
        return Err(Refusal::NoRoom);
    }
    Ok(walked.place)
}

// Flattens words: how many there are afterwards, written from the start of the output and nothing behind them. The refusals are 14 for
// words that are no expression, 6 where one begins inside 128 others, 14 for words left over, and at last 7 if the output has room for fewer
// words, or if a joined count exceeds 2^32 - 1. A refusal zeroes the output. The words that are read stay as they are.
pub fn flatten(words: &[u32], out: &mut [u32]) -> Result<usize, Refusal>
    ensures answer { answered result ≡ flatten_answer (flatten_final words.now out.old) }
    ensures output { out.new ≡ flatten_out words.now out.old }
{
    let answer = attempt(words, out);
    if answer.is_err() {
        clear(out);
    }
    answer
}

// The solution and its words; draft and output are not cleared yet.
fn attempt_solution(
    text: &[u8],
    tree: &mut [u32],
    draft: &mut [u32],
    out: &mut [u32],
    count: u64,
) -> Result<Counted, Refusal>
    ensures answer { AttemptedAt flat_items count (solution_final text.now tree.old draft.old out.old count) out.old out.new result }
    ensures working { tree.new ≡ zeros tree.old }
    ensures body { zeros draft.new ≡ zeros draft.old }
{
    let made = solution_draft(text, tree, draft, out, count)?;
    let end = flat(&draft[..made.body], 0, MAX_NODES, out, made.params);
    if out.len() < end.place {
        return Err(Refusal::NoRoom);
    }
    Ok(Counted {
        words: end.place,
        count: made.count,
    })
}

// The solution that a text begins with, flattened: how many words it has, and the reader's count afterwards; or the number of the refusal,
// those of an expression, where 7 is given for the draft as well. Tree and draft are working slices, and zero afterwards; a refusal
// zeroes the output too.
pub fn solution(
    text: &[u8],
    tree: &mut [u32],
    draft: &mut [u32],
    out: &mut [u32],
    count: u64,
) -> Result<Counted, Refusal>
    ensures answer { answered result ≡ solution_answer count (solution_final text.now tree.old draft.old out.old count) }
    ensures working { tree.new ≡ zeros tree.old }
    ensures body { draft.new ≡ zeros draft.old }
    ensures output { out.new ≡ output_of (raised_words flat_items count) (solution_final text.now tree.old draft.old out.old count) out.old }
{
    let answer = attempt_solution(text, tree, draft, out, count);
    close(draft, out, answer)
}
