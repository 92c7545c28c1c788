// The operation sort.
ghost use Rattle.std.specs.Prelude.{◌≡◌};
ghost use Rattle.words.specs.Answered.{answered};
ghost use Rattle.reading.specs.Answer.{zeros, output_of};
ghost use Rattle.grammar.specs.Sort.{sort_words};
ghost use Rattle.grammar.specs.Operations.{sort_final};
ghost use Rattle.parse.specs.Answers.{sort_said, Attempted};

use crate::tree::tree_of;
use words::output::clear;
use words::refusal::Refusal;

// The sort and its words; no slice is cleared yet.
fn attempt(text: &[u8], tree: &mut [u32], out: &mut [u32]) -> Result<usize, Refusal>
    ensures { Attempted sort_words (sort_final text.now tree.old out.old) out.old out.new result }
{
    let words = tree_of(text, tree)?;
    let size = sorts::sorts::sort(text, &tree[..words], out)?;
    if out.len() < size {
        return Err(Refusal::NoRoom);
    }
    Ok(size)
}

// The sort that a text begins with: how many words it has, written from the start of the output and nothing behind them. The refusals are 1 to 6
// as read one gives them, 7 if the tree slice lacks room for the tree, or at last the output for the words; 8 for a tree that is no sort, 12 for
// the number of a `func` that is out of range. The tree is a working slice, and zero afterwards; a refusal zeroes the output too.
pub fn sort(text: &[u8], tree: &mut [u32], out: &mut [u32]) -> Result<usize, Refusal>
    ensures answer { answered result ≡ sort_said (sort_final text.now tree.old out.old) }
    ensures working { tree.new ≡ zeros tree.old }
    ensures output { out.new ≡ output_of sort_words (sort_final text.now tree.old out.old) out.old }
{
    let answer = attempt(text, tree, out);
    clear(tree);
    if answer.is_err() {
        clear(out);
    }
    answer
}
