// Solutions as SMT-LIB terms: words that may come from anywhere are judged as those of one solution, and written as its list of sorted
// variables, a space and one term. What is answered stands in crates/smt/specs/Operation.antt, what is written in its Writer.antt.
#![tactic(auto)]

ghost use Rattle.std.specs.Prelude.{◌≡◌};
ghost use Rattle.words.specs.Answered.{answered};
ghost use Rattle.smt.specs.Operation.{smtlib_final, smtlib_out};
ghost use Rattle.smtlib.specs.Answers.{answer_of, Attempted};

use crate::terms::term;
use judge::expr_words::solution;
use nodes::kind::word_at;
use smtvars::vars::vars;
use words::limits::MAX_NODES;
use words::refusal::Refusal;
use writing::{byte, clear};

mod terms;

// The bytes of words that were judged to be a solution; the output is not cleared yet.
fn attempt(words: &[u32], text: &[u8], out: &mut [u8]) -> Result<usize, Refusal>
    ensures { Attempted words.now text.now out.old out.new result }
{
    solution(words, text.len() as u64)?;
    let list = vars(words, 1, word_at(words, 0), text, out, 0)?;
    let place = byte(out, list.place, b' ');
    let body = term(words, list.next, MAX_NODES, text, out, place)?;
    if out.len() < body.place {
        return Err(Refusal::NoRoom);
    }
    Ok(body.place)
}

// Writes a solution's words, whose spans point into the text, from the start of the output and nothing behind its last byte: how many bytes
// there are. The refusals are 14 for words that are no solution or have a span outside the text, 6 where an expression begins inside 128
// others, 14 for words left over; then 15 for a part that cannot be written and 16 for a byte of a name or a string that cannot, in the order
// of the words; and at last 7 if the output has room for fewer bytes. A refusal zeroes the output.
pub fn smtlib(words: &[u32], text: &[u8], out: &mut [u8]) -> Result<usize, Refusal>
    ensures answer { answered result ≡ answer_of (smtlib_final words.now text.now out.old) }
    ensures output { out.new ≡ smtlib_out words.now text.now out.old }
{
    let answer = attempt(words, text, out);
    if answer.is_err() {
        clear(out);
    }
    answer
}
