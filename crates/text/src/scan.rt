// The loop over a text: token by token, with the lists that are open in two arrays.
ghost use Rattle.std.specs.Prelude.{◌≡◌, ◌^◌, ◌≤◌, ◌<◌, [], ◌∷◌, length};
ghost use Rattle.std.proofs.lemmas.List.Edits.{sets};
ghost use Rattle.reading.specs.Limits.{max_bytes};
ghost use Rattle.reading.specs.Reading.{may_follow};
ghost use Rattle.text.specs.Scanned.{Scanned};

use lexing::tokens::{Token, put_words, token_at};
use words::limits::MAX_LISTS;
use words::output::put_three;
use words::refusal::Refusal;
use words::tree_kinds::LIST;

// How many expressions and how many words were found, and the byte behind them.
#[derive(Clone, Copy)]
pub struct Found {
    pub trees: usize,
    pub words: usize,
    pub next: usize,
}

// Whether an expression may follow one inside so many lists.
fn may_follow(all: bool, depth: usize) -> bool
    ensures { result ≡ may_follow all depth }
{
    all || depth > 0
}

// The first three words of a list: 21, how many children it has, and how many words they have.
fn put_list(out: &mut [u32], at: usize, children: usize, words: usize)
    requires { (at < 2 ^ 32) × (children < 2 ^ 32) × (words < 2 ^ 32) }
    ensures { out.new ≡ sets out.old at (21 ∷ children ∷ words ∷ []) }
{
    put_three(out, at, LIST, children as u32, words as u32);
}

// Finds one expression, or all of them, and writes their words. Inside d lists, counts[d] expressions
// were read so far, and the innermost list begins at word offs[d - 1]; it gets its numbers at its `)`.
pub fn scan(text: &[u8], out: &mut [u32], all: bool) -> Result<Found, Refusal>
    requires { length text.now ≤ max_bytes }
    ensures { Scanned all text.now out.old out.new result }
{
    let mut at: usize = 0;
    let mut words: usize = 0;
    let mut depth: usize = 0;
    let mut offs = [0usize; MAX_LISTS];
    let mut counts = [0usize; MAX_LISTS + 1];
    // A cursor and not a `for`: each token says how many bytes it has.
    while at < text.len() {
        match token_at(text, at) {
            Token::Blank(next) => at = next,
            Token::Opens => {
                if depth >= MAX_LISTS {
                    return Err(Refusal::TooDeep);
                }
                put_list(out, words, 0, 0);
                offs[depth] = words;
                depth += 1;
                counts[depth] = 0;
                words += 3;
                at += 1;
            }
            Token::Closes => {
                if depth == 0 {
                    return Err(Refusal::StrayClose);
                }
                let children = counts[depth];
                depth -= 1;
                let off = offs[depth];
                put_list(out, off, children, words - off - 3);
                at += 1;
                counts[depth] += 1;
                if !may_follow(all, depth) {
                    return Ok(Found {
                        trees: counts[0],
                        words,
                        next: at,
                    });
                }
            }
            Token::Leaf(next, n, w) => {
                put_words(out, words, n, w);
                words += n;
                at = next;
                counts[depth] += 1;
                if !may_follow(all, depth) {
                    return Ok(Found {
                        trees: counts[0],
                        words,
                        next: at,
                    });
                }
            }
            Token::Unfinished => return Err(Refusal::Unclosed),
        }
    }
    if all && depth == 0 {
        return Ok(Found {
            trees: counts[0],
            words,
            next: at,
        });
    }
    Err(Refusal::EndsEarly)
}
