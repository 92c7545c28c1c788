// Terms: recursion goes over the nesting of expressions, operands and arguments are walked by a loop.
ghost use Rattle.std.specs.Prelude.{◌≡◌, ℕ, length};
ghost use Rattle.grammar.specs.Expr.{Expr, Exprs, enil, econs};
ghost use Rattle.judging.specs.Judge.{reads, several, expr_deep};
ghost use Rattle.smtlib.specs.Terms.{term_text, seamed};
ghost use Rattle.writing.specs.Wrote.{WroteBytes};
ghost use Rattle.smtseams.specs.Seams.{seam_of, gap_of};
ghost use Rattle.smtnames.specs.Written.{TellsPart};

use heads::{Header, head};
use judge::expr_words::{expr_end, exprs_end, out_sort};
use judging::behind;
use nodes::kind::kind_at;
use smtfronts::callee::callee;
use smtfronts::fronts::front;
use smtseams::{close, closes, lets, seam};
use words::refusal::Refusal;
use words::walked::Walked;
use writing::byte;

// The expression at a place, which was judged with room for so many inside one another. The head of an application stands behind its
// arguments in the words and before them in the term: it is found by walking over them.
#[cycle(term_terms)]
pub fn term(
    words: &[u32],
    at: usize,
    room: u32,
    text: &[u8],
    out: &mut [u8],
    place: usize,
) -> Result<Walked, Refusal>
    ensures { (e : Expr) (n : ℕ) → expr_deep (length text.now) room words.now at ≡ reads e n → TellsPart n (term_text text.now e) out.old place out.new result }
{
    if room == 0 {
        return Err(Refusal::TooDeep);
    }
    let limit = text.len() as u64;
    match head(words, at, limit)? {
        Header::Operands(a, n) => {
            let node = kind_at(words, at);
            let p = front(words, at, node, n, text, out, place)?;
            let told = terms(words, a, n, room - 1, lets(node), text, out, p)?;
            Ok(Walked {
                next: told.next,
                place: close(closes(node, n), out, told.place),
            })
        }
        Header::Arguments(a, flag, n) => {
            let b = behind(exprs_end(words, a, n, limit, room - 1), a);
            let d = behind(out_sort(words, b, limit, flag), b);
            if n == 0 {
                return term(words, d, room - 1, text, out, place);
            }
            let e = behind(expr_end(words, d, limit, room - 1), d);
            match callee(kind_at(words, d), text, out, place) {
                Ok(p) => {
                    let told = terms(words, a, n, room - 1, false, text, out, p)?;
                    Ok(Walked {
                        next: e,
                        place: byte(out, told.place, b')'),
                    })
                }
                // A refusal among the arguments comes first, as they stand before their head in the words.
                Err(refusal) => {
                    terms(words, a, n, room - 1, false, text, out, place)?;
                    Err(refusal)
                }
            }
        }
    }
}

// What stands before an operand: nothing before the first one.
fn gap(first: bool, in_let: bool, out: &mut [u8], place: usize) -> usize
    ensures { WroteBytes out.old place (gap_of first in_let) out.new result }
{
    if first {
        return place;
    }
    seam(in_let, out, place)
}

// So many expressions, one after the other.
#[cycle(term_terms)]
fn terms(
    words: &[u32],
    at: usize,
    n: u32,
    room: u32,
    in_let: bool,
    text: &[u8],
    out: &mut [u8],
    place: usize,
) -> Result<Walked, Refusal>
    ensures { (es : Exprs) (m : ℕ) → several (expr_deep (length text.now) room) enil econs n words.now at ≡ reads es m → TellsPart m (seamed text.now (seam_of in_let) es) out.old place out.new result }
{
    let mut a = at;
    let mut p = place;
    for i in 0..n {
        let g = gap(i == 0, in_let, out, p);
        let told = term(words, a, room, text, out, g)?;
        a = told.next;
        p = told.place;
    }
    Ok(Walked { next: a, place: p })
}
