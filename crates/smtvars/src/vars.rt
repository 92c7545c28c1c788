// Sorted variables.
ghost use Rattle.std.specs.Prelude.{◌≡◌, List, ℕ};
ghost use Rattle.grammar.specs.Expr.{Binder};
ghost use Rattle.judging.specs.Judge.{reads, binder_at, binders_at};
ghost use Rattle.smtnames.specs.Pieces.{var_text, vars_text};
ghost use Rattle.smtnames.specs.Written.{TellsPart};

use nodes::kind::word_at;
use smtnames::names::fresh;
use sorttext::sort;
use words::number::words_to_long;
use words::refusal::Refusal;
use words::walked::Walked;
use writing::byte;

// A sorted variable in parentheses.
fn var(
    words: &[u32],
    at: usize,
    text: &[u8],
    out: &mut [u8],
    place: usize,
) -> Result<Walked, Refusal>
    ensures { (limit : ℕ) (b : Binder) (n : ℕ) → binder_at limit words.now at ≡ reads b n → TellsPart n (var_text text.now b) out.old place out.new result }
{
    // Never, where the words are a binder.
    if words.len() <= at {
        return Err(Refusal::NotWords);
    }
    let k = words_to_long(words[at], word_at(words, at + 1));
    let a = byte(out, place, b'(');
    let b = fresh(k, out, a);
    let c = byte(out, b, b' ');
    let told = sort(words, at + 2, text, out, c)?;
    Ok(Walked {
        next: told.next,
        place: byte(out, told.place, b')'),
    })
}

// So many sorted variables, one space apart, in parentheses.
pub fn vars(
    words: &[u32],
    at: usize,
    n: u32,
    text: &[u8],
    out: &mut [u8],
    place: usize,
) -> Result<Walked, Refusal>
    ensures { (limit : ℕ) (bs : List Binder) (m : ℕ) → binders_at limit n words.now at ≡ reads bs m → TellsPart m (vars_text text.now bs) out.old place out.new result }
{
    let mut a = at;
    let mut p = byte(out, place, b'(');
    for i in 0..n {
        if 0 < i {
            p = byte(out, p, b' ');
        }
        let told = var(words, a, text, out, p)?;
        a = told.next;
        p = told.place;
    }
    Ok(Walked {
        next: a,
        place: byte(out, p, b')'),
    })
}
