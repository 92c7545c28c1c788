// Words judged: where an expression ends that begins at a place, and words that are one expression or one solution; or the refusal of others.
ghost use Rattle.std.specs.Prelude.{◌≡◌, eqb, length};
ghost use Rattle.reading.specs.Pick.{pick};
ghost use Rattle.grammar.specs.Expr.{enil, econs};
ghost use Rattle.judging.specs.Judge.{sort_if, expr_deep, several, judge_expr, judge_solution};
ghost use Rattle.judging.specs.Ends.{end_of};
ghost use Rattle.words.specs.Refusals.{number_of};
ghost use Rattle.words.specs.Answered.{answered, told, refused};

use heads::{Header, head};
use sortwords::{binders_end, sort_end};
use words::expr_kinds::{KINDS_END, NUMERAL};
use words::limits::MAX_NODES;
use words::refusal::Refusal;

// The limit of spans where no text is lent with the words: no span ends behind it.
pub const NO_TEXT: u64 = 8589934592;

// Why there is no expression where there is no room for one.
fn no_room(words: &[u32], at: usize) -> Refusal
    ensures { refused (number_of result) ≡ end_of (expr_deep 0 0 words.now at) }
{
    match words.get(at) {
        Some(&k) if NUMERAL <= k && k < KINDS_END => Refusal::TooDeep,
        _ => Refusal::NotWords,
    }
}

// An output sort where the flag says that there is one.
pub fn out_sort(words: &[u32], at: usize, limit: u64, flag: bool) -> Result<usize, Refusal>
    ensures { answered result ≡ end_of (sort_if limit flag words.now at) }
{
    if flag {
        return sort_end(words, at, limit);
    }
    Ok(at)
}

// The expression at a place, with room for so many inside one another.
#[cycle(expr_end_exprs_end)]
pub fn expr_end(words: &[u32], at: usize, limit: u64, room: u32) -> Result<usize, Refusal>
    ensures { answered result ≡ end_of (expr_deep limit room words.now at) }
{
    if room == 0 {
        return Err(no_room(words, at));
    }
    match head(words, at, limit)? {
        Header::Operands(a, n) => exprs_end(words, a, n, limit, room - 1),
        Header::Arguments(a, flag, n) => {
            let b = exprs_end(words, a, n, limit, room - 1)?;
            let d = out_sort(words, b, limit, flag)?;
            expr_end(words, d, limit, room - 1)
        }
    }
}

// So many expressions, one after the other.
#[cycle(expr_end_exprs_end)]
pub fn exprs_end(words: &[u32], at: usize, n: u32, limit: u64, room: u32) -> Result<usize, Refusal>
    ensures { answered result ≡ end_of (several (expr_deep limit room) enil econs n words.now at) }
{
    let mut a = at;
    for _ in 0..n {
        a = expr_end(words, a, limit, room)?;
    }
    Ok(a)
}

// What ends where the words end.
fn whole(words: &[u32], end: usize) -> Result<usize, Refusal>
    ensures { answered result ≡ pick (eqb end (length words.now)) (told end) (refused 14) }
{
    if end == words.len() {
        return Ok(end);
    }
    Err(Refusal::NotWords)
}

// Words that are one expression and no more.
pub fn judge(words: &[u32], limit: u64) -> Result<usize, Refusal>
    ensures { answered result ≡ end_of (judge_expr limit words.now) }
{
    let end = expr_end(words, 0, limit, MAX_NODES)?;
    whole(words, end)
}

// Words that are one solution and no more: how many parameters, these, and the body.
pub fn solution(words: &[u32], limit: u64) -> Result<usize, Refusal>
    ensures { answered result ≡ end_of (judge_solution limit words.now) }
{
    if words.is_empty() {
        return Err(Refusal::NotWords);
    }
    let body = binders_end(words, 1, words[0], limit)?;
    let end = expr_end(words, body, limit, MAX_NODES)?;
    whole(words, end)
}
