// The kind and the fields of an expression, judged: where they end, and what follows them; or the refusal of words that are none.
#![tactic(auto)]

ghost use Rattle.std.specs.Prelude.{◌≡◌, [], ◌∷◌, ◌≤◌, length};
ghost use Rattle.judging.specs.Judge.{word, word_below, choose, kinds, header, several};
ghost use Rattle.judging.specs.Ends.{end_of};
ghost use Rattle.words.specs.Answered.{answered};
ghost use Rattle.heads.specs.Heads.{head_of, operands_at};

use sortwords::{binders_end, span_end};
use words::expr_kinds::{
    AND, APP, ATOM, BINARY, BIT_VEC, BOOLEAN, EXISTS, FRESH, IF, IFF, IMP, IS_CTOR, LET, LET_FRESH,
    NAMED, NEG, NOT, NUMERAL, OR, STRING, THEORY,
};
use words::refusal::Refusal;

// What the kind and the fields of an expression say: the place behind them, and how many operands follow; or, of an application, whether
// an output sort follows its arguments and how many these are.
#[derive(Clone, Copy)]
pub enum Header {
    Operands(usize, u32),
    Arguments(usize, bool, u32),
}

// So many words of any value.
fn skip(words: &[u32], at: usize, n: usize) -> Result<usize, Refusal>
    requires { at ≤ length words.now }
    ensures { answered result ≡ end_of (several word [] (λ a rest. a ∷ rest) n words.now at) }
{
    if words.len() - at < n {
        return Err(Refusal::NotWords);
    }
    Ok(at + n)
}

// A word below a bound.
fn below(words: &[u32], at: usize, bound: u32) -> Result<usize, Refusal>
    ensures { answered result ≡ end_of (word_below bound words.now at) }
{
    match words.get(at) {
        Some(&k) if k < bound => Ok(at + 1),
        _ => Err(Refusal::NotWords),
    }
}

// So many operands behind the fields.
fn operands(fields: Result<usize, Refusal>, n: u32) -> Result<Header, Refusal>
    ensures { answered result ≡ operands_at (answered fields) n }
{
    Ok(Header::Operands(fields?, n))
}

// The fields of And, kind 42, and of Or: how many operands follow.
fn counted(words: &[u32], at: usize) -> Result<Header, Refusal>
    ensures { answered result ≡ head_of (choose 32 (kinds 0) 42 words.now at) }
{
    let Some(&n) = words.get(at) else {
        return Err(Refusal::NotWords);
    };
    Ok(Header::Operands(at + 1, n))
}

// The fields of an application, kind 38: whether it has an output sort, and how many arguments follow.
fn arguments(words: &[u32], at: usize) -> Result<Header, Refusal>
    ensures { answered result ≡ head_of (choose 32 (kinds 0) 38 words.now at) }
{
    if words.len().saturating_sub(at) < 2 || 1 < words[at] {
        return Err(Refusal::NotWords);
    }
    Ok(Header::Arguments(at + 2, words[at] == 1, words[at + 1]))
}

// The fields of Exists, kind 51: how many binders, and these.
fn quantified(words: &[u32], at: usize, limit: u64) -> Result<Header, Refusal>
    ensures { answered result ≡ head_of (choose 32 (kinds limit) 51 words.now at) }
{
    let Some(&n) = words.get(at) else {
        return Err(Refusal::NotWords);
    };
    operands(binders_end(words, at + 1, n, limit), 1)
}

// The kind and the fields of an expression.
pub fn head(words: &[u32], at: usize, limit: u64) -> Result<Header, Refusal>
    ensures { answered result ≡ head_of (header limit words.now at) }
{
    let Some(&k) = words.get(at) else {
        return Err(Refusal::NotWords);
    };
    let a = at + 1;
    match k {
        NUMERAL => operands(skip(words, a, 4), 0),
        BOOLEAN => operands(below(words, a, 2), 0),
        STRING | NAMED => operands(span_end(words, a, limit), 0),
        BIT_VEC => operands(skip(words, a, 5), 0),
        FRESH => operands(skip(words, a, 2), 0),
        APP => arguments(words, a),
        NEG | NOT => Ok(Header::Operands(a, 1)),
        BINARY => operands(below(words, a, 5), 2),
        IF => Ok(Header::Operands(a, 3)),
        AND | OR => counted(words, a),
        IMP | IFF => Ok(Header::Operands(a, 2)),
        ATOM => operands(below(words, a, 6), 2),
        LET => operands(span_end(words, a, limit), 2),
        THEORY => operands(below(words, a, 42), 0),
        IS_CTOR => operands(span_end(words, a, limit), 1),
        EXISTS => quantified(words, a, limit),
        LET_FRESH => operands(skip(words, a, 2), 2),
        _ => Err(Refusal::NotWords),
    }
}
