// The kind of an expression and its fields, told as values to a walk over words that were judged before.
ghost use Rattle.std.specs.Prelude.{◌≡◌, ◌≤◌, length, get_or};
ghost use Rattle.nodes.specs.Node.{long_of, span_of, quad_of, node_at};

use words::expr_kinds::{
    AND, ATOM, BINARY, BIT_VEC, BOOLEAN, EXISTS, FRESH, IF, IFF, IMP, IS_CTOR, LET, LET_FRESH,
    NAMED, NEG, NOT, NUMERAL, OR, STRING, THEORY,
};
use words::number::words_to_long;
use words::quad::Quad;
use words::span::Span;

// A kind and its fields: a bitvector's number and its width; of a fresh variable and of a let of one its number; of an exists how many
// binders it has. An application is none of these.
#[derive(Clone, Copy)]
pub enum Node {
    Num(Quad),
    Bool(bool),
    Str(Span),
    BitVec(Quad, u32),
    Fresh(u64),
    Named(Span),
    Neg,
    Bin(u32),
    If,
    And,
    Or,
    Not,
    Imp,
    Iff,
    Atom(u32),
    Let(Span),
    Theory(u32),
    IsCtor(Span),
    Exists(u32),
    LetFresh(u64),
    Other,
}

// The word at a place, 0 behind the last.
pub fn word_at(words: &[u32], at: usize) -> u32
    ensures { result ≡ get_or words.now at 0 }
{
    words.get(at).copied().unwrap_or(0)
}

// The 64-bit number in two words.
fn long_at(words: &[u32], at: usize) -> u64
    requires { at ≤ length words.now }
    ensures { result ≡ long_of words.now at }
{
    words_to_long(word_at(words, at), word_at(words, at + 1))
}

// The span in two words.
fn span_at(words: &[u32], at: usize) -> Span
    requires { at ≤ length words.now }
    ensures { result ≡ span_of words.now at }
{
    Span {
        start: word_at(words, at),
        len: word_at(words, at + 1),
    }
}

// The number in four words.
fn quad_at(words: &[u32], at: usize) -> Quad
    requires { at ≤ length words.now }
    ensures { result ≡ quad_of words.now at }
{
    Quad {
        a: word_at(words, at),
        b: word_at(words, at + 1),
        c: word_at(words, at + 2),
        d: word_at(words, at + 3),
    }
}

// The kind whose word stands at a place, and the fields behind it.
pub fn kind_at(words: &[u32], at: usize) -> Node
    ensures { result ≡ node_at words.now at }
{
    if words.len() <= at {
        return Node::Other;
    }
    let a = at + 1;
    match words[at] {
        NUMERAL => Node::Num(quad_at(words, a)),
        BOOLEAN => Node::Bool(word_at(words, a) == 1),
        STRING => Node::Str(span_at(words, a)),
        BIT_VEC => Node::BitVec(quad_at(words, a), word_at(words, a + 4)),
        FRESH => Node::Fresh(long_at(words, a)),
        NAMED => Node::Named(span_at(words, a)),
        NEG => Node::Neg,
        BINARY => Node::Bin(word_at(words, a)),
        IF => Node::If,
        AND => Node::And,
        OR => Node::Or,
        NOT => Node::Not,
        IMP => Node::Imp,
        IFF => Node::Iff,
        ATOM => Node::Atom(word_at(words, a)),
        LET => Node::Let(span_at(words, a)),
        THEORY => Node::Theory(word_at(words, a)),
        IS_CTOR => Node::IsCtor(span_at(words, a)),
        EXISTS => Node::Exists(word_at(words, a)),
        LET_FRESH => Node::LetFresh(long_at(words, a)),
        _ => Node::Other,
    }
}
