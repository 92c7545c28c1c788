// What stands at a byte of a text.
ghost use Rattle.std.specs.Prelude.{◌≡◌, ◌+◌, ◌^◌, ◌≤◌, ◌<◌, [], ◌∷◌, length, get_or, take, drop};
ghost use Rattle.std.proofs.lemmas.List.Edits.{sets};
ghost use Rattle.reading.specs.Limits.{max_bytes};
ghost use Rattle.reading.specs.Number.{integer_of};
ghost use Rattle.reading.specs.Decimal.{is_decimal};
ghost use Rattle.reading.specs.Token.{or_decimal, atom_of, token_at};
ghost use Rattle.lexing.specs.TokenWords.{as_coded, span_coded, quoted_at, symbol_at, as_token};

use crate::byte::{find, same};
use crate::decimal::is_decimal;
use crate::integer::integer;
use crate::space::{atom_end, space_bytes};
use words::output::{put, put_three};
use words::tree_kinds::{BOOLEAN, DECIMAL, INTEGER, QUOTED, SYMBOL};

// The words of an atom, with zeros behind them.
#[derive(Clone, Copy)]
pub struct Words {
    pub a: u32,
    pub b: u32,
    pub c: u32,
    pub d: u32,
    pub e: u32,
}

// How many words an atom has, and the words.
#[derive(Clone, Copy)]
pub struct Coded {
    pub count: usize,
    pub words: Words,
}

// White space, with the place behind its character; a parenthesis; an atom, with the place behind
// it, how many words it has and the words; or a string or an `@` that does not end.
#[derive(Clone, Copy)]
pub enum Token {
    Blank(usize),
    Opens,
    Closes,
    Leaf(usize, usize, Words),
    Unfinished,
}

// A word that says what an atom is, and its span.
fn spanned(kind: u32, start: usize, len: usize) -> Coded
    requires { (start ≤ max_bytes) × (len ≤ max_bytes) }
    ensures { result ≡ span_coded kind (record { start = start; len = len }) }
{
    Coded {
        count: 3,
        words: Words {
            a: kind,
            b: start as u32,
            c: len as u32,
            d: 0,
            e: 0,
        },
    }
}

// An integer, a decimal or a symbol. No number begins with a byte behind `9`.
fn number_or_symbol(t: &[u8], start: usize) -> Coded
    requires { (start ≤ max_bytes) × (length t.now ≤ max_bytes) }
    ensures { result ≡ as_coded (or_decimal (integer_of t.now) (is_decimal t.now)
        (record { start = start; len = length t.now })) }
{
    if let [first, ..] = t {
        if *first > b'9' {
            return spanned(SYMBOL, start, t.len());
        }
    }
    match integer(t) {
        Some(q) => Coded {
            count: 5,
            words: Words {
                a: INTEGER,
                b: q.a,
                c: q.b,
                d: q.c,
                e: q.d,
            },
        },
        None if is_decimal(t) => spanned(DECIMAL, start, t.len()),
        None => spanned(SYMBOL, start, t.len()),
    }
}

// A boolean.
fn flag(bit: u32) -> Coded
    ensures { result ≡ record { count = 2; words = record { a = 20; b = bit; c = 0; d = 0; e = 0 } } }
{
    Coded {
        count: 2,
        words: Words {
            a: BOOLEAN,
            b: bit,
            c: 0,
            d: 0,
            e: 0,
        },
    }
}

// The atom of these bytes, which stand at a place.
fn atom(t: &[u8], start: usize) -> Coded
    requires { (start ≤ max_bytes) × (length t.now ≤ max_bytes) }
    ensures { result ≡ as_coded (atom_of t.now (record { start = start; len = length t.now })) }
{
    if same(t, b"true") {
        return flag(1);
    }
    if same(t, b"false") {
        return flag(0);
    }
    number_or_symbol(t, start)
}

// A string that begins at a place.
fn quoted(text: &[u8], at: usize) -> Token
    requires { (length text.now ≤ max_bytes) × (at < length text.now) }
    ensures { result ≡ as_token at (quoted_at at (drop (at + 1) text.now)) }
{
    let Some(e) = find(text, at + 1, b'"') else {
        return Token::Unfinished;
    };
    let w = spanned(QUOTED, at + 1, e - (at + 1));
    Token::Leaf(e + 1, w.count, w.words)
}

// An `@` at a place, a symbol up to the next `)`.
fn at_sign(text: &[u8], at: usize) -> Token
    requires { (length text.now ≤ max_bytes) × (at < length text.now) }
    ensures { result ≡ as_token at (symbol_at at (drop (at + 1) text.now)) }
{
    let Some(e) = find(text, at + 1, b')') else {
        return Token::Unfinished;
    };
    let w = spanned(SYMBOL, at, e + 1 - at);
    Token::Leaf(e + 1, w.count, w.words)
}

// What stands at a place.
pub fn token_at(text: &[u8], at: usize) -> Token
    requires { (length text.now ≤ max_bytes) × (at < length text.now) }
    ensures { result ≡ as_token at (token_at at (get_or text.now at 0) (drop (at + 1) text.now)) }
{
    match text[at] {
        b'(' => Token::Opens,
        b')' => Token::Closes,
        b'"' => quoted(text, at),
        b'@' => at_sign(text, at),
        _ => {
            let n = space_bytes(text, at);
            if n != 0 {
                return Token::Blank(at + n);
            }
            let e = atom_end(text, at + 1);
            let w = atom(&text[at..e], at);
            Token::Leaf(e, w.count, w.words)
        }
    }
}

// The first n of the words of an atom, written to an output.
pub fn put_words(out: &mut [u32], at: usize, n: usize, w: Words)
    requires { (at < 2 ^ 32) × (2 ≤ n) × (n ≤ 5) }
    ensures { out.new ≡ sets out.old at (take n (w.a ∷ w.b ∷ w.c ∷ w.d ∷ w.e ∷ [])) }
{
    if n <= 2 {
        put(out, at, w.a);
        put(out, at + 1, w.b);
        return;
    }
    put_three(out, at, w.a, w.b, w.c);
    if n <= 3 {
        return;
    }
    put(out, at + 3, w.d);
    if n <= 4 {
        return;
    }
    put(out, at + 4, w.e);
}
