// The words of sorts, written from the start of an output. What does not fit is dropped.
ghost use Rattle.std.specs.Prelude.{◌≡◌, [], ◌∷◌, ◌+◌, ◌^◌, ◌≤◌, ◌<◌, length};
ghost use Rattle.std.proofs.lemmas.List.Edits.{sets};
ghost use Rattle.reading.specs.Limits.{max_func};
ghost use Rattle.reading.specs.Answer.{over};
ghost use Rattle.grammar.specs.Sort.{two};
ghost use Rattle.sorts.specs.SortNames.{row_form};
ghost use Rattle.sorts.specs.Rows.{mark, abs_words, row_head};

use crate::names::Row;
use words::number::{high, low};
use words::output::put;
use words::sort_kinds::{ABS, APP, BIT_VEC, DATA, FUNC, MAP, SET, SIZE, VAR};
use words::span::Span;

// One word, as of a sort that is a name.
pub fn put_one(out: &mut [u32], code: u32) -> usize
    ensures { (result ≡ 1) × (out.new ≡ over (code ∷ []) out.old) }
{
    put(out, 0, code);
    1
}

// A size.
pub fn put_size(out: &mut [u32], width: u32) -> usize
    ensures { (result ≡ 2) × (out.new ≡ over (6 ∷ width ∷ []) out.old) }
{
    put(out, 0, SIZE);
    put(out, 1, width);
    2
}

// A variable.
pub fn put_var(out: &mut [u32], index: u64) -> usize
    ensures { (result ≡ 3) × (out.new ≡ over (7 ∷ two index) out.old) }
{
    put(out, 0, VAR);
    put(out, 1, low(index));
    put(out, 2, high(index));
    3
}

// What stands before n sorts behind a constructor of the user's.
pub fn put_data(out: &mut [u32], name: Span, n: u32) -> usize
    ensures { (result ≡ 5) × (out.new ≡ over (10 ∷ 2 ∷ name.start ∷ name.len ∷ n ∷ []) out.old) }
{
    put(out, 0, APP);
    put(out, 1, DATA);
    put(out, 2, name.start);
    put(out, 3, name.len);
    put(out, 4, n);
    5
}

// What stands before n sorts behind a set or a map.
fn put_ctor(out: &mut [u32], ctor: u32, n: u32) -> usize
    ensures { (result ≡ 3) × (out.new ≡ over (10 ∷ ctor ∷ n ∷ []) out.old) }
{
    put(out, 0, APP);
    put(out, 1, ctor);
    put(out, 2, n);
    3
}

// What stands before the n sorts of a list sort, and how many words that is.
pub fn put_row(out: &mut [u32], row: Row, n: u32) -> usize
    ensures { (result ≡ length (row_head (row_form row) n)) × (out.new ≡ over (row_head (row_form row) n) out.old) }
{
    match row {
        Row::Function => put_one(out, FUNC),
        Row::BitVec => put_one(out, BIT_VEC),
        Row::Set => put_ctor(out, SET, n),
        Row::Map => put_ctor(out, MAP, n),
        Row::Data(name) => put_data(out, name, n),
    }
}

// Abs 0 to Abs n - 1.
pub fn put_abs(out: &mut [u32], n: usize)
    requires { n ≤ max_func }
    ensures { out.new ≡ over (abs_words 0 n) out.old }
{
    for i in 0..n {
        put(out, i * 2, ABS);
        put(out, i * 2 + 1, i as u32);
    }
}

// What stands before the first of some sorts, m of which are inputs of functions, and the place behind it.
pub fn put_mark(out: &mut [u32], at: usize, m: u32) -> usize
    requires { at < 2 ^ 63 }
    ensures { (result ≡ at + length (mark m)) × (out.new ≡ sets out.old at (mark m)) }
{
    if m == 0 {
        return at;
    }
    put(out, at, FUNC);
    at + 1
}
