// The sort that a tree is: `sort`, `list_sort` and `func_sort` call one another, over exactly the words of their tree or trees.
// A loop goes over the trees that stand side by side, and the rest of the output is lent on.
ghost use Rattle.std.specs.Prelude.{◌≡◌};
ghost use Rattle.reading.specs.Bytes.{nothing};
ghost use Rattle.reading.specs.Tree.{Tree, Trees, list, trees, tree_words, trees_words};
ghost use Rattle.grammar.specs.Sort.{sort_words};
ghost use Rattle.grammar.specs.ParseSort.{other_sort, symbol_sort, func_number, each_sort, func_sort, views, parse_sort};
ghost use Rattle.sorts.specs.SortNames.{form_in, row_form, number_in};
ghost use Rattle.sorts.specs.Outcome.{IsTree, IsList, IsTrees, IsThree, Gives, Outcome};
ghost use Rattle.sorts.specs.Rows.{row_words, list_form, is_size, judged, ended};
ghost use Rattle.words.specs.Quads.{as_wide};
ghost use Rattle.words.specs.Spans.{as_span};

use crate::names::{ListForm, Plain, Row, index_named, plain_sort, size_named, sort_form};
use crate::sort_words::{put_abs, put_data, put_mark, put_one, put_row, put_size, put_var};
use lexing::byte::begins_with;
use words::limits::MAX_FUNC;
use words::quad::Quad;
use words::refusal::Refusal;
use words::sort_kinds::{BOOL, INT, REAL, STR};
use words::span::Span;
use words::tree::node_words;
use words::tree_kinds::{INTEGER, LIST, SYMBOL};

// A symbol that is no plain sort.
fn other_sort(bytes: &[u8], name: Span, out: &mut [u32]) -> Result<usize, Refusal>
    ensures { Outcome sort_words (other_sort bytes.now (as_span name) nothing) out.old out.new result }
{
    if begins_with(b"Size", bytes) {
        return match size_named(bytes) {
            Some(width) => Ok(put_size(out, width)),
            None => Err(Refusal::Malformed),
        };
    }
    match index_named(bytes) {
        Some(index) => Ok(put_var(out, index)),
        None => Ok(put_data(out, name, 0)),
    }
}

// The sort that a symbol is.
fn symbol_sort(text: &[u8], name: Span, out: &mut [u32]) -> Result<usize, Refusal>
    ensures { Outcome sort_words (symbol_sort text.now (as_span name)) out.old out.new result }
{
    let bytes = name.bytes(text);
    match plain_sort(bytes) {
        Some(Plain::Int) => Ok(put_one(out, INT)),
        Some(Plain::Bool) => Ok(put_one(out, BOOL)),
        Some(Plain::Real) => Ok(put_one(out, REAL)),
        Some(Plain::Str) => Ok(put_one(out, STR)),
        None => other_sort(bytes, name, out),
    }
}

// How a list is read.
fn list_form(text: &[u8], tree: &[u32]) -> Result<ListForm, Refusal>
    requires { IsList tree.now }
    ensures { (ts : Trees) → tree.now ≡ tree_words (list ts) → Gives form_in result (list_form text.now ts) }
{
    let n = tree[1];
    if n == 0 || tree[3] != SYMBOL {
        return Err(Refusal::Malformed);
    }
    let name = Span {
        start: tree[4],
        len: tree[5],
    };
    Ok(sort_form(text, name, n - 1))
}

// Whether the first tree is a size.
fn is_size(text: &[u8], items: &[u32]) -> bool
    ensures { (ts : Trees) → items.now ≡ trees_words ts → result ≡ is_size text.now ts }
{
    if items.len() < 3 || items[0] != SYMBOL {
        return false;
    }
    let name = Span {
        start: items[1],
        len: items[2],
    };
    size_named(name.bytes(text)).is_some()
}

// The answer for a list sort once its sorts are read: a bit vector's is to be a size.
fn row_end(text: &[u8], items: &[u32], row: Row, words: usize) -> Result<usize, Refusal>
    ensures { (ts : Trees) → items.now ≡ trees_words ts → result ≡ ended (judged text.now (row_form row) ts) words }
{
    match row {
        Row::BitVec => {
            if is_size(text, items) {
                return Ok(words);
            }
            Err(Refusal::Malformed)
        }
        _ => Ok(words),
    }
}

// An integer as the number of a `func`.
fn func_number(q: Quad) -> Result<usize, Refusal>
    ensures { Gives number_in result (func_number (as_wide q)) }
{
    if q.b != 0 || q.c != 0 || q.d != 0 || MAX_FUNC < q.a {
        return Err(Refusal::BadFunc);
    }
    Ok(q.a as usize)
}

// The sort that a tree is.
#[cycle(each_sort_func_sort_list_sort_sort)]
pub fn sort(text: &[u8], tree: &[u32], out: &mut [u32]) -> Result<usize, Refusal>
    requires { IsTree tree.now }
    ensures { (t : Tree) → tree.now ≡ tree_words t → Outcome sort_words (parse_sort text.now t) out.old out.new result }
{
    match tree[0] {
        SYMBOL => {
            let name = Span {
                start: tree[1],
                len: tree[2],
            };
            symbol_sort(text, name, out)
        }
        LIST => list_sort(text, tree, out),
        _ => Err(Refusal::Malformed),
    }
}

// The sort that a list is. The words in front of its sorts are known before they are read.
#[cycle(each_sort_func_sort_list_sort_sort)]
fn list_sort(text: &[u8], tree: &[u32], out: &mut [u32]) -> Result<usize, Refusal>
    requires { IsList tree.now }
    ensures { (ts : Trees) → tree.now ≡ tree_words (list ts) → Outcome sort_words (parse_sort text.now (list ts)) out.old out.new result }
{
    match list_form(text, tree)? {
        ListForm::Func => func_sort(text, &tree[6..], out),
        ListForm::Row(row) => {
            let items = &tree[6..];
            let w = put_row(out, row, tree[1] - 1);
            let from = w.min(out.len());
            let v = each_sort(text, items, 0, &mut out[from..])?;
            row_end(text, items, row, w + v)
        }
    }
}

// The sort that three trees behind `func` are. Its inputs and its output stand side by side.
#[cycle(each_sort_func_sort_list_sort_sort)]
fn func_sort(text: &[u8], items: &[u32], out: &mut [u32]) -> Result<usize, Refusal>
    requires { IsThree items.now }
    ensures { (ts : Trees) → items.now ≡ trees_words ts → trees ts ≡ 3 → Outcome sort_words (func_sort (views text.now ts)) out.old out.new result }
{
    if items[0] != INTEGER || items[5] != LIST {
        return Err(Refusal::Malformed);
    }
    let number = Quad {
        a: items[1],
        b: items[2],
        c: items[3],
        d: items[4],
    };
    let n = func_number(number)?;
    put_abs(out, n);
    let from = (n * 2).min(out.len());
    let v = each_sort(text, &items[8..], items[6], &mut out[from..])?;
    Ok(n * 2 + v)
}

// The sorts that trees are, one after the other; the first m of them are the inputs of functions.
#[cycle(each_sort_func_sort_list_sort_sort)]
fn each_sort(text: &[u8], items: &[u32], m: u32, out: &mut [u32]) -> Result<usize, Refusal>
    requires { IsTrees items.now }
    ensures { (ts : Trees) → items.now ≡ trees_words ts → Outcome (row_words m) (each_sort (views text.now ts)) out.old out.new result }
{
    let mut at: usize = 0;
    let mut w: usize = 0;
    let mut left = m;
    // A cursor and not a `for`: each tree says how many words it has.
    while at < items.len() {
        let rest = &items[at..];
        let k = node_words(rest);
        let next = put_mark(out, w, left);
        let from = next.min(out.len());
        let v = sort(text, &rest[..k], &mut out[from..])?;
        at += k;
        w = next + v;
        left = left.saturating_sub(1);
    }
    Ok(w)
}
