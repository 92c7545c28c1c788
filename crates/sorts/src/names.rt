// The names of sorts.
ghost use Rattle.std.specs.Prelude.{◌≡◌};
ghost use Rattle.reading.specs.Bytes.{lookup};
ghost use Rattle.reading.specs.Answer.{or_bad, malformed};
ghost use Rattle.words.specs.Spans.{as_span};
ghost use Rattle.lexing.specs.Quads.{as_word};
ghost use Rattle.grammar.specs.Names.{plain_sorts, one_sort, two_sorts, three_items};
ghost use Rattle.grammar.specs.ParseSort.{size_named, index_named, or_applied, sort_form};
ghost use Rattle.sorts.specs.SortNames.{plain_in, form_in, width_in};

use lexing::byte::{begins_with, same};
use lexing::number::{u32_of, u64_of};
use words::span::Span;

// A sort that is a name.
#[derive(Clone, Copy)]
pub enum Plain {
    Int,
    Bool,
    Real,
    Str,
}

// A list sort that is words in front of its sorts.
#[derive(Clone, Copy)]
pub enum Row {
    Function,
    BitVec,
    Set,
    Map,
    Data(Span),
}

// How a list is read as a sort, by its first item.
#[derive(Clone, Copy)]
pub enum ListForm {
    Func,
    Row(Row),
}

// The sort that a name is by itself.
pub fn plain_sort(name: &[u8]) -> Option<Plain>
    ensures { plain_in result ≡ lookup plain_sorts name.now }
{
    if same(name, b"Int") || same(name, b"int") {
        return Some(Plain::Int);
    }
    if same(name, b"Bool") || same(name, b"bool") {
        return Some(Plain::Bool);
    }
    if same(name, b"Real") || same(name, b"real") {
        return Some(Plain::Real);
    }
    if same(name, b"Str") || same(name, b"str") {
        return Some(Plain::Str);
    }
    None
}

// The width of a name that is `Size` and a number.
pub fn size_named(name: &[u8]) -> Option<u32>
    ensures { or_bad malformed (width_in result) ≡ size_named name.now }
{
    if !begins_with(b"Size", name) {
        return None;
    }
    u32_of(&name[4..])
}

// The index of a name that is `@(`, a number and `)`.
pub fn index_named(name: &[u8]) -> Option<u64>
    ensures { result ≡ as_word (index_named name.now) }
{
    if !begins_with(b"@(", name) {
        return None;
    }
    let end = name.len() - 1;
    if name[end] != b')' {
        return None;
    }
    u64_of(&name[2..end])
}

// How a list is read, by its first name and how many items stand behind it.
pub fn sort_form(text: &[u8], name: Span, n: u32) -> ListForm
    ensures { form_in result ≡ sort_form text.now (as_span name) n }
{
    let bytes = name.bytes(text);
    match n {
        1 => one_sort(bytes, name),
        2 => two_sorts(bytes, name),
        3 => three_items(bytes, name),
        _ => ListForm::Row(Row::Data(name)),
    }
}

// The same with one item.
fn one_sort(bytes: &[u8], name: Span) -> ListForm
    ensures { form_in result ≡ or_applied (as_span name) (lookup one_sort bytes.now) }
{
    if same(bytes, b"Set_Set") {
        return ListForm::Row(Row::Set);
    }
    if same(bytes, b"BitVec") {
        return ListForm::Row(Row::BitVec);
    }
    ListForm::Row(Row::Data(name))
}

// With two items.
fn two_sorts(bytes: &[u8], name: Span) -> ListForm
    ensures { form_in result ≡ or_applied (as_span name) (lookup two_sorts bytes.now) }
{
    if same(bytes, b"function") {
        return ListForm::Row(Row::Function);
    }
    if same(bytes, b"Map_t") || same(bytes, b"Array_t") {
        return ListForm::Row(Row::Map);
    }
    ListForm::Row(Row::Data(name))
}

// With three items.
fn three_items(bytes: &[u8], name: Span) -> ListForm
    ensures { form_in result ≡ or_applied (as_span name) (lookup three_items bytes.now) }
{
    if same(bytes, b"func") {
        return ListForm::Func;
    }
    ListForm::Row(Row::Data(name))
}
