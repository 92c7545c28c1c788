// How a list is read as an expression, by the name that it begins with.
ghost use Rattle.std.specs.Prelude.{drop};
ghost use Rattle.reading.specs.Bytes.{ascii, begins_with, lookup};
ghost use Rattle.grammar.specs.Names.{keywords};
ghost use Rattle.grammar.specs.ParseExpr.{or_else_form};
ghost use Rattle.forms.specs.FormNames.{FormIs};

use lexing::byte::{begins_with, same};
use words::expr_kinds::{AND, ATOM, BINARY, IF, IFF, IMP, NOT, OR};

// A kind, or a kind and its code, with so many operands; a kind with any number of them; or a form of its own.
#[derive(Clone, Copy)]
pub enum Form {
    One(u32, usize),
    Two(u32, u32, usize),
    Many(u32),
    Cast,
    Exists,
    Let,
    Lit,
    Minus,
    IsCtor,
    Apply,
}

// The keywords, in the order of the source. A chain of tests in parts, for the reasons that theory.rt gives.
pub fn form_named(name: &[u8]) -> Form
    ensures { FormIs (or_else_form (begins_with (ascii "is$") name.now) (lookup keywords name.now)) result }
{
    if same(name, b"cast") {
        return Form::Cast;
    }
    if same(name, b"exists") {
        return Form::Exists;
    }
    if same(name, b"let") {
        return Form::Let;
    }
    if same(name, b"not") {
        return Form::One(NOT, 1);
    }
    if same(name, b"or") {
        return Form::Many(OR);
    }
    if same(name, b"and") {
        return Form::Many(AND);
    }
    if same(name, b"lit") {
        return Form::Lit;
    }
    if same(name, b"if") {
        return Form::One(IF, 3);
    }
    arithmetic(name)
}

// Behind `if`.
fn arithmetic(name: &[u8]) -> Form
    ensures { FormIs (or_else_form (begins_with (ascii "is$") name.now) (lookup (drop 8 keywords) name.now)) result }
{
    if same(name, b"+") {
        return Form::Two(BINARY, 0, 2);
    }
    if same(name, b"-") {
        return Form::Minus;
    }
    if same(name, b"*") {
        return Form::Two(BINARY, 2, 2);
    }
    if same(name, b"/") {
        return Form::Two(BINARY, 3, 2);
    }
    if same(name, b"mod") {
        return Form::Two(BINARY, 4, 2);
    }
    relation(name)
}

// Behind `mod`.
fn relation(name: &[u8]) -> Form
    ensures { FormIs (or_else_form (begins_with (ascii "is$") name.now) (lookup (drop 13 keywords) name.now)) result }
{
    if same(name, b"=") {
        return Form::Two(ATOM, 0, 2);
    }
    if same(name, b"!=") {
        return Form::Two(ATOM, 1, 2);
    }
    if same(name, b"<") {
        return Form::Two(ATOM, 4, 2);
    }
    if same(name, b"<=") {
        return Form::Two(ATOM, 5, 2);
    }
    if same(name, b">") {
        return Form::Two(ATOM, 2, 2);
    }
    if same(name, b">=") {
        return Form::Two(ATOM, 3, 2);
    }
    connective(name)
}

// Behind `>=`, and names that are no keyword.
fn connective(name: &[u8]) -> Form
    ensures { FormIs (or_else_form (begins_with (ascii "is$") name.now) (lookup (drop 19 keywords) name.now)) result }
{
    if same(name, b"<=>") {
        return Form::One(IFF, 2);
    }
    if same(name, b"=>") {
        return Form::One(IMP, 2);
    }
    if same(name, b"cast_as_int") {
        return Form::Cast;
    }
    if begins_with(b"is$", name) {
        return Form::IsCtor;
    }
    Form::Apply
}
