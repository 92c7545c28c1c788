// The operators and relations of SMT-LIB in front of their operands, each by its number.
#![tactic(auto)]

ghost use Rattle.std.specs.Prelude.{◌<◌};
ghost use Rattle.writing.specs.Wrote.{WroteBytes};
ghost use Rattle.smt.specs.Vocabulary.{operators, relations};
ghost use Rattle.smt.specs.Writer.{spelled_at};
ghost use Rattle.smtoperators.specs.Operators.{operator_text};

use writing::bytes;

// An operator by its number, behind a parenthesis.
pub fn operator(op: u32, out: &mut [u8], place: usize) -> usize
    ensures { op < 5 → WroteBytes out.old place (operator_text (spelled_at operators op)) out.new result }
{
    match op {
        0 => bytes(b"(+ ", out, place),
        1 => bytes(b"(- ", out, place),
        2 => bytes(b"(* ", out, place),
        3 => bytes(b"(div ", out, place),
        _ => bytes(b"(mod ", out, place),
    }
}

// A relation by its number, behind a parenthesis.
pub fn relation(r: u32, out: &mut [u8], place: usize) -> usize
    ensures { r < 6 → WroteBytes out.old place (operator_text (spelled_at relations r)) out.new result }
{
    match r {
        0 => bytes(b"(= ", out, place),
        1 => bytes(b"(distinct ", out, place),
        2 => bytes(b"(> ", out, place),
        3 => bytes(b"(>= ", out, place),
        4 => bytes(b"(< ", out, place),
        _ => bytes(b"(<= ", out, place),
    }
}
