// What stands in front of the operands of an expression.
ghost use Rattle.std.specs.Prelude.{◌≡◌, List, ℕ};
ghost use Rattle.grammar.specs.Expr.{Binder, Kind};
ghost use Rattle.judging.specs.Judge.{reads, operands_of, binders_at, header};
ghost use Rattle.nodes.specs.Node.{node_of};
ghost use Rattle.nodes.specs.declared.kind.Node.TheVariants as told;
ghost use Rattle.words.specs.Quads.{as_wide};
ghost use Rattle.writing.specs.Wrote.{WroteBytes};
ghost use Rattle.smtfronts.specs.Fronts.{front_text, bits_text, exists_text, let_fresh_text, Numbered, node_text};
ghost use Rattle.smtnames.specs.Written.{TellsPiece};

use nodes::kind::Node;
use smtbools::{boolean, folded};
use smtnames::names::{fresh, name, string};
use smtoperators::{operator, relation};
use smtvars::vars::vars;
use smtwidth::fits;
use words::quad::Quad;
use words::refusal::Refusal;
use words::span::Span;
use writing::{byte, bytes, decimal, decimal_word};

// A let of a name, up to its value.
fn let_front(text: &[u8], span: Span, out: &mut [u8], place: usize) -> Result<usize, Refusal>
    ensures { TellsPiece (node_text text.now (told.Let span) 2) out.old place out.new result }
{
    let a = bytes(b"(let ((", out, place);
    let b = name(b'n', text, span, out, a)?;
    Ok(byte(out, b, b' '))
}

// A let of a fresh variable, up to its value.
fn fresh_let_front(k: u64, out: &mut [u8], place: usize) -> usize
    ensures { WroteBytes out.old place (let_fresh_text k) out.new result }
{
    let a = bytes(b"(let ((", out, place);
    let b = fresh(k, out, a);
    byte(out, b, b' ')
}

// A constructor test, up to its operand.
fn test_front(text: &[u8], span: Span, out: &mut [u8], place: usize) -> Result<usize, Refusal>
    ensures { TellsPiece (node_text text.now (told.IsCtor span) 1) out.old place out.new result }
{
    let a = bytes(b"((_ is ", out, place);
    let b = name(b'n', text, span, out, a)?;
    Ok(bytes(b") ", out, b))
}

// A value of a width.
fn bits(q: Quad, width: u32, out: &mut [u8], place: usize) -> Result<usize, Refusal>
    ensures { TellsPiece (bits_text (as_wide q) width) out.old place out.new result }
{
    if !fits(q, width) {
        return Err(Refusal::Unwritable);
    }
    let a = bytes(b"(_ bv", out, place);
    let b = decimal(q, out, a);
    let c = byte(out, b, b' ');
    let d = decimal_word(width, out, c);
    Ok(byte(out, d, b')'))
}

// In front of so many operands, of every kind but an exists.
fn plain_front(
    node: Node,
    n: u32,
    text: &[u8],
    out: &mut [u8],
    place: usize,
) -> Result<usize, Refusal>
    ensures { Numbered node → TellsPiece (node_text text.now node n) out.old place out.new result }
{
    match node {
        Node::Num(q) => Ok(decimal(q, out, place)),
        Node::Bool(b) => Ok(boolean(b, out, place)),
        Node::Str(span) => string(text, span, out, place),
        Node::BitVec(q, width) => bits(q, width, out, place),
        Node::Fresh(k) => Ok(fresh(k, out, place)),
        Node::Named(span) => name(b'n', text, span, out, place),
        Node::Neg => Ok(bytes(b"(- ", out, place)),
        Node::Bin(op) => Ok(operator(op, out, place)),
        Node::If => Ok(bytes(b"(ite ", out, place)),
        Node::And => Ok(folded(b"true", b"and", n, out, place)),
        Node::Or => Ok(folded(b"false", b"or", n, out, place)),
        Node::Not => Ok(bytes(b"(not ", out, place)),
        Node::Imp => Ok(bytes(b"(=> ", out, place)),
        Node::Iff => Ok(bytes(b"(= ", out, place)),
        Node::Atom(r) => Ok(relation(r, out, place)),
        Node::Let(span) => let_front(text, span, out, place),
        Node::IsCtor(span) => test_front(text, span, out, place),
        Node::LetFresh(k) => Ok(fresh_let_front(k, out, place)),
        Node::Theory(_) | Node::Exists(_) | Node::Other => Err(Refusal::Unwritable),
    }
}

// An exists with so many binders, whose words begin at a place, up to its body.
fn exists_front(
    words: &[u32],
    at: usize,
    n: u32,
    text: &[u8],
    out: &mut [u8],
    place: usize,
) -> Result<usize, Refusal>
    ensures { (limit : ℕ) (bs : List Binder) (m : ℕ) → binders_at limit n words.now at ≡ reads bs m → TellsPiece (exists_text text.now bs) out.old place out.new result }
{
    if n == 0 {
        return Ok(place);
    }
    let a = bytes(b"(exists ", out, place);
    let told = vars(words, at, n, text, out, a)?;
    Ok(byte(out, told.place, b' '))
}

// In front of the operands of the expression at a place, which was judged.
pub fn front(
    words: &[u32],
    at: usize,
    node: Node,
    n: u32,
    text: &[u8],
    out: &mut [u8],
    place: usize,
) -> Result<usize, Refusal>
    ensures { (limit : ℕ) (k : Kind) (a : ℕ) → header limit words.now at ≡ reads (operands_of k n) a → node ≡ node_of k → TellsPiece (front_text text.now k n) out.old place out.new result }
{
    match node {
        Node::Exists(m) => {
            if words.len() <= at {
                return Err(Refusal::NotWords);
            }
            exists_front(words, at + 2, m, text, out, place)
        }
        _ => plain_front(node, n, text, out, place),
    }
}
