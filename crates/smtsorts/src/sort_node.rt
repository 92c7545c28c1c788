// The bytes of a sort that stand before the sorts inside it.
ghost use Rattle.smtsorts.specs.SortNode.{width_text, array_text, data_text, open_text};
ghost use Rattle.smtnames.specs.Written.{TellsPiece};
ghost use Rattle.words.specs.Spans.{as_span};

use smtnames::names::name;
use sortnodes::SortNode;
use words::refusal::Refusal;
use words::span::Span;
use writing::{byte, bytes, decimal_word};

// A BitVec of a width.
fn bit_vec(width: u32, out: &mut [u8], place: usize) -> Result<usize, Refusal>
    ensures { TellsPiece (width_text width) out.old place out.new result }
{
    if width == 0 {
        return Err(Refusal::Unwritable);
    }
    let a = bytes(b"(_ BitVec ", out, place);
    let b = decimal_word(width, out, a);
    Ok(byte(out, b, b')'))
}

// An Array of so many sorts.
fn array(n: u32, out: &mut [u8], place: usize) -> Result<usize, Refusal>
    ensures { TellsPiece (array_text n) out.old place out.new result }
{
    if n == 2 {
        return Ok(bytes(b"(Array ", out, place));
    }
    Err(Refusal::Unwritable)
}

// A Data sort of so many sorts.
fn data(text: &[u8], ctor: Span, n: u32, out: &mut [u8], place: usize) -> Result<usize, Refusal>
    ensures { TellsPiece (data_text text.now (as_span ctor) n) out.old place out.new result }
{
    if n == 0 {
        return name(b's', text, ctor, out, place);
    }
    let a = byte(out, place, b'(');
    let b = name(b's', text, ctor, out, a)?;
    Ok(byte(out, b, b' '))
}

// The bytes of a sort before the sorts inside it.
pub fn opened(node: SortNode, text: &[u8], out: &mut [u8], place: usize) -> Result<usize, Refusal>
    ensures { TellsPiece (open_text text.now node) out.old place out.new result }
{
    match node {
        SortNode::Int => Ok(bytes(b"Int", out, place)),
        SortNode::Bool => Ok(bytes(b"Bool", out, place)),
        SortNode::Real => Ok(bytes(b"Real", out, place)),
        SortNode::Str => Ok(bytes(b"String", out, place)),
        SortNode::BitVec(width) => bit_vec(width, out, place),
        SortNode::Array(n) => array(n, out, place),
        SortNode::Data(ctor, n) => data(text, ctor, n, out, place),
        SortNode::Other => Err(Refusal::Unwritable),
    }
}
